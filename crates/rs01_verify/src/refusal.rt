//! Why an image wasn't checked.
ghost use Rattle.std.specs.Prelude.{◌≡◌};

use rs01_ecchead::{EccRefusal, HeadRefusal, WalkFault, Which};
use rs01_outside::Failed;
use thiserror::Error;

/// Why an image wasn't checked. The first four are told in the order of the reading: the error correction file that
/// isn't there, one that is shorter than a header, its header, another length than the header asks for, another digest
/// than the recorded one, and then the image that isn't there.
#[derive(Clone, Copy, PartialEq, Eq, Debug, Error)]
pub enum VerifyRefusal {
    /// This file isn't there.
    #[error("a file isn't there")]
    NoFile(Which),
    /// The header of the error correction file is refused.
    #[error("the header is refused")]
    Head(HeadRefusal),
    /// The error correction file has another length than is expected, both in bytes.
    #[error("the file has {have} bytes, {want} are expected")]
    Size { have: u64, want: u64 },
    /// The bytes after the header have another MD5 than the recorded one.
    #[error("the bytes after the header have another digest")]
    Body { have: [u8; 16], want: [u8; 16] },
    /// Reading a file failed.
    #[error("reading a file failed")]
    ReadFault,
    /// Memory ran out.
    #[error("memory ran out")]
    OutOfMemory,
}

impl From<EccRefusal> for VerifyRefusal {
    ghost use Rattle.rs01_verify.specs.Refusal.{refusal_of};

    ghost from_gives = { λ of why. why ≡ refusal_of of };

    fn from(why: EccRefusal) -> VerifyRefusal {
        match why {
            EccRefusal::NoFile => VerifyRefusal::NoFile(Which::Ecc),
            EccRefusal::Head(why) => VerifyRefusal::Head(why),
            EccRefusal::Size { have, want } => VerifyRefusal::Size { have, want },
            EccRefusal::Body { have, want } => VerifyRefusal::Body { have, want },
            EccRefusal::ReadFault => VerifyRefusal::ReadFault,
            EccRefusal::OutOfMemory => VerifyRefusal::OutOfMemory,
        }
    }
}

impl From<WalkFault> for VerifyRefusal {
    ghost use Rattle.rs01_ecchead.specs.Walked.{walk_refusal};
    ghost use Rattle.rs01_verify.specs.Refusal.{refusal_of};

    ghost from_gives = { λ of why. why ≡ refusal_of (walk_refusal of) };

    fn from(why: WalkFault) -> VerifyRefusal {
        VerifyRefusal::from(EccRefusal::from(why))
    }
}

impl From<Failed> for VerifyRefusal {
    ghost use Rattle.rs01_verify.specs.declared.refusal.VerifyRefusal.TheVariants.{ReadFault};

    ghost from_gives = { λ _ why. why ≡ ReadFault };

    fn from(_failed: Failed) -> VerifyRefusal {
        VerifyRefusal::ReadFault
    }
}
