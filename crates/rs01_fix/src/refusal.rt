//! Why an image wasn't repaired.
ghost use Rattle.std.specs.Prelude.{◌≡◌};

use rs01_ecchead::{EccRefusal, HeadRefusal, WalkFault, Which};
use std::alloc::AllocError;
use thiserror::Error;

/// Why an image wasn't repaired. The first four are told in the order of the reading: the error correction file that
/// isn't there, one that is shorter than a header, its header, another length than the header asks for, another digest
/// than the recorded one, and then the image that isn't there. Nothing has changed then.
#[derive(Clone, Copy, PartialEq, Eq, Debug, Error)]
pub enum FixRefusal {
    /// This file isn't there.
    #[error("a file isn't there")]
    NoFile(Which),
    /// The header of the error correction file is refused.
    #[error("the header is refused")]
    Head(HeadRefusal),
    /// The error correction file has another length than is expected, both in bytes.
    #[error("the file has {have} bytes, {want} are expected")]
    Size { have: u64, want: u64 },
    /// The bytes after the header have another MD5 than the recorded one.
    #[error("the bytes after the header have another digest")]
    Body { have: [u8; 16], want: [u8; 16] },
    /// Reading a file failed.
    #[error("reading a file failed")]
    ReadFault,
    /// Writing the image failed.
    #[error("writing a file failed")]
    WriteFault,
    /// Memory ran out.
    #[error("memory ran out")]
    OutOfMemory,
}

impl From<EccRefusal> for FixRefusal {
    ghost use Rattle.rs01_fix.specs.Answer.{refusal_of};

    ghost from_gives = { λ of why. why ≡ refusal_of of };

    fn from(why: EccRefusal) -> FixRefusal {
        match why {
            EccRefusal::NoFile => FixRefusal::NoFile(Which::Ecc),
            EccRefusal::Head(why) => FixRefusal::Head(why),
            EccRefusal::Size { have, want } => FixRefusal::Size { have, want },
            EccRefusal::Body { have, want } => FixRefusal::Body { have, want },
            EccRefusal::ReadFault => FixRefusal::ReadFault,
            EccRefusal::OutOfMemory => FixRefusal::OutOfMemory,
        }
    }
}

impl From<WalkFault> for FixRefusal {
    ghost use Rattle.rs01_ecchead.specs.Walked.{walk_refusal};
    ghost use Rattle.rs01_fix.specs.Answer.{refusal_of};

    ghost from_gives = { λ of why. why ≡ refusal_of (walk_refusal of) };

    fn from(why: WalkFault) -> FixRefusal {
        FixRefusal::from(EccRefusal::from(why))
    }
}

impl From<AllocError> for FixRefusal {
    ghost use Rattle.rs01_fix.specs.declared.refusal.FixRefusal.TheVariants.{OutOfMemory};

    ghost from_gives = { λ _ why. why ≡ OutOfMemory };

    fn from(_lack: AllocError) -> FixRefusal {
        FixRefusal::OutOfMemory
    }
}
