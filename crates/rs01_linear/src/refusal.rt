//! Why a medium wasn't read.

ghost use Rattle.std.specs.Prelude.{◌≡◌};

use rs01_ecchead::{EccRefusal, WalkFault};
use rs01_outside::Failed;
use rs01_rack::RackRefusal;
use std::alloc::AllocError;
use thiserror::Error;

/// Why a medium wasn't read or scanned. The first three are told in this order, before the image is touched.
#[derive(Clone, Copy, PartialEq, Eq, Debug, Error)]
pub enum ReadRefusal {
    /// The error correction file is refused. A fault of reading it and want of memory are told as such.
    #[error("the error correction file is refused")]
    Ecc(EccRefusal),
    /// The drives give no number of sectors.
    #[error("the drives give no number of sectors")]
    Rack(RackRefusal),
    /// No error correction file is given, and the drives have no sector or more than 16,777,215.
    #[error("the drives have {0} sectors")]
    DriveSize(u32),
    /// Reading a file failed.
    #[error("reading a file failed")]
    ReadFault,
    /// Writing a file failed.
    #[error("writing a file failed")]
    WriteFault,
    /// Memory ran out.
    #[error("memory ran out")]
    OutOfMemory,
}

impl From<EccRefusal> for ReadRefusal {
    ghost use Rattle.rs01_linear.specs.Refusal.{refusal_of};

    ghost from_gives = { λ of why. why ≡ refusal_of of };

    fn from(why: EccRefusal) -> ReadRefusal {
        match why {
            EccRefusal::ReadFault => ReadRefusal::ReadFault,
            EccRefusal::OutOfMemory => ReadRefusal::OutOfMemory,
            EccRefusal::NoFile => ReadRefusal::Ecc(EccRefusal::NoFile),
            EccRefusal::Head(why) => ReadRefusal::Ecc(EccRefusal::Head(why)),
            EccRefusal::Size { have, want } => ReadRefusal::Ecc(EccRefusal::Size { have, want }),
            EccRefusal::Body { have, want } => ReadRefusal::Ecc(EccRefusal::Body { have, want }),
        }
    }
}

impl From<RackRefusal> for ReadRefusal {
    ghost use Rattle.rs01_linear.specs.declared.refusal.ReadRefusal.TheVariants.{Rack};

    ghost from_gives = { λ of why. why ≡ Rack of };

    fn from(why: RackRefusal) -> ReadRefusal {
        ReadRefusal::Rack(why)
    }
}

impl From<WalkFault> for ReadRefusal {
    ghost use Rattle.rs01_linear.specs.Refusal.{walk_refusal};

    ghost from_gives = { λ of why. why ≡ walk_refusal of };

    fn from(why: WalkFault) -> ReadRefusal {
        match why {
            WalkFault::ReadFault => ReadRefusal::ReadFault,
            WalkFault::OutOfMemory => ReadRefusal::OutOfMemory,
        }
    }
}

impl From<Failed> for ReadRefusal {
    ghost use Rattle.rs01_linear.specs.declared.refusal.ReadRefusal.TheVariants.{ReadFault};

    ghost from_gives = { λ _ why. why ≡ ReadFault };

    fn from(_failed: Failed) -> ReadRefusal {
        ReadRefusal::ReadFault
    }
}

impl From<AllocError> for ReadRefusal {
    ghost use Rattle.rs01_linear.specs.declared.refusal.ReadRefusal.TheVariants.{OutOfMemory};

    ghost from_gives = { λ _ why. why ≡ OutOfMemory };

    fn from(_lack: AllocError) -> ReadRefusal {
        ReadRefusal::OutOfMemory
    }
}
