//! Why no error correction file was made.
ghost use Rattle.std.specs.Prelude.{◌≡◌};

use rs01_ecchead::WalkFault;
use std::alloc::AllocError;
use thiserror::Error;

/// Why no error correction file was made. The first four are told in this order, before anything is written.
#[derive(Clone, Copy, PartialEq, Eq, Debug, Error)]
pub enum CreateRefusal {
    /// The image isn't there.
    #[error("there is no image")]
    NoImage,
    /// The image has no bytes.
    #[error("the image is empty")]
    EmptyImage,
    /// The image has this many sectors, which are more than 16,777,215.
    #[error("the image has {0} sectors")]
    TooManySectors(u64),
    /// This sector, the lowest such, is the marker that stands for a missing one.
    #[error("sector {0} is marked as missing")]
    Marker(u32),
    /// Reading a file failed.
    #[error("reading a file failed")]
    ReadFault,
    /// Writing a file failed.
    #[error("writing a file failed")]
    WriteFault,
    /// Memory ran out.
    #[error("memory ran out")]
    OutOfMemory,
}

impl From<WalkFault> for CreateRefusal {
    ghost use Rattle.rs01_create.specs.Looking.{walk_refusal};

    ghost from_gives = { λ of why. why ≡ walk_refusal of };

    fn from(why: WalkFault) -> CreateRefusal {
        match why {
            WalkFault::ReadFault => CreateRefusal::ReadFault,
            WalkFault::OutOfMemory => CreateRefusal::OutOfMemory,
        }
    }
}

impl From<AllocError> for CreateRefusal {
    ghost use Rattle.rs01_create.specs.declared.refusal.CreateRefusal.TheVariants.{OutOfMemory};

    ghost from_gives = { λ _ why. why ≡ OutOfMemory };

    fn from(_lack: AllocError) -> CreateRefusal {
        CreateRefusal::OutOfMemory
    }
}
