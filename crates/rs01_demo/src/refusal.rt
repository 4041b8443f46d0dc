//! Why nothing was shown.
ghost use Rattle.std.specs.Prelude.{◌≡◌};

use rs01_create::CreateRefusal;
use rs01_ecchead::WalkFault;
use rs01_fix::FixRefusal;
use std::alloc::AllocError;
use thiserror::Error;

/// Why a demonstration wasn't done.
#[derive(Clone, Copy, PartialEq, Eq, Debug, Error)]
pub enum DemoRefusal {
    /// The error correction file of the image wasn't made.
    #[error("the error correction file wasn't made")]
    Create(CreateRefusal),
    /// The damaged image wasn't repaired.
    #[error("the image wasn't repaired")]
    Fix(FixRefusal),
    /// Reading a file failed in another step.
    #[error("reading a file failed")]
    ReadFault,
    /// Writing the image failed in another step.
    #[error("writing a file failed")]
    WriteFault,
    /// Memory ran out in another step.
    #[error("memory ran out")]
    OutOfMemory,
}

impl From<CreateRefusal> for DemoRefusal {
    ghost use Rattle.rs01_demo.specs.declared.refusal.DemoRefusal.TheVariants.{Create};

    ghost from_gives = { λ of why. why ≡ Create of };

    fn from(why: CreateRefusal) -> DemoRefusal {
        DemoRefusal::Create(why)
    }
}

impl From<FixRefusal> for DemoRefusal {
    ghost use Rattle.rs01_demo.specs.declared.refusal.DemoRefusal.TheVariants.{Fix};

    ghost from_gives = { λ of why. why ≡ Fix of };

    fn from(why: FixRefusal) -> DemoRefusal {
        DemoRefusal::Fix(why)
    }
}

impl From<WalkFault> for DemoRefusal {
    ghost use Rattle.rs01_demo.specs.Faults.{walk_refusal};

    ghost from_gives = { λ of why. why ≡ walk_refusal of };

    fn from(why: WalkFault) -> DemoRefusal {
        match why {
            WalkFault::ReadFault => DemoRefusal::ReadFault,
            WalkFault::OutOfMemory => DemoRefusal::OutOfMemory,
        }
    }
}

impl From<AllocError> for DemoRefusal {
    ghost use Rattle.rs01_demo.specs.declared.refusal.DemoRefusal.TheVariants.{OutOfMemory};

    ghost from_gives = { λ _ why. why ≡ OutOfMemory };

    fn from(_lack: AllocError) -> DemoRefusal {
        DemoRefusal::OutOfMemory
    }
}
