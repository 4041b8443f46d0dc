//! Why a reading by turns stopped.

ghost use Rattle.std.specs.Prelude.{◌≡◌};

use rs01_ecchead::WalkFault;
use std::alloc::AllocError;

/// Why no further layer is given, though some may be left.
#[derive(Clone, Copy, PartialEq, Eq, Debug)]
pub enum Stop {
    /// Reading a file failed.
    ReadFault,
    /// Writing the image file failed.
    WriteFault,
    /// Memory ran out.
    OutOfMemory,
}

impl From<WalkFault> for Stop {
    ghost use Rattle.rs01_reader.specs.Stops.{stop_of};

    ghost from_gives = { λ of stop. stop ≡ stop_of of };

    fn from(fault: WalkFault) -> Stop {
        match fault {
            WalkFault::ReadFault => Stop::ReadFault,
            WalkFault::OutOfMemory => Stop::OutOfMemory,
        }
    }
}

impl From<AllocError> for Stop {
    ghost use Rattle.rs01_reader.specs.declared.stop.Stop.TheVariants.{OutOfMemory};

    ghost from_gives = { λ _ stop. stop ≡ OutOfMemory };

    fn from(_lack: AllocError) -> Stop {
        Stop::OutOfMemory
    }
}
