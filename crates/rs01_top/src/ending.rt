//! How a run ends: with its last text, and a status by whether that was put.
ghost use Rattle.std.specs.Prelude.{◌≡◌};
ghost use Rattle.rs01_report.specs.Faults.{fault_line, number_of, status_of};
ghost use Rattle.rs01_top.specs.Run.{Ends, ended};

use rs01_outside::Sink;
use rs01_report::{Fault, PutRefusal, Status, put_fault};
use std::alloc::Global;

/// The status once the last text was put, or not: the wanted one where it was put whole, that of the output where this
/// failed, and that of memory where it ran out. After want of memory the status stays, whatever happens to its line.
pub fn ended(put: Result<(), PutRefusal>, wanted: Status) -> Status
    ensures { number_of result ≡ ended put (number_of wanted) }
{
    match (put, wanted) {
        (Ok(()), _) => wanted,
        (Err(PutRefusal::SinkFault), Status::Memory) => Status::Memory,
        (Err(PutRefusal::SinkFault), _) => Status::Output,
        (Err(PutRefusal::OutOfMemory), _) => Status::Memory,
    }
}

/// Ends a run by the line of a fault.
pub fn fail<S: Sink>(alloc: Global, fault: &Fault, out: &mut S) -> Status
    ensures { Ends (fault_line fault.now) (status_of fault.now) (S.state out.old) (S.state out.new)
        (number_of result) }
{
    ended(put_fault(alloc, fault, out), fault.status())
}
