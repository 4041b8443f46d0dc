//! The command `read`, in rising order.
ghost use Rattle.std.specs.Prelude.{◌≡◌, ◌≢◌, ◌≤◌};
ghost use Rattle.std.specs.Option.{ForSome, option_map};
ghost use Rattle.rs01_report.specs.Faults.{number_of};
ghost use Rattle.rs01_linear.specs.Racks.{seen_by};
ghost use Rattle.rs01_top.specs.Outside.{world};
ghost use Rattle.rs01_top.specs.Read.{read_status, read_work};
ghost use Rattle.rs01_top.specs.Run.{IsRun};

use crate::ending::{ended, fail};
use crate::faults::read_fault;
use rs01_linear::read_linear;
use rs01_outside::{Desk, Drive, Sink};
use rs01_rack::Rack;
use rs01_report::{ReadReport, Status, put_read};
use std::alloc::Global;

// The status of a reading: done where no sector is lost and no layer is strange.
pub fn read_status(report: &ReadReport) -> Status
    ensures { number_of result ≡ read_status report.now }
{
    let lost = report.lost.len();
    let strange = report.strange.len();
    if lost == 0 && strange == 0 {
        Status::Done
    } else {
        Status::Damaged
    }
}

/// Reads the medium in the drives into an image, in rising order, and tells what it gave and what is lost.
pub fn run_read<D: Desk, S: Sink>(
    alloc: Global,
    desk: &mut D,
    image: &str,
    ecc: Option<&str>,
    jump: u32,
    tries: u32,
    rack: &mut Rack,
    out: &mut S,
) -> Status
    requires names { ForSome ecc (λ name. image.now ≢ name.now) }
    requires jump { (1 ≤ jump) × (jump ≤ 1048576) }
    requires tries { (1 ≤ tries) × (tries ≤ 16) }
    ensures run { let drives = seen_by ⟦<dyn Drive as Drive>⟧ in
        IsRun (read_work image.now (option_map (λ name. name.now) ecc.entry) jump tries)
        (world (D.state desk.old) (drives rack.old) (S.state out.old))
        (world (D.state desk.new) (drives rack.new) (S.state out.new)) (number_of result) }
{
    match read_linear(alloc, rack, desk, image, ecc, jump, tries) {
        Ok(report) => ended(put_read(alloc, &report, image, out), read_status(&report)),
        Err(why) => fail(alloc, &read_fault(why), out),
    }
}
