//! The command `scan`.
ghost use Rattle.std.specs.Prelude.{◌≡◌};
ghost use Rattle.std.specs.Option.{option_map};
ghost use Rattle.rs01_report.specs.Faults.{number_of};
ghost use Rattle.rs01_linear.specs.Racks.{seen_by};
ghost use Rattle.rs01_top.specs.Outside.{world};
ghost use Rattle.rs01_top.specs.Run.{IsRun};
ghost use Rattle.rs01_top.specs.Scan.{scan_work, scanned_status};

use crate::ending::{ended, fail};
use crate::faults::read_fault;
use rs01_outside::{Desk, Drive, Sink};
use rs01_rack::Rack;
use rs01_report::{ScanReport, Status, put_scan};
use rs01_verify::scan;
use std::alloc::Global;

// The status of a scan: done where no sector is unreadable or altered.
fn scanned_status(report: &ScanReport) -> Status
    ensures { number_of result ≡ scanned_status report.now }
{
    let unreadable = report.unreadable.len();
    let altered = report.altered.len();
    if unreadable == 0 && altered == 0 {
        Status::Done
    } else {
        Status::Damaged
    }
}

/// Asks the drives for each sector of their medium, and tells what it still gives.
pub fn run_scan<D: Desk, S: Sink>(
    alloc: Global,
    desk: &mut D,
    ecc: Option<&str>,
    rack: &mut Rack,
    out: &mut S,
) -> Status
    ensures run { let drives = seen_by ⟦<dyn Drive as Drive>⟧ in
        IsRun (scan_work (option_map (λ name. name.now) ecc.entry))
        (world (D.state desk.old) (drives rack.old) (S.state out.old))
        (world (D.state desk.new) (drives rack.new) (S.state out.new)) (number_of result) }
{
    match scan(alloc, desk, ecc, rack) {
        Ok(report) => ended(put_scan(alloc, &report, out), scanned_status(&report)),
        Err(why) => fail(alloc, &read_fault(why), out),
    }
}
