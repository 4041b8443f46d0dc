//! The command `verify`.
ghost use Rattle.std.specs.Prelude.{◌≡◌};
ghost use Rattle.rs01_report.specs.Faults.{number_of};
ghost use Rattle.rs01_top.specs.Run.{RunsAlone};
ghost use Rattle.rs01_top.specs.Verify.{checked_status, is_match, verify_work};

use crate::ending::{ended, fail};
use crate::faults::verify_fault;
use rs01_outside::{Desk, Sink};
use rs01_report::{Mark, Status, VerifyReport, put_verify};
use rs01_verify::verify;
use std::alloc::Global;

// Whether a digest is the recorded one.
fn is_match(mark: Mark) -> bool
    ensures { result ≡ is_match mark }
{
    match mark {
        Mark::Matches => true,
        Mark::Differs => false,
        Mark::Absent => false,
    }
}

// The status of a check: done where no sector is missing or altered and the image has the
// recorded digest.
fn checked_status(report: &VerifyReport) -> Status
    ensures { number_of result ≡ checked_status report.now }
{
    let missing = report.missing.len();
    let altered = report.altered.len();
    if missing == 0 && (altered == 0 && is_match(report.image)) {
        Status::Done
    } else {
        Status::Damaged
    }
}

/// Checks an image against its error correction file, and tells what was found.
pub fn run_verify<D: Desk, S: Sink>(
    alloc: Global,
    desk: &mut D,
    image: &str,
    ecc: &str,
    out: &mut S,
) -> Status
    ensures run { RunsAlone (verify_work image.now ecc.now) (D.state desk.old) (D.state desk.new)
        (S.state out.old) (S.state out.new) (number_of result) }
{
    match verify(alloc, desk, image, ecc) {
        Ok(report) => ended(
            put_verify(alloc, &report, image, out),
            checked_status(&report),
        ),
        Err(why) => fail(alloc, &verify_fault(why), out),
    }
}
