//! The command `fix`.
ghost use Rattle.std.specs.Prelude.{◌≡◌, ◌≢◌, ◌≤◌, Bool, List, ℕ};
ghost use Rattle.rs01_fix.specs.Fixing.{IsFix};
ghost use Rattle.rs01_outside.specs.DeskState.{DeskState};
ghost use Rattle.rs01_report.specs.Faults.{number_of};
ghost use Rattle.rs01_top.specs.Fix.{fix_work, fixed_status};
ghost use Rattle.rs01_top.specs.Run.{RunsAlone};

use crate::ending::{ended, fail};
use crate::faults::fix_fault;
use rs01_fix::{FixRefusal, fix, fix_one};
use rs01_outside::{Desk, Gate, Sink};
use rs01_report::{FixReport, Status, put_fix};
use std::alloc::Global;
use std::sync::Wait;
use std::thread::Threads;

// The status of a repair: done where no sector is lost and no layer is strange.
fn fixed_status(report: &FixReport) -> Status
    ensures { number_of result ≡ fixed_status report.now }
{
    let lost = report.lost.len();
    let strange = report.strange.len();
    if lost == 0 && strange == 0 {
        Status::Done
    } else {
        Status::Damaged
    }
}

// Tells what came of a repair.
fn tell_fixed<S: Sink>(
    alloc: Global,
    fixed: Result<FixReport, FixRefusal>,
    image: &str,
    out: &mut S,
) -> Status
    ensures { (ecc : List ℕ) (cut : Bool) (old new : DeskState)
        → IsFix image.now ecc cut old new fixed
        → RunsAlone (fix_work image.now ecc cut) old new
        (S.state out.old) (S.state out.new) (number_of result) }
{
    match fixed {
        Ok(report) => ended(put_fix(alloc, &report, image, out), fixed_status(&report)),
        Err(why) => fail(alloc, &fix_fault(why), out),
    }
}

/// Repairs an image by its error correction file on the caller's thread, and tells what was restored and what is lost.
pub fn run_fix_one<D: Desk, S: Sink>(
    alloc: Global,
    desk: &mut D,
    image: &str,
    ecc: &str,
    cut: bool,
    out: &mut S,
) -> Status
    requires { image.now ≢ ecc.now }
    ensures run { RunsAlone (fix_work image.now ecc.now cut) (D.state desk.old) (D.state desk.new)
        (S.state out.old) (S.state out.new) (number_of result) }
{
    let fixed = fix_one(alloc, desk, image, ecc, cut);
    tell_fixed(alloc, fixed, image, out)
}

/// The same by so many workers. One worker does it alone.
pub fn run_fix<R: Threads + Wait + Sync, D: Desk, S: Sink, G: Gate>(
    rt: &R,
    alloc: Global,
    desk: &mut D,
    image: &str,
    ecc: &str,
    cut: bool,
    workers: u32,
    gate: &G,
    out: &mut S,
) -> Status
    requires differ { image.now ≢ ecc.now }
    requires workers { (1 ≤ workers) × (workers ≤ 32) }
    ensures run { RunsAlone (fix_work image.now ecc.now cut) (D.state desk.old) (D.state desk.new)
        (S.state out.old) (S.state out.new) (number_of result) }
{
    if workers == 1 {
        return run_fix_one(alloc, desk, image, ecc, cut, out);
    }
    let fixed = fix(rt, alloc, desk, image, ecc, cut, workers, gate);
    tell_fixed(alloc, fixed, image, out)
}
