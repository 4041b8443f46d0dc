//! The command `demo`.
ghost use Rattle.std.specs.Prelude.{◌≡◌, if◌then◌else◌};
ghost use Rattle.rs01_demo.specs.Plan.{IsInRange, ecc_name, image_name, plan_of};
ghost use Rattle.rs01_demo.specs.Showing.{IsDemo};
ghost use Rattle.rs01_demo.specs.declared.plan.Plan.{Plan};
ghost use Rattle.rs01_outside.specs.DeskState.{DeskState};
ghost use Rattle.rs01_report.specs.Faults.{number_of};
ghost use Rattle.rs01_top.specs.Demo.{demo_work, work_of_plan};
ghost use Rattle.rs01_top.specs.Run.{RunsAlone};

use crate::ending::{ended, fail};
use crate::faults::demo_fault;
use rs01_demo::{DemoRefusal, Demonstration, demo, demo_one};
use rs01_outside::{Desk, Gate, Sink};
use rs01_report::{Status, put_demo};
use std::alloc::Global;
use std::sync::Wait;
use std::thread::Threads;

// The status of a demonstration: done where no sector is lost and no layer is strange.
fn shown_status(whole: bool) -> Status
    ensures { number_of result ≡ (if whole then 0 else 1) }
{
    if whole { Status::Done } else { Status::Damaged }
}

// Tells what came of a demonstration.
fn tell_shown<S: Sink>(
    alloc: Global,
    shown: Result<Demonstration, DemoRefusal>,
    out: &mut S,
) -> Status
    ensures { (plan : Plan) (old new : DeskState) → IsDemo plan image_name ecc_name old new shown
        → RunsAlone (work_of_plan plan) old new
        (S.state out.old) (S.state out.new) (number_of result) }
{
    match shown {
        Ok(shown) => ended(
            put_demo(alloc, &shown.report, out),
            shown_status(shown.whole),
        ),
        Err(why) => fail(alloc, &demo_fault(why), out),
    }
}

/// Makes an image, protects it, marks its first sectors as missing and repairs it, all on the caller's thread, and tells
/// what came of it.
pub fn run_demo_one<D: Desk, S: Sink>(
    alloc: Global,
    desk: &mut D,
    number: u64,
    sectors: u32,
    parity: u32,
    lost: u32,
    out: &mut S,
) -> Status
    requires { IsInRange (plan_of number sectors parity lost) }
    ensures run { RunsAlone (demo_work number sectors parity lost)
        (D.state desk.old) (D.state desk.new)
        (S.state out.old) (S.state out.new) (number_of result) }
{
    let shown = demo_one(alloc, desk, number, sectors, parity, lost);
    tell_shown(alloc, shown, out)
}

/// The same by two workers.
pub fn run_demo<R: Threads + Wait + Sync, D: Desk, S: Sink, G: Gate>(
    rt: &R,
    alloc: Global,
    desk: &mut D,
    number: u64,
    sectors: u32,
    parity: u32,
    lost: u32,
    gate: &G,
    out: &mut S,
) -> Status
    requires { IsInRange (plan_of number sectors parity lost) }
    ensures run { RunsAlone (demo_work number sectors parity lost)
        (D.state desk.old) (D.state desk.new)
        (S.state out.old) (S.state out.new) (number_of result) }
{
    let shown = demo(rt, alloc, desk, number, sectors, parity, lost, gate);
    tell_shown(alloc, shown, out)
}
