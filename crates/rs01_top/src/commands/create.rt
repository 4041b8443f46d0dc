//! The command `create`.
ghost use Rattle.std.specs.Prelude.{◌≢◌, ◌≤◌, List, ℕ};
ghost use Rattle.rs01_create.specs.Creating.{IsCreate};
ghost use Rattle.rs01_outside.specs.DeskState.{DeskState};
ghost use Rattle.rs01_report.specs.Faults.{number_of};
ghost use Rattle.rs01_top.specs.Create.{create_work};
ghost use Rattle.rs01_top.specs.Run.{RunsAlone};

use crate::ending::{ended, fail};
use crate::faults::create_fault;
use rs01_create::{CreateRefusal, create, create_one};
use rs01_outside::{Desk, Gate, Sink};
use rs01_report::{CreateReport, Status, put_create};
use std::alloc::Global;
use std::sync::Wait;
use std::thread::Threads;

// Tells what came of making a file.
fn tell_created<S: Sink>(
    alloc: Global,
    made: Result<CreateReport, CreateRefusal>,
    ecc: &str,
    out: &mut S,
) -> Status
    ensures { (image : List ℕ) (parity : ℕ) (old new : DeskState)
        → IsCreate image ecc.now parity old new made
        → RunsAlone (create_work image ecc.now parity) old new
        (S.state out.old) (S.state out.new) (number_of result) }
{
    match made {
        Ok(report) => ended(put_create(alloc, &report, ecc, out), Status::Done),
        Err(why) => fail(alloc, &create_fault(why), out),
    }
}

/// Makes the error correction file of an image on the caller's thread, and tells it.
pub fn run_create_one<D: Desk, S: Sink>(
    alloc: Global,
    desk: &mut D,
    image: &str,
    ecc: &str,
    parity: u32,
    out: &mut S,
) -> Status
    requires differ { image.now ≢ ecc.now }
    requires parity { (8 ≤ parity) × (parity ≤ 100) }
    ensures run { RunsAlone (create_work image.now ecc.now parity) (D.state desk.old)
        (D.state desk.new) (S.state out.old) (S.state out.new) (number_of result) }
{
    let made = create_one(alloc, desk, image, ecc, parity);
    tell_created(alloc, made, ecc, out)
}

/// The same by so many workers. One worker does it alone.
pub fn run_create<R: Threads + Wait + Sync, D: Desk, S: Sink, G: Gate>(
    rt: &R,
    alloc: Global,
    desk: &mut D,
    image: &str,
    ecc: &str,
    parity: u32,
    workers: u32,
    gate: &G,
    out: &mut S,
) -> Status
    requires differ { image.now ≢ ecc.now }
    requires parity { (8 ≤ parity) × (parity ≤ 100) }
    requires workers { (1 ≤ workers) × (workers ≤ 32) }
    ensures run { RunsAlone (create_work image.now ecc.now parity) (D.state desk.old)
        (D.state desk.new) (S.state out.old) (S.state out.new) (number_of result) }
{
    if workers == 1 {
        return run_create_one(alloc, desk, image, ecc, parity, out);
    }
    let made = create(rt, alloc, desk, image, ecc, parity, workers, gate);
    tell_created(alloc, made, ecc, out)
}
