//! Adding the parity of all layers window by window, on one thread and by several.
ghost use Rattle.std.specs.Prelude.{◌<◌};
ghost use Rattle.rs01_create.specs.Creating.{AreAdded, CanAdd};

use crate::course::{Course, Faults};
use crate::maker::Maker;
use crate::plan::Plan;
use crate::refusal::CreateRefusal;
use rs01_encode::EncodeTask;
use rs01_outside::{Desk, Gate};
use rs01_workers::{work_all, work_all_one};
use std::alloc::Global;
use std::sync::Wait;
use std::thread::Threads;

// Adds the parity of all layers to a file that was begun, window by window.
pub fn add_layers_one<D: Desk>(
    alloc: Global,
    desk: &mut D,
    image: &str,
    ecc: &str,
    plan: &Plan,
    task: &EncodeTask,
    course: &mut Course,
) -> Result<(), CreateRefusal>
    requires work { CanAdd image.now ecc.now plan.now (D.state desk.old) course.old }
    ensures { AreAdded image.now ecc.now plan.now
        (D.state desk.old) course.old (D.state desk.new) course.new result }
{
    let kept = Faults {
        reads: desk.read_faults(),
        writes: desk.write_faults(),
    };
    let mut maker = Maker {
        desk,
        image,
        ecc,
        plan: *plan,
        kept,
        course,
    };
    match work_all_one(alloc, task, &mut maker) {
        Ok(()) => Ok(()),
        Err(why) => Err(why.stop_or(CreateRefusal::OutOfMemory)),
    }
}

// The same by so many workers.
pub fn add_layers<R: Threads + Wait + Sync, D: Desk, G: Gate>(
    rt: &R,
    alloc: Global,
    desk: &mut D,
    image: &str,
    ecc: &str,
    plan: &Plan,
    task: &EncodeTask,
    course: &mut Course,
    workers: u32,
    gate: &G,
) -> Result<(), CreateRefusal>
    requires some { 0 < workers }
    requires work { CanAdd image.now ecc.now plan.now (D.state desk.old) course.old }
    ensures { AreAdded image.now ecc.now plan.now
        (D.state desk.old) course.old (D.state desk.new) course.new result }
{
    let kept = Faults {
        reads: desk.read_faults(),
        writes: desk.write_faults(),
    };
    let mut maker = Maker {
        desk,
        image,
        ecc,
        plan: *plan,
        kept,
        course,
    };
    match work_all(rt, alloc, task, &mut maker, workers, gate) {
        Ok(()) => Ok(()),
        Err(why) => Err(why.stop_or(CreateRefusal::OutOfMemory)),
    }
}
