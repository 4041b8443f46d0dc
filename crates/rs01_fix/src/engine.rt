//! Working the layers of an image window by window, on one thread and by several.
ghost use Rattle.std.specs.Prelude.{◌<◌};
ghost use Rattle.rs01_fix.specs.Fixing.{AreWorked};
ghost use Rattle.rs01_fix.specs.Windows.{CanWork};

use crate::course::Course;
use crate::refusal::FixRefusal;
use crate::windows::Repairing;
use rs01_outside::{Desk, Gate};
use rs01_repair::{Beside, Found, InTurn};
use rs01_workers::{work_all, work_all_one};
use std::alloc::Global;
use std::sync::Wait;
use std::thread::Threads;

// Repairs the layers window by window, on the caller's thread.
pub fn work_windows_one<D: Desk>(
    alloc: Global,
    desk: &mut D,
    image: &str,
    ecc: &str,
    found: &Found,
    course: &mut Course,
) -> Result<(), FixRefusal>
    requires work { CanWork found.now image.now ecc.now (D.state desk.old) course.old }
    ensures { AreWorked found.now image.now ecc.now (D.state desk.old) course.old
        (D.state desk.new) course.new result }
{
    let mut repairing = Repairing {
        desk,
        image,
        ecc,
        found,
        judging: &InTurn,
        course,
    };
    match work_all_one(alloc, &found.task, &mut repairing) {
        Ok(()) => Ok(()),
        Err(why) => Err(why.stop_or(FixRefusal::OutOfMemory)),
    }
}

// The same by so many workers, and as many threads judge the layers that were read together.
pub fn work_windows<R: Threads + Wait + Sync, D: Desk, G: Gate>(
    rt: &R,
    alloc: Global,
    desk: &mut D,
    image: &str,
    ecc: &str,
    found: &Found,
    course: &mut Course,
    workers: u32,
    gate: &G,
) -> Result<(), FixRefusal>
    requires some { 0 < workers }
    requires work { CanWork found.now image.now ecc.now (D.state desk.old) course.old }
    ensures { AreWorked found.now image.now ecc.now (D.state desk.old) course.old
        (D.state desk.new) course.new result }
{
    let judging = Beside {
        rt,
        threads: workers,
    };
    let mut repairing = Repairing {
        desk,
        image,
        ecc,
        found,
        judging: &judging,
        course,
    };
    match work_all(rt, alloc, &found.task, &mut repairing, workers, gate) {
        Ok(()) => Ok(()),
        Err(why) => Err(why.stop_or(FixRefusal::OutOfMemory)),
    }
}
