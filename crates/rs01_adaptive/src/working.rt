//! Reading all windows of a medium, on one thread and by several.
ghost use Rattle.std.specs.Prelude.{◌<◌};
ghost use Rattle.rs01_linear.specs.Racks.{OnRack, seen_by};
ghost use Rattle.rs01_adaptive.specs.Sights.{MayGoOn, sight_of};
ghost use Rattle.rs01_adaptive.specs.Windows.{ReadsWindows};

use crate::engine::Engine;
use crate::noting::Noted;
use rs01_erase::CorrectTask;
use rs01_outside::{Desk, Drive, Gate};
use rs01_rack::Rack;
use rs01_reader::{Course, Setup, Stop};
use rs01_workers::{WindowStop, work_all, work_all_one};
use std::alloc::Global;
use std::marker::PhantomData;
use std::sync::Wait;
use std::thread::Threads;

// Reads all windows of a medium, whose layers are corrected by this task, on the caller's thread.
pub fn work_windows_one<D: Desk>(
    alloc: Global,
    task: &CorrectTask,
    rack: &mut Rack,
    desk: &mut D,
    course: &mut Course,
    noted: &mut Noted,
    setup: &Setup,
) -> Result<(), WindowStop<Stop>>
    requires { MayGoOn (sight_of setup.now course.old (seen_by ⟦<dyn Drive as Drive>⟧ rack.old)
        (D.state desk.old) noted.old 0) }
    ensures { OnRack ⟦<dyn Drive as Drive>⟧ (ReadsWindows setup.now course.old course.new
        noted.old noted.new (D.state desk.old) (D.state desk.new) result) rack.old rack.new }
{
    let mut engine = Engine::<D, Box<dyn Drive>> {
        rack,
        desk,
        course,
        noted,
        setup,
        window: 0,
        kind: PhantomData,
    };
    work_all_one(alloc, task, &mut engine)
}

// The same by so many workers.
pub fn work_windows<R: Threads + Wait + Sync, D: Desk, G: Gate>(
    rt: &R,
    alloc: Global,
    task: &CorrectTask,
    rack: &mut Rack,
    desk: &mut D,
    course: &mut Course,
    noted: &mut Noted,
    setup: &Setup,
    workers: u32,
    gate: &G,
) -> Result<(), WindowStop<Stop>>
    requires some { 0 < workers }
    requires going { MayGoOn (sight_of setup.now course.old
        (seen_by ⟦<dyn Drive as Drive>⟧ rack.old) (D.state desk.old) noted.old 0) }
    ensures { OnRack ⟦<dyn Drive as Drive>⟧ (ReadsWindows setup.now course.old course.new
        noted.old noted.new (D.state desk.old) (D.state desk.new) result) rack.old rack.new }
{
    let mut engine = Engine::<D, Box<dyn Drive>> {
        rack,
        desk,
        course,
        noted,
        setup,
        window: 0,
        kind: PhantomData,
    };
    work_all(rt, alloc, task, &mut engine, workers, gate)
}
