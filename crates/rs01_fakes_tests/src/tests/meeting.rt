//! Two workers at a gate, a drive that waits for one, and a task that refuses once.
use rs01_fakes::{MeetDrive, MeetGate, Numbering, OnceRefusing, ScriptDrive, numbered_layer};
use rs01_layers::{LayerInput, LayerTask};
use rs01_outside::{Drive, Gate};
use std::alloc::Global;
use std::sync::Arc;
use std::test::Fail;
use std::thread;

fn enter<G: Gate>(gate: &G, worker: u32) {
    gate.enter(worker, 0);
}

fn reads<D: Drive>(drive: &mut D, sector: u32) -> bool {
    let mut block = [1u8; 2048];
    drive.read(sector, &mut block).is_ok() && block[0] == 0
}

#[test]
fn two_workers_meet(rt: HostRuntime) -> Result<(), Fail> {
    let gate = Arc::new(rt.alloc(), MeetGate::new())?;
    assert!(rt; !gate.met() && !gate.waited());
    thread::join(&rt, || enter(&*gate, 0), || enter(&*gate, 1));
    assert!(rt; gate.met() && !gate.waited());
    let inner = ScriptDrive::new(rt.alloc(), 3)?;
    let mut drive = MeetDrive::new(inner, Arc::try_clone(&gate)?, 1);
    assert!(rt; drive.sectors() == Ok(3));
    assert!(rt; reads(&mut drive, 2) && !gate.waited());
    assert!(rt; reads(&mut drive, 1) && gate.waited());
    assert!(rt; !reads(&mut drive, 3) && drive.faults() == 1);
    assert!(rt; drive.asked_at(1) == Some(1) && drive.asked_at(3).is_none());
    Ok(())
}

// Each wait goes on to its limit.
#[test]
fn one_worker_meets_nobody(rt: HostRuntime) -> Result<(), Fail> {
    let gate = Arc::new(rt.alloc(), MeetGate::new())?;
    enter(&*gate, 0);
    enter(&*gate, 0);
    assert!(rt; !gate.met());
    let inner = ScriptDrive::new(rt.alloc(), 3)?;
    let mut drive = MeetDrive::new(inner, Arc::try_clone(&gate)?, 1);
    assert!(rt; reads(&mut drive, 1) && !gate.waited());
    Ok(())
}

// Whether the task works on a layer with this number.
fn works<T: LayerTask>(task: &T, alloc: Global, input: &LayerInput) -> bool
    requires { T.fit input.now }
{
    task.work(alloc, input).is_ok()
}

#[test]
fn a_task_refuses_once(rt: HostRuntime) -> Result<(), Fail> {
    let alloc = rt.alloc();
    let task = OnceRefusing::new(Numbering, 7);
    for (layer, wanted) in [(6u32, true), (7, false), (7, true), (6, true), (7, true)] {
        let input = numbered_layer(alloc, layer)?;
        assert!(rt; works(&task, alloc, &input) == wanted);
    }
    Ok(())
}
