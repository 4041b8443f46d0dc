//! Windows of inputs that are counted.
ghost use Rattle.std.specs.Prelude.{◌≡◌, ◌+◌, ◌-◌, ◌<◌, ◌≤◌, []};
ghost use Rattle.std.proofs.Common.{rules};
ghost use Rattle.std.specs.List.{range_with_len};

use rs01_fakes::{MeetGate, Numbering, OnceRefusing, numbered_layer};
use rs01_layers::{LayerInput, LayerOut};
use rs01_outside::{Gate, OpenGate};
use rs01_workers::*;
use std::alloc::Global;
use std::sync::Wait;
use std::test::Fail;
use std::thread::Threads;

#[derive(Clone, Copy, PartialEq, Eq, Debug)]
enum Why {
    Asked,
    OutOfMemory,
}

// Gives layers in rising order up to a number, and stops before a layer where it is to.
#[derive(Drop)]
struct Counting {
    first: u32,
    next: u32,
    to: u32,
    stop_at: u32,
    windows: u32,
    ghost order: { first ≤ next },
    ghost within: { next ≤ to },
}

impl Filler for Counting {
    type Stop = Why;

    ghost gave = { λ f. range_with_len f.first (f.next - f.first) };

    ghost fits = { λ f input. Unit {0} };

    ghost leads = { λ f g. (f.first ≤ g.first) × (g.to ≡ f.to) };

    ghost going = { λ f. Unit {0} };

    ghost done = { λ f. f.next ≡ f.to };

    ghost halted = { λ f stop. Unit {0} };

    ghost leads_same = { λ f. Prim.search rules };

    ghost leads_on = { λ f g h a b. Prim.search rules };

    fn next(&mut self, alloc: Global) -> Result<Option<LayerInput>, Why> {
        if self.next == self.to {
            return Ok(None);
        }
        if self.next == self.stop_at {
            return Err(Why::Asked);
        }
        match numbered_layer(alloc, self.next) {
            Ok(input) => {
                self.next += 1;
                Ok(Some(input))
            }
            Err(_) => Err(Why::OutOfMemory),
        }
    }
}

impl Windows<Numbering> for Counting {
    ghost left = { λ f. f.to - f.first };

    ghost finished = { λ f. f.next ≡ f.to };

    ghost fit = { λ f input fits. tt };

    ghost no_more = { λ f g leads. Prim.search rules };

    fn settle(&mut self, _alloc: Global, _results: Results) -> Result<(), Why> {
        self.first = self.next;
        self.windows = self.windows.wrapping_add(1);
        Ok(())
    }
}

fn layers_to(to: u32, stop_at: u32) -> Counting
    ensures { (result.first ≡ 0) × (result.next ≡ 0) }
{
    Counting {
        first: 0,
        next: 0,
        to,
        stop_at,
        windows: 0,
    }
}

// How many inputs a window has, and whether it is the last one. None where an input or its value is another than that of
// the layer with its number.
fn told(results: &Results) -> Option<(u32, bool)> {
    for i in 0..results.len() {
        if results.input(i).layer != i {
            return None;
        }
        if !matches!(results.out(i), LayerOut::Beyond(layer) if *layer == i) {
            return None;
        }
    }
    Some((results.len(), results.over()))
}

// The first window of so many layers, by the caller alone.
fn first_window_one(alloc: Global, to: u32) -> Option<(u32, bool)> {
    let mut layers = layers_to(to, u32::MAX);
    match work_one(alloc, &Numbering, &mut layers) {
        Ok(results) => told(&results),
        Err(_) => None,
    }
}

// The first window of so many layers, by so many workers. One of them lacks memory once, at one layer.
fn first_window<R: Threads + Wait + Sync, G: Gate>(
    rt: &R,
    alloc: Global,
    gate: &G,
    to: u32,
    workers: u32,
) -> Option<(u32, bool)>
    requires { 0 < workers }
{
    let task = OnceRefusing::new(Numbering, to / 2);
    let mut layers = layers_to(to, u32::MAX);
    match work_window(rt, alloc, &task, &mut layers, workers, gate) {
        Ok(results) => told(&results),
        Err(_) => None,
    }
}

#[test]
fn windows_have_up_to_64_inputs(rt: HostRuntime) -> Result<(), Fail> {
    let alloc = rt.alloc();
    assert_eq!(rt; first_window_one(alloc, 0), Some((0, true)));
    assert_eq!(rt; first_window_one(alloc, 1), Some((1, true)));
    assert_eq!(rt; first_window_one(alloc, 63), Some((63, true)));
    assert_eq!(rt; first_window_one(alloc, 64), Some((64, false)));
    assert_eq!(rt; first_window_one(alloc, 65), Some((64, false)));
    Ok(())
}

#[test]
fn workers_give_what_the_caller_alone_gives(rt: HostRuntime) -> Result<(), Fail> {
    let alloc = rt.alloc();
    let gate = &OpenGate;
    assert_eq!(rt; first_window(&rt, alloc, gate, 0, 1), Some((0, true)));
    assert_eq!(rt; first_window(&rt, alloc, gate, 65, 1), Some((64, false)));
    assert_eq!(rt; first_window(&rt, alloc, gate, 1, 2), Some((1, true)));
    assert_eq!(rt; first_window(&rt, alloc, gate, 63, 2), Some((63, true)));
    assert_eq!(rt; first_window(&rt, alloc, gate, 0, 3), Some((0, true)));
    assert_eq!(rt; first_window(&rt, alloc, gate, 64, 3), Some((64, false)));
    Ok(())
}

// The first one that takes an input goes on once the other one took one too.
#[test]
fn the_caller_and_a_worker_meet(rt: HostRuntime) -> Result<(), Fail> {
    let alloc = rt.alloc();
    let gate = MeetGate::new();
    assert_eq!(rt; first_window(&rt, alloc, &gate, 2, 2), Some((2, true)));
    assert!(rt; gate.met());
    Ok(())
}

// How many windows were taken, and whether the filler stopped as it was asked to.
fn ended(layers: &Counting, end: Result<(), WindowStop<Why>>) -> (u32, bool) {
    let stopped = match end {
        Err(WindowStop::Stopped(why)) => why == Why::Asked,
        _ => false,
    };
    (layers.windows, stopped)
}

fn windows_one(alloc: Global, to: u32, stop_at: u32) -> (u32, bool) {
    let mut layers = layers_to(to, stop_at);
    let end = work_all_one(alloc, &Numbering, &mut layers);
    ended(&layers, end)
}

fn windows_of<R: Threads + Wait + Sync>(
    rt: &R,
    alloc: Global,
    to: u32,
    stop_at: u32,
) -> (u32, bool) {
    let mut layers = layers_to(to, stop_at);
    let end = work_all(rt, alloc, &Numbering, &mut layers, 2, &OpenGate);
    ended(&layers, end)
}

#[test]
fn windows_follow_until_no_input_is_left(rt: HostRuntime) -> Result<(), Fail> {
    let alloc = rt.alloc();
    assert_eq!(rt; windows_one(alloc, 0, 9), (1, false));
    assert_eq!(rt; windows_one(alloc, 15, 99), (1, false));
    assert_eq!(rt; windows_one(alloc, 16, 99), (2, false));
    assert_eq!(rt; windows_one(alloc, 65, 99), (5, false));
    assert_eq!(rt; windows_one(alloc, 129, 200), (9, false));
    assert_eq!(rt; windows_one(alloc, 129, 100), (6, true));
    Ok(())
}

#[test]
fn workers_of_each_window_end_with_it(rt: HostRuntime) -> Result<(), Fail> {
    let alloc = rt.alloc();
    assert_eq!(rt; windows_of(&rt, alloc, 65, 99), (2, false));
    assert_eq!(rt; windows_of(&rt, alloc, 70, 66), (1, true));
    Ok(())
}
