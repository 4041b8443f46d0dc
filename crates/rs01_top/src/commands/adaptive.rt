//! The command `read`, by turns.
ghost use Rattle.std.specs.Prelude.{◌≡◌, ◌≢◌, ◌≤◌};
ghost use Rattle.std.specs.Option.{ForSome, option_map};
ghost use Rattle.rs01_report.specs.Faults.{number_of};
ghost use Rattle.rs01_linear.specs.Racks.{seen_by};
ghost use Rattle.rs01_top.specs.Outside.{world};
ghost use Rattle.rs01_top.specs.Run.{IsRun};
ghost use Rattle.rs01_top.specs.Turned.{TellsTurned, adaptive_work};

use crate::commands::read::read_status;
use crate::ending::{ended, fail};
use crate::faults::read_fault;
use rs01_adaptive::{read_adaptive, read_adaptive_one};
use rs01_linear::ReadRefusal;
use rs01_outside::{Desk, Drive, Gate, Sink};
use rs01_rack::Rack;
use rs01_report::{ReadReport, Status, put_read};
use std::alloc::Global;
use std::sync::Wait;
use std::thread::Threads;

// Tells what came of a reading.
fn tell_turned<S: Sink>(
    alloc: Global,
    read: Result<ReadReport, ReadRefusal>,
    image: &str,
    out: &mut S,
) -> Status
    ensures { TellsTurned image.now read (S.state out.old) (S.state out.new) (number_of result) }
{
    match read {
        Ok(report) => ended(put_read(alloc, &report, image, out), read_status(&report)),
        Err(why) => fail(alloc, &read_fault(why), out),
    }
}

/// Reads the medium in the drives into an image, by turns, on the caller's thread, and tells what it gave, what was
/// restored and what is lost.
pub fn run_adaptive_one<D: Desk, S: Sink>(
    alloc: Global,
    desk: &mut D,
    image: &str,
    ecc: Option<&str>,
    tries: u32,
    rack: &mut Rack,
    out: &mut S,
) -> Status
    requires names { ForSome ecc (λ name. image.now ≢ name.now) }
    requires tries { (1 ≤ tries) × (tries ≤ 16) }
    ensures run { let drives = seen_by ⟦<dyn Drive as Drive>⟧ in
        IsRun (adaptive_work image.now (option_map (λ name. name.now) ecc.entry) tries)
        (world (D.state desk.old) (drives rack.old) (S.state out.old))
        (world (D.state desk.new) (drives rack.new) (S.state out.new)) (number_of result) }
{
    let read = read_adaptive_one(alloc, rack, desk, image, ecc, tries);
    tell_turned(alloc, read, image, out)
}

/// The same by so many workers. One worker does it alone.
pub fn run_adaptive<R: Threads + Wait + Sync, D: Desk, S: Sink, G: Gate>(
    rt: &R,
    alloc: Global,
    desk: &mut D,
    image: &str,
    ecc: Option<&str>,
    tries: u32,
    rack: &mut Rack,
    workers: u32,
    gate: &G,
    out: &mut S,
) -> Status
    requires names { ForSome ecc (λ name. image.now ≢ name.now) }
    requires tries { (1 ≤ tries) × (tries ≤ 16) }
    requires workers { (1 ≤ workers) × (workers ≤ 32) }
    ensures run { let drives = seen_by ⟦<dyn Drive as Drive>⟧ in
        IsRun (adaptive_work image.now (option_map (λ name. name.now) ecc.entry) tries)
        (world (D.state desk.old) (drives rack.old) (S.state out.old))
        (world (D.state desk.new) (drives rack.new) (S.state out.new)) (number_of result) }
{
    if workers == 1 {
        return run_adaptive_one(alloc, desk, image, ecc, tries, rack, out);
    }
    let read = read_adaptive(rt, alloc, rack, desk, image, ecc, tries, workers, gate);
    tell_turned(alloc, read, image, out)
}
