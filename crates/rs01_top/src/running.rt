//! Doing what the words ask for.
ghost use Rattle.std.specs.Prelude.{◌≡◌, ◌<◌, IfSome, Ok, length};
ghost use Rattle.std.specs.Option.{option_map};
ghost use Rattle.rs01_words.specs.Command.{IsWithin, NamesDiffer};
ghost use Rattle.rs01_words.specs.Line.{texts, word_at};
ghost use Rattle.rs01_report.specs.Faults.{number_of};
ghost use Rattle.rs01_top.specs.Asked.{work_for, work_of};
ghost use Rattle.rs01_linear.specs.Racks.{seen_by};
ghost use Rattle.rs01_top.specs.Outside.{world};
ghost use Rattle.rs01_top.specs.Run.{IsRun};

use crate::commands::adaptive::{run_adaptive, run_adaptive_one};
use crate::commands::create::{run_create, run_create_one};
use crate::commands::demo::{run_demo, run_demo_one};
use crate::commands::fix::{run_fix, run_fix_one};
use crate::commands::read::run_read;
use crate::commands::scan::run_scan;
use crate::commands::verify::run_verify;
use crate::ending::fail;
use crate::faults::word_fault;
use rs01_outside::{Desk, Drive, Gate, Sink};
use rs01_rack::Rack;
use rs01_report::Status;
use rs01_words::{Command, read_words, word_at as at, word_if_any};
use std::alloc::Global;
use std::sync::Wait;
use std::thread::Threads;

// The word at a place, where there is one.
fn word_if(words: &[String], place: Option<usize>) -> Option<&str>
    requires { IfSome place (λ place. place < length words.now) }
    ensures { option_map (λ word. word.now) result ≡ option_map (word_at (texts words.now)) place }
{
    match place {
        Some(place) => word_if_any(words, place),
        None => None,
    }
}

// Does a command on the caller's thread.
fn command_one<D: Desk, S: Sink>(
    alloc: Global,
    words: &[String],
    asked: Command,
    desk: &mut D,
    rack: &mut Rack,
    out: &mut S,
) -> Status
    requires within { IsWithin (length words.now) asked }
    requires names { NamesDiffer (texts words.now) asked }
    ensures run { let drives = seen_by ⟦<dyn Drive as Drive>⟧ in
        IsRun (work_of (texts words.now) asked)
        (world (D.state desk.old) (drives rack.old) (S.state out.old))
        (world (D.state desk.new) (drives rack.new) (S.state out.new)) (number_of result) }
{
    match asked {
        Command::Create {
            image,
            ecc,
            parity,
            ..
        } => run_create_one(alloc, desk, at(words, image), at(words, ecc), parity, out),
        Command::Fix {
            image,
            ecc,
            cut,
            ..
        } => run_fix_one(alloc, desk, at(words, image), at(words, ecc), cut, out),
        Command::Verify { image, ecc } => {
            run_verify(alloc, desk, at(words, image), at(words, ecc), out)
        }
        Command::Scan { ecc, .. } => run_scan(alloc, desk, word_if(words, ecc), rack, out),
        Command::Read {
            image,
            ecc,
            adaptive,
            jump,
            tries,
            ..
        } => {
            let ecc = word_if(words, ecc);
            if adaptive {
                return run_adaptive_one(alloc, desk, at(words, image), ecc, tries, rack, out);
            }
            run_read(alloc, desk, at(words, image), ecc, jump, tries, rack, out)
        }
        Command::Demo {
            number,
            sectors,
            parity,
            lost,
        } => run_demo_one(alloc, desk, number, sectors, parity, lost, out),
    }
}

// Does a command that may use the drives, by several workers where it is one that they work on.
fn command_on_drives<R: Threads + Wait + Sync, D: Desk, S: Sink, G: Gate>(
    rt: &R,
    alloc: Global,
    words: &[String],
    asked: Command,
    desk: &mut D,
    rack: &mut Rack,
    out: &mut S,
    gate: &G,
) -> Status
    requires within { IsWithin (length words.now) asked }
    requires names { NamesDiffer (texts words.now) asked }
    ensures run { let drives = seen_by ⟦<dyn Drive as Drive>⟧ in
        IsRun (work_of (texts words.now) asked)
        (world (D.state desk.old) (drives rack.old) (S.state out.old))
        (world (D.state desk.new) (drives rack.new) (S.state out.new)) (number_of result) }
{
    match asked {
        Command::Read {
            image,
            ecc,
            adaptive,
            tries,
            workers,
            ..
        } => {
            if adaptive {
                let (image, ecc) = (at(words, image), word_if(words, ecc));
                return run_adaptive(rt, alloc, desk, image, ecc, tries, rack, workers, gate, out);
            }
            command_one(alloc, words, asked, desk, rack, out)
        }
        other => command_one(alloc, words, other, desk, rack, out),
    }
}

// Does a command by several workers, where it is one that they work on.
fn command<R: Threads + Wait + Sync, D: Desk, S: Sink, G: Gate>(
    rt: &R,
    alloc: Global,
    words: &[String],
    asked: Command,
    desk: &mut D,
    rack: &mut Rack,
    out: &mut S,
    gate: &G,
) -> Status
    requires within { IsWithin (length words.now) asked }
    requires names { NamesDiffer (texts words.now) asked }
    ensures run { let drives = seen_by ⟦<dyn Drive as Drive>⟧ in
        IsRun (work_of (texts words.now) asked)
        (world (D.state desk.old) (drives rack.old) (S.state out.old))
        (world (D.state desk.new) (drives rack.new) (S.state out.new)) (number_of result) }
{
    match asked {
        Command::Create {
            image,
            ecc,
            parity,
            workers,
        } => {
            let (image, ecc) = (at(words, image), at(words, ecc));
            run_create(rt, alloc, desk, image, ecc, parity, workers, gate, out)
        }
        Command::Fix {
            image,
            ecc,
            workers,
            cut,
        } => {
            let (image, ecc) = (at(words, image), at(words, ecc));
            run_fix(rt, alloc, desk, image, ecc, cut, workers, gate, out)
        }
        Command::Demo {
            number,
            sectors,
            parity,
            lost,
        } => run_demo(rt, alloc, desk, number, sectors, parity, lost, gate, out),
        other => command_on_drives(rt, alloc, words, other, desk, rack, out, gate),
    }
}

// Reads the words and does what they ask for, on the caller's thread.
fn answer_one<D: Desk, S: Sink>(
    alloc: Global,
    words: &[String],
    desk: &mut D,
    rack: &mut Rack,
    out: &mut S,
) -> Status
    ensures run { let drives = seen_by ⟦<dyn Drive as Drive>⟧ in
        IsRun (work_for (texts words.now))
        (world (D.state desk.old) (drives rack.old) (S.state out.old))
        (world (D.state desk.new) (drives rack.new) (S.state out.new)) (number_of result) }
{
    match read_words(words) {
        Ok(asked) => command_one(alloc, words, asked, desk, rack, out),
        Err(refused) => fail(alloc, &word_fault(refused), out),
    }
}

// The same by several workers.
fn answer<R: Threads + Wait + Sync, D: Desk, S: Sink, G: Gate>(
    rt: &R,
    alloc: Global,
    words: &[String],
    desk: &mut D,
    rack: &mut Rack,
    out: &mut S,
    gate: &G,
) -> Status
    ensures run { let drives = seen_by ⟦<dyn Drive as Drive>⟧ in
        IsRun (work_for (texts words.now))
        (world (D.state desk.old) (drives rack.old) (S.state out.old))
        (world (D.state desk.new) (drives rack.new) (S.state out.new)) (number_of result) }
{
    let asked = match read_words(words) {
        Ok(asked) => asked,
        Err(refused) => return fail(alloc, &word_fault(refused), out),
    };
    command(rt, alloc, words, asked, desk, rack, out, gate)
}

/// Does what the words ask for, on the caller's thread: reads them, does the command on the files of `desk` and the drives
/// of `rack`, puts its report or the line of what went wrong into `out`, and gives the status.
///
/// Its clause holds of every run. Where desk and drives tell, files, views, bytes put and status are those that words,
/// files and drives determine, and the definition says what may stand after a fault. On any desk, drives and output each
/// other status has its cause in a count of faults, no fault is passed over, and drives that the words don't name stay as
/// they are. Wherever the desk tells, whatever the drives give, a run that is refused changes no file, and what is good in
/// the image file of `read` stays.
///
/// | Status | Where |
/// |---|---|
/// | 0 | the command was done; `fix`, `read` or `demo` left no sector lost and found no layer strange; `verify` found no sector missing or altered, and the image's digest to match; `scan` found no sector unreadable or altered |
/// | 1 | `fix`, `verify`, `scan`, `read` or `demo` was done, and it is otherwise |
/// | 2 | the words aren't in the grammar |
/// | 3 | the image isn't there, is empty, has too many sectors, or has a sector that is marked as missing; or the error correction file isn't there or is damaged |
/// | 4 | a file could not be read or written |
/// | 5 | there is no drive, one doesn't tell its number of sectors, two differ in it, or a medium without a file has none or too many |
/// | 6 | the output could not be put |
/// | 7 | memory ran out |
pub fn run_one<D: Desk, S: Sink>(
    alloc: Global,
    words: &[String],
    desk: &mut D,
    rack: &mut Rack,
    out: &mut S,
) -> u8
    ensures run { let drives = seen_by ⟦<dyn Drive as Drive>⟧ in
        IsRun (work_for (texts words.now))
        (world (D.state desk.old) (drives rack.old) (S.state out.old))
        (world (D.state desk.new) (drives rack.new) (S.state out.new)) result }
{
    answer_one(alloc, words, desk, rack, out).number()
}

/// The same by as many workers as the words ask for, of which the caller is one, and `demo` by two: what holds of a run
/// is what holds of one of `run_one`.
///
/// `create`, `fix` and `read` with `--adaptive` share the layers of the image among the workers. What isn't shared,
/// `verify`, `scan` and `read` without `--adaptive`, and every command with one worker, is done as `run_one` does it. The
/// caller alone uses desk, drives and output. A worker enters the gate before it works on a layer. Nothing is said of
/// whether a run by several workers returns, since they wait for each other.
pub fn run<R: Threads + Wait + Sync, D: Desk, S: Sink, G: Gate>(
    rt: &R,
    alloc: Global,
    words: &[String],
    desk: &mut D,
    rack: &mut Rack,
    out: &mut S,
    gate: &G,
) -> u8
    ensures run { let drives = seen_by ⟦<dyn Drive as Drive>⟧ in
        IsRun (work_for (texts words.now))
        (world (D.state desk.old) (drives rack.old) (S.state out.old))
        (world (D.state desk.new) (drives rack.new) (S.state out.new)) result }
{
    answer(rt, alloc, words, desk, rack, out, gate).number()
}
