//! The program: hands the words, the files of the system and the standard output to `run`, and ends with its status.
//!
//! Words that can't be had end it with status 8, and with 7 where memory ran out.
#![tactic(auto)]

mod advice;
mod causes;
mod progress;
mod standard_error;
mod watching;

use advice::{advise, tell_wordless};
use progress::Watcher;
use rs01_help::Noted;
use rs01_host::{Causes, FileDesk, FileDrive, StdSink};
use rs01_outside::Drive;
use rs01_rack::Rack;
use rs01_top::run;
use rs01_watch::{CountingGate, WatchedDesk, WatchedDrive, WatchedSink};
use rs01_words::drive_names;
use std::alloc::{AllocError, Global};
use std::env;
use std::fs::{self, File};
use std::io::{self, ErrorKind};
use std::process::ExitCode;
use std::rt::Env;
use std::sync::Arc;
use watching::watcher;

const NO_MEMORY: u8 = 7;

const NO_WORDS: u8 = 8;

// A file that takes a number and gives nothing. It is opened to be read, so a write to it fails as one to a closed
// stream.
const NOTHING: &str = "/dev/null";

// The grammar has no more drives in a line.
const MOST_DRIVES: usize = 16;

// Half of the memory that the system's allocator is to keep: a window of 64 layers, with what is made of it, takes up
// to 60 MiB. A block of 32 MiB or more would be no sign to it.
const KEPT: usize = 31 * 1024 * 1024;

// Takes a block and gives it back, without touching it. The allocator of the system takes this as a sign that blocks of
// such a size come again, and keeps what is freed from then on: else it would hand each layer's buffers back to the
// system, and take them anew for the next layer. Where there is no such block, all goes on without.
fn keep_freed_memory(alloc: Global) {
    let block: Result<Vec<u8>, AllocError> = Vec::with_capacity(alloc, KEPT);
    drop(block);
}

// The status of a run whose words can't be had.
fn wordless(error: &io::Error) -> u8 {
    if error.kind() == ErrorKind::OutOfMemory {
        NO_MEMORY
    } else {
        NO_WORDS
    }
}

// The words after the program's own name.
fn words<R: Env + AllocGlobal>(rt: &R) -> Result<Vec<String>, u8> {
    let all = match env::args(rt) {
        Ok(all) => all,
        Err(error) => return Err(wordless(&error)),
    };
    let mut words = Vec::new(rt.alloc());
    for word in all.skip(1) {
        if words.push(word).is_err() {
            return Err(NO_MEMORY);
        }
    }
    Ok(words)
}

// Opens what takes the number of each standard stream that is closed. Else a file of the work would get it, and what is
// told there would be written into that file.
fn hold_streams(rt: &HostRuntime) -> [io::Result<File>; 3] {
    [
        fs::open(rt, NOTHING),
        fs::open(rt, NOTHING),
        fs::open(rt, NOTHING),
    ]
}

// What a run begins with: the files and the causes of their failures, a copy for the output, the names of the drives, and
// a gate for the workers.
#[derive(Drop)]
struct Beginning {
    desk: FileDesk<HostRuntime>,
    causes: Causes,
    output: HostRuntime,
    names: Vec<String>,
    gate: Arc<CountingGate>,
}

fn begin(rt: &HostRuntime, words: &[String]) -> Option<Beginning> {
    let causes = Causes::new(rt.alloc());
    let mut desk = FileDesk::new(rt.clone().ok()?);
    desk.tell(causes.share());
    desk.reserve(words).ok()?;
    Some(Beginning {
        desk,
        causes,
        output: rt.clone().ok()?,
        names: drive_names(rt.alloc(), words).ok()?,
        gate: Arc::new(rt.alloc(), CountingGate::new()).ok()?,
    })
}

// Tells why there are no words, and ends with the status.
fn end_wordless(rt: &HostRuntime, status: u8) -> ExitCode {
    tell_wordless(status == NO_WORDS, rt.stderr());
    ExitCode::from(status)
}

// A drive that tells what it is asked for, and why it fails.
fn drive_of(
    rt: &HostRuntime,
    name: String,
    watcher: &Watcher,
    causes: &Causes,
) -> Option<Box<WatchedDrive<FileDrive<HostRuntime>, Watcher>>> {
    let mut drive = FileDrive::new(rt.clone().ok()?, name);
    drive.tell(causes.share());
    Box::new(rt.alloc(), WatchedDrive::new(drive, watcher.share())).ok()
}

fn main(rt: HostRuntime) -> ExitCode {
    let _held = hold_streams(&rt);
    let words = match words(&rt) {
        Ok(words) => words,
        Err(status) => return end_wordless(&rt, status),
    };
    keep_freed_memory(rt.alloc());
    let Some(
        Beginning {
            desk,
            causes,
            output,
            names,
            gate,
        },
    ) = begin(&rt, &words)
    else {
        return ExitCode::from(NO_MEMORY);
    };
    let watcher = watcher(&rt, &words, &gate);
    let mut drives: Vec<Box<dyn Drive>> = Vec::new(rt.alloc());
    for name in names {
        if drives.len() == MOST_DRIVES {
            break;
        }
        let Some(drive) = drive_of(&rt, name, &watcher, &causes) else {
            return ExitCode::from(NO_MEMORY);
        };
        if drives.push(drive).is_err() {
            return ExitCode::from(NO_MEMORY);
        }
    }
    let Ok(mut rack) = Rack::new(rt.alloc(), drives) else {
        return ExitCode::from(NO_MEMORY);
    };
    let alloc = rt.alloc();
    let mut desk = WatchedDesk::new(desk, watcher.share());
    let mut out = Noted::new(WatchedSink::new(StdSink::new(output), watcher.share()));
    let status = run(&rt, alloc, &words, &mut desk, &mut rack, &mut out, &*gate);
    advise(&rt, &words, status, watcher.report(), out.heads(), &causes);
    ExitCode::from(status)
}
