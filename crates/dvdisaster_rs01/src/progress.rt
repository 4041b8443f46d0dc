//! How far the work has come: one line at a terminal, rewritten about twice a second.
use rs01_help::{Asks, bytes_line, sectors_line};
use rs01_watch::{CountingGate, Observer};
use rs01_words::{Command, read_words, word_if_any};
use std::alloc::{AllocError, Global};
use std::cell::Cell;
use std::io::{Stderr, Write};
use std::rc::Rc;
use std::sync::Arc;
use std::time::Instant;

// How many calls are made between two looks at the clock. One that failed took long, and is followed by a look.
const CALLS: u64 = 8;

// How long a line stands, in milliseconds. The first one comes after as long.
const STANDS: u64 = 500;

// Takes the line away.
const CLEAR: &str = "\r\x1b[K";

// A file that the work reads: its name, how often it is read whole, and its length once it is known.
#[derive(Drop)]
struct Source {
    name: String,
    reads: u64,
    len: Cell<u64>,
}

impl Source {
    fn new(name: String, reads: u64) -> Source {
        Source {
            name,
            reads,
            len: Cell::new(0),
        }
    }

    // How many bytes of it are read in all.
    fn total(&self) -> u64 {
        self.len.get().saturating_mul(self.reads)
    }

    fn note(&self, name: &str, len: u64) {
        if self.name.as_str() == name {
            self.len.set(len);
        }
    }
}

/// What is known of the work so far, and where it is told.
#[derive(Drop)]
pub(crate) struct Progress {
    rt: HostRuntime,
    stream: Stderr,
    started: Instant,
    image: Source,
    ecc: Source,
    calls: Cell<u64>,
    bytes: Cell<u64>,
    sectors: Cell<u64>,
    // whether sectors are asked for by turns, and not in rising order
    by_turns: bool,
    last: Cell<u64>,
    place: Cell<u64>,
    given: Cell<u32>,
    failed: Cell<u32>,
    gate: Arc<CountingGate>,
    told_at: Cell<u64>,
    is_shown: Cell<bool>,
    report: Cell<Option<String>>,
}

fn add(to: &Cell<u64>, more: u64) {
    to.set(to.get().saturating_add(more));
}

// One more, up to the last value.
fn count(to: &Cell<u32>) {
    to.set(to.get().saturating_add(1));
}

impl Progress {
    // What is told of drives, and else of files. Nothing where neither has anything to do.
    fn line(&self, millis: u64) -> Option<String> {
        let alloc: Global = self.rt.alloc();
        if self.place.get() > 0 {
            let asks = Asks {
                given: self.given.get(),
                failed: self.failed.get(),
                settled: self.gate.entered(),
            };
            return sectors_line(alloc, self.place.get(), self.sectors.get(), asks, millis).ok();
        }
        let total = self.image.total().saturating_add(self.ecc.total());
        if total == 0 {
            return None;
        }
        bytes_line(alloc, self.bytes.get(), total, millis).ok()
    }

    // A sector was asked for. In rising order all before it are done, and by turns those that were asked for so far.
    fn reach(&self, sector: u64) {
        let place = self.place.get();
        if !self.by_turns {
            self.place.set(place.max(sector));
        } else if self.last.replace(sector) != sector {
            self.place.set(place.saturating_add(1));
        }
    }

    fn put(&self, text: &str) {
        let mut stream = &self.stream;
        let _ = stream.write_all(text.as_bytes());
    }

    // A call was made: the line is rewritten where it has stood long enough.
    fn step(&self, is_slow: bool) {
        add(&self.calls, 1);
        if !is_slow && self.calls.get() % CALLS != 0 {
            return;
        }
        let Ok(passed) = self.started.elapsed(&self.rt) else {
            return;
        };
        let millis = u64::try_from(passed.as_millis()).unwrap_or(u64::MAX);
        if millis < self.told_at.get().saturating_add(STANDS) {
            return;
        }
        self.told_at.set(millis);
        if let Some(line) = self.line(millis) {
            self.is_shown.set(true);
            self.put(line.as_str());
        }
    }

    // Keeps a report, which is put by one call. One for which there is no memory isn't kept.
    fn keep(&self, bytes: &[u8]) {
        if let Ok(text) = str::from_utf8(bytes) {
            self.report
                .set(String::from_str(self.rt.alloc(), text).ok());
        }
    }

    // Takes the line away, where there is one.
    fn clear(&self) {
        if self.is_shown.get() {
            self.is_shown.set(false);
            self.put(CLEAR);
        }
    }
}

// How often the image and its file are read whole.
fn readings(command: &Command) -> (u64, u64) {
    match command {
        Command::Create { .. } => (2, 0),
        Command::Fix { .. } => (1, 2),
        Command::Verify { .. } => (1, 1),
        _ => (0, 0),
    }
}

// Whether a command asks drives by turns.
fn is_by_turns(command: &Command) -> bool {
    match command {
        Command::Read { adaptive, .. } => *adaptive,
        _ => false,
    }
}

// The places of the names of an image and of its file.
fn places(command: &Command) -> (Option<usize>, Option<usize>) {
    match command {
        Command::Create { image, ecc, .. } => (Some(*image), Some(*ecc)),
        Command::Fix { image, ecc, .. } => (Some(*image), Some(*ecc)),
        Command::Verify { image, ecc } => (Some(*image), Some(*ecc)),
        Command::Scan { ecc, .. } => (None, *ecc),
        Command::Read { image, ecc, .. } => (Some(*image), *ecc),
        Command::Demo { .. } => (None, None),
    }
}

// The word at a place, and nothing where there is none.
fn name_at(alloc: Global, words: &[String], place: Option<usize>) -> Result<String, AllocError> {
    let word = match place {
        Some(place) => word_if_any(words, place),
        None => None,
    };
    String::from_str(alloc, word.unwrap_or(""))
}

// What a command is told of.
fn begin(
    rt: HostRuntime,
    stream: Stderr,
    words: &[String],
    gate: Arc<CountingGate>,
) -> Option<Progress> {
    let started = Instant::now(&rt).ok()?;
    let command = read_words(words).ok()?;
    let (image_reads, ecc_reads) = readings(&command);
    let (image, ecc) = places(&command);
    let image = name_at(rt.alloc(), words, image).ok()?;
    let ecc = name_at(rt.alloc(), words, ecc).ok()?;
    Some(Progress {
        rt,
        stream,
        started,
        image: Source::new(image, image_reads),
        ecc: Source::new(ecc, ecc_reads),
        calls: Cell::new(0),
        bytes: Cell::new(0),
        sectors: Cell::new(0),
        by_turns: is_by_turns(&command),
        last: Cell::new(0),
        place: Cell::new(0),
        given: Cell::new(0),
        failed: Cell::new(0),
        gate,
        told_at: Cell::new(0),
        is_shown: Cell::new(false),
        report: Cell::new(None),
    })
}

/// One that tells a progress of calls, or nobody.
#[derive(Drop)]
pub(crate) struct Watcher {
    progress: Option<Rc<Progress>>,
}

impl Watcher {
    /// One that tells nobody.
    pub(crate) fn idle() -> Watcher {
        Watcher { progress: None }
    }

    /// One that tells on this stream how far the work of these words has come. While drives are read,
    /// the workers that pass the gate are those that correct settled layers.
    pub(crate) fn new(
        rt: HostRuntime,
        stream: Stderr,
        words: &[String],
        gate: Arc<CountingGate>,
    ) -> Watcher {
        let alloc = rt.alloc();
        let Some(progress) = begin(rt, stream, words, gate) else {
            return Watcher::idle();
        };
        match Rc::new(alloc, progress) {
            Ok(progress) => Watcher {
                progress: Some(progress),
            },
            Err(_) => Watcher::idle(),
        }
    }

    /// The report that was put last, where it was kept. It is given once.
    pub(crate) fn report(&self) -> Option<String> {
        match &self.progress {
            Some(progress) => progress.report.replace(None),
            None => None,
        }
    }

    /// Another one that tells the same.
    pub(crate) fn share(&self) -> Watcher {
        let Some(progress) = &self.progress else {
            return Watcher::idle();
        };
        Watcher {
            progress: progress.clone().ok(),
        }
    }
}

impl Observer for Watcher {
    fn sized(&self, name: &str, len: u64) {
        if let Some(progress) = &self.progress {
            progress.image.note(name, len);
            progress.ecc.note(name, len);
        }
    }

    fn read(&self, _name: &str, count: u64) {
        if let Some(progress) = &self.progress {
            add(&progress.bytes, count);
            progress.step(false);
        }
    }

    fn wrote(&self, _name: &str, _count: u64) {
        if let Some(progress) = &self.progress {
            progress.step(false);
        }
    }

    fn counted(&self, sectors: u32) {
        if let Some(progress) = &self.progress {
            progress.sectors.set(u64::from(sectors));
        }
    }

    fn asked(&self, sector: u32, is_given: bool) {
        if let Some(progress) = &self.progress {
            progress.reach(u64::from(sector) + 1);
            if is_given {
                count(&progress.given);
            } else {
                count(&progress.failed);
            }
            progress.step(!is_given);
        }
    }

    fn putting(&self, bytes: &[u8]) {
        if let Some(progress) = &self.progress {
            progress.clear();
            progress.keep(bytes);
        }
    }
}
