//! Standard output as a sink.
ghost use Rattle.std.specs.Prelude.{◌≡◌};
ghost use Rattle.rs01_host.specs.Untold.{untold_sink};

use crate::causes::Reason;
use crate::fault_count::FaultCount;
use crate::limit::{longest_file, output_place};
use crate::writing::put_all;
use rs01_outside::{Failed, Sink};
use std::io;
use std::rt::Files;

/// Standard output, which doesn't tell what it took. A write that takes nothing is a fault, and so
/// is one that would make a file longer than this process may.
#[derive(Drop)]
pub struct StdSink<R: Print + Files + Drop> {
    print: R,
    limit: u64,
    faults: FaultCount,
}

// Whether so much more output fits, where it goes to a plain file whose length is limited.
fn fits<R: Files>(files: &R, limit: u64, more: u64) -> bool {
    if limit == u64::MAX {
        return true;
    }
    match output_place(files) {
        Some(place) => place.saturating_add(more) <= limit,
        None => true,
    }
}

impl<R: Print + Files + Drop> StdSink<R> {
    /// The output that this runtime value reaches. It takes no memory.
    pub fn new(print: R) -> StdSink<R>
        ensures { ⟦<StdSink<R> as Sink>⟧.state result ≡ untold_sink 0 }
    {
        let limit = longest_file(&print);
        StdSink {
            print,
            limit,
            faults: FaultCount::new(),
        }
    }
}

impl<R: Print + Files + Drop> Sink for StdSink<R> {
    ghost state = { λ sink. untold_sink sink.faults.count };

    fn put(&mut self, bytes: &[u8]) -> Result<(), Failed> {
        if !fits(&self.print, self.limit, bytes.len() as u64) {
            return self.faults.refuse(Reason::TooLong);
        }
        self.faults
            .settle(put_all(&mut io::writer(&self.print), bytes))
    }

    fn faults(&self) -> u64 {
        self.faults.count
    }
}
