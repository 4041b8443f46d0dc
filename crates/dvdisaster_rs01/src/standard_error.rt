//! The standard error.
use rs01_outside::{Failed, Sink};
use std::io::{IsTerminal, Stderr, Write};

/// The standard error of the system as a sink, which doesn't tell what it took.
#[derive(Drop)]
pub(crate) struct ErrSink {
    stream: Stderr,
    faults: u64,
}

impl ErrSink {
    pub(crate) fn new(stream: Stderr) -> ErrSink {
        ErrSink { stream, faults: 0 }
    }

    /// Whether a person sees it.
    pub(crate) fn is_seen(&self) -> bool {
        self.stream.is_terminal()
    }
}

impl Sink for ErrSink {
    ghost use Rattle.std.specs.Prelude.{false, []};

    ghost state = { λ sink. record { tells = false; taken = []; faults = sink.faults } };

    fn put(&mut self, bytes: &[u8]) -> Result<(), Failed> {
        if self.stream.write_all(bytes).is_ok() {
            return Ok(());
        }
        self.faults = self.faults.saturating_add(1);
        Err(Failed)
    }

    fn faults(&self) -> u64 {
        self.faults
    }
}
