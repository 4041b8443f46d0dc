//! A sink that is watched.
ghost use Rattle.std.specs.Prelude.{◌≡◌};

use crate::observer::Observer;
use rs01_outside::{Failed, Sink};

/// A sink that tells an observer of each call, and then hands it on to another.
#[derive(Drop)]
pub struct WatchedSink<S: Sink + Drop, O: Observer> {
    inner: S,
    observer: O,
}

impl<S: Sink + Drop, O: Observer> WatchedSink<S, O> {
    /// A sink over this one.
    pub fn new(inner: S, observer: O) -> WatchedSink<S, O>
        ensures { result.inner ≡ inner }
    {
        WatchedSink { inner, observer }
    }
}

impl<S: Sink + Drop, O: Observer> Sink for WatchedSink<S, O> {
    ghost state = { λ sink. S.state sink.inner };

    fn put(&mut self, bytes: &[u8]) -> Result<(), Failed> {
        self.observer.putting(bytes);
        self.inner.put(bytes)
    }

    fn faults(&self) -> u64 {
        self.inner.faults()
    }
}
