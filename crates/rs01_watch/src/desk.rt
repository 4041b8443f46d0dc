//! A desk that is watched.
ghost use Rattle.std.specs.Prelude.{◌≡◌};

use crate::observer::Observer;
use rs01_outside::{Desk, Failed};

/// A desk that hands each call on to another, and tells an observer of those that succeeded.
#[derive(Drop)]
pub struct WatchedDesk<D: Desk + Drop, O: Observer> {
    inner: D,
    observer: O,
}

impl<D: Desk + Drop, O: Observer> WatchedDesk<D, O> {
    /// A desk over this one.
    pub fn new(inner: D, observer: O) -> WatchedDesk<D, O>
        ensures { result.inner ≡ inner }
    {
        WatchedDesk { inner, observer }
    }

    /// The desk behind it.
    pub fn inner(&self) -> &D
        ensures { result.now ≡ self.now.inner }
    {
        &self.inner
    }
}

impl<D: Desk + Drop, O: Observer> Desk for WatchedDesk<D, O> {
    ghost state = { λ desk. D.state desk.inner };

    fn size(&mut self, name: &str) -> Result<Option<u64>, Failed> {
        let outcome = self.inner.size(name);
        if let Ok(Some(len)) = &outcome {
            self.observer.sized(name, *len);
        }
        outcome
    }

    fn read_at(&mut self, name: &str, at: u64, into: &mut [u8]) -> Result<usize, Failed> {
        let outcome = self.inner.read_at(name, at, into);
        if let Ok(count) = &outcome {
            self.observer.read(name, *count as u64);
        }
        outcome
    }

    fn write_at(&mut self, name: &str, at: u64, bytes: &[u8]) -> Result<(), Failed> {
        let outcome = self.inner.write_at(name, at, bytes);
        if outcome.is_ok() {
            self.observer.wrote(name, bytes.len() as u64);
        }
        outcome
    }

    fn make(&mut self, name: &str) -> Result<(), Failed> {
        self.inner.make(name)
    }

    fn cut(&mut self, name: &str, len: u64) -> Result<(), Failed> {
        self.inner.cut(name, len)
    }

    fn read_faults(&self) -> u64 {
        self.inner.read_faults()
    }

    fn write_faults(&self) -> u64 {
        self.inner.write_faults()
    }
}
