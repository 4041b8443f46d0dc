//! A drive that is watched.
ghost use Rattle.std.specs.Prelude.{◌≡◌};

use crate::observer::Observer;
use rs01_outside::{Drive, Failed};

/// A drive that hands each call on to another, and tells an observer of it.
#[derive(Drop)]
pub struct WatchedDrive<D: Drive, O: Observer> {
    inner: D,
    observer: O,
}

impl<D: Drive, O: Observer> WatchedDrive<D, O> {
    /// A drive over this one.
    pub fn new(inner: D, observer: O) -> WatchedDrive<D, O>
        ensures { result.inner ≡ inner }
    {
        WatchedDrive { inner, observer }
    }
}

impl<D: Drive, O: Observer> Drive for WatchedDrive<D, O> {
    ghost state = { λ drive. D.state drive.inner };

    fn sectors(&mut self) -> Result<u32, Failed> {
        let outcome = self.inner.sectors();
        if let Ok(number) = &outcome {
            self.observer.counted(*number);
        }
        outcome
    }

    fn read(&mut self, sector: u32, into: &mut [u8; 2048]) -> Result<(), Failed> {
        let outcome = self.inner.read(sector, into);
        self.observer.asked(sector, outcome.is_ok());
        outcome
    }

    fn asked_at(&self, i: u64) -> Option<u32> {
        self.inner.asked_at(i)
    }

    fn faults(&self) -> u64 {
        self.inner.faults()
    }
}
