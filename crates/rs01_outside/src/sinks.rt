//! Where output goes.
ghost use Rattle.std.specs.Prelude.{◌≡◌, is_err};
ghost use Rattle.rs01_outside.specs.SinkState.{Puts, SinkState};

use crate::Failed;

/// A place that takes bytes one after the other.
///
/// A sink that tells what it took goes on doing so, and one that doesn't never begins to.
pub trait Sink {
    /// What the sink tells of itself: all bytes that it took, and its count of faults.
    ghost state: { Self → SinkState };

    /// Takes all bytes, or fails with some first ones taken.
    fn put(&mut self, bytes: &[u8]) -> Result<(), Failed>
        ensures { Puts (state self.old) (state self.new) bytes.now (is_err result) };

    /// How often `put` has failed.
    fn faults(&self) -> u64
        ensures { result ≡ (state self.now).faults };
}
