//! A gate that is watched.
use rs01_outside::Gate;
use std::sync::atomic::{AtomicU64, Ordering};

/// A gate that holds nobody, and counts the inputs that workers took.
///
/// No clause can say what threads did to it: its word may change at any time.
#[derive(Drop)]
pub struct CountingGate {
    entered: AtomicU64,
}

impl CountingGate {
    /// A gate that nobody has entered.
    pub fn new() -> CountingGate {
        CountingGate {
            entered: AtomicU64::new(0),
        }
    }

    /// How many inputs workers have taken so far.
    pub fn entered(&self) -> u64 {
        self.entered.load(Ordering::SeqCst)
    }
}

impl Gate for CountingGate {
    fn enter(&self, _worker: u32, _slot: u32) {
        let _ = self.entered.fetch_add(1, Ordering::SeqCst);
    }
}
