//! A gate that workers pass.

/// A gate that a worker passes after it took an input, and before it works on it. Tests use it to
/// hold workers until they overlap.
pub trait Gate: Sync {
    /// The worker with this number enters with the input of this slot.
    fn enter(&self, worker: u32, slot: u32);
}

/// The gate that holds nobody.
#[derive(Clone, Copy, PartialEq, Eq, Debug, Default)]
pub struct OpenGate;

impl Gate for OpenGate {
    fn enter(&self, _worker: u32, _slot: u32) {}
}
