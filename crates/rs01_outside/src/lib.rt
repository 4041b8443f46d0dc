//! What lies outside the codec: named files, drives, a place for output, and a gate for workers.
//!
//! Each is a trait with one ghost `state`: whether it tells its meaning, the meaning, and its counts of
//! faults. Clauses on content hold where it tells. Clauses on faults hold
//! always: a call answers `Failed` only where a count rose in that call, or stands at the last value
//! of its `u64`, a call that succeeds raises no count, and no count ever falls.
#![tactic(auto)]

mod desks;
mod drives;
mod gates;
mod sinks;

pub use desks::Desk;
pub use drives::Drive;
pub use gates::{Gate, OpenGate};
pub use sinks::Sink;

/// A call on something outside that failed. The count of faults of what was called has risen, or
/// stands at the last value of its `u64`.
#[derive(Clone, Copy, PartialEq, Eq, Debug)]
pub struct Failed;
