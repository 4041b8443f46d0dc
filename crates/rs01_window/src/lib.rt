//! A window of layers, as a machine: a poster puts in inputs, workers draw tickets, take the inputs
//! of their tickets, and give back what they made of them. It has no threads. What threads do to a
//! window that they share is told by the events of this machine.
#![tactic(auto)]

mod events;
pub mod laws;
mod replays;
mod status;
mod window;

pub use events::{CoreGiven, Event, PostRefusal, PostRefused, Seen, StepRefused, TakeSeen};
pub use replays::replay;
pub use status::Status;
pub use window::Window;

#[cfg(test)]
mod tests;
