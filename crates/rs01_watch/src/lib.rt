//! A desk, a drive and a sink that hand each call on, and tell an observer of it; a gate that counts.
//!
//! What they tell of themselves is what the desk, drive or sink behind them tells.
#![tactic(auto)]

mod desk;
mod drive;
mod gate;
mod observer;
mod sink;

pub use desk::WatchedDesk;
pub use drive::WatchedDrive;
pub use gate::CountingGate;
pub use observer::Observer;
pub use sink::WatchedSink;

#[cfg(test)]
mod tests;
