//! The real outside: files, drives and the standard output of the system.
//!
//! These tell nothing of contents. What is proved of them is that they are safe whatever the system
//! does, and that a call fails exactly where its count of faults rose by one or stood at its last
//! value: each error that reaches a count is counted there, so a call that went on after it couldn't
//! succeed.
#![tactic(auto)]

mod causes;
mod fault_count;
mod file_desk;
mod file_drive;
mod limit;
mod naming;
mod opened;
mod place;
mod reading;
mod standard_sink;
mod system;
mod writing;

pub use causes::{Cause, Causes, Reason};
pub use file_desk::FileDesk;
pub use file_drive::FileDrive;
pub use standard_sink::StdSink;
