//! Objects in memory that meet the traits of the outside and tell all they hold.
//!
//! Calls of them can be marked to fail, and a drive's answers can be scripted, so that each fault
//! of an outside can be tried in turn. A desk with a worked image and its error correction file is
//! what many tests begin with. A gate and a drive tell whether two workers overlapped, and a task
//! lacks memory once.
#![tactic(auto)]

mod marks;
mod meeting;
mod memory_desk;
mod memory_sink;
mod numbering;
mod once_refusing;
mod sample;
mod script_drive;
mod scripts;
mod stored;

pub use meeting::{MeetDrive, MeetGate};
pub use memory_desk::MemoryDesk;
pub use memory_sink::MemorySink;
pub use numbering::{Numbering, numbered_layer};
pub use once_refusing::OnceRefusing;
pub use sample::{sample_desk, sample_ecc};
pub use script_drive::ScriptDrive;
pub use scripts::Script;
