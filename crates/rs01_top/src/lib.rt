//! The whole program but for its edge: from the words, the files and the place for output to the status.
#![tactic(auto)]

mod commands;
mod ending;
mod faults;
pub mod laws;
mod running;

pub use running::{run, run_one};
