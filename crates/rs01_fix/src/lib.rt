//! Repairing an image by its error correction file.
//!
//! The types that its calls name are handed on, so that a caller names this crate alone.
#![tactic(auto)]

mod course;
mod engine;
mod find;
mod fixing;
pub mod laws;
mod places;
mod refusal;
mod repair;
mod repairs;
mod told;
mod window;
mod windows;

pub use fixing::{fix, fix_one};
pub use refusal::FixRefusal;
pub use rs01_ecchead::{HeadRefusal, Which};
pub use rs01_outside::{Desk, Gate};
pub use rs01_report::{FixReport, SectorList, Strange, StrangeList, Why};
