//! Showing what the codec does: an image is made, protected, damaged and repaired.
//!
//! The types that its calls name are handed on, so that a caller names this crate alone.
#![tactic(auto)]

mod comparing;
mod demonstration;
mod generator;
pub mod laws;
mod making;
mod marking;
mod plan;
mod refusal;
mod showing;
mod telling;

pub use demonstration::Demonstration;
pub use refusal::DemoRefusal;
pub use rs01_create::CreateRefusal;
pub use rs01_ecchead::{HeadRefusal, Which};
pub use rs01_fix::FixRefusal;
pub use rs01_outside::{Desk, Gate};
pub use rs01_report::DemoReport;
pub use showing::{demo, demo_one};
