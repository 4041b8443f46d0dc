//! Making the error correction file of an image.
//!
//! The types that its calls name are handed on, so that a caller names this crate alone.
#![tactic(auto)]

mod adding;
mod beginning;
mod course;
mod creating;
mod digesting;
mod ending;
mod found;
mod giving;
mod look;
mod maker;
mod noting;
mod plan;
mod refusal;
mod settling;
mod starting;
mod survey;
mod window;

pub use creating::{create, create_one};
pub use refusal::CreateRefusal;
pub use rs01_outside::{Desk, Gate};
pub use rs01_report::CreateReport;
