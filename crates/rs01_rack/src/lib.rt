//! Drives that are asked in order for a sector.
#![tactic(auto)]

mod asking;
mod counting;
mod known;
mod rack;
mod refusal;

pub use rack::Rack;
pub use refusal::{AllFailed, RackRefusal};

#[cfg(test)]
mod tests;
