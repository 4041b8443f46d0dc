//! The state of each sector while a medium is read adaptively: what is still to be asked for, and
//! what needn't be, since the parity makes up for it.
#![tactic(auto)]

pub mod laws;
mod settling;
mod state;
mod states;

pub use state::State;
pub use states::States;

#[cfg(test)]
mod tests;
