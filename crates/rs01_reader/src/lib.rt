//! Reading a medium by turns, as a source of the layers that are settled.
#![tactic(auto)]

mod asking;
mod course;
mod giving;
mod input;
mod setup;
mod sparing;
mod stop;
mod turning;

pub use course::Course;
pub use giving::next_input;
pub use setup::Setup;
pub use stop::Stop;

#[cfg(test)]
mod tests;
