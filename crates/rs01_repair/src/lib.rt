//! The layers of a damaged image: which sectors are erased, what correcting is given of a layer, and what it answers.
#![tactic(auto)]

mod batch;
mod found;
mod given;
mod judging;
pub mod laws;
mod part;
mod place;
mod restored;

pub use batch::Batch;
pub use found::Found;
pub use given::next_input;
pub use judging::{Beside, InTurn, Judging};
pub use part::Part;
pub use restored::{layer_is_restored, restored_block};
