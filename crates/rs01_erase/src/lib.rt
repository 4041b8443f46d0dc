//! Restoring the erased bytes of codewords, and the erased blocks of layers.
//!
//! A codeword has 255 bytes, `r` of them parity. Where it is known which bytes are lost, up to `r`
//! of them are found again from the others. Only the tasks of whole layers and `Pattern::new` take
//! memory.
#![tactic(auto)]

mod by_columns;
mod correct;
pub mod laws;
pub mod laws_of_correcting;
mod pattern;
mod places;
mod power_sums;
mod restore;

pub use by_columns::CorrectTask;
pub use correct::PlainCorrectTask;
pub use pattern::{Disagree, Pattern, PatternRefusal};
pub use places::{are_places, places_of};
pub use restore::{EraseRefusal, restore_codeword};
