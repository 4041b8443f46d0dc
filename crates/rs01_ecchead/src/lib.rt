//! The header of an error correction file, opening such a file, and reading the sectors of the image that it protects.
#![tactic(auto)]

mod condition;
mod head;
mod head_read;
mod head_write;
pub mod laws;
mod opened;
mod opening;
mod pieces;
mod recorded;
mod runs;
mod sectors;
mod walk;

pub use condition::{Condition, judge};
pub use head::{Head, HeadRefusal};
pub use head_read::read_head;
pub use head_write::write_head;
pub use opened::{Ecc, EccRefusal, Which};
pub use opening::open_ecc;
pub use pieces::{read_bytes, read_piece};
pub use runs::read_run;
pub use sectors::sector_in;
pub use walk::{Visitor, WalkFault, walk_image};
