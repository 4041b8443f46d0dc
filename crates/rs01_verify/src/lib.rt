//! Checking an image against its error correction file, and scanning the medium in drives.
//!
//! The types that its calls name are handed on, so that a caller names this crate alone.
#![tactic(auto)]

mod fullest;
mod marks;
mod refusal;
mod scanning;
mod survey;
mod tally;
mod verifying;

pub use refusal::VerifyRefusal;
pub use rs01_ecchead::{EccRefusal, HeadRefusal, Which};
pub use rs01_linear::ReadRefusal;
pub use rs01_outside::{Desk, Drive};
pub use rs01_rack::{Rack, RackRefusal};
pub use rs01_report::{Fullest, Mark, ScanReport, SectorList, VerifyReport};
pub use scanning::scan;
pub use verifying::verify;
