//! Reading a medium from its drives in rising order.
//!
//! The types that its calls name are handed on, so that a caller names this crate alone.
#![tactic(auto)]

mod asking;
mod fate;
mod judging;
mod linear;
mod marking;
mod medium;
mod opening;
mod prepared;
mod reading;
mod refusal;
mod telling;

pub use asking::{Asked, ask_sector};
pub use fate::Fate;
pub use linear::{asked_since, read_linear};
pub use medium::Medium;
pub use opening::open_medium;
pub use prepared::{Prepared, prepare};
pub use refusal::ReadRefusal;
pub use rs01_ecchead::{EccRefusal, HeadRefusal, Which};
pub use rs01_outside::{Desk, Drive};
pub use rs01_rack::{Rack, RackRefusal};
pub use rs01_report::{ReadReport, SectorList, Strange, StrangeList, Why};
pub use telling::report;
