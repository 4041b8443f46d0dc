//! Reading a medium by turns, halves first.
//!
//! The types that its calls name are handed on, so that a caller names this crate alone.
#![tactic(auto)]

mod adaptive;
mod beginning;
mod ending;
mod engine;
mod laws;
mod noting;
mod putting;
mod settling;
mod telling;
mod working;

pub use adaptive::{read_adaptive, read_adaptive_one};
pub use laws::{reading_keeps_its_bounds, settled_layers_come_back};
pub use noting::Noted;
pub use putting::put_layer;
pub use rs01_ecchead::{EccRefusal, HeadRefusal, Which};
pub use rs01_linear::ReadRefusal;
pub use rs01_outside::{Desk, Drive, Gate};
pub use rs01_rack::{Rack, RackRefusal};
pub use rs01_report::{ReadReport, SectorList, Strange, StrangeList, Why};
pub use telling::told_of;
