//! Reports and fault lines, byte for byte, and the status of a run that a fault ends.
#![tactic(auto)]

mod faults;
mod laws;
mod lines;
mod lists;
mod puts;
mod reports;
mod status;
mod texts;

pub use faults::Fault;
pub use laws::runs_are_maximal;
pub use lists::{SectorList, StrangeList, push_if, push_list};
pub use puts::{
    PutRefusal, put_create, put_demo, put_fault, put_fix, put_read, put_scan, put_verify,
};
pub use reports::{
    CreateReport, DemoReport, FixReport, Fullest, Mark, ReadReport, ScanReport, Strange,
    VerifyReport, Why,
};
pub use status::Status;
