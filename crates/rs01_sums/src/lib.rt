//! Checksums of sectors, the markers of missing sectors, and which blocks may stand for a sector.
#![tactic(auto)]

pub mod checksum;
pub mod laws;
pub mod markers;
pub mod sums;
mod tables;
pub mod usability;

pub use checksum::crc32;
pub use markers::{is_marker, marker};
pub use sums::Sums;
pub use usability::usable;

#[cfg(test)]
mod tests;
