//! Why a rack gives no number, or no block.
use thiserror::Error;

/// Why the drives of a rack have no number of sectors.
#[derive(Clone, Copy, PartialEq, Eq, Debug, Error)]
pub enum RackRefusal {
    /// There is no drive.
    #[error("there is no drive")]
    NoDrive,
    /// The drive with this number, counted from 0, failed to tell its number of sectors.
    #[error("drive {0} failed")]
    Failed(usize),
    /// The first drive has this number of sectors, and another drive that one.
    #[error("the drives differ: {0} and {1} sectors")]
    Differ(u32, u32),
}

/// No drive gave the block of a sector.
#[derive(Clone, Copy, PartialEq, Eq, Debug)]
pub struct AllFailed;
