//! What one pass over an image finds.

use crate::plan::Plan;
use md5::Md5;

/// What the header and the checksums of an image's file are made of.
#[derive(Drop)]
pub struct Found {
    pub plan: Plan,
    /// The checksums of all sectors, as they stand in the file.
    pub sums: Vec<u8>,
    pub image_sum: [u8; 16],
    pub fingerprint: [u8; 16],
}

/// What is noted of the sectors that were seen so far.
#[derive(Drop)]
pub struct Noted {
    /// Their checksums, as they stand in the file.
    pub sums: Vec<u8>,
    /// The digest of the block of the fingerprint's sector, once that was seen.
    pub fingerprint: [u8; 16],
    /// The first of them that is its own marker.
    pub marked: Option<u32>,
}

/// What is kept of the sectors that were seen so far.
#[derive(Drop)]
pub struct Seen {
    pub noted: Noted,
    /// A digest of their bytes.
    pub hasher: Md5,
}

/// What is kept of the sectors before `first`, and the blocks of those that were shown since.
#[derive(Drop)]
pub struct Gathered {
    pub seen: Seen,
    pub first: u32,
    pub blocks: Vec<u8>,
}
