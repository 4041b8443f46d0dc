//! The lists that a layer's input and answer consist of.

use rs01_lists::Listed;

/// A list of bytes.
pub type Bytes = Listed<u8>;

/// A list of flags, one of each place of a layer.
pub type Flags = Listed<bool>;

/// A list of checksums, one of each place of a layer.
pub type SumList = Listed<u32>;

/// A block of 2048 bytes, and its place in its layer.
#[derive(Drop)]
pub struct Placed {
    pub place: u32,
    pub block: Bytes,
}

/// A list of blocks with their places.
pub type PlacedList = Listed<Placed>;
