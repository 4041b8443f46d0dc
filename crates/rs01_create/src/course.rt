//! How far the making of a file has come.
ghost use Rattle.std.specs.Prelude.{◌≤◌};

use md5::Md5;

/// The layers whose parity stands in the file, those whose inputs were given, and what was read ahead.
#[derive(Drop)]
pub struct Course {
    /// The parity of the layers below this one stands in the file.
    pub first: u32,
    /// The inputs of the layers below this one were given.
    pub next: u32,
    /// The blocks of the layers from `next` on that were read ahead, the last layer first.
    pub window: Vec<Vec<u8>>,
    /// A digest of what stands behind the file's header.
    pub hasher: Md5,
    ghost order: { first ≤ next },
}

/// How often a desk had failed to read and to write.
#[derive(Clone, Copy)]
pub struct Faults {
    pub reads: u64,
    pub writes: u64,
}
