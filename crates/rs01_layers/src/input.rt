//! What a layer's task is given.

ghost use Rattle.std.specs.Prelude.{◌≡◌, ◌-◌, ◌*◌, ◌≤◌, IsTrue, length};
ghost use Rattle.rs01_layers.specs.Blocks.{is_parity_len};

use crate::lists::{Bytes, Flags, SumList};

/// A layer, or what a caller has of it.
///
/// A codeword has `parity_count` parity bytes, 8 to 100, and so each layer has
/// `255 - parity_count` places.
#[derive(Drop)]
pub struct LayerInput {
    /// The number of the layer.
    pub layer: u32,
    /// How many parity bytes a codeword has.
    pub parity_count: u32,
    /// The blocks, 2048 bytes of each place.
    pub data_: Bytes,
    /// Which places are erased.
    pub erased: Flags,
    /// The recorded checksum of each place.
    pub sums: SumList,
    /// The parity bytes of the 2048 codewords, one codeword after the other, or none.
    pub parity: Bytes,
    ghost least: { 8 ≤ parity_count },
    ghost most: { parity_count ≤ 100 },
    ghost data_len: { length data_ ≡ 2048 * (255 - parity_count) },
    ghost erased_len: { length erased ≡ 255 - parity_count },
    ghost sums_len: { length sums ≡ 255 - parity_count },
    ghost parity_len: { IsTrue (is_parity_len (length parity) parity_count) },
}
