//! Blocks and codeword columns of an image that is held whole.

ghost use Rattle.std.specs.Prelude.{◌≡◌, ℕ, ◌+◌, ◌-◌, ◌*◌, ◌<◌, ◌≤◌, ◌++◌, OnOk, length, take, drop, slice_index};
ghost use Rattle.rs01_layers.specs.Blocks.{blocks_of};
ghost use Rattle.rs01_layers.specs.Sectors.{block};
ghost use Rattle.rs01_layers.specs.Layout.{layers_of};
ghost use Rattle.rs01_layers.specs.Extents.{IsExtentOf};
ghost use Rattle.rs01_layers.specs.Layer.{block_at, column, layer_bytes};

use crate::extent::Extent;
use crate::shape::Shape;
use rs01_lists::{copy_padded, push_padded};
use std::alloc::AllocError;

// At most `most` bytes of a list from `from` on, fewer where it ends.
fn part(bytes: &[u8], from: usize, most: usize) -> &[u8]
    ensures { result.now ≡ take most (drop from bytes.now) }
{
    let rest = &bytes[from.min(bytes.len())..];
    &rest[..most.min(rest.len())]
}

/// Writes the block of a sector: its first `length` bytes in the image, fewer where the image
/// ends, and zeros up to 2048 bytes.
pub fn block_into(image: &[u8], sector: u32, length: u32, into: &mut [u8; 2048])
    requires { length ≤ 2048 }
    ensures { into.new ≡ block image.now sector length }
{
    let bytes = part(image, 2048 * sector as usize, length as usize);
    copy_padded(bytes, into);
}

/// Puts the block of a sector behind what is there: its first `length` bytes in the image, fewer
/// where the image ends, and zeros up to 2048 bytes.
pub fn push_block(
    image: &[u8],
    sector: u32,
    length: u32,
    out: &mut Vec<u8>,
) -> Result<(), AllocError>
    requires { length ≤ 2048 }
    ensures { OnOk result (out.new.items ≡ out.old.items ++ block image.now sector length) }
{
    let bytes = part(image, 2048 * sector as usize, length as usize);
    push_padded(bytes, 2048, out)?;
    Ok(())
}

// Puts the block at a place of a layer behind what is there.
fn push_place(
    image: &[u8],
    extent: &Extent,
    shape: &Shape,
    layer: u32,
    place: u32,
    out: &mut Vec<u8>,
) -> Result<(), AllocError>
    requires extent { IsExtentOf image.now extent.now }
    requires shape { shape.now.sectors ≡ extent.now.sectors }
    requires layer { layer < layers_of shape.now.sectors shape.now.parity }
    requires place { place < 255 - shape.now.parity }
    ensures { let r = shape.now.parity in
        OnOk result (out.new.items ≡ out.old.items ++ block_at image.now r layer place) }
{
    match shape.sector_at(layer, place) {
        Some(sector) => push_block(image, sector, extent.length(sector), out)?,
        None => push_padded(&[], 2048, out)?,
    }
    Ok(())
}

/// Puts the blocks of a layer behind what is there, by place: the sectors of an image that is held
/// whole, padded to 2048 bytes, and blocks of zeros at padding.
pub fn push_layer(
    image: &[u8],
    extent: &Extent,
    shape: &Shape,
    layer: u32,
    out: &mut Vec<u8>,
) -> Result<(), AllocError>
    requires extent { IsExtentOf image.now extent.now }
    requires shape { shape.now.sectors ≡ extent.now.sectors }
    requires layer { layer < layers_of shape.now.sectors shape.now.parity }
    ensures { let bytes = layer_bytes image.now shape.now.parity layer in
        OnOk result (out.new.items ≡ out.old.items ++ bytes) }
{
    for place in 0..shape.data() {
        push_place(image, extent, shape, layer, place, out)?;
    }
    Ok(())
}

/// Writes the data of a codeword, 0 to 2047, of blocks of 2048 bytes that stand one after the
/// other: its byte of each of them. The buffer has a byte for each block.
pub fn column_of_blocks_into(blocks: &[u8], codeword: u32, into: &mut [u8])
    requires whole { length blocks.now ≡ 2048 * length into.old }
    requires codeword { codeword < 2048 }
    ensures { into.new ≡ column (blocks_of (length into.old) blocks.now) codeword }
{
    for (place, byte) in into.iter_mut().enumerate() {
        *byte = blocks[2048 * place + codeword as usize];
    }
}
