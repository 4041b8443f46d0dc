//! A layer whose places are read one after the other, and then judged.
ghost use Rattle.std.specs.Prelude.{◌≡◌, ◌+◌, ◌*◌, ◌<◌, ◌≤◌, ◌++◌, [], IfOk, OnOk, length};
ghost use Rattle.rs01_ecchead.specs.Erased.{known_of};
ghost use Rattle.rs01_repair.specs.Finding.{IsLayer, IsPlaceOf, is_erased_by, places_in};
ghost use Rattle.rs01_repair.specs.Parts.{AddsPlace, HasBlocks, HasSector, IsJudged, chunk, flag_in};

use crate::found::Found;
use rs01_lists::push_padded;
use rs01_sums::usable;
use std::alloc::{AllocError, Global};

/// What was read of a layer so far: the blocks of its places, one after the other. Once all are there and the layer was
/// judged, a flag of each place is set where it is erased.
#[derive(Drop)]
pub struct Part {
    pub blocks: Vec<u8>,
    pub erased: Vec<bool>,
}

// Nothing, and no room.
pub fn no_part(alloc: Global) -> Part
    ensures { result.blocks.items ≡ [] }
{
    Part {
        blocks: Vec::new(alloc),
        erased: Vec::new(alloc),
    }
}

// Nothing yet, with room for so many places, of which none is flagged.
pub fn empty_part(alloc: Global, places: u32) -> Result<Part, AllocError>
    requires { places ≤ 255 }
    ensures none { IfOk result (λ part. part.blocks.items ≡ []) }
    ensures flags { IfOk result (λ part. length part.erased.items ≡ places) }
{
    let blocks = Vec::with_capacity(alloc, 2048 * places as usize)?;
    let erased = vec![in alloc; false; places as usize]?;
    Ok(Part { blocks, erased })
}

// A block of a run.
fn block_of(run: &[u8], k: usize) -> &[u8; 2048]
    requires { 2048 * k + 2048 ≤ length run.now }
    ensures { result.now ≡ chunk run.now k }
{
    match run[2048 * k..].first_chunk() {
        Some(block) => block,
        None => unreachable!(),
    }
}

// Puts a block behind others.
fn push_block(block: &[u8], blocks: &mut Vec<u8>) -> Result<(), AllocError>
    ensures { OnOk result (blocks.new.items ≡ blocks.old.items ++ block.now) }
{
    blocks.extend_from_slice(block)?;
    Ok(())
}

// Puts what a run has for a place of a layer behind the places that were read: its block `k` where the place is a
// sector's, and else zeros.
pub fn push_place(
    found: &Found,
    layer: u32,
    place: u32,
    run: &[u8],
    k: usize,
    part: &mut Part,
) -> Result<(), AllocError>
    requires place { IsPlaceOf found.now layer place }
    requires block { HasSector found.now layer place run.now k }
    ensures { OnOk result (AddsPlace found.now layer place (chunk run.now k) part.old part.new) }
{
    match found.ecc.shape().sector_at(layer, place) {
        Some(_sector) => push_block(block_of(run, k), &mut part.blocks),
        None => push_padded(&[], 2048, &mut part.blocks),
    }
}

// Whether a sector is taken for erased: it was absent when the image was found, or this block of it isn't usable.
fn takes_for_erased(found: &Found, sector: u32, block: &[u8; 2048]) -> bool
    requires { sector < found.now.ecc.head.sectors }
    ensures { let known = known_of found.now.ecc in
        result ≡ is_erased_by known found.now.size sector block.now }
{
    found.is_absent(sector) || !usable(Some(found.ecc.sums()), sector, block)
}

// Whether a place is erased, whose block stands among those of its layer. Padding never is.
fn place_is_erased(found: &Found, layer: u32, place: u32, blocks: &[u8]) -> bool
    requires place { IsPlaceOf found.now layer place }
    requires block { 2048 * place + 2048 ≤ length blocks.now }
    ensures { result ≡ flag_in found.now layer blocks.now place }
{
    match found.ecc.shape().sector_at(layer, place) {
        Some(sector) => {
            let block = block_of(blocks, place as usize);
            takes_for_erased(found, sector, block)
        }
        None => false,
    }
}

// Flags the places of a layer that are erased.
pub fn judge_part(found: &Found, layer: u32, part: &mut Part)
    requires layer { IsLayer found.now layer }
    requires blocks { HasBlocks found.now (places_in found.now) part.old }
    ensures { IsJudged found.now layer part.old part.new }
{
    for place in 0..found.ecc.shape().data() {
        part.erased[place as usize] = place_is_erased(found, layer, place, &part.blocks);
    }
}
