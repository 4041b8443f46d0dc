//! Reading a settled layer back: what its correction is given.
ghost use Rattle.std.specs.Prelude.{◌≡◌, ◌-◌, ◌+◌, ◌*◌, ◌<◌, ◌++◌, [], IfOk, OnOk, length, map};
ghost use Rattle.std.specs.List.{range_with_len};
ghost use Rattle.rs01_layers.specs.Layout.{layers_of};
ghost use Rattle.rs01_lists.specs.Bytes.{padded};
ghost use Rattle.rs01_outside.specs.DeskState.{InFile, OnlyReads};
ghost use Rattle.rs01_ecchead.specs.Head.{fields_of};
ghost use Rattle.rs01_ecchead.specs.Walked.{is_walk_fault};
ghost use Rattle.rs01_repair.specs.Inputs.{flag_at, sum_at};
ghost use Rattle.rs01_states.specs.Sparing.{is_open, state_of};
ghost use Rattle.rs01_reader.specs.Inputs.{
  HasLayer,
  HasPlace,
  IsBuilt,
  IsLayerOf,
  ReadsParity,
  is_gone,
  kept_at,
  kept_blocks,
  kept_in,
};

use crate::course::Course;
use rs01_ecchead::{Ecc, WalkFault, read_bytes, read_run};
use rs01_layers::{Bytes, Flags, LayerInput, SumList};
use rs01_outside::Desk;
use rs01_states::State;
use std::alloc::{AllocError, Global};

// Whether a sector isn't good, so that the parity has to make up for it.
fn is_gone(course: &Course, sector: u32) -> bool
    requires { sector < length course.now.states }
    ensures { result ≡ is_open (state_of course.now.states sector) }
{
    match course.state(sector) {
        State::Good => false,
        State::Unread => true,
        State::Failed => true,
        State::Spared => true,
    }
}

// Whether a place is erased.
fn place_flag(ecc: &Ecc, course: &Course, layer: u32, place: u32) -> bool
    requires place { HasPlace ecc.now course.now layer place }
    ensures { result ≡ flag_at (fields_of ecc.now.head) (is_gone course.now) layer place }
{
    match ecc.shape().sector_at(layer, place) {
        Some(sector) => is_gone(course, sector),
        None => false,
    }
}

// The recorded checksum of a place.
fn place_sum(ecc: &Ecc, layer: u32, place: u32) -> u32
    requires { IsLayerOf ecc.now layer place }
    ensures { result ≡ sum_at (fields_of ecc.now.head) ecc.now.sums.list layer place }
{
    match ecc.shape().sector_at(layer, place) {
        Some(sector) => ecc.sums().get(sector),
        None => 0,
    }
}

// The flags of all places of a layer.
fn layer_flags(
    alloc: Global,
    ecc: &Ecc,
    course: &Course,
    layer: u32,
) -> Result<Vec<bool>, AllocError>
    requires layer { HasLayer ecc.now course.now layer }
    ensures { let f = fields_of ecc.now.head in IfOk result (λ flags. flags.items
        ≡ map (flag_at f (is_gone course.now) layer) (range_with_len 0 (255 - f.parity))) }
{
    let mut flags = Vec::new(alloc);
    for place in 0..ecc.shape().data() {
        flags.push(place_flag(ecc, course, layer, place))?;
    }
    Ok(flags)
}

// The recorded checksums of all places of a layer.
fn layer_sums(alloc: Global, ecc: &Ecc, layer: u32) -> Result<Vec<u32>, AllocError>
    requires { layer < layers_of ecc.now.head.sectors ecc.now.head.parity }
    ensures { let f = fields_of ecc.now.head in IfOk result (λ sums. sums.items
        ≡ map (sum_at f ecc.now.sums.list layer) (range_with_len 0 (255 - f.parity))) }
{
    let mut sums = Vec::new(alloc);
    for place in 0..ecc.shape().data() {
        sums.push(place_sum(ecc, layer, place))?;
    }
    Ok(sums)
}

// Makes a block all zeros.
fn clear(block: &mut [u8; 2048])
    ensures { block.new ≡ padded 2048 [] }
{
    block.fill(0);
}

// Reads what is taken of a sector: its block where it is good, and else zeros.
fn read_kept<D: Desk>(
    desk: &mut D,
    image: &str,
    ecc: &Ecc,
    course: &Course,
    sector: u32,
    block: &mut [u8; 2048],
) -> Result<(), WalkFault>
    requires sector { sector < ecc.now.head.sectors }
    requires all { length course.now.states ≡ ecc.now.head.sectors }
    ensures reads { OnlyReads (D.state desk.old) (D.state desk.new) (is_walk_fault result) }
    ensures block { InFile (D.state desk.old) image.now (λ file.
        OnOk result (block.new ≡ kept_in ecc.now course.now file sector)) }
{
    if is_gone(course, sector) {
        clear(block);
        return Ok(());
    }
    read_run(desk, image, &ecc.extent(), sector, block)?;
    Ok(())
}

// Reads what is taken at a place of a layer: zeros at padding.
fn read_place<D: Desk>(
    desk: &mut D,
    image: &str,
    ecc: &Ecc,
    course: &Course,
    layer: u32,
    place: u32,
    block: &mut [u8; 2048],
) -> Result<(), WalkFault>
    requires place { HasPlace ecc.now course.now layer place }
    ensures reads { OnlyReads (D.state desk.old) (D.state desk.new) (is_walk_fault result) }
    ensures block { InFile (D.state desk.old) image.now (λ file.
        OnOk result (block.new ≡ kept_at ecc.now course.now file layer place)) }
{
    match ecc.shape().sector_at(layer, place) {
        Some(sector) => read_kept(desk, image, ecc, course, sector, block)?,
        None => clear(block),
    }
    Ok(())
}

// Reads what is taken at a place of a layer, and puts it behind others.
fn add_place<D: Desk>(
    desk: &mut D,
    image: &str,
    ecc: &Ecc,
    course: &Course,
    layer: u32,
    place: u32,
    blocks: &mut Vec<u8>,
) -> Result<(), WalkFault>
    requires place { HasPlace ecc.now course.now layer place }
    ensures reads { OnlyReads (D.state desk.old) (D.state desk.new) (is_walk_fault result) }
    ensures long { OnOk result (length blocks.new.items ≡ length blocks.old.items + 2048) }
    ensures told { InFile (D.state desk.old) image.now (λ file. OnOk result (blocks.new.items
        ≡ blocks.old.items ++ kept_at ecc.now course.now file layer place)) }
{
    let mut block = [0u8; 2048];
    read_place(desk, image, ecc, course, layer, place, &mut block)?;
    blocks.extend_from_slice(&block)?;
    Ok(())
}

// The blocks of all places of a layer, one after the other.
fn read_blocks<D: Desk>(
    alloc: Global,
    desk: &mut D,
    image: &str,
    ecc: &Ecc,
    course: &Course,
    layer: u32,
) -> Result<Vec<u8>, WalkFault>
    requires layer { HasLayer ecc.now course.now layer }
    ensures reads { OnlyReads (D.state desk.old) (D.state desk.new) (is_walk_fault result) }
    ensures long { IfOk result (λ blocks. length blocks.items
        ≡ 2048 * (255 - ecc.now.head.parity)) }
    ensures blocks { InFile (D.state desk.old) image.now (λ file. IfOk result (λ blocks.
        blocks.items ≡ kept_blocks ecc.now course.now file layer)) }
{
    let places = ecc.shape().data();
    let mut blocks = Vec::with_capacity(alloc, 2048 * places as usize)?;
    for place in 0..places {
        add_place(desk, image, ecc, course, layer, place, &mut blocks)?;
    }
    Ok(blocks)
}

// The recorded parity of a layer.
fn read_parity<D: Desk>(
    alloc: Global,
    desk: &mut D,
    name: &str,
    ecc: &Ecc,
    layer: u32,
) -> Result<Vec<u8>, WalkFault>
    requires { layer < layers_of ecc.now.head.sectors ecc.now.head.parity }
    ensures reads { OnlyReads (D.state desk.old) (D.state desk.new) (is_walk_fault result) }
    ensures long { IfOk result (λ parity. length parity.items ≡ 2048 * ecc.now.head.parity) }
    ensures parity { ReadsParity (D.state desk.old) name.now ecc.now layer result }
{
    let shape = ecc.shape();
    let size = 2048 * shape.parity() as usize;
    Ok(read_bytes(alloc, desk, name, shape.parity_offset(layer, 0), size)?)
}

// What the correction of a layer is given.
pub fn read_input<D: Desk>(
    alloc: Global,
    desk: &mut D,
    image: &str,
    name: &str,
    ecc: &Ecc,
    course: &Course,
    layer: u32,
) -> Result<LayerInput, WalkFault>
    requires layer { HasLayer ecc.now course.now layer }
    ensures reads { OnlyReads (D.state desk.old) (D.state desk.new) (is_walk_fault result) }
    ensures layer { IfOk result (λ input. input.layer ≡ layer) }
    ensures built { IfOk result (IsBuilt ecc.now course.now image.now name.now (D.state desk.old)) }
{
    let blocks = read_blocks(alloc, desk, image, ecc, course, layer)?;
    let parity = read_parity(alloc, desk, name, ecc, layer)?;
    let erased = layer_flags(alloc, ecc, course, layer)?;
    let sums = layer_sums(alloc, ecc, layer)?;
    Ok(LayerInput {
        layer,
        parity_count: ecc.shape().parity(),
        data_: Bytes::of(blocks),
        erased: Flags::of(erased),
        sums: SumList::of(sums),
        parity: Bytes::of(parity),
    })
}
