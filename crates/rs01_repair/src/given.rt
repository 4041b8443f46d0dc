//! What correcting is given of layers, one after the other.
ghost use Rattle.std.specs.Prelude.{◌≡◌, ◌+◌, ◌*◌, ◌<◌, ◌≤◌, IfNone, IfOk, IfSome, List, OnErr, OnOk, length, map, ℕ, slice_index_or};
ghost use Rattle.std.specs.List.{range_with_len};
ghost use Rattle.rs01_lists.specs.Bytes.{part};
ghost use Rattle.rs01_outside.specs.DeskState.{OnlyReads};
ghost use Rattle.rs01_ecchead.specs.Walked.{is_walk_fault};
ghost use Rattle.rs01_repair.specs.Finding.{IsLayer, IsPlaceOf, fields_in, places_in, recorded_in};
ghost use Rattle.rs01_repair.specs.Given.{GivesNext, HasNoNext, HoldsLayers, HoldsThese, IsInputNow, IsOfShape, IsReady};
ghost use Rattle.rs01_repair.specs.Inputs.{parity_at, sum_at};
ghost use Rattle.rs01_repair.specs.Parts.{IsRead, IsReadFrom, OthersStay};

use crate::batch::{Batch, refill};
use crate::found::Found;
use crate::judging::Judging;
use crate::part::{Part, no_part};
use rs01_ecchead::WalkFault;
use rs01_layers::{Bytes, Flags, LayerInput, SumList};
use rs01_outside::Desk;
use std::alloc::{AllocError, Global};
use std::mem;

// The recorded checksum of a place.
fn place_sum(found: &Found, layer: u32, place: u32) -> u32
    requires { IsPlaceOf found.now layer place }
    ensures { result ≡ sum_at (fields_in found.now) found.now.ecc.sums.list layer place }
{
    match found.ecc.shape().sector_at(layer, place) {
        Some(sector) => found.ecc.sums().get(sector),
        None => 0,
    }
}

// The recorded checksums of all places of a layer.
fn layer_sums(alloc: Global, found: &Found, layer: u32) -> Result<Vec<u32>, AllocError>
    requires { IsLayer found.now layer }
    ensures { IfOk result (λ sums. sums.items ≡ map
        (sum_at (fields_in found.now) found.now.ecc.sums.list layer)
        (range_with_len 0 (places_in found.now))) }
{
    let places = found.ecc.shape().data();
    let mut sums = Vec::with_capacity(alloc, places as usize)?;
    for place in 0..places {
        sums.push(place_sum(found, layer, place))?;
    }
    Ok(sums)
}

// A list of these bytes.
fn copied(alloc: Global, bytes: &[u8]) -> Result<Vec<u8>, AllocError>
    ensures { IfOk result (λ copy. copy.items ≡ bytes.now) }
{
    let mut copy = Vec::with_capacity(alloc, bytes.len())?;
    copy.extend_from_slice(bytes)?;
    Ok(copy)
}

// What correcting is given of a layer of which all places were read.
fn layer_input(
    alloc: Global,
    found: &Found,
    layer: u32,
    part: Part,
    parity: &[u8],
) -> Result<LayerInput, AllocError>
    requires layer { IsLayer found.now layer }
    requires read { IsRead (fields_in found.now) layer (places_in found.now) part }
    requires parity { length parity.now ≡ 2048 * found.now.ecc.head.parity }
    ensures layer { IfOk result (λ input. input.layer ≡ layer) }
    ensures shape { IfOk result (IsOfShape found.now) }
    ensures told { (e file : List ℕ) → parity.now ≡ parity_at (recorded_in found.now e) layer
        → IsReadFrom found.now file layer (places_in found.now) part
        → IfOk result (IsInputNow found.now e file) }
{
    let sums = layer_sums(alloc, found, layer)?;
    let own = copied(alloc, parity)?;
    Ok(LayerInput {
        layer,
        parity_count: found.ecc.shape().parity(),
        data_: Bytes::of(part.blocks),
        erased: Flags::of(part.erased),
        sums: SumList::of(sums),
        parity: Bytes::of(own),
    })
}

// Takes what was read of a layer out of a list.
fn take_part(alloc: Global, parts: &mut Vec<Part>, at: usize) -> Part
    requires { at < length parts.old.items }
    ensures taken { result ≡ slice_index_or parts.old.items at result }
    ensures len { length parts.new.items ≡ length parts.old.items }
    ensures others { OthersStay at parts.old.items parts.new.items }
{
    mem::replace(&mut parts[at], no_part(alloc))
}

// The parity of one of some layers, that of each `len` bytes long.
fn parity_piece(parity: &[u8], at: usize, len: usize) -> &[u8]
    requires { len * at + len ≤ length parity.now }
    ensures { result.now ≡ part parity.now (len * at) len }
{
    &parity[len * at..len * at + len]
}

// Gives the next layer of a batch.
fn take_next(alloc: Global, found: &Found, batch: &mut Batch) -> Result<LayerInput, AllocError>
    requires held { HoldsLayers found.now batch.old }
    requires some { batch.old.next < batch.old.first + length batch.old.parts.items }
    ensures layer { IfOk result (λ input. input.layer ≡ batch.old.next) }
    ensures next { OnOk result (batch.new.next ≡ batch.old.next + 1) }
    ensures stays { OnErr result (batch.new.next ≡ batch.old.next) }
    ensures shape { IfOk result (IsOfShape found.now) }
    ensures held { OnOk result (HoldsLayers found.now batch.new) }
    ensures told { (e file : List ℕ) → HoldsThese found.now e file batch.old
        → IfOk result (IsInputNow found.now e file) }
    ensures these { (e file : List ℕ) → HoldsThese found.now e file batch.old
        → OnOk result (HoldsThese found.now e file batch.new) }
{
    let layer = batch.next;
    let at = (layer - batch.first) as usize;
    let len = 2048 * found.ecc.shape().parity() as usize;
    let part = take_part(alloc, &mut batch.parts, at);
    let parity = parity_piece(&batch.parity, at, len);
    let input = layer_input(alloc, found, layer, part, parity)?;
    batch.next = layer + 1;
    Ok(input)
}

/// What correcting is given of the next layer, or `None` where none is left. Up to 16 layers are read at once: each place
/// of all of them by one call of the desk, and then their parity by one. They are judged together, as `judging` does it.
///
/// A sector is taken for erased where the image file was too short for it when it was found, or where the block that it
/// has now isn't usable. Reading fails only where the desk does.
pub fn next_input<D: Desk, J: Judging>(
    alloc: Global,
    desk: &mut D,
    image: &str,
    ecc: &str,
    found: &Found,
    judging: &J,
    batch: &mut Batch,
) -> Result<Option<LayerInput>, WalkFault>
    requires { IsReady found.now image.now ecc.now (D.state desk.old) batch.old }
    ensures reads { OnlyReads (D.state desk.old) (D.state desk.new) (is_walk_fault result) }
    ensures given { IfOk result (λ given. IfSome given (GivesNext
        found.now image.now ecc.now (D.state desk.new) batch.old batch.new)) }
    ensures none { IfOk result (λ given. IfNone given
        (HasNoNext found.now image.now ecc.now (D.state desk.new) batch.old batch.new)) }
    ensures stays { OnErr result (batch.new.next ≡ batch.old.next) }
{
    if batch.next as usize == batch.first as usize + batch.parts.len() {
        if batch.next == found.ecc.shape().layers() {
            return Ok(None);
        }
        refill(alloc, desk, image, ecc, found, judging, batch)?;
    }
    Ok(Some(take_next(alloc, found, batch)?))
}
