//! The blocks of neighbouring layers, read place by place.
ghost use Rattle.std.specs.Prelude.{◌≡◌, ◌+◌, ◌-◌, ◌*◌, ◌/◌, ◌%◌, ◌<◌, ◌≤◌, ◌++◌, IfOk, OnOk, is_err, length, take};
ghost use Rattle.rs01_layers.specs.Extents.{IsExtentOf};
ghost use Rattle.rs01_layers.specs.Layer.{block_at};
ghost use Rattle.rs01_layers.specs.Layout.{layers_of};
ghost use Rattle.rs01_outside.specs.DeskState.{InFile, OnlyReads};
ghost use Rattle.rs01_ecchead.specs.Walked.{is_walk_fault};
ghost use Rattle.rs01_create.specs.Windows.{AllGrow, AllLong, AllLongerBy, HoldsLayers, HoldsPlace, in_run};

use crate::plan::Plan;
use rs01_ecchead::{WalkFault, read_run};
use rs01_lists::{push_zeros, zeroed};
use rs01_outside::{Desk, Failed};
use std::alloc::{AllocError, Global};

// Puts a block of a run behind what is there, and zeros where the run has ended.
fn push_from_run(run: &[u8], i: usize, out: &mut Vec<u8>) -> Result<(), AllocError>
    ensures { OnOk result (out.new.items ≡ out.old.items ++ in_run run.now i) }
{
    if i < run.len() / 2048 {
        out.extend_from_slice(&run[2048 * i..2048 * i + 2048])?;
        Ok(())
    } else {
        push_zeros(2048, out)?;
        Ok(())
    }
}

// Puts the blocks of one place behind those of neighbouring layers, of which the last comes first.
fn push_place(run: &[u8], window: &mut Vec<Vec<u8>>) -> Result<(), AllocError>
    ensures { OnOk result (AllGrow (in_run run.now) window.old.items window.new.items) }
{
    let count = window.len();
    for (i, blocks) in window.iter_mut().enumerate() {
        push_from_run(run, count - 1 - i, blocks)?;
    }
    Ok(())
}

// Reads the sectors at a place of neighbouring layers, and says how many there are: the others are padding.
fn read_place<D: Desk>(
    desk: &mut D,
    image: &str,
    plan: &Plan,
    first: u32,
    place: u32,
    buffer: &mut [u8],
) -> Result<usize, Failed>
    requires place { place < 255 - plan.now.shape.parity }
    requires first { first < layers_of plan.now.shape.sectors plan.now.shape.parity }
    ensures reads { OnlyReads (D.state desk.old) (D.state desk.new) (is_err result) }
    ensures within { IfOk result (λ len. len ≤ length buffer.old) }
    ensures read { InFile (D.state desk.old) image.now (λ file. IsExtentOf file plan.now.extent
        → IfOk result (λ len. HoldsPlace file plan.now.shape.parity first place
        (length buffer.old / 2048) (take len buffer.new))) }
{
    let start = first + place * plan.shape.layers();
    let left = plan.extent.sectors.saturating_sub(start) as usize;
    let len = 2048 * left.min(buffer.len() / 2048);
    if len > 0 {
        read_run(desk, image, &plan.extent, start, &mut buffer[..len])?;
    }
    Ok(len)
}

// Reads the blocks at a place of neighbouring layers, and puts them behind those at the places before.
fn add_place<D: Desk>(
    desk: &mut D,
    image: &str,
    plan: &Plan,
    first: u32,
    place: u32,
    buffer: &mut [u8],
    window: &mut Vec<Vec<u8>>,
) -> Result<(), WalkFault>
    requires place { place < 255 - plan.now.shape.parity }
    requires first { first < layers_of plan.now.shape.sectors plan.now.shape.parity }
    requires buffer { length buffer.old ≡ 2048 * length window.old.items }
    ensures reads { OnlyReads (D.state desk.old) (D.state desk.new) (is_walk_fault result) }
    ensures grown { OnOk result (AllLongerBy 2048 window.old.items window.new.items) }
    ensures read { InFile (D.state desk.old) image.now (λ file. IsExtentOf file plan.now.extent
        → OnOk result (AllGrow (λ j. block_at file plan.now.shape.parity (first + j) place)
        window.old.items window.new.items)) }
{
    let len = read_place(desk, image, plan, first, place, buffer)?;
    push_place(&buffer[..len], window)?;
    Ok(())
}

// Lists without bytes yet, with room for so many each.
fn empty_lists(alloc: Global, count: usize, room: usize) -> Result<Vec<Vec<u8>>, AllocError>
    ensures count { IfOk result (λ lists. length lists.items ≡ count) }
    ensures empty { IfOk result (λ lists. AllLong 0 lists.items) }
{
    let mut lists = Vec::with_capacity(alloc, count)?;
    for _ in 0..count {
        lists.push(Vec::with_capacity(alloc, room)?)?;
    }
    Ok(lists)
}

// Reads the blocks of so many neighbouring layers from `first` on, the last layer first. Each place takes one read.
pub fn read_window<D: Desk>(
    alloc: Global,
    desk: &mut D,
    image: &str,
    plan: &Plan,
    first: u32,
    count: u32,
) -> Result<Vec<Vec<u8>>, WalkFault>
    requires within { first + count ≤ layers_of plan.now.shape.sectors plan.now.shape.parity }
    requires some { 0 < count }
    ensures reads { OnlyReads (D.state desk.old) (D.state desk.new) (is_walk_fault result) }
    ensures count { IfOk result (λ window. length window.items ≡ count) }
    ensures long { let r = plan.now.shape.parity in
        IfOk result (λ window. AllLong (2048 * (255 - r)) window.items) }
    ensures read { InFile (D.state desk.old) image.now (λ file. IsExtentOf file plan.now.extent
        → IfOk result (λ window. HoldsLayers file plan.now.shape.parity (first + count)
        window.items)) }
{
    let mut buffer = zeroed(alloc, 2048 * count as usize)?;
    let mut window = empty_lists(alloc, count as usize, 2048 * plan.shape.data() as usize)?;
    for place in 0..plan.shape.data() {
        add_place(desk, image, plan, first, place, &mut buffer, &mut window)?;
    }
    Ok(window)
}
