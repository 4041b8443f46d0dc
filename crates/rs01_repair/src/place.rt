//! Reading a place of neighbouring layers, whose sectors are neighbours too.
ghost use Rattle.std.specs.Prelude.{◌≡◌, ◌+◌, ◌*◌, ◌/◌, ◌%◌, ◌<◌, ◌≤◌, OnOk, is_err, length, List, ℕ};
ghost use Rattle.rs01_outside.specs.DeskState.{InFile, OnlyReads};
ghost use Rattle.rs01_ecchead.specs.Runs.{ReadsRun};
ghost use Rattle.rs01_ecchead.specs.Walked.{is_walk_fault};
ghost use Rattle.rs01_repair.specs.Finding.{IsPlace, layers_in};
ghost use Rattle.rs01_repair.specs.Parts.{Covers, HaveBlocks, HaveBlocksOf, IsRunOf};

use crate::found::Found;
use crate::part::{Part, push_place};
use rs01_ecchead::{WalkFault, read_run};
use rs01_layers::Extent;
use rs01_outside::{Desk, Failed};
use std::alloc::AllocError;

// Puts what a run has for a place of the layers from `first` on behind what was read of each of them.
fn spread(
    found: &Found,
    first: u32,
    place: u32,
    run: &[u8],
    parts: &mut [Part],
) -> Result<(), AllocError>
    requires layers { first + length parts.old ≤ layers_in found.now }
    requires place { IsPlace found.now place }
    requires run { Covers found.now first place (length parts.old) run.now }
    requires blocks { HaveBlocks found.now place parts.old }
    ensures len { length parts.new ≡ length parts.old }
    ensures blocks { OnOk result (HaveBlocks found.now (place + 1) parts.new) }
    ensures told { OnOk result ((file : List ℕ) → IsRunOf found.now file first place run.now
        → HaveBlocksOf found.now file first place parts.old
        → HaveBlocksOf found.now file first (place + 1) parts.new) }
{
    for k in 0..parts.len() {
        push_place(found, first + k as u32, place, run, k, &mut parts[k])?;
    }
    Ok(())
}

// Fills a buffer with neighbouring sectors from `first` on. It is empty where there is no such sector.
fn read_sectors<D: Desk>(
    desk: &mut D,
    image: &str,
    extent: &Extent,
    first: u32,
    into: &mut [u8],
) -> Result<(), Failed>
    requires whole { length into.old % 2048 ≡ 0 }
    requires inside { 0 < length into.old → first + length into.old / 2048 ≤ extent.now.sectors }
    ensures reads { OnlyReads (D.state desk.old) (D.state desk.new) (is_err result) }
    ensures blocks { ReadsRun (D.state desk.old) image.now extent.now first into.new result }
{
    if into.is_empty() {
        return Ok(());
    }
    read_run(desk, image, extent, first, into)?;
    Ok(())
}

// Reads a place of the layers from `first` on, and puts it behind what was read of each of them.
pub fn read_place<D: Desk>(
    desk: &mut D,
    image: &str,
    found: &Found,
    first: u32,
    place: u32,
    buffer: &mut [u8],
    parts: &mut [Part],
) -> Result<(), WalkFault>
    requires layers { first + length parts.old ≤ layers_in found.now }
    requires place { IsPlace found.now place }
    requires room { 2048 * length parts.old ≤ length buffer.old }
    requires blocks { HaveBlocks found.now place parts.old }
    ensures reads { OnlyReads (D.state desk.old) (D.state desk.new) (is_walk_fault result) }
    ensures len { length parts.new ≡ length parts.old }
    ensures blocks { OnOk result (HaveBlocks found.now (place + 1) parts.new) }
    ensures told { InFile (D.state desk.old) image.now (λ file. OnOk result (
        HaveBlocksOf found.now file first place parts.old
        → HaveBlocksOf found.now file first (place + 1) parts.new)) }
{
    let shape = found.ecc.shape();
    let start = first + place * shape.layers();
    let left = shape.sectors().saturating_sub(start) as usize;
    let run = &mut buffer[..2048 * left.min(parts.len())];
    read_sectors(desk, image, &found.ecc.extent(), start, run)?;
    spread(found, first, place, run, parts)?;
    Ok(())
}
