//! Putting the markers of all sectors that aren't good, before anything is asked for.
ghost use Rattle.std.specs.Prelude.{◌≡◌, ◌<◌, ◌≤◌, ◌++◌, IfOk, OnOk, length, take};
ghost use Rattle.rs01_layers.specs.Sectors.{length_of};
ghost use Rattle.rs01_sums.specs.Marker.{marker};
ghost use Rattle.rs01_linear.specs.Marking.{IsRun, Marks, is_left_out, markers_of};
ghost use Rattle.rs01_linear.specs.Refusal.{Writes};

use crate::fate::Fate;
use crate::refusal::ReadRefusal;
use rs01_layers::Extent;
use rs01_outside::{Desk, Failed};
use rs01_sums::marker;
use std::alloc::{AllocError, Global};

// How many sectors are written at once.
const RUN: u32 = 64;

// Whether a sector isn't good and wasn't asked for.
pub fn is_left_out(fate: Fate) -> bool
    ensures { result ≡ is_left_out fate }
{
    match fate {
        Fate::Kept => false,
        Fate::Read => false,
        Fate::Unreadable => false,
        Fate::Altered => false,
        Fate::LeftOut => true,
    }
}

// Where a run of sectors that aren't good ends, which begins with the first.
fn run_end(fates: &[Fate], sectors: u32, first: u32) -> u32
    requires inside { first < sectors }
    requires all { length fates.now ≡ sectors }
    ensures { IsRun fates.now first result }
{
    let most = (sectors - first).min(RUN);
    for sector in first..first + most {
        if !is_left_out(fates[sector as usize]) {
            return sector;
        }
    }
    first + most
}

// Puts the marker of a sector behind others.
fn push_marker(extent: &Extent, sector: u32, bytes: &mut Vec<u8>) -> Result<(), AllocError>
    requires { sector < extent.now.sectors }
    ensures { let n = length_of extent.now.sectors extent.now.last_bytes sector in
        OnOk result (bytes.new.items ≡ bytes.old.items ++ take n (marker sector)) }
{
    let mut block = [0u8; 2048];
    marker(sector, &mut block);
    bytes.extend_from_slice(&block[..extent.length(sector) as usize])?;
    Ok(())
}

// The markers of neighbouring sectors, and nothing else.
fn fill_markers(
    extent: &Extent,
    first: u32,
    past: u32,
    bytes: &mut Vec<u8>,
) -> Result<(), AllocError>
    requires order { first ≤ past }
    requires inside { past ≤ extent.now.sectors }
    ensures { OnOk result (bytes.new.items ≡ markers_of extent.now first past) }
{
    bytes.clear();
    for sector in first..past {
        push_marker(extent, sector, bytes)?;
    }
    Ok(())
}

// Marks a run of sectors that aren't good, or passes a sector that is. Gives the sector behind it.
fn mark_run<D: Desk>(
    desk: &mut D,
    name: &str,
    extent: &Extent,
    fates: &[Fate],
    first: u32,
    bytes: &mut Vec<u8>,
) -> Result<u32, ReadRefusal>
    requires first { first < extent.now.sectors }
    requires all { length fates.now ≡ extent.now.sectors }
    ensures past { IfOk result (λ past. (first < past) × (past ≤ extent.now.sectors)) }
    ensures writes { Writes name.now (D.state desk.old) (D.state desk.new) result }
    ensures marked { Marks extent.now fates.now name.now first (λ past. past)
        (D.state desk.old) (D.state desk.new) result }
{
    let past = run_end(fates, extent.sectors, first);
    if past == first {
        return Ok(first + 1);
    }
    fill_markers(extent, first, past, bytes)?;
    match desk.write_at(name, 2048 * u64::from(first), bytes) {
        Ok(()) => Ok(past),
        Err(Failed) => Err(ReadRefusal::WriteFault),
    }
}

// Marks all sectors that aren't good.
pub fn put_markers<D: Desk>(
    alloc: Global,
    desk: &mut D,
    name: &str,
    extent: &Extent,
    fates: &[Fate],
) -> Result<(), ReadRefusal>
    requires all { length fates.now ≡ extent.now.sectors }
    ensures writes { Writes name.now (D.state desk.old) (D.state desk.new) result }
    ensures marked { Marks extent.now fates.now name.now 0 (λ _. extent.now.sectors)
        (D.state desk.old) (D.state desk.new) result }
{
    let mut bytes = Vec::with_capacity(alloc, 2048 * RUN as usize)?;
    let mut first = 0u32;
    while first < extent.sectors {
        first = mark_run(desk, name, extent, fates, first, &mut bytes)?;
    }
    Ok(())
}
