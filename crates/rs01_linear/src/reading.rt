//! Passing the sectors of a medium in rising order.
ghost use Rattle.std.specs.Prelude.{◌≡◌, ◌<◌, ◌++◌, OnOk, length, take};
ghost use Rattle.rs01_layers.specs.Sectors.{length_of};
ghost use Rattle.rs01_linear.specs.Medium.{known_of};
ghost use Rattle.rs01_linear.specs.Racks.{OnRack};
ghost use Rattle.rs01_linear.specs.Refusal.{Writes};
ghost use Rattle.rs01_linear.specs.Course.{IsManner, fate_of};

use crate::asking::{Asked, ask_sector};
use crate::fate::Fate;
use crate::marking::is_left_out;
use crate::medium::Medium;
use crate::refusal::ReadRefusal;
use rs01_layers::Extent;
use rs01_outside::{Desk, Drive, Failed};
use rs01_rack::Rack;
use std::alloc::AllocError;

// How many bytes of neighbouring sectors are written at once.
pub const RUN_BYTES: usize = 64 * 2048;

// What is kept while a medium is read: the first sector that may be asked for, what became of each, and the run of
// sectors that were read and aren't written yet: its first one and its bytes.
#[derive(Drop)]
pub struct Reading {
    pub next: u32,
    pub fates: Vec<Fate>,
    pub first: u32,
    pub bytes: Vec<u8>,
}

ghost use Rattle.rs01_linear.specs.Standing.{Begins, HasRun, Keeps, TellsPut};
ghost use Rattle.rs01_linear.specs.Standing.{TellsPass, TellsPasses, TellsTake};

// What becomes of a sector that was asked for.
fn fate_of(asked: Asked) -> Fate
    ensures { result ≡ fate_of asked }
{
    match asked {
        Asked::Read => Fate::Read,
        Asked::Unreadable => Fate::Unreadable,
        Asked::Altered => Fate::Altered,
    }
}

// Takes a sector: one that is good or left out stays as it is, and any other one is asked for. Tells whether it was
// read, and then its block is in `block`.
fn take_sector(
    rack: &mut Rack,
    medium: &Medium,
    jump: u32,
    tries: u32,
    sector: u32,
    block: &mut [u8; 2048],
    reading: &mut Reading,
) -> bool
    requires sector { sector < medium.now.extent.sectors }
    requires all { length reading.old.fates.items ≡ medium.now.extent.sectors }
    requires manner { IsManner jump tries }
    ensures kept { OnRack ⟦<dyn Drive as Drive>⟧ (Keeps reading.old reading.new) rack.old rack.new }
    ensures told { OnRack ⟦<dyn Drive as Drive>⟧ (TellsTake medium.now sector jump tries
        block.new reading.old reading.new result) rack.old rack.new }
{
    if !is_left_out(reading.fates[sector as usize]) {
        return false;
    }
    if sector < reading.next {
        return false;
    }
    let asked = ask_sector(rack, &medium.extent, medium.sums(), sector, tries, block);
    reading.fates[sector as usize] = fate_of(asked);
    match asked {
        Asked::Read => true,
        Asked::Unreadable | Asked::Altered => {
            reading.next = sector + jump;
            false
        }
    }
}

// Puts a sector's own bytes behind those of the run.
fn gather(
    extent: &Extent,
    sector: u32,
    block: &[u8; 2048],
    bytes: &mut Vec<u8>,
) -> Result<(), AllocError>
    requires { sector < extent.now.sectors }
    ensures { let n = length_of extent.now.sectors extent.now.last_bytes sector in
        OnOk result (bytes.new.items ≡ bytes.old.items ++ take n block.now) }
{
    bytes.extend_from_slice(&block[..extent.length(sector) as usize])?;
    Ok(())
}

// Writes the run, which ends before a sector, and begins an empty one there.
fn flush<D: Desk>(
    desk: &mut D,
    name: &str,
    past: u32,
    reading: &mut Reading,
) -> Result<(), ReadRefusal>
    ensures writes { Writes name.now (D.state desk.old) (D.state desk.new) result }
    ensures fates { reading.new.fates.items ≡ reading.old.fates.items }
    ensures begins { OnOk result (Begins past reading.old reading.new) }
    ensures put { TellsPut name.now past (D.state desk.old) (D.state desk.new) reading.old result }
{
    if reading.first < past {
        match desk.write_at(name, 2048 * u64::from(reading.first), &reading.bytes) {
            Ok(()) => {}
            Err(Failed) => return Err(ReadRefusal::WriteFault),
        }
    }
    reading.bytes.clear();
    reading.first = past;
    Ok(())
}

// Passes a sector. One that was read goes behind those of the run, which is written when it is full or the sector
// wasn't read.
fn pass_sector<D: Desk>(
    rack: &mut Rack,
    desk: &mut D,
    name: &str,
    medium: &Medium,
    jump: u32,
    tries: u32,
    sector: u32,
    reading: &mut Reading,
) -> Result<(), ReadRefusal>
    requires sector { sector < medium.now.extent.sectors }
    requires run { HasRun (known_of medium.now) sector reading.old }
    requires manner { IsManner jump tries }
    ensures writes { Writes name.now (D.state desk.old) (D.state desk.new) result }
    ensures kept { OnRack ⟦<dyn Drive as Drive>⟧ (Keeps reading.old reading.new) rack.old rack.new }
    ensures told { OnRack ⟦<dyn Drive as Drive>⟧ (TellsPass medium.now sector jump tries name.now
        (D.state desk.old) (D.state desk.new) reading.old reading.new result) rack.old rack.new }
{
    let mut block = [0u8; 2048];
    if !take_sector(rack, medium, jump, tries, sector, &mut block, reading) {
        flush(desk, name, sector, reading)?;
        reading.first = sector + 1;
        return Ok(());
    }
    gather(&medium.extent, sector, &block, &mut reading.bytes)?;
    if reading.bytes.len() < RUN_BYTES {
        return Ok(());
    }
    flush(desk, name, sector + 1, reading)?;
    Ok(())
}

// Passes all sectors in rising order.
pub fn read_sectors<D: Desk>(
    rack: &mut Rack,
    desk: &mut D,
    name: &str,
    medium: &Medium,
    jump: u32,
    tries: u32,
    reading: &mut Reading,
) -> Result<(), ReadRefusal>
    requires run { HasRun (known_of medium.now) 0 reading.old }
    requires manner { IsManner jump tries }
    ensures writes { Writes name.now (D.state desk.old) (D.state desk.new) result }
    ensures kept { OnRack ⟦<dyn Drive as Drive>⟧ (Keeps reading.old reading.new) rack.old rack.new }
    ensures told { OnRack ⟦<dyn Drive as Drive>⟧ (TellsPasses medium.now jump tries name.now
        (D.state desk.old) (D.state desk.new) reading.old reading.new result) rack.old rack.new }
{
    for sector in 0..medium.extent.sectors {
        pass_sector(rack, desk, name, medium, jump, tries, sector, reading)?;
    }
    flush(desk, name, medium.extent.sectors, reading)?;
    Ok(())
}
