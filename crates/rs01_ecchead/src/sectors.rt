//! Reading the sectors of a protected image.
ghost use Rattle.std.specs.Prelude.{◌≡◌, ◌+◌, ◌*◌, ◌<◌, ◌≤◌, ◌↔◌, IfOk, IsTrue, OnOk, is_err, length};
ghost use Rattle.rs01_outside.specs.DeskState.{InFile, OnlyReads};
ghost use Rattle.rs01_layers.specs.Sectors.{block, length_of};
ghost use Rattle.rs01_lists.specs.Bytes.{padded, part};

use crate::pieces::read_piece;
use rs01_layers::Extent;
use rs01_outside::{Desk, Failed};

// Reads bytes into the front of a buffer, and puts zeros behind them.
pub fn read_padded<D: Desk>(
    desk: &mut D,
    name: &str,
    at: u64,
    count: usize,
    into: &mut [u8],
) -> Result<(), Failed>
    requires { count ≤ length into.old }
    ensures reads { OnlyReads (D.state desk.old) (D.state desk.new) (is_err result) }
    ensures bytes { InFile (D.state desk.old) name.now
        (λ file. OnOk result (into.new ≡ padded (length into.old) (part file at count))) }
{
    let (front, rest) = into.split_at_mut(count);
    read_piece(desk, name, at, front)?;
    rest.fill(0);
    Ok(())
}

/// Reads the block of a sector of an image file: the sector's bytes, and zeros up to 2048. False exactly where the file,
/// which was found to have `size` bytes, is too short for the sector, and then nothing is said of what `into` holds.
pub fn sector_in<D: Desk>(
    desk: &mut D,
    name: &str,
    size: u64,
    extent: &Extent,
    sector: u32,
    into: &mut [u8; 2048],
) -> Result<bool, Failed>
    requires { sector < extent.now.sectors }
    ensures reads { OnlyReads (D.state desk.old) (D.state desk.new) (is_err result) }
    ensures there { let n = length_of extent.now.sectors extent.now.last_bytes sector in
        IfOk result (λ there. IsTrue there ↔ (2048 * sector + n ≤ size)) }
    ensures block { let n = length_of extent.now.sectors extent.now.last_bytes sector in
        InFile (D.state desk.old) name.now
        (λ file. IfOk result (λ there. IsTrue there → into.new ≡ block file sector n)) }
{
    let at = 2048 * u64::from(sector);
    let count = extent.length(sector);
    if size < at + u64::from(count) {
        return Ok(false);
    }
    read_padded(desk, name, at, count as usize, into)?;
    Ok(true)
}
