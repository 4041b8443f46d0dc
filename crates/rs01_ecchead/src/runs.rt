//! Reading many sectors of an image at once.
ghost use Rattle.std.specs.Prelude.{◌≡◌, ◌+◌, ◌/◌, ◌%◌, ◌≤◌, is_err, length};
ghost use Rattle.rs01_outside.specs.DeskState.{OnlyReads};
ghost use Rattle.rs01_ecchead.specs.Runs.{ReadsRun};

use crate::sectors::read_padded;
use rs01_layers::Extent;
use rs01_outside::{Desk, Failed};

/// Fills the whole of `into`, which has room for blocks of 2048 bytes, with the blocks of neighbouring sectors of an
/// image file from `first` on, by one call of the desk.
///
/// Zeros stand for the bytes that the file doesn't have, and for those behind the last sector's own ones, where the file
/// is longer than the image. It fails only where the desk fails to read, and then nothing is said of what `into` holds.
pub fn read_run<D: Desk>(
    desk: &mut D,
    name: &str,
    extent: &Extent,
    first: u32,
    into: &mut [u8],
) -> Result<(), Failed>
    requires whole { length into.old % 2048 ≡ 0 }
    requires inside { first + length into.old / 2048 ≤ extent.now.sectors }
    ensures reads { OnlyReads (D.state desk.old) (D.state desk.new) (is_err result) }
    ensures blocks { ReadsRun (D.state desk.old) name.now extent.now first into.new result }
{
    let at = 2048 * u64::from(first);
    let own = extent.image_len().saturating_sub(at);
    let count = own.min(into.len() as u64) as usize;
    read_padded(desk, name, at, count, into)?;
    Ok(())
}
