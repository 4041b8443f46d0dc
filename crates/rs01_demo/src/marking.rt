//! Marking the first sectors of an image as missing.
ghost use Rattle.std.specs.Prelude.{◌≤◌, IsTrue, is_err};
ghost use Rattle.rs01_outside.specs.DeskState.{OnlyChanges};
ghost use Rattle.rs01_demo.specs.Steps.{Marks};

use rs01_outside::{Desk, Failed};
use rs01_sums::marker;

// Puts the markers of the first sectors in place, each by a call of its own.
pub fn mark_sectors<D: Desk>(desk: &mut D, name: &str, lost: u32) -> Result<(), Failed>
    ensures changes { OnlyChanges name.now (D.state desk.old) (D.state desk.new) (is_err result) }
    ensures marked { IsTrue (D.state desk.old).tells → Marks lost name.now
        (D.state desk.old).files (D.state desk.new).files result }
{
    let mut block = [0u8; 2048];
    for sector in 0..lost {
        marker(sector, &mut block);
        match desk.write_at(name, 2048 * u64::from(sector), &block) {
            Ok(()) => {}
            Err(Failed) => return Err(Failed),
        }
    }
    Ok(())
}
