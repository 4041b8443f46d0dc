//! Asking the drives for a sector.
ghost use Rattle.std.specs.Prelude.{◌<◌, ◌≤◌, IsErr, length, map};
ghost use Rattle.rs01_rack.specs.Rack.{AllRose, ChangesAt};
ghost use Rattle.rs01_rack.specs.State.{rack_state};
ghost use Rattle.rs01_rack.specs.Asking.{HasTried, Reads, ReadsFrom};

use crate::rack::Rack;
use crate::refusal::AllFailed;
use rs01_outside::{Drive, Failed};

// One read of one drive.
fn read_box(drive: &mut Box<dyn Drive>, sector: u32, into: &mut [u8; 2048]) -> Result<(), Failed>
    ensures { Reads sector into.new result (state drive.old) (state drive.new) }
{
    drive.read(sector, into)
}

// Asks one drive until it gives the block, `tries` times at most. Gives at which try the block
// came, counted from 1.
fn try_box(
    drive: &mut Box<dyn Drive>,
    sector: u32,
    tries: u32,
    into: &mut [u8; 2048],
) -> Result<u32, Failed>
    requires { 1 ≤ tries }
    ensures { HasTried sector tries into.new result (state drive.old) (state drive.new) }
{
    for failed in 0..tries {
        match read_box(drive, sector, into) {
            Ok(()) => return Ok(failed + 1),
            Err(Failed) => {}
        }
    }
    Err(Failed)
}

// Tries the drive at a place.
fn try_place(
    drives: &mut Vec<Box<dyn Drive>>,
    place: usize,
    sector: u32,
    tries: u32,
    into: &mut [u8; 2048],
) -> Result<u32, Failed>
    requires inside { place < length drives.old.items }
    requires some { 1 ≤ tries }
    ensures { ChangesAt place (HasTried sector tries into.new result)
        (map state drives.old.items) (map state drives.new.items) }
{
    try_box(&mut drives[place], sector, tries, into)
}

impl Rack {
    /// Asks the drives for a sector, from the drive with the number `first` on, each until it gives
    /// the block and `tries` times at most. Gives the number of the first drive that gave it, with
    /// the block in `into`.
    ///
    /// The drives before it gave no block and their counts of faults rose, those after it weren't
    /// asked. `AllFailed` comes where none from `first` on gave it: each was asked `tries` times,
    /// and its count rose. Where no drive stands there, nothing is asked. After a refusal `into`
    /// holds anything. A drive that tells did what its view says.
    pub fn read_from(
        &mut self,
        first: usize,
        sector: u32,
        tries: u32,
        into: &mut [u8; 2048],
    ) -> Result<usize, AllFailed>
        requires { 1 ≤ tries }
        ensures asked { ReadsFrom first sector tries into.new
            (rack_state state self.old) (rack_state state self.new) result }
        ensures cause { IsErr result
            → AllRose first (rack_state state self.old) (rack_state state self.new) }
    {
        for place in first..self.drives.len() {
            match try_place(&mut self.drives, place, sector, tries, into) {
                Ok(count) => {
                    self.asks = self.asks.saturating_add(u128::from(count));
                    return Ok(place);
                }
                Err(Failed) => self.asks = self.asks.saturating_add(u128::from(tries)),
            }
        }
        Err(AllFailed)
    }
}
