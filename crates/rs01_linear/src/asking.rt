//! Asking the drives for a sector until one gives a block that may stand for it.
ghost use Rattle.std.specs.Prelude.{◌≡◌, ◌<◌, ◌≤◌, length, take};
ghost use Rattle.std.specs.Option.{ForSome, option_map};
ghost use Rattle.rs01_lists.specs.Bytes.{padded};
ghost use Rattle.rs01_rack.specs.Rack.{AllRose};
ghost use Rattle.rs01_linear.specs.Asking.{Asks, known_with};
ghost use Rattle.rs01_linear.specs.Racks.{OnRack};

use rs01_layers::Extent;
use rs01_outside::Drive;
use rs01_rack::{AllFailed, Rack};
use rs01_sums::{Sums, usable};

/// What came of asking for a sector.
#[derive(Clone, Copy, PartialEq, Eq, Debug)]
pub enum Asked {
    /// A drive gave a block that may stand for it.
    Read,
    /// No drive answered.
    Unreadable,
    /// A drive answered, and none with a block that may stand for it.
    Altered,
}

ghost use Rattle.rs01_linear.specs.declared.asking.Asked.TheVariants.{Unreadable};

// Keeps a sector's own bytes of a block, and puts zeros behind them.
fn keep_own(len: u32, block: &mut [u8; 2048])
    requires { len ≤ 2048 }
    ensures { block.new ≡ padded 2048 (take len block.old) }
{
    let (_own, rest) = block.split_at_mut(len as usize);
    rest.fill(0);
}

/// Asks the drives for a sector, in their order and each up to `tries` times, until one gives a block that may stand
/// for it: cut to the sector's own bytes and with zeros behind them it isn't the sector's marker and, where checksums
/// are given, has the recorded one. An answer that may not stand for it isn't asked for again at that drive.
///
/// After `Read` that block is in `into`, and else `into` holds anything. Where all drives tell, the answer and what was
/// asked are those of the definition. `Unreadable` comes only where the count of each drive rose. Takes no memory.
pub fn ask_sector(
    rack: &mut Rack,
    extent: &Extent,
    sums: Option<&Sums>,
    sector: u32,
    tries: u32,
    into: &mut [u8; 2048],
) -> Asked
    requires inside { sector < extent.now.sectors }
    requires recorded { ForSome sums (λ kept. sector < length kept.now.list) }
    requires some { 1 ≤ tries }
    ensures asked { let sums = option_map (λ kept. kept.now.list) sums.entry in
        let asks = Asks (known_with extent.now sums) sector tries into.new result in
        OnRack ⟦<dyn Drive as Drive>⟧ asks rack.old rack.new }
    ensures cause { result ≡ Unreadable
        → OnRack ⟦<dyn Drive as Drive>⟧ (AllRose 0) rack.old rack.new }
{
    let mut first = 0;
    let mut answered = false;
    loop {
        match rack.read_from(first, sector, tries, into) {
            Ok(place) => {
                keep_own(extent.length(sector), into);
                if usable(sums, sector, into) {
                    return Asked::Read;
                }
                answered = true;
                first = place + 1;
            }
            Err(AllFailed) => {
                return if answered {
                    Asked::Altered
                } else {
                    Asked::Unreadable
                };
            }
        }
    }
}
