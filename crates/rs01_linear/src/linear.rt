//! Reading a medium into an image, in rising order.
ghost use Rattle.std.specs.Prelude.{◌≡◌, ◌≢◌, ◌≤◌, ◌-◌, ◌^◌, IfErr, length, min};
ghost use Rattle.std.specs.Option.{ForSome};
ghost use Rattle.rs01_linear.specs.Course.{IsManner};
ghost use Rattle.rs01_linear.specs.Lasting.{RackLasts};
ghost use Rattle.rs01_linear.specs.Linear.{TellsPrepared};
ghost use Rattle.rs01_linear.specs.Medium.{AnswersNamed};
ghost use Rattle.rs01_linear.specs.Outcome.{RefusesBy, TellsReading, UnreadableRose};
ghost use Rattle.rs01_linear.specs.Racks.{OnRack, seen_by};
ghost use Rattle.rs01_linear.specs.Report.{IsFresh};
ghost use Rattle.rs01_linear.specs.Spared.{StaysGood};
ghost use Rattle.rs01_linear.specs.Refusal.{IsOfWork, LeavesAll, TellsFaults, WorksBy};

use crate::medium::Medium;
use crate::opening::open_medium;
use crate::prepared::{Prepared, prepare};
use crate::reading::{RUN_BYTES, Reading, read_sectors};
use crate::refusal::ReadRefusal;
use crate::telling::report;
use rs01_outside::{Desk, Drive};
use rs01_rack::Rack;
use rs01_report::ReadReport;
use std::alloc::Global;

/// How many asks a rack counted since there were `before`, up to the last value of a u64.
pub fn asked_since(before: u128, rack: &Rack) -> u64
    ensures { let now = (seen_by ⟦<dyn Drive as Drive>⟧ rack.now).asks in
        result ≡ min (now - before) (2 ^ 64 - 1) }
{
    let more = rack.asks().saturating_sub(before);
    more.min(u128::from(u64::MAX)) as u64
}

// Reads a medium into an image file that is ready.
fn read_prepared<D: Desk>(
    alloc: Global,
    rack: &mut Rack,
    desk: &mut D,
    name: &str,
    medium: &Medium,
    jump: u32,
    tries: u32,
    prepared: Prepared,
) -> Result<ReadReport, ReadRefusal>
    requires fresh { IsFresh medium.now.extent.sectors prepared.fates.items }
    requires manner { IsManner jump tries }
    ensures works { WorksBy name.now (D.state desk.old) (D.state desk.new) result }
    ensures causes { IfErr result IsOfWork }
    ensures lasts { OnRack ⟦<dyn Drive as Drive>⟧ RackLasts rack.old rack.new }
    ensures unreadable { OnRack ⟦<dyn Drive as Drive>⟧ (UnreadableRose result) rack.old rack.new }
    ensures told { OnRack ⟦<dyn Drive as Drive>⟧ (TellsPrepared medium.now jump tries name.now
        prepared (D.state desk.old) (D.state desk.new) result) rack.old rack.new }
{
    let bytes = Vec::with_capacity(alloc, RUN_BYTES)?;
    let asks = rack.asks();
    let mut reading = Reading {
        next: 0,
        fates: prepared.fates,
        first: 0,
        bytes,
    };
    read_sectors(rack, desk, name, medium, jump, tries, &mut reading)?;
    let asked = asked_since(asks, rack);
    let surplus = prepared.size.saturating_sub(medium.extent.image_len());
    Ok(report(alloc, &reading.fates, asked, surplus)?)
}

/// Reads the medium in the drives into the image under the name `image`, by its error correction file where one is given.
///
/// The sectors are taken in rising order. One that the image file has good isn't asked for. After one that was asked for
/// and not read the next `jump - 1` are left out. Each drive is asked `tries` times at most. The image file is made where
/// it isn't there, and before the first ask each sector that isn't good gets its marker, in long runs. Neighbouring
/// sectors that are read go out by one write, of 64 sectors at most. Bytes past the image stay, and so do all other
/// files.
///
/// The refusals of the file and of the drives come first, in this order, and nothing has changed then. After a fault or
/// want of memory the drives were asked for the first sectors alone, and the image file is as it was, or its first bytes
/// are those of the marked file and the others those before, or its first bytes are those of the one that the whole
/// reading leaves and the others those of the marked file.
///
/// Whatever the drives give and however it ends, the image file isn't shorter than before, and the sectors that it had
/// good and the bytes past the image are the same, and no others come behind these. Each sector that is told to be
/// unreadable raised the count of faults of each drive, and a report is only given where the drives gave a number of
/// sectors. Where the desk tells its files, the error correction file is refused or opened as its bytes say.
pub fn read_linear<D: Desk>(
    alloc: Global,
    rack: &mut Rack,
    desk: &mut D,
    image: &str,
    ecc: Option<&str>,
    jump: u32,
    tries: u32,
) -> Result<ReadReport, ReadRefusal>
    requires names { ForSome ecc (λ name. image.now ≢ name.now) }
    requires manner { IsManner jump tries }
    ensures works { WorksBy image.now (D.state desk.old) (D.state desk.new) result }
    ensures lasts { OnRack ⟦<dyn Drive as Drive>⟧ RackLasts rack.old rack.new }
    ensures causes { IfErr result TellsFaults }
    ensures untouched { IfErr result (LeavesAll (D.state desk.old) (D.state desk.new)) }
    ensures unreadable { OnRack ⟦<dyn Drive as Drive>⟧ (UnreadableRose result) rack.old rack.new }
    ensures refused { OnRack ⟦<dyn Drive as Drive>⟧ (RefusesBy result) rack.old rack.new }
    ensures answers { AnswersNamed (D.state desk.old) ecc.entry result }
    ensures told { OnRack ⟦<dyn Drive as Drive>⟧ (TellsReading (D.state desk.old) (D.state desk.new)
        ecc.entry jump tries image.now result) rack.old rack.new }
    ensures stays { OnRack ⟦<dyn Drive as Drive>⟧ (StaysGood (D.state desk.old) (D.state desk.new)
        ecc.entry image.now) rack.old rack.new }
{
    let medium = open_medium(alloc, desk, ecc, rack)?;
    let prepared = prepare(alloc, desk, image, &medium)?;
    Ok(read_prepared(alloc, rack, desk, image, &medium, jump, tries, prepared)?)
}
