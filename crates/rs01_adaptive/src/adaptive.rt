//! Reading a medium into an image by turns, on one thread and by several.
ghost use Rattle.std.specs.Prelude.{◌≢◌, ◌<◌, ◌≤◌, IfErr};
ghost use Rattle.std.specs.Option.{ForSome};
ghost use Rattle.rs01_linear.specs.Medium.{AnswersNamed};
ghost use Rattle.rs01_linear.specs.Outcome.{RefusesBy, UnreadableRose};
ghost use Rattle.rs01_linear.specs.Racks.{OnRack, seen_by};
ghost use Rattle.rs01_linear.specs.Lasting.{RackLasts};
ghost use Rattle.rs01_linear.specs.Refusal.{LeavesAll, TellsFaults, WorksBy};
ghost use Rattle.rs01_linear.specs.Report.{IsFresh};
ghost use Rattle.rs01_linear.specs.Spared.{StaysGood};
ghost use Rattle.rs01_adaptive.specs.ComesBack.{BringsBack};
ghost use Rattle.rs01_adaptive.specs.Outcome.{TellsReading};
ghost use Rattle.rs01_adaptive.specs.Preparing.{CanBegin, ReadsReady};

use crate::beginning::{Start, begin};
use crate::ending::finish;
use crate::working::{work_windows, work_windows_one};
use rs01_linear::{Prepared, ReadRefusal, open_medium, prepare};
use rs01_outside::{Desk, Drive, Gate};
use rs01_rack::Rack;
use rs01_reader::Setup;
use rs01_report::ReadReport;
use std::alloc::Global;
use std::sync::Wait;
use std::thread::Threads;

// Reads a medium into an image file that is ready, on the caller's thread.
fn read_prepared_one<D: Desk>(
    alloc: Global,
    rack: &mut Rack,
    desk: &mut D,
    setup: Setup,
    prepared: Prepared,
) -> Result<ReadReport, ReadRefusal>
    requires fresh { IsFresh setup.medium.now.extent.sectors prepared.fates.items }
    requires can { CanBegin setup (D.state desk.old) }
    ensures { OnRack ⟦<dyn Drive as Drive>⟧ (ReadsReady setup.entry prepared
        (D.state desk.old) (D.state desk.new) result) rack.old rack.new }
{
    let size = prepared.size;
    let asks = rack.asks();
    match begin(alloc, desk, setup.medium, prepared.fates) {
        Ok(
            Start {
                task,
                course,
                noted,
            },
        ) => {
            let (mut course, mut noted) = (course, noted);
            let ended = work_windows_one(alloc, &task, rack, desk, &mut course, &mut noted, &setup);
            finish(alloc, rack, &setup, size, asks, &course, &noted, ended)
        }
        Err(_) => Err(ReadRefusal::OutOfMemory),
    }
}

// The same by so many workers.
fn read_prepared<R: Threads + Wait + Sync, D: Desk, G: Gate>(
    rt: &R,
    alloc: Global,
    rack: &mut Rack,
    desk: &mut D,
    setup: Setup,
    prepared: Prepared,
    workers: u32,
    gate: &G,
) -> Result<ReadReport, ReadRefusal>
    requires some { 0 < workers }
    requires fresh { IsFresh setup.medium.now.extent.sectors prepared.fates.items }
    requires can { CanBegin setup (D.state desk.old) }
    ensures { OnRack ⟦<dyn Drive as Drive>⟧ (ReadsReady setup.entry prepared
        (D.state desk.old) (D.state desk.new) result) rack.old rack.new }
{
    let size = prepared.size;
    let asks = rack.asks();
    match begin(alloc, desk, setup.medium, prepared.fates) {
        Ok(
            Start {
                task,
                course,
                noted,
            },
        ) => {
            let (mut course, mut noted) = (course, noted);
            let ended = work_windows(
                rt,
                alloc,
                &task,
                rack,
                desk,
                &mut course,
                &mut noted,
                &setup,
                workers,
                gate,
            );
            finish(alloc, rack, &setup, size, asks, &course, &noted, ended)
        }
        Err(_) => Err(ReadRefusal::OutOfMemory),
    }
}

/// Reads the medium in the drives into the image under the name `image` by turns, by its error correction file where one
/// is given, on the caller's thread.
///
/// A turn takes the longest run of sectors that are still unread and asks for them from its middle on, or from its start
/// where it is the whole medium, until one fails or the next one isn't unread. Each drive is asked `tries` times at most. A
/// layer of the file is within its bound where at most as many of its sectors aren't good as a codeword has parity bytes:
/// none of its sectors is asked for from then on, and it is corrected once. So is a layer that is within its bound at the
/// start. The image file is made where it isn't there, before the first ask each sector that isn't good gets its marker,
/// and restored sectors are put in place. Bytes past the image stay, and so do all other files.
///
/// The refusals of the file and of the drives come first, in this order, and nothing has changed then. After a fault or
/// want of memory each drive was asked, from the start of the call on, for some first ones of its sectors, and each byte of
/// the image file is the one before, that of the marked file, or that of the file that the whole reading leaves.
///
/// Whatever the drives give and however it ends, the image file isn't shorter than before, and the sectors that it had
/// good and the bytes past the image are the same, and no others come behind these. Each sector that is told to be
/// unreadable raised the count of faults of each drive, and a report is only given where the drives gave a number of
/// sectors. Where the desk tells its files, the error correction file is refused or opened as its bytes say.
///
/// Where the error correction file is intact, and all that passes for a sector in the image file and in the drives is the
/// original's, every layer that is within its bound in the end is the original's again.
pub fn read_adaptive_one<D: Desk>(
    alloc: Global,
    rack: &mut Rack,
    desk: &mut D,
    image: &str,
    ecc: Option<&str>,
    tries: u32,
) -> Result<ReadReport, ReadRefusal>
    requires names { ForSome ecc (λ name. image.now ≢ name.now) }
    requires tries { (1 ≤ tries) × (tries ≤ 16) }
    ensures works { WorksBy image.now (D.state desk.old) (D.state desk.new) result }
    ensures lasts { OnRack ⟦<dyn Drive as Drive>⟧ RackLasts rack.old rack.new }
    ensures causes { IfErr result TellsFaults }
    ensures untouched { IfErr result (LeavesAll (D.state desk.old) (D.state desk.new)) }
    ensures unreadable { OnRack ⟦<dyn Drive as Drive>⟧ (UnreadableRose result) rack.old rack.new }
    ensures refused { OnRack ⟦<dyn Drive as Drive>⟧ (RefusesBy result) rack.old rack.new }
    ensures answers { AnswersNamed (D.state desk.old) ecc.entry result }
    ensures told { OnRack ⟦<dyn Drive as Drive>⟧ (TellsReading (D.state desk.old) (D.state desk.new)
        ecc.entry tries image.now result) rack.old rack.new }
    ensures comes_back { OnRack ⟦<dyn Drive as Drive>⟧ (BringsBack (D.state desk.old)
        (D.state desk.new) ecc.entry tries image.now result) rack.old rack.new }
    ensures stays { OnRack ⟦<dyn Drive as Drive>⟧ (StaysGood (D.state desk.old) (D.state desk.new)
        ecc.entry image.now) rack.old rack.new }
{
    let medium = open_medium(alloc, desk, ecc, rack)?;
    let prepared = prepare(alloc, desk, image, &medium)?;
    let setup = Setup {
        medium: &medium,
        image,
        ecc,
        tries,
    };
    Ok(read_prepared_one(alloc, rack, desk, setup, prepared)?)
}

/// The same by so many workers, of which the caller is the first: files, drives, report and refusals are those of
/// `read_adaptive_one`.
///
/// The caller alone uses desk and drives. The others correct layers while it asks the drives for the next ones. Nothing is
/// said of whether it returns, since it waits for the others.
pub fn read_adaptive<R: Threads + Wait + Sync, D: Desk, G: Gate>(
    rt: &R,
    alloc: Global,
    rack: &mut Rack,
    desk: &mut D,
    image: &str,
    ecc: Option<&str>,
    tries: u32,
    workers: u32,
    gate: &G,
) -> Result<ReadReport, ReadRefusal>
    requires names { ForSome ecc (λ name. image.now ≢ name.now) }
    requires tries { (1 ≤ tries) × (tries ≤ 16) }
    requires workers { (1 ≤ workers) × (workers ≤ 32) }
    ensures works { WorksBy image.now (D.state desk.old) (D.state desk.new) result }
    ensures lasts { OnRack ⟦<dyn Drive as Drive>⟧ RackLasts rack.old rack.new }
    ensures causes { IfErr result TellsFaults }
    ensures untouched { IfErr result (LeavesAll (D.state desk.old) (D.state desk.new)) }
    ensures unreadable { OnRack ⟦<dyn Drive as Drive>⟧ (UnreadableRose result) rack.old rack.new }
    ensures refused { OnRack ⟦<dyn Drive as Drive>⟧ (RefusesBy result) rack.old rack.new }
    ensures answers { AnswersNamed (D.state desk.old) ecc.entry result }
    ensures told { OnRack ⟦<dyn Drive as Drive>⟧ (TellsReading (D.state desk.old) (D.state desk.new)
        ecc.entry tries image.now result) rack.old rack.new }
    ensures comes_back { OnRack ⟦<dyn Drive as Drive>⟧ (BringsBack (D.state desk.old)
        (D.state desk.new) ecc.entry tries image.now result) rack.old rack.new }
    ensures stays { OnRack ⟦<dyn Drive as Drive>⟧ (StaysGood (D.state desk.old) (D.state desk.new)
        ecc.entry image.now) rack.old rack.new }
{
    let medium = open_medium(alloc, desk, ecc, rack)?;
    let prepared = prepare(alloc, desk, image, &medium)?;
    let setup = Setup {
        medium: &medium,
        image,
        ecc,
        tries,
    };
    Ok(read_prepared(rt, alloc, rack, desk, setup, prepared, workers, gate)?)
}
