//! Scanning a medium: each sector is asked for once.
ghost use Rattle.std.specs.Prelude.{◌≡◌, ◌+◌, ◌<◌, ◌≤◌, IfErr, IfOk, IsTrue, OnOk, length};
ghost use Rattle.std.specs.Option.{ForSome, option_map};
ghost use Rattle.rs01_layers.specs.Layout.{layers_of};
ghost use Rattle.rs01_outside.specs.DeskState.{OnlyReads};
ghost use Rattle.rs01_rack.specs.Rack.{AllTell, views_of};
ghost use Rattle.rs01_linear.specs.Medium.{AnswersNamed};
ghost use Rattle.rs01_linear.specs.Racks.{seen_by};
ghost use Rattle.rs01_linear.specs.Refusal.{IsOfReading, is_read_fault};
ghost use Rattle.rs01_verify.specs.Fullness.{fullest_of};
ghost use Rattle.rs01_verify.specs.Scan.{IsScanOf, Scans};
ghost use Rattle.rs01_verify.specs.Scanned.{CountedFor, EndsAsking, IsBare, Keeps, TellsScan, condition_from};

use crate::fullest::fullest;
use crate::tally::Tally;
use rs01_ecchead::Condition;
use rs01_linear::{Asked, Medium, ReadRefusal, ask_sector, open_medium};
use rs01_outside::{Desk, Drive};
use rs01_rack::Rack;
use rs01_report::{Fullest, ScanReport, SectorList};
use std::alloc::{AllocError, Global};

// How a sector is found that was asked for: an unreadable one counts as missing.
fn condition_from(asked: Asked) -> Condition
    ensures { result ≡ condition_from asked }
{
    match asked {
        Asked::Read => Condition::Sound,
        Asked::Unreadable => Condition::Missing,
        Asked::Altered => Condition::Altered,
    }
}

// No sector, with a count for each layer where the medium has an error correction file.
fn bare_tally(alloc: Global, medium: &Medium) -> Result<Tally, AllocError>
    ensures { IfOk result (IsBare medium.now) }
{
    match medium.ecc() {
        Some(ecc) => Tally::new(alloc, ecc.shape().layers()),
        None => Tally::new(alloc, 0),
    }
}

// Adds a sector as it was found.
fn keep(medium: &Medium, sector: u32, found: Condition, tally: &mut Tally) -> Result<(), AllocError>
    requires below { sector < medium.now.extent.sectors }
    requires counted { CountedFor medium.now sector tally.old }
    ensures kept { OnOk result (Keeps medium.now sector found tally.old tally.new) }
    ensures counted { OnOk result (CountedFor medium.now (sector + 1) tally.new) }
{
    match medium.ecc() {
        Some(ecc) => tally.add(&ecc.shape(), sector, found),
        None => tally.list(sector, found),
    }
}

// Asks for each sector once, in rising order.
fn ask_all(alloc: Global, medium: &Medium, rack: &mut Rack) -> Result<Tally, AllocError>
    ensures { EndsAsking medium.now (seen_by ⟦<dyn Drive as Drive>⟧ rack.old)
        (seen_by ⟦<dyn Drive as Drive>⟧ rack.new) result }
{
    let mut tally = bare_tally(alloc, medium)?;
    let extent = medium.extent();
    let mut block = [0; 2048];
    for sector in 0..extent.sectors {
        let asked = ask_sector(rack, &extent, medium.sums(), sector, 1, &mut block);
        keep(medium, sector, condition_from(asked), &mut tally)?;
    }
    Ok(tally)
}

// How full the layers are, where the medium has an error correction file.
fn fullness(medium: &Medium, counts: &[u32]) -> Option<Fullest>
    requires { ForSome medium.now.ecc (λ ecc. length counts.now
        ≡ layers_of ecc.head.sectors ecc.head.parity) }
    ensures { result ≡ option_map (λ ecc. fullest_of counts.now ecc.head.parity) medium.now.ecc }
{
    match medium.ecc() {
        Some(ecc) => Some(fullest(counts, ecc.shape().parity())),
        None => None,
    }
}

// What is told of a medium whose sectors were all asked for.
fn report(medium: &Medium, tally: Tally) -> ScanReport
    requires { CountedFor medium.now medium.now.extent.sectors tally }
    ensures unreadable { result.unreadable ≡ tally.missing.items }
    ensures told { TellsScan medium.now tally result }
{
    let Tally {
        missing,
        altered,
        counts,
    } = tally;
    ScanReport {
        sectors: medium.extent().sectors,
        unreadable: SectorList::of(missing),
        altered: SectorList::of(altered),
        fullest: fullness(medium, &counts),
    }
}

/// Asks the drives for each sector of a medium once, in rising order and with one try a drive, and tells which sectors no
/// drive gave, and which came in no form that may stand for them.
///
/// With an error correction file, which is opened first, it has the number of sectors and their checksums, and it is told
/// how full its layers are of these sectors. The refusals are those of opening the medium, in their order, and want of
/// memory. No file changes.
///
/// Where the desk tells its files and all drives tell in the end, report, asks and refusals are those of the definition,
/// and after want of memory some first sectors were asked for. Whatever the drives tell, each unreadable sector raised each
/// drive's count of faults, a report is only given where they gave a number of sectors, and where the desk tells its files,
/// the error correction file is refused or opened as its bytes say. Every rack meets the condition.
pub fn scan<D: Desk>(
    alloc: Global,
    desk: &mut D,
    ecc: Option<&str>,
    rack: &mut Rack,
) -> Result<ScanReport, ReadRefusal>
    requires few { length rack.old.drives.items ≤ 65536 }
    ensures reads { OnlyReads (D.state desk.old) (D.state desk.new) (is_read_fault result) }
    ensures asked { Scans result (seen_by ⟦<dyn Drive as Drive>⟧ rack.old)
        (seen_by ⟦<dyn Drive as Drive>⟧ rack.new) }
    ensures causes { IfErr result IsOfReading }
    ensures answers { AnswersNamed (D.state desk.old) ecc.entry result }
    ensures answer { let drives = seen_by ⟦<dyn Drive as Drive>⟧ in
        IsTrue (D.state desk.old).tells → AllTell (drives rack.new)
        → IsScanOf (option_map (λ name. (D.state desk.old).files name.now) ecc.entry)
        (views_of (drives rack.old)) (views_of (drives rack.new)) result }
{
    let medium = open_medium(alloc, desk, ecc, rack)?;
    let tally = ask_all(alloc, &medium, rack)?;
    Ok(report(&medium, tally))
}
