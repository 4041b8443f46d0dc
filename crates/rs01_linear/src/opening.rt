//! Opening a medium.
ghost use Rattle.std.specs.Prelude.{◌≤◌, IfErr, IfOk, length};
ghost use Rattle.rs01_outside.specs.DeskState.{OnlyReads};
ghost use Rattle.rs01_linear.specs.Medium.{AnswersNamed, Finds, IsGiven, MakesMedium, TellsFound, TellsKnown, TellsOpened};
ghost use Rattle.rs01_linear.specs.Racks.{OnRack};
ghost use Rattle.rs01_linear.specs.Refusal.{IsOfOpening, IsOfReading, is_read_fault};

use crate::medium::Medium;
use crate::refusal::ReadRefusal;
use rs01_ecchead::{Ecc, open_ecc};
use rs01_layers::Extent;
use rs01_outside::{Desk, Drive};
use rs01_rack::Rack;
use std::alloc::Global;

// Opens the error correction file, where one is given.
fn open_given<D: Desk>(
    alloc: Global,
    desk: &mut D,
    ecc: Option<&str>,
) -> Result<Option<Ecc>, ReadRefusal>
    ensures reads { OnlyReads (D.state desk.old) (D.state desk.new) (is_read_fault result) }
    ensures told { TellsOpened (D.state desk.old) ecc.entry result }
    ensures given { IfOk result (IsGiven ecc.entry) }
    ensures causes { IfErr result IsOfOpening }
{
    let Some(name) = ecc else {
        return Ok(None);
    };
    Ok(Some(open_ecc(alloc, desk, name)?))
}

// The medium of an opened error correction file, or else of so many sectors.
fn medium_of(ecc: Option<Ecc>, number: u32) -> Result<Medium, ReadRefusal>
    ensures { MakesMedium ecc number result }
{
    match ecc {
        Some(ecc) => Ok(Medium {
            extent: ecc.extent(),
            ecc: Some(ecc),
        }),
        None => {
            if number == 0 || number > 16_777_215 {
                return Err(ReadRefusal::DriveSize(number));
            }
            Ok(Medium {
                extent: Extent {
                    sectors: number,
                    last_bytes: 2048,
                },
                ecc: None,
            })
        }
    }
}

/// Opens a medium: its error correction file, where one is given, and then the number of sectors that its drives agree
/// on. Without a file that number says how far the medium goes, and with one it isn't compared.
///
/// The refusals come in this order: those of the file, those of the drives, and without a file a number of sectors that
/// is 0 or above 16,777,215. No file changes, and no sector is asked for. Where the desk tells its files, the file is
/// refused or opened as its bytes say, whatever the drives tell. Every rack meets the condition.
pub fn open_medium<D: Desk>(
    alloc: Global,
    desk: &mut D,
    ecc: Option<&str>,
    rack: &mut Rack,
) -> Result<Medium, ReadRefusal>
    requires few { length rack.old.drives.items ≤ 65536 }
    ensures reads { OnlyReads (D.state desk.old) (D.state desk.new) (is_read_fault result) }
    ensures asked { OnRack ⟦<dyn Drive as Drive>⟧ (Finds result) rack.old rack.new }
    ensures told { let finds = TellsFound (D.state desk.old) ecc.entry result in
        OnRack ⟦<dyn Drive as Drive>⟧ finds rack.old rack.new }
    ensures opened { TellsKnown (D.state desk.old) ecc.entry result }
    ensures answers { AnswersNamed (D.state desk.old) ecc.entry result }
    ensures given { IfOk result (λ medium. IsGiven ecc.entry medium.ecc) }
    ensures causes { IfErr result IsOfReading }
{
    let opened = open_given(alloc, desk, ecc)?;
    let number = rack.sectors()?;
    medium_of(opened, number)
}
