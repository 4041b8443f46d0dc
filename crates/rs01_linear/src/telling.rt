//! What is told of a medium that was read.
ghost use Rattle.std.specs.Prelude.{◌≡◌, ◌<◌, ◌^◌, IfOk, length};

use crate::fate::Fate;
use rs01_report::{ReadReport, SectorList, StrangeList, push_if};
use std::alloc::{AllocError, Global};

// Which sectors are told together.
#[derive(Clone, Copy)]
pub enum Told {
    Kept,
    Read,
    Unreadable,
    Altered,
    NotAsked,
    Lost,
}

ghost use Rattle.rs01_linear.specs.Report.{is_told, number_told, report_of, sectors_told};

// Whether a sector with this fate is told among these.
fn is_told(kind: Told, fate: Fate) -> bool
    ensures { result ≡ is_told kind fate }
{
    match kind {
        Told::Kept => matches!(fate, Fate::Kept),
        Told::Read => matches!(fate, Fate::Read),
        Told::Unreadable => matches!(fate, Fate::Unreadable),
        Told::Altered => matches!(fate, Fate::Altered),
        Told::NotAsked => matches!(fate, Fate::LeftOut),
        Told::Lost => match fate {
            Fate::Kept => false,
            Fate::Read => false,
            Fate::Unreadable => true,
            Fate::Altered => true,
            Fate::LeftOut => true,
        },
    }
}

// The sectors that are told among these, rising.
fn sectors_told(alloc: Global, fates: &[Fate], kind: Told) -> Result<SectorList, AllocError>
    requires { length fates.now < 2 ^ 32 }
    ensures { IfOk result (λ list. list ≡ sectors_told fates.now kind) }
{
    let mut list = Vec::new(alloc);
    for sector in 0..fates.len() as u32 {
        push_if(&mut list, is_told(kind, fates[sector as usize]), sector)?;
    }
    Ok(SectorList::of(list))
}

// How many sectors are told among these.
fn number_told(fates: &[Fate], kind: Told) -> u32
    requires { length fates.now < 2 ^ 32 }
    ensures { result ≡ number_told fates.now kind }
{
    let mut number = 0u32;
    for sector in 0..fates.len() {
        if is_told(kind, fates[sector]) {
            number += 1;
        }
    }
    number
}

/// What is told of a medium of which this became of each sector, where no sector was restored, so many asks were counted
/// and so many bytes stood behind the image.
pub fn report(
    alloc: Global,
    fates: &[Fate],
    asked: u64,
    surplus: u64,
) -> Result<ReadReport, AllocError>
    requires { length fates.now < 2 ^ 32 }
    ensures { IfOk result (λ told. told ≡ report_of fates.now asked surplus) }
{
    Ok(ReadReport {
        sectors: fates.len() as u32,
        asked,
        kept: number_told(fates, Told::Kept),
        read: number_told(fates, Told::Read),
        unreadable: sectors_told(alloc, fates, Told::Unreadable)?,
        altered: sectors_told(alloc, fates, Told::Altered)?,
        not_asked: sectors_told(alloc, fates, Told::NotAsked)?,
        restored: SectorList::of(Vec::new(alloc)),
        lost: sectors_told(alloc, fates, Told::Lost)?,
        strange: StrangeList::of(Vec::new(alloc)),
        surplus,
    })
}
