//! What is told of a medium that was read by turns.
ghost use Rattle.std.specs.Prelude.{◌≡◌, ◌<◌, ◌%◌, ◌^◌, ◌++◌, IfOk, OnOk, length, option_to_list, slice_get, Some};
ghost use Rattle.rs01_linear.specs.Report.{is_told};
ghost use Rattle.rs01_linear.specs.declared.telling.Told.TheVariants as told;
ghost use Rattle.rs01_adaptive.specs.Noting.{
  flag_of,
  is_among,
  sectors_among,
  strange_noted,
  told_of,
};

use crate::noting::Noted;
use rs01_linear::{Fate, report};
use rs01_report::{ReadReport, SectorList, Strange, StrangeList, push_if};
use std::alloc::{AllocError, Global};

// The flag of a sector's layer, where there are layers.
fn flag_of(flags: &[bool], sector: u32) -> bool
    ensures { result ≡ flag_of flags.now sector }
{
    if flags.is_empty() {
        return false;
    }
    flags[sector as usize % flags.len()]
}

// Whether a sector with this fate wasn't kept or read.
fn is_missed(fate: Fate) -> bool
    ensures { result ≡ is_told told.Lost fate }
{
    match fate {
        Fate::Kept => false,
        Fate::Read => false,
        Fate::Unreadable => true,
        Fate::Altered => true,
        Fate::LeftOut => true,
    }
}

// Whether a sector is told as restored, or as lost.
fn is_among(fates: &[Fate], flags: &[bool], restored: bool, sector: u32) -> bool
    requires { sector < length fates.now }
    ensures { result ≡ is_among fates.now flags.now restored sector }
{
    let flag = flag_of(flags, sector);
    is_missed(fates[sector as usize]) && if restored { flag } else { !flag }
}

// The sectors that are told as restored, or as lost, rising.
fn sectors_among(
    alloc: Global,
    fates: &[Fate],
    flags: &[bool],
    restored: bool,
) -> Result<SectorList, AllocError>
    requires { length fates.now < 2 ^ 32 }
    ensures { IfOk result (λ list. list ≡ sectors_among fates.now flags.now restored) }
{
    let mut list = Vec::new(alloc);
    for sector in 0..fates.len() as u32 {
        push_if(&mut list, is_among(fates, flags, restored, sector), sector)?;
    }
    Ok(SectorList::of(list))
}

// Puts what makes a layer strange behind a list, where it is.
fn push_strange(list: &mut Vec<Strange>, strange: Option<Strange>) -> Result<(), AllocError>
    ensures { OnOk result (list.new.items ≡ list.old.items ++ option_to_list strange) }
{
    match strange {
        Some(strange) => {
            list.push(strange)?;
            Ok(())
        }
        None => Ok(()),
    }
}

// The strange layers, rising.
fn strange_noted(alloc: Global, noted: &[Option<Strange>]) -> Result<StrangeList, AllocError>
    ensures { IfOk result (λ list. list ≡ strange_noted noted.now) }
{
    let mut list = Vec::new(alloc);
    for strange in noted {
        push_strange(&mut list, *strange)?;
    }
    Ok(StrangeList::of(list))
}

/// What is told of a medium of which this became of each sector and this is kept of its layers, where so many asks were
/// counted and so many bytes stood behind the image.
pub fn told_of(
    alloc: Global,
    fates: &[Fate],
    noted: &Noted,
    asked: u64,
    surplus: u64,
) -> Result<ReadReport, AllocError>
    requires { length fates.now < 2 ^ 32 }
    ensures { IfOk result (λ told. told ≡ told_of fates.now noted.now asked surplus) }
{
    let mut told = report(alloc, fates, asked, surplus)?;
    told.restored = sectors_among(alloc, fates, &noted.restored, true)?;
    told.lost = sectors_among(alloc, fates, &noted.restored, false)?;
    told.strange = strange_noted(alloc, &noted.strange)?;
    Ok(told)
}
