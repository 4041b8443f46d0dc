//! What is told of a repaired image.
ghost use Rattle.std.specs.Prelude.{◌≡◌, ◌<◌, ◌&&◌, IfOk, filter, nat_lt};
ghost use Rattle.std.specs.List.{range_with_len};
ghost use Rattle.rs01_ecchead.specs.Erased.{image_len, known_of};
ghost use Rattle.rs01_repair.specs.Finding.{Sources, layers_in};
ghost use Rattle.rs01_fix.specs.Steps.{AreKept, HasRoom, IsToldOf, is_told};

use crate::repairs::Repairs;
use rs01_repair::Found;
use rs01_report::{FixReport, SectorList, StrangeList, push_if};
use std::alloc::{AllocError, Global};

// Whether a sector is told as restored, or as lost, by what was kept of all layers.
fn belongs(found: &Found, repairs: &Repairs, restored: bool, sector: u32) -> bool
    requires sector { sector < found.now.ecc.head.sectors }
    requires room { HasRoom found.now (layers_in found.now) repairs.now }
    ensures { (was : Sources found.now) → AreKept found.now was (layers_in found.now) repairs.now
        → result ≡ is_told restored found.now was sector }
{
    let is_erased = repairs.erased[sector as usize];
    let is_restored = repairs.restored[found.ecc.shape().layer_of(sector) as usize];
    is_erased && if restored { is_restored } else { !is_restored }
}

// The sectors that are told as restored, or as lost, rising.
fn told_sectors(
    alloc: Global,
    found: &Found,
    repairs: &Repairs,
    restored: bool,
) -> Result<SectorList, AllocError>
    requires { HasRoom found.now (layers_in found.now) repairs.now }
    ensures { (was : Sources found.now) → AreKept found.now was (layers_in found.now) repairs.now
        → IfOk result (λ list. list ≡ filter (is_told restored found.now was)
        (range_with_len 0 found.now.ecc.head.sectors)) }
{
    let mut list = Vec::new(alloc);
    for sector in 0..found.ecc.head().sectors {
        push_if(&mut list, belongs(found, repairs, restored, sector), sector)?;
    }
    Ok(SectorList::of(list))
}

// Whether bytes past the image are cut.
pub fn is_cut(found: &Found, cut: bool) -> bool
    ensures { let len = image_len (known_of found.now.ecc) in
        result ≡ (cut && nat_lt len found.now.size) }
{
    cut && found.ecc.extent().image_len() < found.size
}

// What is told of an image whose layers were repaired.
pub fn report(
    alloc: Global,
    found: &Found,
    repairs: Repairs,
    cut: bool,
) -> Result<FixReport, AllocError>
    requires { HasRoom found.now (layers_in found.now) repairs }
    ensures { (was : Sources found.now) → AreKept found.now was (layers_in found.now) repairs
        → IfOk result (IsToldOf found.now was cut) }
{
    let restored = told_sectors(alloc, found, &repairs, true)?;
    let lost = told_sectors(alloc, found, &repairs, false)?;
    let len = found.ecc.extent().image_len();
    Ok(FixReport {
        restored,
        lost,
        strange: StrangeList::of(repairs.strange),
        surplus: found.size.saturating_sub(len),
        cut: is_cut(found, cut),
    })
}
