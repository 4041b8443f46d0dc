//! What is kept of the layers that were repaired.
ghost use Rattle.std.specs.Prelude.{◌≡◌, ◌≢◌, ◌+◌, ◌<◌, Bool, List, OnOk, IfOk, length, option_to_list, ℕ, slice_index_or, false};
ghost use Rattle.rs01_layers.specs.Layout.{layer_of};
ghost use Rattle.rs01_repair.specs.Finding.{IsLayer, IsPlaceOf, fields_in, places_in};
ghost use Rattle.rs01_repair.specs.Inputs.{flags_at};
ghost use Rattle.rs01_repair.specs.Restored.{NamesSector};
ghost use Rattle.rs01_fix.specs.Repair.{strange_in};

use rs01_layers::LayerOut;
use rs01_repair::{Found, layer_is_restored};
use rs01_report::{Strange, Why};
use std::alloc::{AllocError, Global};

/// What is kept of the answers to the layers that were repaired.
#[derive(Drop)]
pub struct Repairs {
    // a flag of each sector, set where it was erased and its layer is among those that were repaired
    pub erased: Vec<bool>,
    // a flag of each layer, set where it is restored
    pub restored: Vec<bool>,
    // the layers that weren't restored though their erased sectors are few enough
    pub strange: Vec<Strange>,
}

ghost use Rattle.rs01_fix.specs.Steps.{Adds, FlagsLayer, FlagsPlace, KeepsNothing};

// Nothing yet, with room for a flag of each sector.
pub fn no_repairs(alloc: Global, found: &Found) -> Result<Repairs, AllocError>
    ensures { IfOk result (KeepsNothing found.now) }
{
    let sectors = found.ecc.head().sectors as usize;
    Ok(Repairs {
        erased: vec![in alloc; false; sectors]?,
        restored: Vec::new(alloc),
        strange: Vec::new(alloc),
    })
}

// Why a layer is strange, if it is.
fn strange_of(found: &Found, layer: u32, answer: &LayerOut) -> Option<Strange>
    requires layer { IsLayer found.now layer }
    requires names { NamesSector (fields_in found.now) layer answer.now }
    ensures { option_to_list result ≡ strange_in (fields_in found.now) layer answer.now }
{
    match answer {
        LayerOut::Inconsistent(codeword) => Some(Strange {
            layer,
            why: Why::Codeword(*codeword),
        }),
        LayerOut::BadSum(place) => Some(Strange {
            layer,
            why: Why::Sum(layer + *place * found.ecc.shape().layers()),
        }),
        LayerOut::Parity(_) | LayerOut::Restored(_) | LayerOut::Beyond(_) => None,
    }
}

// Flags the sector at a place of a layer.
fn flag_place(found: &Found, layer: u32, place: u32, flag: bool, erased: &mut [bool])
    requires place { IsPlaceOf found.now layer place }
    requires room { length erased.old ≡ found.now.ecc.head.sectors }
    ensures { FlagsPlace found.now layer place flag erased.old erased.new }
{
    match found.ecc.shape().sector_at(layer, place) {
        Some(sector) => erased[sector as usize] = flag,
        None => {}
    }
}

// Flags the sectors of a layer by the flags of its places.
fn flag_layer(found: &Found, layer: u32, flags: &[bool], erased: &mut [bool])
    requires layer { IsLayer found.now layer }
    requires flags { length flags.now ≡ places_in found.now }
    requires room { length erased.old ≡ found.now.ecc.head.sectors }
    ensures { FlagsLayer found.now layer flags.now erased.old erased.new }
{
    for place in 0..found.ecc.shape().data() {
        flag_place(found, layer, place, flags[place as usize], erased);
    }
}

impl Repairs {
    // Flags the sectors of a layer by the flags of its places.
    pub fn flag(&mut self, found: &Found, layer: u32, flags: &[bool])
        requires layer { IsLayer found.now layer }
        requires flags { length flags.now ≡ places_in found.now }
        requires room { length self.old.erased.items ≡ found.now.ecc.head.sectors }
        ensures flags { FlagsLayer found.now layer flags.now
            self.old.erased.items self.new.erased.items }
        ensures restored { self.new.restored ≡ self.old.restored }
        ensures strange { self.new.strange ≡ self.old.strange }
    {
        flag_layer(found, layer, flags, &mut self.erased);
    }

    // Adds the answer to the next layer.
    pub fn add(&mut self, found: &Found, layer: u32, answer: &LayerOut) -> Result<(), AllocError>
        requires layer { IsLayer found.now layer }
        requires names { NamesSector (fields_in found.now) layer answer.now }
        ensures adds { OnOk result (Adds found.now layer answer.now self.old self.new) }
        ensures erased { self.new.erased ≡ self.old.erased }
    {
        self.restored.push(layer_is_restored(answer))?;
        if let Some(strange) = strange_of(found, layer, answer) {
            self.strange.push(strange)?;
        }
        Ok(())
    }
}
