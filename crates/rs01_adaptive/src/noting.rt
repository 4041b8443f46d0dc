//! What is kept of the answers to layers.
ghost use Rattle.std.specs.Prelude.{◌≡◌, ◌<◌, IfOk, option_to_list};
ghost use Rattle.rs01_layers.specs.Layout.{layers_of};
ghost use Rattle.rs01_ecchead.specs.Head.{fields_of};
ghost use Rattle.rs01_repair.specs.Restored.{NamesSector};
ghost use Rattle.rs01_fix.specs.Repair.{strange_in};

use rs01_ecchead::Ecc;
use rs01_layers::LayerOut;
use rs01_repair::layer_is_restored;
use rs01_report::{Strange, Why};
use std::alloc::{AllocError, Global};

/// What is kept of the answers to the layers of an error correction file.
#[derive(Drop)]
pub struct Noted {
    /// A flag of each layer, set where it is restored.
    pub restored: Vec<bool>,
    /// Of each layer why it isn't restored though few enough of its sectors aren't good, where that is so.
    pub strange: Vec<Option<Strange>>,
}

ghost use Rattle.rs01_adaptive.specs.Noting.{HasLayers, IsBlank, Notes};

// Why a layer is strange, where it is.
fn strange_of(ecc: &Ecc, layer: u32, answer: &LayerOut) -> Option<Strange>
    requires layer { layer < layers_of ecc.now.head.sectors ecc.now.head.parity }
    requires names { NamesSector (fields_of ecc.now.head) layer answer.now }
    ensures { option_to_list result ≡ strange_in (fields_of ecc.now.head) layer answer.now }
{
    match answer {
        LayerOut::Inconsistent(codeword) => Some(Strange {
            layer,
            why: Why::Codeword(*codeword),
        }),
        LayerOut::BadSum(place) => Some(Strange {
            layer,
            why: Why::Sum(layer + *place * ecc.shape().layers()),
        }),
        LayerOut::Parity(_) | LayerOut::Restored(_) | LayerOut::Beyond(_) => None,
    }
}

impl Noted {
    /// No layer was corrected yet.
    pub fn new(alloc: Global, layers: u32) -> Result<Noted, AllocError>
        ensures { IfOk result (IsBlank layers) }
    {
        let restored = vec![in alloc; false; layers as usize]?;
        let strange = vec![in alloc; None; layers as usize]?;
        Ok(Noted { restored, strange })
    }

    /// Keeps the answer to a layer.
    pub fn note(&mut self, ecc: &Ecc, layer: u32, answer: &LayerOut)
        requires layer { layer < layers_of ecc.now.head.sectors ecc.now.head.parity }
        requires all { HasLayers (layers_of ecc.now.head.sectors ecc.now.head.parity) self.old }
        requires names { NamesSector (fields_of ecc.now.head) layer answer.now }
        ensures { Notes ecc.now layer answer.now self.old self.new }
    {
        self.restored[layer as usize] = layer_is_restored(answer);
        self.strange[layer as usize] = strange_of(ecc, layer, answer);
    }
}
