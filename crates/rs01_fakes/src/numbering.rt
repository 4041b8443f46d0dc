//! A task that tells a layer's number, and layers for it.
ghost use Rattle.std.specs.Prelude.{◌≡◌, IfOk};

use rs01_layers::{Bytes, Flags, LayerInput, LayerOut, LayerTask, SumList};
use std::alloc::{AllocError, Global};

/// A task that tells the number of the layer, as that of a codeword which disagrees. It takes no memory.
#[derive(Drop)]
pub struct Numbering;

impl LayerTask for Numbering {
    ghost use Rattle.rs01_layers.specs.declared.task.LayerOut.TheVariants.{Beyond};

    ghost fit = { λ _. Unit {0} };

    ghost value = { λ input. Beyond input.layer };

    fn work(&self, _alloc: Global, input: &LayerInput) -> Result<LayerOut, AllocError> {
        Ok(LayerOut::Beyond(input.layer))
    }
}

/// A layer of zeros with this number: 155 sectors, none missing, and no parity.
pub fn numbered_layer(alloc: Global, number: u32) -> Result<LayerInput, AllocError>
    ensures { IfOk result (λ input. input.layer ≡ number) }
{
    Ok(LayerInput {
        layer: number,
        parity_count: 100,
        data_: Bytes::of(vec![in alloc; 0u8; 2048 * 155]?),
        erased: Flags::of(vec![in alloc; false; 155]?),
        sums: SumList::of(vec![in alloc; 0u32; 155]?),
        parity: Bytes::of(Vec::new(alloc)),
    })
}
