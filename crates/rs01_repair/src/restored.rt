//! Reading the answer to a layer.
ghost use Rattle.std.specs.Prelude.{◌≡◌};
ghost use Rattle.std.specs.Option.{option_copied};
ghost use Rattle.rs01_repair.specs.Restored.{block_of, is_restored, restored_at};

use rs01_layers::{LayerOut, Placed};

// The block of a place in a list of restored blocks.
fn find_block<'a>(blocks: &'a [Placed], place: u32) -> Option<&'a [u8]>
    ensures { option_copied result ≡ block_of blocks.now place }
{
    for item in blocks {
        if item.place == place {
            return Some(item.block.items());
        }
    }
    None
}

/// The restored block of a place, where it has one.
pub fn restored_block<'a>(answer: &'a LayerOut, place: u32) -> Option<&'a [u8]>
    ensures { option_copied result ≡ restored_at answer.now place }
{
    match answer {
        LayerOut::Restored(blocks) => find_block(blocks.items(), place),
        LayerOut::Parity(_)
        | LayerOut::Beyond(_)
        | LayerOut::Inconsistent(_)
        | LayerOut::BadSum(_) => None,
    }
}

/// Whether a layer is restored.
pub fn layer_is_restored(answer: &LayerOut) -> bool
    ensures { result ≡ is_restored answer.now }
{
    matches!(answer, LayerOut::Restored(_))
}
