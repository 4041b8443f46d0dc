//! What correcting gives of a layer. Each law is a function without a body, whose contract is the
//! law.

ghost use Rattle.std.specs.Prelude.{◌≡◌, ◌≤◌, List, ℕ, length};
ghost use Rattle.rs01_layers.specs.declared.lists.Placed.{Placed};
ghost use Rattle.rs01_layers.specs.declared.task.LayerOut.TheVariants.{Restored};
ghost use Rattle.rs01_erase.specs.Correcting.{FitErased, IsIntactInput, SameForCorrecting, correct, restored_to};
ghost use Rattle.rs01_erase.specs.LayerValue.{erased_places};

use rs01_layers::LayerInput;

/// Correcting depends neither on the blocks at erased places, nor on the checksums at other places,
/// nor on the number of the layer.
pub fn lost_blocks_say_nothing(one: &LayerInput, other: &LayerInput)
    ensures { SameForCorrecting one.now other.now → correct one.now ≡ correct other.now }
{}

/// Where blocks are restored, they are those of exactly the erased places, by rising place; each
/// has 2048 bytes and its recorded checksum.
pub fn erased_places_are_restored(input: &LayerInput)
    ensures { (list : List Placed) → correct input.now ≡ Restored list → FitErased input.now list }
{}

/// Where the parity, the blocks at the places that are not erased, and the checksums of those that
/// are, are still those of the original blocks, and at most as many places are erased as a codeword
/// has parity bytes, the original block of each erased place is restored.
pub fn intact_layer_is_restored(input: &LayerInput)
    ensures { (original : List (List ℕ)) → IsIntactInput original input.now
        → length (erased_places input.now.erased) ≤ input.now.parity_count
        → correct input.now ≡ restored_to original (erased_places input.now.erased) }
{}
