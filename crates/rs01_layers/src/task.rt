//! What is done to each layer.

ghost use Rattle.std.specs.Prelude.{◌≡◌, IfOk};
ghost use Rattle.rs01_layers.specs.Outs.{parity_in};

use crate::input::LayerInput;
use crate::lists::{Bytes, PlacedList};
use std::alloc::{AllocError, Global};

/// What a task gives of a layer.
#[derive(Drop)]
pub enum LayerOut {
    /// The parity bytes of the 2048 codewords, one codeword after the other.
    Parity(Bytes),
    /// The erased places with their restored blocks, by rising place.
    Restored(PlacedList),
    /// So many places are erased, which is more than the number of parity bytes.
    Beyond(u32),
    /// The first codeword whose bytes at the other places no codeword has.
    Inconsistent(u32),
    /// The first place whose restored block has not its recorded checksum.
    BadSum(u32),
}

impl LayerOut {
    /// The parity bytes, where these were given.
    pub fn into_parity(self) -> Option<Bytes>
        ensures { result ≡ parity_in self }
    {
        match self {
            LayerOut::Parity(bytes) => Some(bytes),
            _ => None,
        }
    }
}

/// Work on layers, each by itself. What it gives depends on the type of the task and on the input
/// alone, and not on the task's value.
pub trait LayerTask: Sync {
    ghost use Rattle.rs01_layers.specs.declared.input.LayerInput.{LayerInput};
    ghost use Rattle.rs01_layers.specs.declared.task.LayerOut.{LayerOut};

    /// The inputs that the task takes.
    ghost fit: { LayerInput → Type 0 };

    /// What the task gives.
    ghost value: { LayerInput → LayerOut };

    /// Does the work. It may lack memory.
    fn work(&self, alloc: Global, input: &LayerInput) -> Result<LayerOut, AllocError>
        requires { fit input.now }
        ensures { IfOk result (λ out. out ≡ value input.now) };
}
