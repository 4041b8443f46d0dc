//! Layers that are worked window by window.
ghost use Rattle.std.specs.Prelude.{◌≡◌, ◌<◌, ◌≤◌, ℕ, [], IfErr, IsTrue, OnOk, not};
ghost use Rattle.rs01_workers.specs.Work.{Gathers};

use crate::filler::Filler;
use crate::results::Results;
use rs01_layers::LayerTask;
use std::alloc::Global;

/// A filler that also takes what a task gave of the inputs of each window, once they are all worked.
///
/// The list of what it gave begins anew after each window, and so holds the window's layers alone.
pub trait Windows<T: LayerTask>: Filler {
    ghost use Rattle.rs01_layers.specs.declared.input.LayerInput.{LayerInput};

    /// How much is left, which each window that isn't the last lessens.
    ghost left: { Self → ℕ };

    /// All windows were taken.
    ghost finished: { Self → Type 0 };

    /// Takes the answers of a window.
    fn settle(&mut self, alloc: Global, results: Results) -> Result<(), Self::Stop>
        requires { Gathers Self.gave Self.fits Self.going Self.done T.value self.old results }
        ensures leads { Self.leads self.old self.new }
        ensures going { OnOk result (IsTrue (not results.over)
            → Self.going self.new × (Self.gave self.new ≡ [])) }
        ensures fewer { OnOk result (IsTrue (not results.over) → left self.new < left self.old) }
        ensures finished { OnOk result (IsTrue results.over → finished self.new) }
        ensures halted { IfErr result (Self.halted self.new) };

    /// The inputs are fit for the task.
    ghost fit: { (windows : Self) (input : LayerInput) → Self.fits windows input → T.fit input };

    /// No call adds to what is left.
    ghost no_more: { (old new : Self) → Self.leads old new → left new ≤ left old };
}
