//! Where inputs come from.
ghost use Rattle.std.specs.Prelude.{◌≡◌, ◌++◌, ◌∷◌, [], ℕ, List, IfErr, IfNone, IfOk, IfSome};

use rs01_layers::LayerInput;
use std::alloc::Global;

/// Gives the inputs of layers, one after the other, until it has none left or stops.
///
/// It isn't asked again after either.
pub trait Filler {
    ghost use Rattle.rs01_layers.specs.declared.input.LayerInput.{LayerInput};

    /// Why it stops.
    type Stop: Drop;

    /// The layers whose inputs it gave, first to last.
    ghost gave: { Self → List ℕ };

    /// What holds of each input that it gave.
    ghost fits: { Self → LayerInput → Type 0 };

    /// What calls may make of it.
    ghost leads: { Self → Self → Type 0 };

    /// It may be asked.
    ghost going: { Self → Type 0 };

    /// It has no input left.
    ghost done: { Self → Type 0 };

    /// It stopped so.
    ghost halted: { Self → Self.Stop → Type 0 };

    /// The next input, or `None` where none is left.
    fn next(&mut self, alloc: Global) -> Result<Option<LayerInput>, Self::Stop>
        requires { going self.old }
        ensures leads { leads self.old self.new }
        ensures kept { (input : LayerInput) → fits self.old input → fits self.new input }
        ensures given { IfOk result (λ given. IfSome given (λ input.
            gave self.new ≡ gave self.old ++ input.layer ∷ [])) }
        ensures fits { IfOk result (λ given. IfSome given (λ input. fits self.new input)) }
        ensures going { IfOk result (λ given. IfSome given (λ input. going self.new)) }
        ensures done { IfOk result (λ given. IfNone given
            ((gave self.new ≡ gave self.old) × done self.new)) }
        ensures halted { IfErr result (λ stop.
            (gave self.new ≡ gave self.old) × halted self.new stop) };

    /// No call leaves it as it may become.
    ghost leads_same: { (filler : Self) → leads filler filler };

    /// Calls after calls are calls.
    ghost leads_on: { (old now new : Self) → leads old now → leads now new → leads old new };
}
