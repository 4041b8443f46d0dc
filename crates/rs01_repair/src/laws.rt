//! What holds of each layer's answer. The law is a function without a body, whose contract is the law.
ghost use Rattle.rs01_repair.specs.Inputs.{InputsAreAnswered};

/// Whoever puts an input of a layer together gets the layer's answer by correcting it, whatever the input has in place of
/// the erased blocks and for the checksums of the others.
pub fn inputs_are_answered()
    ensures { InputsAreAnswered }
{}
