//! What holds of every demonstration. Each law is a function without a body, whose contract is the law.
ghost use Rattle.rs01_demo.specs.Answer.{NoneIsRefused, WholeIsOriginal};

/// No image that is made is refused: none of its sectors is the marker of a missing one.
///
/// A marker has more than ten zeros in a row. Ten values of the generator that follow each other aren't all below 2 to
/// the power of 56, whatever number it began with.
pub fn made_images_are_never_refused()
    ensures { NoneIsRefused }
{}

/// No sector is lost and no layer is strange exactly where the repaired image is the one that was made.
pub fn whole_is_original()
    ensures { WholeIsOriginal }
{}
