//! What holds of the sparing, whatever the states are.

ghost use Rattle.rs01_states.specs.SparingLaws.{NoneIsLeft, SparedLieWithin, OthersStay};

/// After the sparing no unread sector lies in a layer within its bound, an unread sector was
/// spared in such a layer alone, and a sector that wasn't unread is as it was.
pub fn the_needless_are_spared()
    ensures left { NoneIsLeft }
    ensures within { SparedLieWithin }
    ensures others { OthersStay }
{}
