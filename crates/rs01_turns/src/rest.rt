//! What holds of the rest of a reading.
ghost use Rattle.rs01_turns.specs.Ends.{AsksFew, EndsAll, OthersAreLeft, UnreadEnds};
ghost use Rattle.rs01_turns.specs.Layers.{
  AskIsSparing,
  BeyondAreAsked,
  EndIsSparing,
  SettledAreLeft,
  SettledStay,
  StartIsSparing,
  UnaskedLieWithin,
  WithinGoesOn,
  WithinToTheEnd,
};
ghost use Rattle.rs01_turns.specs.Laws.{RestOfDone, RestOfNext};

/// The rest of the moment after the next ask is the rest of the one before.
pub fn rest_of_next()
    ensures { RestOfNext }
{}

/// Where no sector is unread, the reading is at its end.
pub fn rest_of_done()
    ensures { RestOfDone }
{}

/// At the end a sector that was unread is what the answer for it made of it, or spared where it wasn't asked for. One
/// that wasn't unread is as it was, and wasn't asked for. No sector is unread then.
pub fn each_sector_ends()
    ensures unread { UnreadEnds }
    ensures others { OthersAreLeft }
    ensures all { EndsAll }
{}

/// A drive is asked for more sectors until the end, and for each at most as often as it is to be tried.
pub fn asks_are_few()
    ensures { AsksFew }
{}

/// From the start to the end, what is spared is exactly what needn't be read.
pub fn sparing_is_kept()
    ensures start { StartIsSparing }
    ensures ask { AskIsSparing }
    ensures end { EndIsSparing }
{}

/// A layer within its bound stays so. None of its sectors is asked for from then on, and what a reader has of them is
/// final.
pub fn settled_layers_are_left()
    ensures end { WithinToTheEnd }
    ensures on { WithinGoesOn }
    ensures left { SettledAreLeft }
    ensures stay { SettledStay }
{}

/// A sector that wasn't good at the start and is never asked for lies in a layer within its bound, so that in every
/// other layer each sector was good or is asked for.
pub fn only_the_needless_are_unasked()
    ensures within { UnaskedLieWithin }
    ensures beyond { BeyondAreAsked }
{}
