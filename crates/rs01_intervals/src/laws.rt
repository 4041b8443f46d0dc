//! What holds of the longest run of any flags.

ghost use Rattle.rs01_intervals.specs.Maximal.{LongestIsMaximal, NoneIsBefore, NoneIsLonger, NoneMeansClear};

/// The longest run is a maximal one, no run is longer, and none that is as long starts before it.
/// There is none only where no flag is set.
pub fn longest_among_all()
    ensures maximal { LongestIsMaximal }
    ensures longest { NoneIsLonger }
    ensures first { NoneIsBefore }
    ensures none { NoneMeansClear }
{}
