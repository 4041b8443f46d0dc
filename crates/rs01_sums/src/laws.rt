//! What holds of markers.

ghost use Rattle.rs01_sums.specs.Telling.{MarkerIsABlock, MarkerTellsSector};

/// A marker is a whole block, and two sectors have two markers.
pub fn markers_tell_their_sector()
    ensures block { MarkerIsABlock }
    ensures tells { MarkerTellsSector }
{}
