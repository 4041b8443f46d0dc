//! What holds of a whole reading by turns. Each law is a function without a body, whose contract is the law.
ghost use Rattle.rs01_adaptive.specs.Bounds.{BoundsAreKept};
ghost use Rattle.rs01_adaptive.specs.ComesBack.{SettledComeBack};

/// Each drive is asked for a sector at most as often as it is to be tried. A sector that the image file lacks and that
/// is never asked for lies in a layer within its bound, so that in every other layer each sector is in the image file or
/// is asked for. From the moment on when a layer is within its bound none of its sectors is asked for, and each one's
/// state is final.
pub fn reading_keeps_its_bounds()
    ensures { BoundsAreKept }
{}

/// Where the error correction file is intact, and all that passes for a sector in the image file and in the drives is
/// the original's, each layer that is within its bound in the end is the original's. So is every other sector that is
/// good in the end, exactly the other ones are lost, and no layer is strange.
///
/// A block passes for a sector where it isn't the sector's marker and has the recorded checksum. So the premises say
/// that no altered block has the recorded checksum of its sector.
pub fn settled_layers_come_back()
    ensures { SettledComeBack }
{}
