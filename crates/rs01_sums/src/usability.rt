//! Which blocks may stand for a sector.

ghost use Rattle.std.specs.Prelude.{◌≡◌, ◌<◌, length};
ghost use Rattle.std.specs.Option.{ForSome, option_map};
ghost use Rattle.rs01_sums.specs.Usable.{is_usable};

use crate::markers::is_marker;
use crate::sums::Sums;

/// Whether a block may stand for a sector: it isn't the sector's marker and, where checksums are
/// given, it has the recorded one.
pub fn usable(sums: Option<&Sums>, sector: u32, block: &[u8; 2048]) -> bool
    requires { ForSome sums (λ kept. sector < length kept.now.list) }
    ensures { result ≡ is_usable (option_map (λ kept. kept.now.list) sums.entry) sector block.now }
{
    if is_marker(sector, block) {
        return false;
    }
    match sums {
        None => true,
        Some(sums) => sums.matches(sector, block),
    }
}
