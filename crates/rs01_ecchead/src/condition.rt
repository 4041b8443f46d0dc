//! How a sector of an image was found.
ghost use Rattle.std.specs.Prelude.{◌≡◌, ◌<◌, length};
ghost use Rattle.std.specs.Option.{ForSome, option_map};

use rs01_sums::{Sums, is_marker};

/// How a sector was found.
#[derive(Clone, Copy, PartialEq, Eq, Debug)]
pub enum Condition {
    /// It is there, isn't marked as missing and has the recorded checksum, where checksums are given.
    Sound,
    /// The image file ends before it does, or its block is the marker of a missing sector.
    Missing,
    /// Its block has another checksum than the recorded one.
    Altered,
}

ghost use Rattle.rs01_ecchead.specs.Condition.{judged};

/// Judges a sector that is there or not by its block and, where checksums are given, by the recorded one. Where it isn't
/// there the block may be any.
pub fn judge(there: bool, sums: Option<&Sums>, sector: u32, block: &[u8; 2048]) -> Condition
    requires { ForSome sums (λ kept. sector < length kept.now.list) }
    ensures { let recorded = option_map (λ kept. kept.now.list) sums.entry in
        result ≡ judged there recorded sector block.now }
{
    if !there || is_marker(sector, block) {
        return Condition::Missing;
    }
    let Some(sums) = sums else {
        return Condition::Sound;
    };
    if sums.matches(sector, block) {
        Condition::Sound
    } else {
        Condition::Altered
    }
}
