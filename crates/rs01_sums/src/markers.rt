//! The marker of a missing sector: a block that names the sector.

ghost use Rattle.std.specs.Prelude.{◌≡◌, ◌↔◌, ◌^◌, ◌<◌, IsTrue, length};
ghost use Rattle.rs01_sums.specs.Marker.{digits, marker, marker_text};

use rs01_lists::copy_padded;

// The last decimal digits of a number, as many as there is room for.
fn write_digits(number: u32, into: &mut [u8])
    ensures { into.new ≡ digits (length into.old) number }
{
    let mut rest = number;
    for place in (0..into.len()).rev() {
        into[place] = b'0' + (rest % 10) as u8;
        rest /= 10;
    }
}

// The text at the front of a marker.
fn text_of(sector: u32) -> [u8; 31]
    ensures { result ≡ marker_text sector }
{
    let mut text = *b"rs01 missing sector 0000000000\n";
    write_digits(sector, &mut text[20..30]);
    text
}

/// Writes the marker of a sector: the text `rs01 missing sector `, the sector's number in ten
/// decimal digits, a newline, and 2017 zeros.
pub fn marker(sector: u32, into: &mut [u8; 2048])
    ensures { into.new ≡ marker sector }
{
    let text = text_of(sector);
    copy_padded(&text, into);
}

/// Whether a block is the marker of a sector.
pub fn is_marker(sector: u32, block: &[u8; 2048]) -> bool
    ensures { IsTrue result ↔ (block.now ≡ marker sector) }
{
    if block[0] != b'r' {
        return false;
    }
    let mut own = [0; 2048];
    marker(sector, &mut own);
    own == *block
}
