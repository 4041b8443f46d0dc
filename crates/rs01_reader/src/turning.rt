//! Where a turn goes on, and where a new one starts.
ghost use Rattle.std.specs.Prelude.{◌≡◌, ◌<◌, length};
ghost use Rattle.rs01_turns.specs.Turns.{turn_start};
ghost use Rattle.rs01_reader.specs.Courses.{going_on, turn_by};

use rs01_intervals::Unread;

// The place where the sector there is unread, and else where a new turn starts.
pub fn goes_on(unread: &Unread, sectors: u32, place: u32) -> Option<u32>
    requires { sectors ≡ length unread.now }
    ensures { result ≡ going_on unread.now place }
{
    if unread.has(place) {
        Some(place)
    } else {
        new_turn(unread, sectors)
    }
}

// Where a new turn starts, unless no sector is unread.
pub fn new_turn(unread: &Unread, sectors: u32) -> Option<u32>
    requires { sectors ≡ length unread.now }
    ensures { result ≡ turn_by unread.now }
{
    match unread.longest() {
        Some((start, end)) => Some(start_in(sectors, start, end)),
        None => None,
    }
}

// Where a turn over a run starts: in its middle, or at its start where it is the whole medium.
fn start_in(sectors: u32, start: u32, end: u32) -> u32
    requires { start < end }
    ensures { result ≡ turn_start sectors (start, end) }
{
    if start == 0 && end == sectors {
        start
    } else {
        start + (end - start) / 2
    }
}
