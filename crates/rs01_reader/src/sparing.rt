//! Taking what is no longer unread out of the runs of unread sectors.
ghost use Rattle.std.specs.Prelude.{◌≡◌, ◌<◌, false, true, ℕ, IfSome, length, slice_set};
ghost use Rattle.rs01_intervals.specs.Maximal.{flag_at};
ghost use Rattle.rs01_states.specs.Sparing.{is_unread, state_of};
ghost use Rattle.rs01_reader.specs.Courses.{TakesLayer, TakesRead};

use rs01_intervals::Unread;
use rs01_states::States;

// Takes a sector, where it is unread.
fn take_if_unread(unread: &mut Unread, sector: u32)
    ensures { unread.new ≡ slice_set unread.old sector false }
{
    if unread.has(sector) {
        unread.take(sector);
    }
}

// Takes the sectors of one layer, and looks at no sector of another.
fn take_layer(unread: &mut Unread, sectors: u32, layers: u32, layer: u32)
    requires layer { layer < layers }
    requires all { length unread.old ≡ sectors }
    ensures len { length unread.new ≡ length unread.old }
    ensures flags { TakesLayer layers layer unread.old unread.new }
{
    let mut sector = layer as usize;
    while sector < sectors as usize {
        take_if_unread(unread, sector as u32);
        sector += layers as usize;
    }
}

// Takes a sector that was read, and the sectors of the layer that came within its bound by this, if one did.
pub fn take_read(unread: &mut Unread, sectors: u32, layers: u32, sector: u32, settled: Option<u32>)
    requires layer { IfSome settled (λ layer. layer < layers) }
    requires all { length unread.old ≡ sectors }
    ensures len { length unread.new ≡ length unread.old }
    ensures flags { TakesRead settled layers sector unread.old unread.new }
{
    take_if_unread(unread, sector);
    match settled {
        Some(layer) => take_layer(unread, sectors, layers, layer),
        None => {}
    }
}

// Takes each sector that isn't unread, before anything is asked for.
pub fn take_found(unread: &mut Unread, states: &States, sectors: u32)
    requires states { length states.now.states ≡ sectors }
    requires all { length unread.old ≡ sectors }
    requires unread { (s : ℕ) → s < sectors → flag_at unread.old s ≡ true }
    ensures len { length unread.new ≡ length unread.old }
    ensures flags { (s : ℕ) → s < sectors → flag_at unread.new s
        ≡ is_unread (state_of states.now.states s) }
{
    for sector in 0..sectors {
        if !states.state(sector).is_unread() {
            unread.take(sector);
        }
    }
}
