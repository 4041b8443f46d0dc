//! The counts of the layers, and the sparing that follows from them.

ghost use Rattle.std.specs.Prelude.{IfOk, ◌≡◌, ◌^◌, ◌<◌, ◌≤◌, ℕ, length};
ghost use Rattle.rs01_states.specs.Sparing.{IsUnread, found, spared_all, state_of};
ghost use Rattle.rs01_states.specs.Tally.{
  AreCounts,
  AreZeros,
  GoodIsMarked,
  IsTally,
  spared_in_layer,
};

use crate::state::State;
use std::alloc::{AllocError, Global};

/// A state for each flag: good where it is set, and unread else.
pub fn found(alloc: Global, good: &[bool]) -> Result<Vec<State>, AllocError>
    ensures { IfOk result (λ states. states.items ≡ found good.now) }
{
    let mut states = Vec::with_capacity(alloc, good.len())?;
    for is_good in good {
        states.push(if *is_good { State::Good } else { State::Unread })?;
    }
    Ok(states)
}

/// Of each layer, how many of its sectors aren't good.
pub fn open_counts(alloc: Global, states: &[State], layers: u32) -> Result<Vec<u32>, AllocError>
    requires some { 1 ≤ layers }
    requires few { length states.now < 2 ^ 32 }
    ensures { IfOk result (λ counts. AreCounts layers states.now counts.items) }
{
    let mut counts = vec![in alloc; 0u32; layers as usize]?;
    add_open(states, layers, &mut counts);
    Ok(counts)
}

// Adds each sector that isn't good to the count of its layer.
fn add_open(states: &[State], layers: u32, counts: &mut [u32])
    requires some { 1 ≤ layers }
    requires few { length states.now < 2 ^ 32 }
    requires zeros { AreZeros layers counts.old }
    ensures { AreCounts layers states.now counts.new }
{
    for sector in 0..states.len() {
        if states[sector].is_open() {
            counts[sector % layers as usize] += 1;
        }
    }
}

/// Spares the unread sectors of all layers whose counts are at most the bound.
pub fn spare_all(states: &mut [State], layers: u32, bound: u32, counts: &[u32])
    requires { AreCounts layers states.old counts.now }
    ensures { states.new ≡ spared_all layers bound states.old }
{
    for sector in 0..states.len() {
        let enough = counts[sector % layers as usize] <= bound;
        states[sector] = states[sector].spared_where(enough);
    }
}

// Spares the unread sectors of one layer, and looks at no sector of another.
fn spare_layer(states: &mut [State], layers: u32, layer: u32)
    requires layer { layer < layers }
    requires few { length states.old < 2 ^ 32 }
    ensures { (s : ℕ) → state_of states.new s ≡ spared_in_layer layers layer states.old s }
{
    let mut sector = layer as usize;
    while sector < states.len() {
        states[sector] = states[sector].spared_where(true);
        sector += layers as usize;
    }
}

/// Makes an unread sector good, and spares what its layer doesn't need any more.
///
/// The answer is whether the layer came within its bound. It was beyond it, for else the sector
/// would have been spared.
pub fn mark_good(
    states: &mut [State],
    counts: &mut [u32],
    layers: u32,
    bound: u32,
    sector: u32,
) -> bool
    requires tally { IsTally layers bound states.old counts.old }
    requires unread { IsUnread states.old sector }
    ensures { GoodIsMarked layers bound sector states.old states.new counts.new result }
{
    let layer = sector % layers;
    states[sector as usize] = State::Good;
    counts[layer as usize] -= 1;
    if counts[layer as usize] > bound {
        return false;
    }
    spare_layer(states, layers, layer);
    true
}
