//! Judging the layers that were read together, in turn or by several threads.
ghost use Rattle.std.specs.Prelude.{◌≡◌, ◌+◌, ◌<◌, ◌≤◌, length};
ghost use Rattle.rs01_repair.specs.Finding.{layers_in, places_in};
ghost use Rattle.rs01_repair.specs.Parts.{AreJudged, HaveBlocks};

use crate::found::Found;
use crate::part::{Part, judge_part};
use std::thread::{Threads, join_mut};

/// How layers that were read together are judged.
pub trait Judging {
    /// Flags the places of the layers from `first` on that are erased, of which all blocks were read.
    fn judge(&self, found: &Found, first: u32, parts: &mut [Part])
        requires layers { first + length parts.old ≤ layers_in found.now }
        requires blocks { HaveBlocks found.now (places_in found.now) parts.old }
        ensures { AreJudged found.now first parts.old parts.new };
}

// Judges one layer after the other.
fn judge_in_turn(found: &Found, first: u32, parts: &mut [Part])
    requires layers { first + length parts.old ≤ layers_in found.now }
    requires blocks { HaveBlocks found.now (places_in found.now) parts.old }
    ensures { AreJudged found.now first parts.old parts.new }
{
    for k in 0..parts.len() {
        judge_part(found, first + k as u32, &mut parts[k]);
    }
}

// Judges the layers in front on this thread, and the rest by so many others.
#[cycle(shares)]
fn judge_both<R: Threads>(
    rt: &R,
    others: usize,
    found: &Found,
    first: u32,
    front: &mut [Part],
    next: u32,
    rest: &mut [Part],
)
    requires front { first + length front.old ≤ layers_in found.now }
    requires rest { next + length rest.old ≤ layers_in found.now }
    requires front_blocks { HaveBlocks found.now (places_in found.now) front.old }
    requires rest_blocks { HaveBlocks found.now (places_in found.now) rest.old }
    ensures front { AreJudged found.now first front.old front.new }
    ensures rest { AreJudged found.now next rest.old rest.new }
{
    join_mut(
        rt,
        &mut || -> ()
            requires { (first + length front.now ≤ layers_in found.now)
                × HaveBlocks found.now (places_in found.now) front.now }
            ensures { AreJudged found.entry.now first front.entry.now front.exit.now }
        { judge_in_turn(found, first, front) },
        &mut || -> ()
            requires { (next + length rest.now ≤ layers_in found.now)
                × HaveBlocks found.now (places_in found.now) rest.now }
            ensures { AreJudged found.entry.now next rest.entry.now rest.exit.now }
        { judge_by(rt, others, found, next, rest) },
    );
}

// Judges layers by so many threads, each of which has as many of them.
#[cycle(shares)]
fn judge_by<R: Threads>(rt: &R, threads: usize, found: &Found, first: u32, parts: &mut [Part])
    requires layers { first + length parts.old ≤ layers_in found.now }
    requires blocks { HaveBlocks found.now (places_in found.now) parts.old }
    ensures { AreJudged found.now first parts.old parts.new }
{
    let len = parts.len();
    if threads < 2 || len < 2 {
        judge_in_turn(found, first, parts);
        return;
    }
    let share = (len / threads).clamp(1, len);
    let (front, rest) = parts.split_at_mut(share);
    judge_both(
        rt,
        threads - 1,
        found,
        first,
        front,
        first + share as u32,
        rest,
    );
}

/// One layer after the other, on the caller's thread.
#[derive(Drop)]
pub struct InTurn;

impl Judging for InTurn {
    fn judge(&self, found: &Found, first: u32, parts: &mut [Part]) {
        judge_in_turn(found, first, parts);
    }
}

/// By so many threads, of which the caller's is one. They are joined before it returns.
#[derive(Drop)]
pub struct Beside<'a, R: Threads> {
    pub rt: &'a R,
    pub threads: u32,
}

impl<'a, R: Threads> Judging for Beside<'a, R> {
    fn judge(&self, found: &Found, first: u32, parts: &mut [Part]) {
        judge_by(self.rt, self.threads as usize, found, first, parts);
    }
}
