//! A tree of summaries over the flags.
//!
//! The flags are cut into chunks of 64, so that the tree takes at most about 2.5 bytes a flag.
//! Node `leaves + c` is the summary of chunk `c`. A node `j` below `leaves` joins its children, the
//! nodes `2 * j` and `2 * j + 1`. So node 1 is the summary of all flags, and node 0 isn't used.

ghost use Rattle.std.specs.Prelude.{◌≡◌, ◌≢◌, ◌+◌, ◌*◌, ◌/◌, ◌^◌, ◌<◌, ◌≤◌, ℕ, length};
ghost use Rattle.rs01_intervals.specs.Tree.{AllJoinExcept, Joins, LeavesStay, summary_of_chunk};

use crate::summary::Summary;

/// How many flags a leaf of the tree stands for: more would slow a change, fewer enlarge the tree.
pub const CHUNK: usize = 64;

/// The summary of a chunk. There must be fewer than 2^32 flags, and the chunk's number must be
/// below 2^32; a chunk past the flags is empty.
pub fn summary_of_chunk(flags: &[bool], chunk: usize) -> Summary
    requires few { length flags.now < 2 ^ 32 }
    requires chunk { chunk < 2 ^ 32 }
    ensures { result ≡ summary_of_chunk flags.now chunk }
{
    let from = (CHUNK * chunk).min(flags.len());
    let to = (CHUNK * (chunk + 1)).min(flags.len());
    let mut known = Summary::of_nothing(from);
    for place in from..to {
        known = Summary::joined(known, Summary::of_flag(place, flags[place]));
    }
    known
}

/// Joins anew each node above a leaf that has changed. There must be two nodes for each leaf, and
/// all inner nodes but the leaf's parent must join their children.
pub fn join_above(nodes: &mut [Summary], leaves: usize, leaf: usize)
    requires room { (length nodes.old ≡ 2 * leaves) × (leaf < 2 * leaves) }
    requires rest { AllJoinExcept leaves (leaf / 2) nodes.old }
    ensures all { AllJoinExcept leaves 0 nodes.new }
    ensures leaves { LeavesStay leaves nodes.old nodes.new }
{
    // Once a node is joined, only its parent can disagree with its children.
    let mut stale = leaf / 2;
    while stale > 0 {
        nodes[stale] = Summary::joined(nodes[2 * stale], nodes[2 * stale + 1]);
        stale /= 2;
    }
}

/// Joins all inner nodes. There must be two nodes for each leaf.
pub fn join_all(nodes: &mut [Summary], leaves: usize)
    requires room { length nodes.old ≡ 2 * leaves }
    ensures all { AllJoinExcept leaves 0 nodes.new }
    ensures leaves { LeavesStay leaves nodes.old nodes.new }
{
    // Downwards, since both children of a node have higher numbers.
    let mut lowest = leaves;
    while lowest > 1 {
        lowest -= 1;
        nodes[lowest] = Summary::joined(nodes[2 * lowest], nodes[2 * lowest + 1]);
    }
}
