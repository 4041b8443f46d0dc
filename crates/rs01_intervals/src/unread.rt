//! Which sectors are still unread, by a flag each and a tree over the flags.

ghost use Rattle.std.specs.Prelude.{◌≡◌, ◌<◌, ◌≤◌, Bool, List, IfOk, IfSome, false, true, length, replicate, slice_index_or, slice_set};
ghost use Rattle.rs01_intervals.specs.Maximal.{flag_at};
ghost use Rattle.rs01_intervals.specs.Runs.{longest};
ghost use Rattle.rs01_intervals.specs.Tree.{IsTree};

use crate::summary::Summary;
use crate::tree::{CHUNK, join_above, join_all, summary_of_chunk};
use std::alloc::{AllocError, Global};
use std::marker::Model;

/// The sectors that are still unread. Contracts see the list of a flag for each sector, which is
/// set as long as the sector is unread.
///
/// Only `new` takes memory. The longest run is kept up to date, so no call searches all sectors:
/// `take` looks at 64 of them and goes up a tree, and `longest` reads its root.
#[derive(Drop)]
pub struct Unread {
    flags: Vec<bool>,
    // The number of chunks that the tree has room for, a power of two.
    leaves: usize,
    nodes: Vec<Summary>,
}

impl Model for Unread {
    ghost Value = { List Bool };

    ghost view = { λ unread. unread.flags.items };

    ghost invariant = { λ unread. IsTree unread.flags.items unread.leaves unread.nodes.items };
}

impl Unread {
    /// The sectors from 0 to below `sectors`, all unread. It takes all memory that later calls
    /// need, and fails only for want of it.
    pub fn new(alloc: Global, sectors: u32) -> Result<Unread, AllocError>
        ensures { IfOk result (λ unread. unread ≡ replicate sectors true) }
    {
        let flags = vec![in alloc; true; sectors as usize]?;
        let leaves = (flags.len() / CHUNK + 1).next_power_of_two();
        let mut nodes = vec![in alloc; Summary::of_nothing(0); 2 * leaves]?;
        for chunk in 0..leaves {
            nodes[leaves + chunk] = summary_of_chunk(&flags, chunk);
        }
        join_all(&mut nodes, leaves);
        Ok(Unread {
            flags,
            leaves,
            nodes,
        })
    }

    /// Makes a sector no longer unread. The sector must be unread.
    pub fn take(&mut self, sector: u32)
        requires { flag_at self.old sector ≡ true }
        ensures { self.new ≡ slice_set self.old sector false }
    {
        let sector = sector as usize;
        let chunk = sector / CHUNK;
        self.flags[sector] = false;
        self.nodes[self.leaves + chunk] = summary_of_chunk(&self.flags, chunk);
        join_above(&mut self.nodes, self.leaves, self.leaves + chunk);
    }

    /// Whether a sector is unread. A number past the last sector isn't.
    pub fn has(&self, sector: u32) -> bool
        ensures { result ≡ flag_at self.now sector }
    {
        match self.flags.get(sector as usize) {
            Some(flag) => *flag,
            None => false,
        }
    }

    /// Start and end of the longest run of unread sectors, the one with the lowest start on a tie,
    /// or `None` where no sector is unread. The end isn't part of the run.
    pub fn longest(&self) -> Option<(u32, u32)>
        ensures value { result ≡ longest self.now }
        ensures within { IfSome result (λ run. (run.0 < run.1) × (run.1 ≤ length self.now)) }
    {
        let (start, len) = self.nodes[1].best;
        let end = start + len;
        if start < end {
            Some((start as u32, end as u32))
        } else {
            None
        }
    }
}
