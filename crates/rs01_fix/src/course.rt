//! How far a repair has come.
ghost use Rattle.std.specs.Prelude.{◌≡◌, IfOk, OnErr, OnOk, true};

use crate::repairs::{Repairs, no_repairs};
use rs01_repair::{Batch, Found};
use std::alloc::{AllocError, Global};

/// How far a repair has come: the desk's counts of faults when it began, the first layer of the window that is worked,
/// what was read of that window, and what is kept of the layers before it.
#[derive(Drop)]
pub struct Course {
    pub reads: u64,
    pub writes: u64,
    pub start: u32,
    // whether the sectors of all layers before `start` are in place, and no others were written
    pub whole: bool,
    pub batch: Batch,
    pub repairs: Repairs,
}

ghost use Rattle.rs01_fix.specs.Windows.{Begins};

impl Course {
    // No layer was given yet, at a desk with these counts of faults.
    pub fn new(alloc: Global, found: &Found, reads: u64, writes: u64) -> Result<Course, AllocError>
        ensures { IfOk result (Begins found.now reads writes) }
    {
        Ok(Course {
            reads,
            writes,
            start: 0,
            whole: true,
            batch: Batch::new(alloc, 0),
            repairs: no_repairs(alloc, found)?,
        })
    }
}
