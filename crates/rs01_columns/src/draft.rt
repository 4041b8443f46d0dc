//! A list of steps while it is made. Nothing is claimed of what the steps compute: a program is
//! tried before it is used, and candidates are tested.

ghost use Rattle.std.specs.Prelude.{◌≤◌, length};

use crate::program::Step;
use rs01_gf256::Gf;
use std::alloc::{AllocError, Global};

/// The column of the value at the first root: the values stand behind the word.
pub const VALUES: u16 = 255;

/// The steps so far.
#[derive(Drop)]
pub struct Draft {
    steps: Vec<Step>,
}

impl Draft {
    /// No steps.
    pub fn new(alloc: Global) -> Draft {
        Draft {
            steps: Vec::new(alloc),
        }
    }

    /// The steps.
    pub fn finish(self) -> Vec<Step> {
        self.steps
    }

    /// Adds `factor` times a column to another, which is cleared before where it begins `fresh`.
    pub fn put(&mut self, into: u16, from: u16, factor: Gf, fresh: bool) -> Result<(), AllocError> {
        self.steps.push(Step {
            into,
            from,
            factor: factor.0,
            fresh,
        })?;
        Ok(())
    }

    /// Adds a column to another.
    pub fn add(&mut self, into: u16, from: u16) -> Result<(), AllocError> {
        self.put(into, from, Gf(1), false)
    }

    /// Adds a multiple of a column to another.
    pub fn add_times(&mut self, into: u16, from: u16, factor: Gf) -> Result<(), AllocError> {
        self.put(into, from, factor, false)
    }

    /// Adds to a column the multiples of the columns from `from` on by the factors of a row, at most
    /// four of them, from `first` on.
    pub fn terms(
        &mut self,
        into: u16,
        from: u16,
        row: &[u8],
        first: usize,
    ) -> Result<(), AllocError>
        requires from { from ≤ 1000 }
        requires row { length row.now ≤ 100 }
        requires first { first ≤ 100 }
    {
        for m in 0..4usize {
            let i = first + m;
            if i < row.len() {
                self.put(into, from + i as u16, Gf(row[i]), false)?;
            }
        }
        Ok(())
    }

    /// Clears a column.
    pub fn clear(&mut self, into: u16, from: u16) -> Result<(), AllocError> {
        self.put(into, from, Gf(0), true)
    }
}
