//! A program with what it runs by.

ghost use Rattle.std.specs.Prelude.{◌≡◌, IfOk, IfSome};
ghost use Rattle.rs01_columns.specs.Running.{HasBounds};

use crate::products::Products;
use crate::program::{Program, Step};
use std::alloc::{AllocError, Global};

/// A program for a number of parity bytes, with the table of products.
#[derive(Drop)]
pub struct KeptProgram {
    pub parity_count: usize,
    pub program: Program,
    pub products: Products,
    ghost bounds: { HasBounds parity_count program.columns },
}

impl KeptProgram {
    /// The program of these steps for `r` parity bytes, or `None` where one isn't between two
    /// different ones of the columns.
    pub fn new(
        alloc: Global,
        r: usize,
        columns: usize,
        steps: Vec<Step>,
    ) -> Result<Option<KeptProgram>, AllocError>
        requires { HasBounds r columns }
        ensures { IfOk result (λ made. IfSome made (λ kept. kept.parity_count ≡ r)) }
    {
        let products = Products::new(alloc)?;
        match Program::new(steps, columns) {
            Some(program) => Ok(Some(KeptProgram {
                parity_count: r,
                program,
                products,
            })),
            None => Ok(None),
        }
    }
}
