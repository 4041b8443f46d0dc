//! The programs' lists of steps.

ghost use Rattle.std.specs.Prelude.{◌<◌, ◌≤◌, All, length};

use crate::draft::Draft;
use crate::matrix::{by_matrix, by_places};
use crate::pairs::by_pairs;
use crate::program::Step;
use std::alloc::{AllocError, Global};

/// The steps that leave the values at the first `r` roots behind the word, between 255 + r columns.
pub fn evaluating_steps(alloc: Global, r: u16) -> Result<Vec<Step>, AllocError>
    requires { r ≤ 100 }
{
    let mut draft = Draft::new(alloc);
    draft.values(r)?;
    Ok(draft.finish())
}

/// The steps that leave `r` bytes of parity behind the data, between 255 + 3 r columns. By the values
/// at the roots.
pub fn encoding_steps(alloc: Global, r: u16) -> Result<Vec<Step>, AllocError>
    requires least { 8 ≤ r }
    requires most { r ≤ 100 }
{
    let mut draft = Draft::new(alloc);
    draft.values(r)?;
    if r >= 24 && r % 2 == 0 {
        by_pairs(&mut draft, r)?;
    } else {
        by_matrix(&mut draft, r)?;
    }
    Ok(draft.finish())
}

/// The steps that restore the bytes at these places, which are zero before, between 255 and as many
/// more columns as there are places.
pub fn restoring_steps(alloc: Global, erased: &[u8]) -> Result<Vec<Step>, AllocError>
    requires few { length erased.now ≤ 100 }
    requires below { All (λ p. p < 255) erased.now }
{
    let mut draft = Draft::new(alloc);
    draft.values(erased.len() as u16)?;
    by_places(&mut draft, erased)?;
    Ok(draft.finish())
}
