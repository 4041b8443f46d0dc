//! The parity from the values at the roots, by pairs of roots: half the products of the matrix.
//!
//! The roots are moved by a common factor so that the product of the roots j and r - 1 - j is 1.
//! Then what a pair gives to the parity is a polynomial of degree 1 times one whose coefficients are
//! the same from both ends, so that half of them are enough.

ghost use Rattle.std.specs.Prelude.{◌+◌, ◌*◌, ◌<◌, ◌≤◌};

use crate::draft::{Draft, VALUES};
use crate::matrix::{divide_by, multiply, value_of};
use rs01_gf256::{Gf, pow_root};
use std::alloc::AllocError;

// The factors by which the values at two roots go into the sums over the pairs.
#[derive(Clone, Copy)]
struct Weights {
    low_one: Gf,
    low_other: Gf,
    high_one: Gf,
    high_other: Gf,
}

// The inverse, and 0 of 0.
fn inverse(x: Gf) -> Gf {
    if x.0 == 0 { x } else { x.inv() }
}

// The exponent by which the roots are moved, so that the product of root j and root r - 1 - j is 1.
fn shift_of(r: u32) -> u32
    requires { r ≤ 100 }
    ensures { result < 255 }
{
    128 * (223 + r) % 255
}

// The root j, moved.
fn moved_root(r: u32, j: u32) -> Gf
    requires r { r ≤ 100 }
    requires j { j < 100 }
{
    pow_root(112 + j + (255 - shift_of(r)))
}

// The product of x + each moved root.
fn moved_product(r: u32, product: &mut [u8; 101])
    requires { r ≤ 100 }
{
    product.fill(0);
    product[0] = 1;
    for m in 0..r {
        multiply(product, m as usize + 1, moved_root(r, m));
    }
}

// Divides the product by the two factors of pair i, and gives the weights of its values.
fn pair_of_roots(product: &[u8; 101], r: u32, i: u32, quotient: &mut [u8; 101]) -> Weights
    requires least { 8 ≤ r }
    requires most { r ≤ 100 }
    requires i { i < r }
{
    let one = moved_root(r, i);
    let other = moved_root(r, r - 1 - i);
    let mut partial = [0u8; 101];
    divide_by(product, r as usize, one, &mut partial);
    divide_by(&partial, r as usize - 1, other, quotient);
    let c = one.add(other);
    let a = inverse(value_of(quotient, r as usize - 1, one).mul(c));
    let b = inverse(value_of(quotient, r as usize - 1, other).mul(c));
    Weights {
        low_one: a.mul(other),
        low_other: b.mul(one),
        high_one: a,
        high_other: b,
    }
}

// Keeps the first half of the coefficients of pair i, in place i of the rows of the table.
fn keep_half(table: &mut [u8; 2500], i: usize, quotient: &[u8; 101], half: usize)
    requires i { i < 50 }
    requires half { half ≤ 50 }
{
    for j in 0..half {
        table[50 * j + i] = quotient[j];
    }
}

impl Draft {
    // What the values at the roots of each pair give to the two sums.
    fn pair_values(&mut self, r: u16, i: u16, weights: &Weights) -> Result<(), AllocError>
        requires r { r ≤ 100 }
        requires i { 2 * i + 1 < r }
    {
        let half = r / 2;
        let one = VALUES + i;
        let other = VALUES + (r - 1 - i);
        let low = VALUES + r + i;
        let high = VALUES + r + half + i;
        self.put(low, one, weights.low_one, true)?;
        self.put(low, other, weights.low_other, false)?;
        self.put(high, one, weights.high_one, true)?;
        self.put(high, other, weights.high_other, false)
    }

    // Coefficients j and j + 1, or the last one alone.
    fn two_coefficients(
        &mut self,
        into: u16,
        from: u16,
        table: &[u8; 2500],
        j: usize,
        half: usize,
    ) -> Result<(), AllocError>
        requires into { into ≤ 1000 }
        requires from { from ≤ 1000 }
        requires half { half ≤ 50 }
        requires j { j < 49 }
    {
        let here = into + j as u16;
        let two = j + 1 < half;
        for m in 0..13usize {
            self.terms(here, from, &table[50 * j..50 * j + half], 4 * m)?;
            if two {
                self.terms(
                    here + 1,
                    from,
                    &table[50 * j + 50..50 * j + 50 + half],
                    4 * m,
                )?;
            }
        }
        Ok(())
    }

    // The first half of the coefficients of a sum over the pairs.
    fn coefficients(
        &mut self,
        into: u16,
        from: u16,
        table: &[u8; 2500],
        half: usize,
    ) -> Result<(), AllocError>
        requires into { into ≤ 1000 }
        requires from { from ≤ 1000 }
        requires half { half ≤ 50 }
    {
        for m in 0..25usize {
            if 2 * m < half {
                self.two_coefficients(into, from, table, 2 * m, half)?;
            }
        }
        Ok(())
    }

    // The parity byte at power j.
    fn parity_byte(&mut self, r: u16, j: u16, factor: Gf) -> Result<(), AllocError>
        requires least { 8 ≤ r }
        requires most { r ≤ 100 }
        requires j { j < r }
    {
        let low = VALUES + 2 * r;
        let high = low + r / 2;
        let into = 254 - j;
        if j + 2 <= r {
            self.put(into, low + j.min(r - 2 - j), factor, true)?;
        }
        if j >= 1 {
            self.put(into, high + (j - 1).min(r - 1 - j), factor, j + 1 == r)?;
        }
        Ok(())
    }
}

/// The parity from the values at the roots, by pairs of roots, for an even r.
pub fn by_pairs(draft: &mut Draft, r: u16) -> Result<(), AllocError>
    requires least { 8 ≤ r }
    requires most { r ≤ 100 }
{
    let half = r / 2;
    let mut product = [0u8; 101];
    let mut quotient = [0u8; 101];
    let mut table = [0u8; 2500];
    moved_product(u32::from(r), &mut product);
    for i in 0..half {
        let weights = pair_of_roots(&product, u32::from(r), u32::from(i), &mut quotient);
        keep_half(&mut table, i as usize, &quotient, half as usize);
        draft.pair_values(r, i, &weights)?;
    }
    let low = VALUES + r;
    let into = VALUES + 2 * r;
    draft.coefficients(into, low, &table, half as usize)?;
    draft.coefficients(into + half, low + half, &table, half as usize)?;
    let back = 255 - shift_of(u32::from(r));
    for j in 0..r {
        draft.parity_byte(r, j, pow_root(back * u32::from(j)))?;
    }
    Ok(())
}
