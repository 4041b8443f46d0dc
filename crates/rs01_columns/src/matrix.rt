//! Bytes from the values at the roots, by a matrix.
//!
//! Where only the bytes at some places are not zero, as many values tell them. A polynomial is an
//! array of its coefficients here, the lowest first.

ghost use Rattle.std.specs.Prelude.{◌<◌, ◌≤◌, All, length};

use crate::draft::{Draft, VALUES};
use rs01_gf256::{Gf, pow_root};
use std::alloc::AllocError;

/// Multiplies the polynomial in the first places, the lowest coefficient first, by x + c.
pub fn multiply(polynomial: &mut [u8; 101], used: usize, c: Gf)
    requires { used ≤ 100 }
{
    for k in (1..used + 1).rev() {
        polynomial[k] = polynomial[k - 1] ^ c.mul(Gf(polynomial[k])).0;
    }
    polynomial[0] = c.mul(Gf(polynomial[0])).0;
}

/// Divides it by x + c.
pub fn divide_by(polynomial: &[u8; 101], r: usize, c: Gf, quotient: &mut [u8; 101])
    requires least { 1 ≤ r }
    requires most { r ≤ 100 }
{
    quotient[r - 1] = polynomial[r];
    for k in (0..r - 1).rev() {
        quotient[k] = polynomial[k + 1] ^ c.mul(Gf(quotient[k + 1])).0;
    }
}

/// The value of the first r coefficients.
pub fn value_of(polynomial: &[u8; 101], r: usize, x: Gf) -> Gf
    requires { r ≤ 100 }
{
    let mut value = Gf(0);
    for k in (0..r).rev() {
        value = value.mul(x).add(Gf(polynomial[k]));
    }
    value
}

// Multiplies the first r coefficients by c.
fn scale(polynomial: &mut [u8; 101], r: usize, c: Gf)
    requires { r ≤ 100 }
{
    for k in 0..r {
        polynomial[k] = c.mul(Gf(polynomial[k])).0;
    }
}

// Makes it the product of x + the locator of each of the last r places.
fn root_product(r: usize, product: &mut [u8; 101])
    requires { r ≤ 100 }
{
    product.fill(0);
    product[0] = 1;
    for m in 0..r {
        multiply(product, m + 1, pow_root(m as u32));
    }
}

// Makes it the product of x + the locator of each of these places.
fn locator_product(erased: &[u8], product: &mut [u8; 101])
    requires few { length erased.now ≤ 100 }
    requires below { All (λ p. p < 255) erased.now }
{
    product.fill(0);
    product[0] = 1;
    for m in 0..erased.len() {
        multiply(product, m + 1, pow_root(254 - u32::from(erased[m])));
    }
}

// The row of the matrix for the coefficient of x^i.
fn matrix_row(product: &[u8; 101], r: usize, i: u32, row: &mut [u8; 101])
    requires least { 1 ≤ r }
    requires most { r ≤ 100 }
    requires i { i < 255 }
{
    let x = pow_root(i);
    divide_by(product, r, x, row);
    let v = value_of(row, r, x).mul(pow_root(112 * i));
    if v.0 != 0 {
        scale(row, r, v.inv());
    }
}

impl Draft {
    // One row of the matrix, behind a clearing.
    fn row(&mut self, into: u16, row: &[u8]) -> Result<(), AllocError>
        requires { length row.now ≤ 100 }
    {
        self.clear(into, VALUES)?;
        for m in 0..25usize {
            self.terms(into, VALUES, row, 4 * m)?;
        }
        Ok(())
    }

    // Two rows, the first of which is for a lower column.
    fn two_rows(
        &mut self,
        into: u16,
        row: &[u8],
        other: u16,
        other_row: &[u8],
    ) -> Result<(), AllocError>
        requires row { length row.now ≤ 100 }
        requires other_row { length other_row.now ≤ 100 }
    {
        self.clear(into, VALUES)?;
        self.clear(other, VALUES)?;
        for m in 0..25usize {
            self.terms(into, VALUES, row, 4 * m)?;
            self.terms(other, VALUES, other_row, 4 * m)?;
        }
        Ok(())
    }
}

/// The parity from the values at the roots, by the whole matrix.
pub fn by_matrix(draft: &mut Draft, r: u16) -> Result<(), AllocError>
    requires least { 8 ≤ r }
    requires most { r ≤ 100 }
{
    let mut product = [0u8; 101];
    root_product(r as usize, &mut product);
    let mut row = [0u8; 101];
    let mut other = [0u8; 101];
    for m in 0..r / 2 {
        let t = 2 * m;
        matrix_row(&product, r as usize, u32::from(r - 1 - t), &mut row);
        matrix_row(&product, r as usize, u32::from(r - 2 - t), &mut other);
        draft.two_rows(
            255 - r + t,
            &row[..r as usize],
            256 - r + t,
            &other[..r as usize],
        )?;
    }
    if r % 2 == 1 {
        matrix_row(&product, r as usize, 0, &mut row);
        draft.row(254, &row[..r as usize])?;
    }
    Ok(())
}

/// The bytes at these places, in their columns, from as many values.
pub fn by_places(draft: &mut Draft, erased: &[u8]) -> Result<(), AllocError>
    requires few { length erased.now ≤ 100 }
    requires below { All (λ p. p < 255) erased.now }
{
    let mut product = [0u8; 101];
    locator_product(erased, &mut product);
    let mut row = [0u8; 101];
    let mut other = [0u8; 101];
    let r = erased.len();
    for m in 0..r / 2 {
        let here = erased[2 * m];
        let next = erased[2 * m + 1];
        matrix_row(&product, r, 254 - u32::from(here), &mut row);
        matrix_row(&product, r, 254 - u32::from(next), &mut other);
        draft.two_rows(u16::from(here), &row[..r], u16::from(next), &other[..r])?;
    }
    if r % 2 == 1 {
        let last = erased[r - 1];
        matrix_row(&product, r, 254 - u32::from(last), &mut row);
        draft.row(u16::from(last), &row[..r])?;
    }
    Ok(())
}
