//! The values of a word at the roots, by a decomposition of its 255 places into 3, 5 and 17.
//!
//! The place p stands for the power n = 254 - p, and n is 85 a + 51 b + 15 c modulo 255 for one a
//! below 3, b below 5 and c below 17. For each c the fifteen columns are transformed in place, first
//! by threes and then by fives; each value is then a sum of 17 multiples.

ghost use Rattle.std.specs.Prelude.{◌+◌, ◌<◌, ◌≤◌};

use crate::draft::{Draft, VALUES};
use rs01_gf256::{Gf, pow_root};
use std::alloc::AllocError;

/// The place of the numbers a below 3, b below 5 and c below 17.
pub fn place(a: u16, b: u16, c: u16) -> u16
    requires a { a < 3 }
    requires b { b < 5 }
    requires c { c < 17 }
    ensures { result ≤ 254 }
{
    254 - (85 * a + 51 * b + 15 * c) % 255
}

// Where result j of five stands.
fn row_of_five(j: u16) -> u16
    requires { j < 5 }
    ensures { result < 5 }
{
    if j == 0 {
        0
    } else if j <= 2 {
        j + 2
    } else {
        j - 2
    }
}

impl Draft {
    // The transform of three columns, in place. Its results stand in the order 0, 2, 1.
    fn three(&mut self, b: u16, c: u16) -> Result<(), AllocError>
        requires b { b < 5 }
        requires c { c < 17 }
    {
        let x = place(0, b, c);
        let y = place(1, b, c);
        let z = place(2, b, c);
        self.add(y, z)?;
        self.add(x, y)?;
        self.add(z, x)?;
        self.add_times(z, y, pow_root(85).add(Gf(1)))?;
        self.add(y, z)
    }

    // The first half of the transform of five columns.
    fn five_sums(&mut self, x: u16, y: u16, z: u16, u: u16, v: u16) -> Result<(), AllocError> {
        let one = pow_root(51);
        let two = one.mul(one);
        let four = two.mul(two);
        self.add(y, v)?;
        self.add(z, u)?;
        self.add(v, u)?;
        self.add(u, x)?;
        self.add_times(u, v, one.add(four))?;
        self.add_times(u, y, one)?;
        self.add_times(u, z, two)
    }

    // The second half. The results stand in the order 0, 3, 4, 1, 2.
    fn five_results(&mut self, x: u16, y: u16, z: u16, u: u16, v: u16) -> Result<(), AllocError> {
        let one = pow_root(51);
        let two = one.mul(one);
        let four = two.mul(two);
        self.add(v, u)?;
        self.add_times(v, y, one.add(two))?;
        self.add_times(v, z, two.add(four))?;
        self.add(x, y)?;
        self.add(x, z)?;
        self.add(z, y)?;
        self.add_times(y, z, one.add(four))?;
        self.add(z, y)?;
        self.add(y, v)?;
        self.add(z, u)
    }

    // The transform of five columns, in place.
    fn five(&mut self, a: u16, c: u16) -> Result<(), AllocError>
        requires a { a < 3 }
        requires c { c < 17 }
    {
        let x = place(a, 0, c);
        let y = place(a, 1, c);
        let z = place(a, 2, c);
        let u = place(a, 3, c);
        let v = place(a, 4, c);
        self.five_sums(x, y, z, u, v)?;
        self.five_results(x, y, z, u, v)
    }

    // The transform of the fifteen columns of a number c below 17.
    fn fifteen(&mut self, c: u16) -> Result<(), AllocError>
        requires c { c < 17 }
    {
        for b in 0..5u16 {
            self.three(b, c)?;
        }
        for a in 0..3u16 {
            self.five(a, c)?;
        }
        Ok(())
    }

    // The transforms of all columns.
    fn fifteens(&mut self) -> Result<(), AllocError> {
        for c in 0..17u16 {
            self.fifteen(c)?;
        }
        Ok(())
    }

    // The value at root j, from the term c on so many terms.
    fn value_terms(&mut self, j: u16, first: u16, count: u16) -> Result<(), AllocError>
        requires j { j < 200 }
        requires terms { first + count ≤ 17 }
    {
        let e = 112 + j;
        let a = (3 - e % 3) % 3;
        let b = row_of_five(e % 5);
        for m in 0..count {
            let c = first + m;
            let power = 15 * (u32::from(e) * u32::from(c) % 17);
            self.put(VALUES + j, place(a, b, c), pow_root(power), false)?;
        }
        Ok(())
    }

    // The value at root j alone.
    fn value(&mut self, j: u16) -> Result<(), AllocError>
        requires j { j < 200 }
    {
        self.value_terms(j, 0, 17)
    }

    // The values at roots j and j + 15, by fours: they have the same columns.
    fn two_values(&mut self, j: u16) -> Result<(), AllocError>
        requires j { j < 100 }
    {
        self.value_terms(j, 0, 1)?;
        self.value_terms(j + 15, 0, 1)?;
        for m in 0..4u16 {
            self.value_terms(j, 1 + 4 * m, 4)?;
            self.value_terms(j + 15, 1 + 4 * m, 4)?;
        }
        Ok(())
    }

    /// The values at the first roots, behind the word, whose columns are used up. The columns behind
    /// it are zero before.
    pub fn values(&mut self, count: u16) -> Result<(), AllocError>
        requires { count ≤ 100 }
    {
        self.fifteens()?;
        for j in 0..count {
            if j % 30 < 15 {
                if j + 15 < count {
                    self.two_values(j)?;
                } else {
                    self.value(j)?;
                }
            }
        }
        Ok(())
    }
}
