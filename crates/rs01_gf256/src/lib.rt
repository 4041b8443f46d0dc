//! The field of 256 elements over which the error correction code works.
//!
//! An element is a byte. It stands for a polynomial over bits, in which bit `i` is the coefficient
//! of `x^i`. Sums are exclusive or, and products are reduced by `x^8 + x^7 + x^2 + x + 1`, which is
//! 0x187. The element 2 generates the products: its first 255 powers are all the elements but 0.
//!
//! Every call answers for every element (`inv` for every element but 0), takes no memory and has
//! no error.
#![tactic(auto)]

ghost use Rattle.std.specs.Prelude.{◌≡◌, ◌≢◌, ◌*◌, bit_xor};
ghost use Rattle.rs01_gf256.specs.Field.{times, power};

pub mod laws_of_field;
mod tables;

use tables::{EXP, LOG};

/// An element of the field.
#[derive(Clone, Copy, PartialEq, Eq, Debug)]
pub struct Gf(pub u8);

impl Gf {
    /// The sum, which is also the difference.
    pub fn add(self, other: Gf) -> Gf
        ensures { result.0 ≡ bit_xor self.0 other.0 }
    {
        Gf(self.0 ^ other.0)
    }

    /// The product.
    pub fn mul(self, other: Gf) -> Gf
        ensures { result.0 ≡ times self.0 other.0 }
    {
        if self.0 == 0 || other.0 == 0 {
            Gf(0)
        } else {
            let exponent = LOG[self.0 as usize] as usize + LOG[other.0 as usize] as usize;
            Gf(EXP[exponent])
        }
    }

    /// The element whose product with this one is 1. The element 0 has none.
    pub fn inv(self) -> Gf
        requires not_zero { self.0 ≢ 0 }
        ensures { times self.0 result.0 ≡ 1 }
    {
        Gf(EXP[255 - LOG[self.0 as usize] as usize])
    }
}

/// The power `a^(11 * i)` of the element `a = 2`. The roots of the code are such powers.
pub fn pow_root(i: u32) -> Gf
    ensures { result.0 ≡ power 2 (11 * i) }
{
    Gf(EXP[(i % 255) as usize * 11 % 255])
}

#[cfg(test)]
mod tests {
    use super::*;

    #[test]
    fn worked_values(rt: HostRuntime) {
        assert_eq!(rt; Gf(0xad).add(Gf(0x87)), Gf(0x2a));
        assert_eq!(rt; Gf(2).mul(Gf(0x80)), Gf(0x87));
        assert_eq!(rt; Gf(2).inv(), Gf(0xc3));
        assert_eq!(rt; Gf(0xc3).inv(), Gf(2));

        // An exponent, and the power of a^11 to it.
        for (i, value) in [(0u32, 1u8), (1, 0xad), (112, 21), (255, 1), (256, 0xad)] {
            assert_eq!(rt; pow_root(i).0, value);
        }
    }
}
