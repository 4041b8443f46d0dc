//! The laws of the field. Each is a function without a body, whose contract is the law.

ghost use Rattle.std.specs.Prelude.{◌≡◌, ◌≢◌, ◌*◌, ◌%◌, ◌⊎◌, bit_xor};
ghost use Rattle.rs01_gf256.specs.Field.{times, power, inverse};

use crate::Gf;

/// The sum commutes.
pub fn add_commutes(x: Gf, y: Gf)
    ensures { bit_xor x.0 y.0 ≡ bit_xor y.0 x.0 }
{}

/// The sum associates.
pub fn add_associates(x: Gf, y: Gf, z: Gf)
    ensures { bit_xor (bit_xor x.0 y.0) z.0 ≡ bit_xor x.0 (bit_xor y.0 z.0) }
{}

/// The product commutes.
pub fn mul_commutes(x: Gf, y: Gf)
    ensures { times x.0 y.0 ≡ times y.0 x.0 }
{}

/// The product associates.
pub fn mul_associates(x: Gf, y: Gf, z: Gf)
    ensures { times (times x.0 y.0) z.0 ≡ times x.0 (times y.0 z.0) }
{}

/// The product distributes over the sum.
pub fn mul_distributes(x: Gf, y: Gf, z: Gf)
    ensures { times x.0 (bit_xor y.0 z.0) ≡ bit_xor (times x.0 y.0) (times x.0 z.0) }
{}

/// 0 is neutral for sums and 1 for products, and each element is its own negative.
pub fn neutral_elements(x: Gf)
    ensures sum { bit_xor x.0 0 ≡ x.0 }
    ensures product { times x.0 1 ≡ x.0 }
    ensures negative { bit_xor x.0 x.0 ≡ 0 }
{}

/// The product of an element and its inverse is 1, for every element but 0.
pub fn product_with_inverse_is_one(x: Gf)
    ensures { x.0 ≢ 0 → times x.0 (inverse x.0) ≡ 1 }
{}

/// An element whose product with `x` is 1 is the inverse of `x`.
pub fn inverse_is_unique(x: Gf, y: Gf)
    ensures { times x.0 y.0 ≡ 1 → y.0 ≡ inverse x.0 }
{}

/// A product is zero only where a factor is.
pub fn zero_product_has_zero_factor(x: Gf, y: Gf)
    ensures { times x.0 y.0 ≡ 0 → (x.0 ≡ 0) ⊎ (y.0 ≡ 0) }
{}

/// Powers of `a^11` are equal only where their exponents agree modulo 255.
pub fn equal_roots_agree(i: u32, j: u32)
    ensures { power 2 (11 * i) ≡ power 2 (11 * j) → i % 255 ≡ j % 255 }
{}
