//! The laws of polynomials. Each is a function without a body, whose contract is the law.

ghost use Rattle.std.specs.Prelude.{◌≡◌, ◌+◌, ◌≤◌, ◌⊎◌, ◌↔◌, bit_xor, length};
ghost use Rattle.rs01_gf256.specs.Field.{times};
ghost use Rattle.rs01_poly.specs.Polynomial.{add_front, remainder, scale, times_linear, value_at};

use rs01_gf256::Gf;

/// The value of the product by `x + c` is the product of the values.
pub fn value_of_product(polynomial: &[u8], c: Gf, z: Gf)
    ensures { value_at (times_linear polynomial.now c.0) z.0
        ≡ times (bit_xor z.0 c.0) (value_at polynomial.now z.0) }
{}

/// The product by `x + c` vanishes exactly where a factor does: at `c`, and wherever the other
/// factor vanishes.
pub fn product_vanishes(polynomial: &[u8], c: Gf, z: Gf)
    ensures { (value_at (times_linear polynomial.now c.0) z.0 ≡ 0)
        ↔ ((z.0 ≡ c.0) ⊎ (value_at polynomial.now z.0 ≡ 0)) }
{}

/// What `n` steps of long division leave of the sum of two polynomials with as many coefficients
/// is the sum of what they leave of each.
pub fn remainder_of_sum(n: u32, divisor: &[u8], one: &[u8], other: &[u8])
    ensures { length one.now ≡ length other.now
        → remainder n divisor.now (add_front one.now other.now)
        ≡ add_front (remainder n divisor.now one.now) (remainder n divisor.now other.now) }
{}

/// What `n` steps of long division leave of `c` times a polynomial is `c` times what they leave of
/// it, where its coefficients are enough for all steps.
pub fn remainder_of_multiple(n: u32, divisor: &[u8], c: Gf, polynomial: &[u8])
    ensures { length divisor.now + n ≤ length polynomial.now
        → remainder n divisor.now (scale c.0 polynomial.now)
        ≡ scale c.0 (remainder n divisor.now polynomial.now) }
{}
