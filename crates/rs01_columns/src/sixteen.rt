//! Sixteen bytes at a time: a product is looked up by the low and by the high nibble of each byte.

ghost use Rattle.std.specs.Prelude.{◌≡◌, ℕ, ◌+◌, ◌*◌, ◌/◌, ◌%◌, ◌<◌, ◌≤◌, length, slice_index, bit_xor};
ghost use Rattle.rs01_columns.specs.Lanes.{HasLanes, HoldsProducts};
ghost use Rattle.rs01_columns.specs.Ranges.{OnlyHere};
ghost use Rattle.rs01_gf256.specs.Field.{times};

use std::simd::prelude::*;

/// Takes sixteen bytes.
#[inline(always)]
pub fn load(bytes: &[u8], at: usize) -> u8x16
    requires { at + 16 ≤ length bytes.now }
    ensures { HasLanes result (λ k. slice_index bytes.now (at + k)) }
{
    u8x16::from_slice(&bytes[at..])
}

/// Puts them back.
#[inline(always)]
pub fn store(bytes: &mut [u8], at: usize, v: u8x16)
    requires room { at + 16 ≤ length bytes.old }
    requires v { length v ≡ 16 }
    ensures here { (k : ℕ) → k < 16 → slice_index bytes.new (at + k) ≡ slice_index v k }
    ensures rest { OnlyHere bytes.old bytes.new at 16 }
{
    v.copy_to_slice(&mut bytes[at..]);
}

// The entries of a table at the low nibbles.
#[inline(always)]
fn by_low(table: u8x16, v: u8x16) -> u8x16
    requires table { length table ≡ 16 }
    requires v { length v ≡ 16 }
    ensures { HasLanes result (λ k. slice_index table (slice_index v k % 16)) }
{
    table.swizzle_dyn(v & u8x16::splat(15))
}

// The entries of a table at the high nibbles.
#[inline(always)]
fn by_high(table: u8x16, v: u8x16) -> u8x16
    requires table { length table ≡ 16 }
    requires v { length v ≡ 16 }
    ensures { HasLanes result (λ k. slice_index table (slice_index v k / 16)) }
{
    table.swizzle_dyn(v >> u8x16::splat(4))
}

/// Adds sixteen bytes to sixteen others.
#[inline(always)]
pub fn sum(a: u8x16, b: u8x16) -> u8x16
    requires a { length a ≡ 16 }
    requires b { length b ≡ 16 }
    ensures { HasLanes result (λ k. bit_xor (slice_index a k) (slice_index b k)) }
{
    a ^ b
}

/// The products of a factor by the sixteen low nibbles, and by the sixteen high ones.
#[derive(Clone, Copy)]
pub struct Table {
    pub factor: u8,
    low: u8x16,
    high: u8x16,
    ghost low_products: { HasLanes low (λ n. times factor n) },
    ghost high_products: { HasLanes high (λ n. times factor (16 * n)) },
}

/// The table of a factor.
#[inline(always)]
pub fn table_of(factor: u8, products: &[u8]) -> Table
    requires products { HoldsProducts products.now }
    ensures { result.factor ≡ factor }
{
    Table {
        factor,
        low: load(products, 32 * factor as usize),
        high: load(products, 32 * factor as usize + 16),
    }
}

/// Adds the products of sixteen bytes.
#[inline(always)]
pub fn add_product(old: u8x16, table: Table, v: u8x16) -> u8x16
    requires old { length old ≡ 16 }
    requires v { length v ≡ 16 }
    ensures { HasLanes result
        (λ k. bit_xor (slice_index old k) (times table.factor (slice_index v k))) }
{
    sum(sum(old, by_low(table.low, v)), by_high(table.high, v))
}

/// Sixteen bytes from each of four places on.
#[derive(Clone, Copy)]
pub struct FourSixteens {
    pub one: u8x16,
    pub two: u8x16,
    pub three: u8x16,
    pub four: u8x16,
    ghost one_long: { length one ≡ 16 },
    ghost two_long: { length two ≡ 16 },
    ghost three_long: { length three ≡ 16 },
    ghost four_long: { length four ≡ 16 },
}
