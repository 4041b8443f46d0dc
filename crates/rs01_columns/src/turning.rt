//! Squares of sixteen by sixteen bytes: rows become columns.
//!
//! The 256 bytes are riffled four times, each time the two halves byte by byte.

ghost use Rattle.std.specs.Prelude.{◌≡◌, ℕ, ◌+◌, ◌*◌, ◌<◌, ◌≤◌, length, slice_index};
ghost use Rattle.rs01_columns.specs.Ranges.{OnlyHere};
ghost use Rattle.rs01_columns.specs.Turning.{AreRiffled, HasRows, IsTurned, OnlyInRows, RowsLie, TakesTurns};

use crate::laying::copy;
use crate::sixteen::{load, store};
use std::simd::prelude::*;

// The first eight lanes of each, by turns.
#[inline(always)]
fn first_by_turns(a: u8x16, b: u8x16) -> u8x16
    requires a { length a ≡ 16 }
    requires b { length b ≡ 16 }
    ensures { TakesTurns a b 0 result }
{
    a.shuffle(b, [0, 16, 1, 17, 2, 18, 3, 19, 4, 20, 5, 21, 6, 22, 7, 23])
}

// The last eight lanes of each, by turns.
#[inline(always)]
fn last_by_turns(a: u8x16, b: u8x16) -> u8x16
    requires a { length a ≡ 16 }
    requires b { length b ≡ 16 }
    ensures { TakesTurns a b 8 result }
{
    a.shuffle(
        b,
        [8, 24, 9, 25, 10, 26, 11, 27, 12, 28, 13, 29, 14, 30, 15, 31],
    )
}

// Riffles sixteen bytes of each half.
#[inline(always)]
fn riffle_block(from: &[u8], into: &mut [u8], i: usize)
    requires from { length from.now ≡ 256 }
    requires into { length into.old ≡ 256 }
    requires i { i < 8 }
    ensures here { AreRiffled from.now into.new (16 * i) (16 * i + 16) }
    ensures rest { OnlyHere into.old into.new (32 * i) 32 }
{
    let a = load(from, 16 * i);
    let b = load(from, 128 + 16 * i);
    store(into, 32 * i, first_by_turns(a, b));
    store(into, 32 * i + 16, last_by_turns(a, b));
}

// Riffles 256 bytes.
fn riffle(from: &[u8], into: &mut [u8])
    requires from { length from.now ≡ 256 }
    requires into { length into.old ≡ 256 }
    ensures { AreRiffled from.now into.new 0 128 }
{
    for i in 0..8usize {
        riffle_block(from, into, i);
    }
}

// Turns a square, by means of room for another.
fn turn(square: &mut [u8], spare: &mut [u8])
    requires square { length square.old ≡ 256 }
    requires spare { length spare.old ≡ 256 }
    ensures { IsTurned square.old square.new }
{
    riffle(square, spare);
    riffle(spare, square);
    riffle(square, spare);
    riffle(spare, square);
}

// Takes rows of sixteen bytes, of which each begins `r` bytes behind the one before.
fn take_rows(square: &mut [u8], bytes: &[u8], from: usize, r: usize)
    requires square { length square.old ≡ 256 }
    requires bytes { from + 15 * r + 16 ≤ length bytes.now }
    ensures { HasRows square.new bytes.now from r 16 }
{
    for i in 0..16usize {
        copy(square, 16 * i, bytes, from + i * r, 16);
    }
}

// Puts the rows of a square into columns of a bank, from `to` on.
fn put_rows(bank: &mut [u8], to: usize, square: &[u8])
    requires square { length square.now ≡ 256 }
    requires bank { to + 1088 * 15 + 16 ≤ length bank.old }
    ensures here { RowsLie bank.new to square.now 16 }
    ensures rest { OnlyInRows bank.old bank.new to 16 }
{
    for k in 0..16usize {
        copy(bank, to + 1088 * k, square, 16 * k, 16);
    }
}

/// Lays sixteen bytes of each of sixteen rows into columns of a bank, from `to` on. Each row begins `r` bytes
/// behind the one before.
pub fn lay_square(
    bank: &mut [u8],
    to: usize,
    bytes: &[u8],
    from: usize,
    r: usize,
    square: &mut [u8],
    spare: &mut [u8],
)
    requires square { length square.old ≡ 256 }
    requires spare { length spare.old ≡ 256 }
    requires bank { to + 1088 * 15 + 16 ≤ length bank.old }
    requires bytes { from + 15 * r + 16 ≤ length bytes.now }
    ensures here { (i k : ℕ) → i < 16 → k < 16
        → slice_index bank.new (to + 1088 * k + i) ≡ slice_index bytes.now (from + i * r + k) }
    ensures rest { OnlyInRows bank.old bank.new to 16 }
{
    take_rows(square, bytes, from, r);
    turn(square, spare);
    put_rows(bank, to, square);
}
