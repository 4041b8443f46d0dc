//! The parity of a layer without memory: a shift register of columns, which divides all codewords
//! side by side.

ghost use Rattle.std.specs.Prelude.{◌≡◌, ℕ, ◌+◌, ◌-◌, ◌*◌, ◌<◌, ◌≤◌, length, slice_index};
ghost use Rattle.std.specs.List.{SameBelow};
ghost use Rattle.rs01_poly.specs.Code.{encode};
ghost use Rattle.rs01_columns.specs.Lanes.{HoldsProducts};
ghost use Rattle.rs01_columns.specs.Layer.{data_at};
ghost use Rattle.rs01_encode.specs.Columns.{AreShifted, HasAdded, HasTaken, HoldsRow, HoldsRows, IsFeedback, register};
ghost use Rattle.rs01_encode.specs.Register.{AreLower};
ghost use Rattle.rs01_encode.specs.Task.{layer_parity};

use crate::encoder::Encoder;
use rs01_columns::{add_column, write_products};

// Clears the columns from here on.
fn clear(columns: &mut [u8], at: usize)
    requires { at ≤ length columns.old }
    ensures zeros { (k : ℕ) → at ≤ k → slice_index columns.new k ≡ 0 }
    ensures before { SameBelow columns.old columns.new at }
{
    columns[at..].fill(0);
}

// Copies the range behind a range into it.
fn take_next(columns: &mut [u8], at: usize, width: usize)
    requires { at + 2 * width ≤ length columns.old }
    ensures { HasTaken columns.old columns.new at width }
{
    let (front, back) = columns.split_at_mut(at + width);
    front[at..].copy_from_slice(&back[..width]);
}

// Adds a multiple of the feedback to a column.
fn add_to(columns: &mut [u8], k: usize, feedback: &[u8; 2048], factor: u8, products: &[u8; 8192])
    requires products { HoldsProducts products.now }
    requires room { 2048 * k + 2048 ≤ length columns.old }
    ensures { HasAdded columns.old columns.new k feedback.now factor }
{
    let at = 2048 * k;
    add_column(&mut columns[at..at + 2048], feedback, factor, products);
}

// One step of the division. Behind the last column there are zeros.
fn shift_columns(columns: &mut [u8], low: &[u8], feedback: &[u8; 2048], products: &[u8; 8192])
    requires products { HoldsProducts products.now }
    requires some { 0 < length low.now }
    requires columns { length columns.old ≡ 2048 * length low.now }
    ensures { AreShifted columns.old columns.new low.now feedback.now }
{
    let last = low.len() - 1;
    for k in 0..last {
        take_next(columns, 2048 * k, 2048);
        add_to(columns, k, feedback, low[k], products);
    }
    clear(columns, 2048 * last);
    add_to(columns, last, feedback, low[last], products);
}

// Writes what is fed back: the block's bytes with those of the first column.
fn write_feedback(feedback: &mut [u8], blocks: &[u8], at: usize, columns: &[u8])
    requires blocks { at + length feedback.old ≤ length blocks.now }
    requires columns { length feedback.old ≤ length columns.now }
    ensures bytes { (l : ℕ) → slice_index feedback.new l < 256 }
    ensures sums { IsFeedback feedback.new blocks.now at columns.now }
{
    for l in 0..feedback.len() {
        feedback[l] = blocks[at + l] ^ columns[l];
    }
}

// Divides the codewords of a layer, given the lower coefficients of the generator polynomial.
// Afterwards the columns are the columns of the parity.
fn divide_columns(columns: &mut [u8], r: usize, blocks: &[u8], low: &[u8])
    requires low { AreLower low.now r }
    requires blocks { length blocks.now ≡ 2048 * (255 - r) }
    requires columns { length columns.old ≡ 2048 * r }
    ensures { (b : ℕ) → b < 2048 → register columns.new r b ≡ encode (data_at r blocks.now b) }
{
    let mut products = [0u8; 8192];
    let mut feedback = [0u8; 2048];
    write_products(&mut products);
    clear(columns, 0);
    for place in 0..255 - r {
        write_feedback(&mut feedback, blocks, 2048 * place, columns);
        shift_columns(columns, low, &feedback, &products);
    }
}

// Writes the parity of a codeword into its place.
fn lay_parity_of(parity: &mut [u8], at: usize, columns: &[u8], codeword: usize, r: usize)
    requires columns { length columns.now ≡ 2048 * r }
    requires codeword { codeword < 2048 }
    requires at { at + r ≤ length parity.old }
    ensures here { HoldsRow parity.new at columns.now codeword r }
    ensures before { SameBelow parity.old parity.new at }
{
    for j in 0..r {
        parity[at + j] = columns[2048 * j + codeword];
    }
}

// Writes the parity of the codewords, one codeword after the other.
fn lay_parity(parity: &mut [u8], columns: &[u8], r: usize)
    requires most { r ≤ 100 }
    requires columns { length columns.now ≡ 2048 * r }
    requires parity { length parity.old ≡ 2048 * r }
    ensures { HoldsRows parity.new columns.now r 2048 }
{
    for codeword in 0..2048usize {
        lay_parity_of(parity, codeword * r, columns, codeword, r);
    }
}

/// Writes the parity of the 2048 codewords whose data lie in these blocks of 2048 bytes, one codeword
/// after the other. The scratch bytes may be anything before, and are used meanwhile. No memory.
pub fn encode_columns(data_: &[u8], r: u32, scratch: &mut [u8], parity: &mut [u8])
    requires least { 8 ≤ r }
    requires most { r ≤ 100 }
    requires data_ { length data_.now ≡ 2048 * (255 - r) }
    requires scratch { length scratch.old ≡ 2048 * r }
    requires parity { length parity.old ≡ 2048 * r }
    ensures { parity.new ≡ layer_parity r data_.now }
{
    let encoder = Encoder::new(r);
    divide_columns(scratch, r as usize, data_, encoder.low());
    lay_parity(parity, scratch, r as usize);
}
