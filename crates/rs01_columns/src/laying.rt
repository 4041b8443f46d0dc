//! The bytes of a layer, laid into a bank and read from it.

ghost use Rattle.std.specs.Prelude.{◌≡◌, ℕ, ◌+◌, ◌-◌, ◌*◌, ◌/◌, ◌<◌, ◌≤◌, length, slice_index};
ghost use Rattle.rs01_columns.specs.Bank.{IsInBank, LaneHolds, LaneHoldsFrom, LanesHoldParity, OnlyColumns, OnlyInLane, lane};
ghost use Rattle.rs01_columns.specs.Certificate.{LanesHold};
ghost use Rattle.rs01_columns.specs.Layer.{ArePartBlocks, IsPart, IsPartParity, data_at, word_at};
ghost use Rattle.rs01_columns.specs.Ranges.{IsCopied, OnlyHere, SameBefore};

use crate::turning::lay_square;

/// Copies so many bytes.
pub fn copy(into: &mut [u8], to: usize, from: &[u8], at: usize, count: usize)
    requires into { to + count ≤ length into.old }
    requires from { at + count ≤ length from.now }
    ensures here { IsCopied into.new to from.now at count }
    ensures rest { OnlyHere into.old into.new to count }
{
    into[to..to + count].copy_from_slice(&from[at..at + count]);
}

// Clears a bank from here on.
fn clear_from(bank: &mut [u8], at: usize)
    requires room { at ≤ length bank.old }
    ensures { (k : ℕ) → at ≤ k → slice_index bank.new k ≡ 0 }
{
    bank[at..].fill(0);
}

/// Lays the data of the codewords from `first` on into the lanes of the bank, and zeros behind it.
pub fn lay_blocks(bank: &mut [u8], blocks: &[u8], first: usize, r: usize)
    requires blocks { ArePartBlocks r first blocks.now }
    requires room { 1088 * 255 ≤ length bank.old }
    ensures { LanesHold bank.new (λ l. data_at r blocks.now (first + l)) }
{
    clear_from(bank, 1088 * (255 - r));
    for place in 0..255 - r {
        copy(bank, 1088 * place, blocks, 2048 * place + first, 1024);
    }
}

// Lays bytes into a lane, from the kth column on.
fn lay_lane(bank: &mut [u8], l: usize, k: usize, bytes: &[u8])
    requires { IsInBank bank.old l k (length bytes.now) }
    ensures here { LaneHolds bank.new l k bytes.now }
    ensures rest { OnlyInLane bank.old bank.new l k (k + length bytes.now) }
{
    for j in 0..bytes.len() {
        bank[1088 * (k + j) + l] = bytes[j];
    }
}

// Lays sixteen columns of the parity of the codewords from `first` on, from column `c` of the parity on, sixteen
// codewords at a time.
fn lay_sixteen(
    bank: &mut [u8],
    parity: &[u8],
    first: usize,
    r: usize,
    c: usize,
    square: &mut [u8],
    spare: &mut [u8],
)
    requires parity { IsPartParity r first parity.now }
    requires room { 1088 * 255 ≤ length bank.old }
    requires c { c + 16 ≤ r }
    requires square { length square.old ≡ 256 }
    requires spare { length spare.old ≡ 256 }
    ensures here { (l j : ℕ) → l < 1024 → c ≤ j → j < c + 16
        → lane bank.new l (255 - r + j) ≡ slice_index parity.now ((first + l) * r + j) }
    ensures rest { OnlyColumns bank.old bank.new (255 - r + c) (255 - r + c + 16) }
{
    for b in 0..64usize {
        let codeword = first + 16 * b;
        let to = 1088 * (255 - r + c) + 16 * b;
        lay_square(bank, to, parity, codeword * r + c, r, square, spare);
    }
}

// Lays the columns of the parity that make whole sixteens.
fn lay_sixteens(bank: &mut [u8], parity: &[u8], first: usize, r: usize)
    requires parity { IsPartParity r first parity.now }
    requires room { 1088 * 255 ≤ length bank.old }
    ensures here { (l j : ℕ) → l < 1024 → j < 16 * (r / 16)
        → lane bank.new l (255 - r + j) ≡ slice_index parity.now ((first + l) * r + j) }
    ensures rest { OnlyColumns bank.old bank.new (255 - r) (255 - r + 16 * (r / 16)) }
{
    let mut square = [0u8; 256];
    let mut spare = [0u8; 256];
    for s in 0..r / 16 {
        lay_sixteen(bank, parity, first, r, 16 * s, &mut square, &mut spare);
    }
}

// Lays the columns of the parity from column `c` on.
fn lay_others(bank: &mut [u8], parity: &[u8], first: usize, r: usize, c: usize)
    requires parity { IsPartParity r first parity.now }
    requires room { 1088 * 255 ≤ length bank.old }
    requires c { c ≤ r }
    ensures here { (l j : ℕ) → l < 1024 → j < r - c
        → lane bank.new l (255 - r + c + j) ≡ slice_index parity.now ((first + l) * r + c + j) }
    ensures rest { OnlyColumns bank.old bank.new (255 - r + c) 255 }
{
    for l in 0..1024usize {
        let codeword = first + l;
        let from = codeword * r;
        lay_lane(bank, l, 255 - r + c, &parity[from + c..from + r]);
    }
}

// Lays the parity of the codewords from `first` on into the columns behind the data.
fn lay_parity(bank: &mut [u8], parity: &[u8], first: usize, r: usize)
    requires parity { IsPartParity r first parity.now }
    requires room { 1088 * 255 ≤ length bank.old }
    ensures here { LanesHoldParity bank.new r first parity.now }
    ensures rest { OnlyColumns bank.old bank.new (255 - r) 255 }
{
    lay_sixteens(bank, parity, first, r);
    let c = 16 * (r / 16);
    if c < r {
        lay_others(bank, parity, first, r, c);
    }
}

/// Lays the codewords from `first` on into the lanes of the bank, and zeros behind them.
pub fn lay_words(bank: &mut [u8], blocks: &[u8], parity: &[u8], first: usize, r: usize)
    requires part { IsPart r first blocks.now parity.now }
    requires room { 1088 * 255 ≤ length bank.old }
    ensures { LanesHold bank.new (λ l. word_at r blocks.now parity.now (first + l)) }
{
    lay_blocks(bank, blocks, first, r);
    lay_parity(bank, parity, first, r);
}

/// Reads the bytes of a lane, from the kth column on.
pub fn read_lane(bank: &[u8], l: usize, k: usize, bytes: &mut [u8])
    requires { IsInBank bank.now l k (length bytes.old) }
    ensures { LaneHolds bank.now l k bytes.new }
{
    for j in 0..bytes.len() {
        bytes[j] = bank[1088 * (k + j) + l];
    }
}

// Reads the parity of a lane into its place.
fn read_parity_of(parity: &mut [u8], at: usize, bank: &[u8], l: usize, r: usize)
    requires lane { IsInBank bank.now l (255 - r) r }
    requires at { at + r ≤ length parity.old }
    ensures here { LaneHoldsFrom bank.now l (255 - r) parity.new at r }
    ensures before { SameBefore parity.old parity.new at }
{
    read_lane(bank, l, 255 - r, &mut parity[at..at + r]);
}

/// Reads the parity of the codewords from `first` on, one codeword after the other.
pub fn read_parity(parity: &mut [u8], bank: &[u8], first: usize, r: usize)
    requires parity { IsPartParity r first parity.old }
    requires room { 1088 * 255 ≤ length bank.now }
    ensures here { LanesHoldParity bank.now r first parity.new }
    ensures before { SameBefore parity.old parity.new (first * r) }
{
    for l in 0..1024usize {
        let codeword = first + l;
        read_parity_of(parity, codeword * r, bank, l, r);
    }
}
