//! A program is tried on the unit words, which tell what it makes of every word.

ghost use Rattle.std.specs.Prelude.{◌≡◌, ℕ, ◌+◌, ◌-◌, ◌*◌, ◌<◌, ◌≤◌, ◌++◌, IfOk, IsTrue, length, slice_index};
ghost use Rattle.rs01_poly.specs.Code.{VanishesAtRoots};
ghost use Rattle.rs01_columns.specs.Bank.{IsBank, lane};
ghost use Rattle.rs01_columns.specs.Certificate.{AreBuffers, HoldUnitsAfter, UnitLaneHolds, UnitLanesHold, parity_bytes, root_values, start, unit_word};
ghost use Rattle.rs01_columns.specs.Keeping.{IsEncoder, IsEvaluator};
ghost use Rattle.rs01_columns.specs.Scan.{HasValueColumns};

use crate::kept::KeptProgram;
use crate::laying::read_lane;
use crate::products::Products;
use crate::program::Program;
use crate::running::run;
use rs01_gf256::pow_root;
use rs01_lists::zeroed;
use rs01_poly::eval;
use std::alloc::{AllocError, Global};

// Lays the unit words of n bytes into the lanes of a bank of zeros.
fn lay_unit_words(bank: &mut [u8], n: usize)
    requires n { n ≤ 255 }
    requires room { 1088 * n ≤ length bank.old }
    requires zeros { (p : ℕ) → slice_index bank.old p ≡ 0 }
    ensures { (l : ℕ) → l < n → (j : ℕ) → lane bank.new l j ≡ start (unit_word n l) j }
{
    for i in 0..n {
        bank[1088 * i + i] = 1;
    }
}

// Makes a word a unit word.
fn write_unit_word(word: &mut [u8], place: usize)
    requires { place < length word.old }
    ensures { word.new ≡ unit_word (length word.old) place }
{
    word.fill(0);
    word[place] = 1;
}

// Whether the polynomial is zero at the first roots.
fn vanishes(word: &[u8], r: u32) -> bool
    requires { r ≤ 100 }
    ensures { IsTrue result → VanishesAtRoots word.now r }
{
    for j in 0..r {
        if eval(word, pow_root(112 + j)).0 != 0 {
            return false;
        }
    }
    true
}

// Writes the data, and the parity behind it.
fn join(word: &mut [u8; 255], data_: &[u8], parity: &[u8])
    requires { length data_.now + length parity.now ≡ 255 }
    ensures { word.new ≡ data_.now ++ parity.now }
{
    let (front, back) = word.split_at_mut(data_.len());
    front.copy_from_slice(data_);
    back.copy_from_slice(parity);
}

// Whether the lane of a unit word holds its parity, with which it is a codeword.
fn holds_parity(bank: &[u8], place: usize, r: usize, data_: &mut [u8], parity: &mut [u8]) -> bool
    requires buffers { AreBuffers r data_.old parity.old }
    requires place { place < 255 - r }
    requires room { 1088 * 255 ≤ length bank.now }
    ensures { IsTrue result → UnitLaneHolds bank.now (255 - r) (255 - r) r parity_bytes place }
{
    let mut word = [0u8; 255];
    write_unit_word(data_, place);
    read_lane(bank, place, 255 - r, parity);
    join(&mut word, data_, parity);
    vanishes(&word, r as u32)
}

// Whether the lanes of the unit words hold their parity.
fn hold_parity(bank: &[u8], r: usize, data_: &mut [u8], parity: &mut [u8]) -> bool
    requires buffers { AreBuffers r data_.old parity.old }
    requires room { 1088 * 255 ≤ length bank.now }
    ensures { IsTrue result → UnitLanesHold bank.now (255 - r) (255 - r) r parity_bytes }
{
    for place in 0..255 - r {
        if !holds_parity(bank, place, r, data_, parity) {
            return false;
        }
    }
    true
}

// Whether the lane of a unit word holds its values at the first roots. Its polynomial is a power of x, so these are
// powers of the roots.
fn holds_values(bank: &[u8], place: usize, r: usize) -> bool
    requires place { place < 255 }
    requires columns { HasValueColumns r bank.now }
    ensures { IsTrue result → UnitLaneHolds bank.now 255 255 r root_values place }
{
    let exponent = 254 - place as u32;
    for j in 0..r {
        let value = pow_root((112 + j as u32) * exponent);
        if bank[1088 * (255 + j) + place] != value.0 {
            return false;
        }
    }
    true
}

// Whether the lanes of the unit words do.
fn hold_values(bank: &[u8], r: usize) -> bool
    requires columns { HasValueColumns r bank.now }
    ensures { IsTrue result → UnitLanesHold bank.now 255 255 r root_values }
{
    for place in 0..255usize {
        if !holds_values(bank, place, r) {
            return false;
        }
    }
    true
}

// Runs a program on the unit words of n bytes, in a bank of zeros.
fn run_on_units(bank: &mut [u8], program: &Program, products: &Products, n: usize)
    requires n { n ≤ 255 }
    requires bank { IsBank program.now.columns bank.old }
    requires zeros { (p : ℕ) → slice_index bank.old p ≡ 0 }
    ensures { HoldUnitsAfter bank.new n program.now.steps.items }
{
    lay_unit_words(bank, n);
    run(program, bank, products);
}

// The bank after a program was run on the unit words of n bytes.
fn bank_of_units(
    alloc: Global,
    program: &Program,
    products: &Products,
    n: usize,
) -> Result<Vec<u8>, AllocError>
    requires { n ≤ 255 }
    ensures size { IfOk result (λ bank. IsBank program.now.columns bank.items) }
    ensures units { IfOk result (λ bank. HoldUnitsAfter bank.items n program.now.steps.items) }
{
    let mut bank = zeroed(alloc, 1088 * program.columns)?;
    run_on_units(&mut bank, program, products, n);
    Ok(bank)
}

/// Whether the program is found to encode.
pub fn encodes(alloc: Global, kept: &KeptProgram) -> Result<bool, AllocError>
    ensures { IfOk result (λ holds. IsTrue holds → IsEncoder kept.now) }
{
    let r = kept.parity_count;
    let k = 255 - r;
    let bank = bank_of_units(alloc, &kept.program, &kept.products, k)?;
    let mut data_ = [0u8; 255];
    let mut parity = [0u8; 100];
    Ok(hold_parity(&bank, r, &mut data_[..k], &mut parity[..r]))
}

/// Whether the program is found to give the values at the roots.
pub fn evaluates(alloc: Global, kept: &KeptProgram) -> Result<bool, AllocError>
    ensures { IfOk result (λ holds. IsTrue holds → IsEvaluator kept.now) }
{
    let bank = bank_of_units(alloc, &kept.program, &kept.products, 255)?;
    Ok(hold_values(&bank, kept.parity_count))
}
