//! Which codewords of a layer are codewords: those whose values at the roots, the syndromes, are 0.

ghost use Rattle.std.specs.Prelude.{◌≡◌, ℕ, ◌+◌, ◌-◌, ◌*◌, ◌<◌, ◌≤◌, All, IfOk, IfSome, IsTrue, false, length, slice_index};
ghost use Rattle.rs01_columns.specs.Bank.{IsBank};
ghost use Rattle.rs01_columns.specs.Keeping.{IsEvaluator};
ghost use Rattle.rs01_columns.specs.Layer.{IsPart, SameOutside};
ghost use Rattle.rs01_columns.specs.Scan.{AreZeroLanes, CountsCodewords, HasValueColumns, IsZeroLane};

use crate::candidates::fill_places;
use crate::certificate::evaluates;
use crate::kept::KeptProgram;
use crate::laying::lay_words;
use crate::running::run;
use crate::steps::evaluating_steps;
use rs01_lists::zeroed;
use std::alloc::{AllocError, Global};
use std::marker::Model;

/// The test of layers with a number of parity bytes, as which a contract sees it. It keeps a column
/// program that was tried when it was made.
#[derive(Drop)]
pub struct LayerSyndromes {
    kept: KeptProgram,
}

impl Model for LayerSyndromes {
    ghost use Rattle.std.specs.Prelude.{ℕ};
    ghost use Rattle.rs01_columns.specs.Keeping.{IsEvaluator};

    ghost Value = { ℕ };

    ghost view = { λ e. e.kept.parity_count };

    ghost invariant = { λ e. IsEvaluator e.kept };
}

// Whether a range of a bank is 0. It takes the greatest byte, which is done for sixteen at a time.
fn range_is_zero(bank: &[u8], at: usize, count: usize) -> bool
    requires { at + count ≤ length bank.now }
    ensures { IsTrue result → (k : ℕ) → k < count → slice_index bank.now (at + k) ≡ 0 }
{
    let mut greatest = 0u8;
    for k in at..at + count {
        greatest = greatest.max(bank[k]);
    }
    greatest == 0
}

// Whether the columns behind the word are 0.
fn columns_are_zero(bank: &[u8], r: usize) -> bool
    requires columns { HasValueColumns r bank.now }
    ensures { IsTrue result → (l : ℕ) → l < 1024 → IsZeroLane bank.now l r }
{
    for j in 0..r {
        if !range_is_zero(bank, 1088 * (255 + j), 1024) {
            return false;
        }
    }
    true
}

// Whether a lane is 0 behind the word.
fn lane_is_zero(bank: &[u8], l: usize, r: usize) -> bool
    requires l { l < 1024 }
    requires columns { HasValueColumns r bank.now }
    ensures zero { IsTrue result → IsZeroLane bank.now l r }
    ensures other { result ≡ false → IsZeroLane bank.now l r → ⊥ }
{
    for j in 0..r {
        if bank[1088 * (255 + j) + l] != 0 {
            return false;
        }
    }
    true
}

// The number of lanes before the first that is not 0 behind the word.
fn count_zero_lanes(bank: &[u8], r: usize) -> usize
    requires columns { HasValueColumns r bank.now }
    ensures most { result ≤ 1024 }
    ensures zero { AreZeroLanes bank.now result r }
    ensures next { result < 1024 → IsZeroLane bank.now result r → ⊥ }
{
    if columns_are_zero(bank, r) {
        return 1024;
    }
    for l in 0..1024usize {
        if !lane_is_zero(bank, l, r) {
            return l;
        }
    }
    1024
}

// How many of the words from `first` on are codewords, before the first that is none.
fn count_part(
    kept: &KeptProgram,
    blocks: &[u8],
    parity: &[u8],
    first: usize,
    bank: &mut [u8],
) -> usize
    requires evaluator { IsEvaluator kept.now }
    requires bank { IsBank kept.now.program.columns bank.old }
    requires part { IsPart kept.now.parity_count first blocks.now parity.now }
    ensures { CountsCodewords kept.now.parity_count blocks.now parity.now first 1024 result }
{
    lay_words(bank, blocks, parity, first, kept.parity_count);
    run(&kept.program, bank, &kept.products);
    count_zero_lanes(bank, kept.parity_count)
}

// The same of all words.
fn count_all(kept: &KeptProgram, blocks: &[u8], parity: &[u8], bank: &mut [u8]) -> usize
    requires evaluator { IsEvaluator kept.now }
    requires bank { IsBank kept.now.program.columns bank.old }
    requires layer { IsPart kept.now.parity_count 0 blocks.now parity.now }
    ensures { CountsCodewords kept.now.parity_count blocks.now parity.now 0 2048 result }
{
    let front = count_part(kept, blocks, parity, 0, bank);
    if front < 1024 {
        return front;
    }
    1024 + count_part(kept, blocks, parity, 1024, bank)
}

impl LayerSyndromes {
    /// The test for `r` parity bytes, or `None` where its program fails its own test, of which no
    /// number of parity bytes is known.
    pub fn new(alloc: Global, r: u32) -> Result<Option<LayerSyndromes>, AllocError>
        requires least { 8 ≤ r }
        requires most { r ≤ 100 }
        ensures { IfOk result (λ made. IfSome made (λ test. test ≡ r)) }
    {
        let steps = evaluating_steps(alloc, r as u16)?;
        let columns = 255 + r as usize;
        let Some(kept) = KeptProgram::new(alloc, r as usize, columns, steps)? else {
            return Ok(None);
        };
        if evaluates(alloc, &kept)? {
            Ok(Some(LayerSyndromes { kept }))
        } else {
            Ok(None)
        }
    }

    /// The number of parity bytes of a codeword.
    pub fn parity_count(&self) -> u32
        ensures value { result ≡ self.now }
        ensures most { result ≤ 100 }
    {
        self.kept.parity_count as u32
    }

    /// How many words of a layer, of which these are the blocks and the parity, are codewords,
    /// before the first that is none: 2048 where all are.
    pub fn count_codewords(
        &self,
        alloc: Global,
        blocks: &[u8],
        parity: &[u8],
    ) -> Result<u32, AllocError>
        requires blocks { length blocks.now ≡ 2048 * (255 - self.now) }
        requires parity { length parity.now ≡ 2048 * self.now }
        ensures { IfOk result (λ n. CountsCodewords self.now blocks.now parity.now 0 2048 n) }
    {
        let mut bank = zeroed(alloc, 1088 * self.kept.program.columns)?;
        let count = count_all(&self.kept, blocks, parity, &mut bank);
        Ok(count as u32)
    }

    /// Writes into the blocks of these places, of which there are at most as many as parity bytes,
    /// what the other blocks and the parity ask for where all are of codewords. All other blocks
    /// stay, also where memory is wanting. What is written is a candidate: `count_codewords` tells
    /// whether it fits.
    pub fn fill_places(
        &self,
        alloc: Global,
        blocks: &mut [u8],
        parity: &[u8],
        erased: &[u8],
    ) -> Result<(), AllocError>
        requires few { length erased.now ≤ self.now }
        requires below { All (λ p. p < 255 - self.now) erased.now }
        requires blocks { length blocks.old ≡ 2048 * (255 - self.now) }
        requires parity { length parity.now ≡ 2048 * self.now }
        ensures { SameOutside blocks.old blocks.new erased.now }
    {
        let r = self.kept.parity_count;
        fill_places(alloc, r, blocks, parity, erased, &self.kept.products)
    }
}
