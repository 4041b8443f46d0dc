//! Candidates for the blocks of erased places. Nothing is claimed of them but that all other blocks
//! stay: the layer is tested with them.

ghost use Rattle.std.specs.Prelude.{◌-◌, ◌*◌, ◌<◌, ◌≤◌, All, length};
ghost use Rattle.rs01_columns.specs.Bank.{IsBank};
ghost use Rattle.rs01_columns.specs.Layer.{ArePartBlocks, IsPart, SameOutside};

use crate::laying::{copy, lay_words};
use crate::products::Products;
use crate::program::Program;
use crate::running::run;
use crate::steps::restoring_steps;
use rs01_lists::zeroed;
use std::alloc::{AllocError, Global};

// Clears the columns of these places.
fn clear_places(bank: &mut [u8], erased: &[u8])
    requires below { All (λ p. p < 255) erased.now }
    requires room { 1088 * 255 ≤ length bank.old }
{
    for i in 0..erased.len() {
        let at = 1088 * erased[i] as usize;
        bank[at..at + 1024].fill(0);
    }
}

// Writes the columns of these places into their blocks.
fn write_places(blocks: &mut [u8], bank: &[u8], erased: &[u8], first: usize, r: usize)
    requires blocks { ArePartBlocks r first blocks.old }
    requires below { All (λ p. p < 255 - r) erased.now }
    requires room { 1088 * 255 ≤ length bank.now }
    ensures { SameOutside blocks.old blocks.new erased.now }
{
    for i in 0..erased.len() {
        let place = erased[i] as usize;
        copy(blocks, 2048 * place + first, bank, 1088 * place, 1024);
    }
}

// Fills in the bytes of the codewords from `first` on.
fn fill_part(
    program: &Program,
    products: &Products,
    r: usize,
    blocks: &mut [u8],
    parity: &[u8],
    erased: &[u8],
    first: usize,
    bank: &mut [u8],
)
    requires part { IsPart r first blocks.old parity.now }
    requires below { All (λ p. p < 255 - r) erased.now }
    requires bank { IsBank program.now.columns bank.old }
    ensures { SameOutside blocks.old blocks.new erased.now }
{
    lay_words(bank, blocks, parity, first, r);
    clear_places(bank, erased);
    run(program, bank, products);
    write_places(blocks, bank, erased, first, r);
}

/// Writes into the blocks of these places what the others and the parity ask for, where all are of
/// codewords. All other blocks stay.
pub fn fill_places(
    alloc: Global,
    r: usize,
    blocks: &mut [u8],
    parity: &[u8],
    erased: &[u8],
    products: &Products,
) -> Result<(), AllocError>
    requires layer { IsPart r 0 blocks.old parity.now }
    requires few { length erased.now ≤ r }
    requires below { All (λ p. p < 255 - r) erased.now }
    ensures { SameOutside blocks.old blocks.new erased.now }
{
    let steps = restoring_steps(alloc, erased)?;
    let Some(program) = Program::new(steps, 255 + erased.len()) else {
        return Ok(());
    };
    let mut bank = zeroed(alloc, 1088 * program.columns)?;
    fill_part(&program, products, r, blocks, parity, erased, 0, &mut bank);
    fill_part(
        &program, products, r, blocks, parity, erased, 1024, &mut bank,
    );
    Ok(())
}
