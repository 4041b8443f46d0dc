//! The encoder of whole layers.

ghost use Rattle.std.specs.Prelude.{◌≡◌, ◌+◌, ◌-◌, ◌*◌, ◌≤◌, IfOk, IfSome, OnErr, length};
ghost use Rattle.rs01_columns.specs.Bank.{IsBank};
ghost use Rattle.rs01_columns.specs.Keeping.{IsEncoder};
ghost use Rattle.rs01_columns.specs.Layer.{HoldsParity, IsPart};

use crate::certificate::encodes;
use crate::kept::KeptProgram;
use crate::laying::{lay_blocks, read_parity};
use crate::running::run;
use crate::steps::encoding_steps;
use rs01_lists::zeroed;
use std::alloc::{AllocError, Global};
use std::marker::Model;

/// The encoder of layers with a number of parity bytes, as which a contract sees it. It keeps a
/// column program that was tried when it was made.
#[derive(Drop)]
pub struct LayerEncoder {
    kept: KeptProgram,
}

impl Model for LayerEncoder {
    ghost use Rattle.std.specs.Prelude.{ℕ};
    ghost use Rattle.rs01_columns.specs.Keeping.{IsEncoder};

    ghost Value = { ℕ };

    ghost view = { λ e. e.kept.parity_count };

    ghost invariant = { λ e. IsEncoder e.kept };
}

// Leaves the parity of the codewords from `first` on.
fn encode_part(kept: &KeptProgram, blocks: &[u8], first: usize, bank: &mut [u8], parity: &mut [u8])
    requires encoder { IsEncoder kept.now }
    requires bank { IsBank kept.now.program.columns bank.old }
    requires part { IsPart kept.now.parity_count first blocks.now parity.old }
    requires before { HoldsParity kept.now.parity_count parity.old blocks.now first }
    ensures { HoldsParity kept.now.parity_count parity.new blocks.now (first + 1024) }
{
    let r = kept.parity_count;
    lay_blocks(bank, blocks, first, r);
    run(&kept.program, bank, &kept.products);
    read_parity(parity, bank, first, r);
}

impl LayerEncoder {
    /// The encoder for `r` parity bytes, or `None` where its program fails the test, of which no
    /// number of parity bytes is known.
    pub fn new(alloc: Global, r: u32) -> Result<Option<LayerEncoder>, AllocError>
        requires least { 8 ≤ r }
        requires most { r ≤ 100 }
        ensures { IfOk result (λ made. IfSome made (λ encoder. encoder ≡ r)) }
    {
        let steps = encoding_steps(alloc, r as u16)?;
        let columns = 255 + 3 * r as usize;
        let Some(kept) = KeptProgram::new(alloc, r as usize, columns, steps)? else {
            return Ok(None);
        };
        if encodes(alloc, &kept)? {
            Ok(Some(LayerEncoder { kept }))
        } else {
            Ok(None)
        }
    }

    /// The number of parity bytes of a codeword.
    pub fn parity_count(&self) -> u32
        ensures value { result ≡ self.now }
        ensures most { result ≤ 100 }
    {
        self.kept.parity_count as u32
    }

    /// Writes the parity of the 2048 codewords whose data lie in these blocks, one codeword after
    /// the other. Where memory is wanting the parity is as it was.
    pub fn encode(&self, alloc: Global, blocks: &[u8], parity: &mut [u8]) -> Result<(), AllocError>
        requires blocks { length blocks.now ≡ 2048 * (255 - self.now) }
        requires parity { length parity.old ≡ 2048 * self.now }
        ensures ok { IfOk result (λ _. HoldsParity self.now parity.new blocks.now 2048) }
        ensures err { OnErr result (parity.new ≡ parity.old) }
    {
        let mut bank = zeroed(alloc, 1088 * self.kept.program.columns)?;
        encode_part(&self.kept, blocks, 0, &mut bank, parity);
        encode_part(&self.kept, blocks, 1024, &mut bank, parity);
        Ok(())
    }
}
