//! Taking the checksums of neighbouring sectors and the digest of their bytes, one after the other or side by side.
ghost use Rattle.std.specs.Prelude.{OnOk};
ghost use Rattle.rs01_ecchead.specs.Shown.{Spans};
ghost use Rattle.rs01_create.specs.Surveyed.{DigestsOn, NotesOn, SeesOn};

use crate::found::{Noted, Seen};
use crate::noting::note_blocks;
use md5::{Digest, Md5};
use rs01_layers::Extent;
use std::alloc::AllocError;
use std::thread::{Threads, join_mut};

/// How checksums and digest of an image are taken.
pub trait Digesting {
    /// Takes those of the sectors from `first` to below `past`, of which these are the blocks, behind those of the sectors
    /// before.
    fn digest(
        &self,
        extent: &Extent,
        first: u32,
        past: u32,
        blocks: &[u8],
        seen: &mut Seen,
    ) -> Result<(), AllocError>
        requires { Spans extent.now first past blocks.now }
        ensures { OnOk result (SeesOn extent.now first past blocks.now seen.old seen.new) };
}

// Puts the sectors' own bytes into the digest.
fn digest_blocks(extent: &Extent, first: u32, past: u32, blocks: &[u8], hasher: &mut Md5)
    requires { Spans extent.now first past blocks.now }
    ensures { DigestsOn extent.now first past blocks.now hasher.old hasher.new }
{
    let left = extent.image_len().saturating_sub(2048 * u64::from(first));
    let len = left.min(2048 * u64::from(past - first));
    hasher.update(&blocks[..len as usize]);
}

// The digest on this thread, and beside it the checksums by another.
fn digest_beside<R: Threads>(
    rt: &R,
    extent: &Extent,
    first: u32,
    past: u32,
    blocks: &[u8],
    noted: &mut Noted,
    hasher: &mut Md5,
) -> Result<(), AllocError>
    requires { Spans extent.now first past blocks.now }
    ensures noted { OnOk result (NotesOn extent.now first past blocks.now noted.old noted.new) }
    ensures digest { DigestsOn extent.now first past blocks.now hasher.old hasher.new }
{
    let (noting, ()) = join_mut(
        rt,
        &mut || -> Result<(), AllocError>
            requires { Spans extent.now first past blocks.now }
            ensures { OnOk result (NotesOn extent.entry.now first past blocks.entry.now
                noted.entry.now noted.exit.now) }
        { note_blocks(extent, first, past, blocks, noted) },
        &mut || -> ()
            requires { Spans extent.now first past blocks.now }
            ensures { DigestsOn extent.entry.now first past blocks.entry.now
                hasher.entry.now hasher.exit.now }
        { digest_blocks(extent, first, past, blocks, hasher) },
    );
    noting
}

/// One after the other, on the caller's thread.
#[derive(Drop)]
pub struct InTurn;

impl Digesting for InTurn {
    fn digest(
        &self,
        extent: &Extent,
        first: u32,
        past: u32,
        blocks: &[u8],
        seen: &mut Seen,
    ) -> Result<(), AllocError> {
        note_blocks(extent, first, past, blocks, &mut seen.noted)?;
        digest_blocks(extent, first, past, blocks, &mut seen.hasher);
        Ok(())
    }
}

/// By two threads, of which the caller's is one, where there are so many workers. They are joined before it returns.
#[derive(Drop)]
pub struct Beside<'a, R: Threads> {
    pub rt: &'a R,
    pub workers: u32,
}

impl<'a, R: Threads> Digesting for Beside<'a, R> {
    fn digest(
        &self,
        extent: &Extent,
        first: u32,
        past: u32,
        blocks: &[u8],
        seen: &mut Seen,
    ) -> Result<(), AllocError> {
        if self.workers < 2 {
            return InTurn.digest(extent, first, past, blocks, seen);
        }
        digest_beside(
            self.rt,
            extent,
            first,
            past,
            blocks,
            &mut seen.noted,
            &mut seen.hasher,
        )
    }
}
