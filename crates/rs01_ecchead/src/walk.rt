//! One walk over an image, which shows each of its sectors.
ghost use Rattle.std.specs.Prelude.{◌≡◌, ◌+◌, ◌<◌, ◌≤◌, OnOk, length, ℕ};
ghost use Rattle.rs01_lists.specs.Bytes.{part};
ghost use Rattle.rs01_outside.specs.DeskState.{InFile, OnlyReads};
ghost use Rattle.rs01_ecchead.specs.Shown.{IsAmong, IsSector, KeepsOn, Shown, Spans, shown_in};

use crate::runs::read_run;
use rs01_layers::Extent;
use rs01_lists::zeroed;
use rs01_outside::{Desk, Failed};
use std::alloc::{AllocError, Global};
use thiserror::Error;

// How many sectors are read at once.
const RUN: u32 = 64;

/// What is shown the sectors of an image, one after the other, and says what is kept of them.
pub trait Visitor {
    ghost use Rattle.rs01_ecchead.specs.Shown.{Shown};

    /// What is kept.
    type Kept;

    /// How many sectors the image has.
    ghost count: { Self → ℕ };

    /// What is kept once so many sectors were shown, the first ones of an image.
    ghost keeps: { Self → Shown → ℕ → Self.Kept → Type 0 };

    /// What holds of it then, whatever was shown.
    ghost fits: { Self → ℕ → Self.Kept → Type 0 };

    /// Takes the next sector: whether it is there, how many bytes of its block are its own, and the block. Where the
    /// sector isn't there the block may be any.
    fn sector(
        &self,
        sector: u32,
        there: bool,
        len: u32,
        block: &[u8; 2048],
        kept: &mut Self::Kept,
    ) -> Result<(), AllocError>
        requires below { sector < count self.now }
        requires own { len ≤ 2048 }
        requires fits { fits self.now sector kept.old }
        ensures fits { OnOk result (fits self.now (sector + 1) kept.new) }
        ensures keeps { OnOk result ((image : Shown) → IsSector image sector there len block.now
            → keeps self.now image sector kept.old → keeps self.now image (sector + 1) kept.new) };
}

/// Why a file wasn't read as far as was asked: an image to its last sector, or bytes from a place on.
#[derive(Clone, Copy, PartialEq, Eq, Debug, Error)]
pub enum WalkFault {
    /// Reading the file failed.
    #[error("reading a file failed")]
    ReadFault,
    /// Memory ran out.
    #[error("memory ran out")]
    OutOfMemory,
}

ghost use Rattle.rs01_ecchead.specs.Walked.{is_walk_fault};

impl From<Failed> for WalkFault {
    ghost use Rattle.rs01_ecchead.specs.declared.walk.WalkFault.TheVariants.{ReadFault};

    ghost from_gives = { λ _ why. why ≡ ReadFault };

    fn from(_failed: Failed) -> WalkFault {
        WalkFault::ReadFault
    }
}

impl From<AllocError> for WalkFault {
    ghost use Rattle.rs01_ecchead.specs.declared.walk.WalkFault.TheVariants.{OutOfMemory};

    ghost from_gives = { λ _ why. why ≡ OutOfMemory };

    fn from(_lack: AllocError) -> WalkFault {
        WalkFault::OutOfMemory
    }
}

// Fills a buffer with the bytes of a list from a place on.
fn copy_part(from: &[u8], at: usize, into: &mut [u8])
    requires { at + length into.old ≤ length from.now }
    ensures { into.new ≡ part from.now at (length into.old) }
{
    into.copy_from_slice(&from[at..at + into.len()]);
}

// Shows a sector of a run that begins with the sector `first`.
fn show_one<V: Visitor>(
    size: u64,
    extent: &Extent,
    first: u32,
    run: &[u8],
    sector: u32,
    visitor: &V,
    kept: &mut V::Kept,
) -> Result<(), AllocError>
    requires among { IsAmong extent.now first run.now sector }
    requires count { V.count visitor.now ≡ extent.now.sectors }
    requires fits { V.fits visitor.now sector kept.old }
    ensures fits { OnOk result (V.fits visitor.now (sector + 1) kept.new) }
    ensures keeps { OnOk result (KeepsOn (V.keeps visitor.now) size extent.now first run.now
        sector kept.old (sector + 1) kept.new) }
{
    let len = extent.length(sector);
    let there = 2048 * u64::from(sector) + u64::from(len) <= size;
    let mut block = [0u8; 2048];
    copy_part(run, 2048 * (sector - first) as usize, &mut block);
    visitor.sector(sector, there, len, &block, kept)?;
    Ok(())
}

// Shows the sectors of a run, from `first` to below `past`.
fn show_run<V: Visitor>(
    size: u64,
    extent: &Extent,
    first: u32,
    past: u32,
    run: &[u8],
    visitor: &V,
    kept: &mut V::Kept,
) -> Result<(), AllocError>
    requires spans { Spans extent.now first past run.now }
    requires count { V.count visitor.now ≡ extent.now.sectors }
    requires fits { V.fits visitor.now first kept.old }
    ensures fits { OnOk result (V.fits visitor.now past kept.new) }
    ensures keeps { OnOk result (KeepsOn (V.keeps visitor.now) size extent.now first run.now
        first kept.old past kept.new) }
{
    for sector in first..past {
        show_one(size, extent, first, run, sector, visitor, kept)?;
    }
    Ok(())
}

/// Shows all sectors of an image file to a visitor, in rising order, and reads the file once in long runs. A sector is
/// there exactly where the file, which was found to have `size` bytes, isn't too short for it. No file changes.
pub fn walk_image<D: Desk, V: Visitor>(
    alloc: Global,
    desk: &mut D,
    name: &str,
    size: u64,
    extent: &Extent,
    visitor: &V,
    kept: &mut V::Kept,
) -> Result<(), WalkFault>
    requires count { V.count visitor.now ≡ extent.now.sectors }
    requires fits { V.fits visitor.now 0 kept.old }
    ensures reads { OnlyReads (D.state desk.old) (D.state desk.new) (is_walk_fault result) }
    ensures fits { OnOk result (V.fits visitor.now extent.now.sectors kept.new) }
    ensures keeps { let n = extent.now.sectors in InFile (D.state desk.old) name.now (λ file.
        OnOk result (let image = shown_in file n extent.now.last_bytes size in
        V.keeps visitor.now image 0 kept.old → V.keeps visitor.now image n kept.new)) }
{
    let mut buffer = zeroed(alloc, 2048 * RUN as usize)?;
    let mut first = 0u32;
    while first < extent.sectors {
        let count = (extent.sectors - first).min(RUN);
        let past = first + count;
        let run = &mut buffer[..2048 * count as usize];
        read_run(desk, name, extent, first, run)?;
        show_run(size, extent, first, past, run, visitor, kept)?;
        first = past;
    }
    Ok(())
}
