//! What is noted of the sectors of an image, one after the other: checksums, the fingerprint, the first marker.
ghost use Rattle.std.specs.Prelude.{◌≡◌, ◌==◌, ◌++◌, ◌+◌, ◌*◌, ◌≤◌, if◌then◌else◌, OnOk, length};
ghost use Rattle.std.specs.Int.{to_le_bytes, w32};
ghost use Rattle.std.specs.Option.{option_or};
ghost use Rattle.std.specs.Str.{bytes_eq};
ghost use Rattle.md5.specs.Md5.{md5};
ghost use Rattle.rs01_lists.specs.Bytes.{part};
ghost use Rattle.rs01_sums.specs.Crc.{crc};
ghost use Rattle.rs01_sums.specs.Marker.{marker};
ghost use Rattle.rs01_ecchead.specs.Shown.{Spans};
ghost use Rattle.rs01_create.specs.Surveyed.{NotesOn, NotesOne};

use crate::found::Noted;
use md5::{Digest, Md5};
use rs01_layers::Extent;
use rs01_sums::{crc32, is_marker};
use std::alloc::AllocError;

// Puts the checksum of a block behind those that are there.
fn add_sum(block: &[u8; 2048], sums: &mut Vec<u8>) -> Result<(), AllocError>
    ensures { OnOk result (sums.new.items ≡ sums.old.items ++ to_le_bytes w32 (crc block.now)) }
{
    sums.extend_from_slice(&crc32(block).to_le_bytes())?;
    Ok(())
}

// The fingerprint once the block of a sector was seen.
fn fingerprint_after(
    mark_sector: u32,
    sector: u32,
    block: &[u8; 2048],
    before: [u8; 16],
) -> [u8; 16]
    ensures { result ≡ (if sector == mark_sector then md5 block.now else before) }
{
    if sector == mark_sector {
        Md5::digest(block)
    } else {
        before
    }
}

// The first marked sector once the block of one more sector was seen.
fn marked_after(sector: u32, block: &[u8; 2048], before: Option<u32>) -> Option<u32>
    ensures { result ≡ option_or before
        (if bytes_eq block.now (marker sector) then Some sector else None) }
{
    match before {
        Some(first) => Some(first),
        None if is_marker(sector, block) => Some(sector),
        None => None,
    }
}

// Notes one more sector.
fn note_sector(
    extent: &Extent,
    sector: u32,
    block: &[u8; 2048],
    noted: &mut Noted,
) -> Result<(), AllocError>
    ensures { OnOk result (NotesOne extent.now sector block.now noted.old noted.new) }
{
    add_sum(block, &mut noted.sums)?;
    let mark_sector = (extent.sectors - 1).min(16);
    let before = noted.fingerprint;
    let fingerprint = fingerprint_after(mark_sector, sector, block, before);
    noted.fingerprint = fingerprint;
    noted.marked = marked_after(sector, block, noted.marked);
    Ok(())
}

// One of some blocks.
fn block_among(blocks: &[u8], k: usize) -> [u8; 2048]
    requires { 2048 * k + 2048 ≤ length blocks.now }
    ensures { result ≡ part blocks.now (2048 * k) 2048 }
{
    let mut block = [0; 2048];
    block.copy_from_slice(&blocks[2048 * k..2048 * k + 2048]);
    block
}

// Notes the sectors from `first` to below `past`, of which these are the blocks.
pub fn note_blocks(
    extent: &Extent,
    first: u32,
    past: u32,
    blocks: &[u8],
    noted: &mut Noted,
) -> Result<(), AllocError>
    requires { Spans extent.now first past blocks.now }
    ensures { OnOk result (NotesOn extent.now first past blocks.now noted.old noted.new) }
{
    for sector in first..past {
        let block = block_among(blocks, (sector - first) as usize);
        note_sector(extent, sector, &block, noted)?;
    }
    Ok(())
}
