//! What a drive in memory is to answer.
ghost use Rattle.std.specs.Prelude.{◌≡◌, ℕ, ◌≤◌, [], IfOk, IfSome, IsNone, OnErr, OnOk, length, map};
ghost use Rattle.rs01_outside.specs.DriveView.{use_up};
ghost use Rattle.rs01_fakes.specs.Scripts.{IsFirstFor, add_coming, answer_of, as_block, coming_in, next_of, pending_for, set_steady, steady_in};
ghost use Rattle.rs01_lists.specs.Bytes.{zeros};
ghost use Rattle.rs01_fakes.specs.ScriptDrive.{lay_image};

use rs01_layers::{Bytes, block_into};
use std::alloc::{AllocError, Global};

/// One answer of a drive in memory.
#[derive(Drop)]
pub enum Script {
    /// The block of a sector. One that isn't 2,048 bytes long is a fault.
    Block(Bytes),
    /// A fault.
    Fault,
}

// The block of a sector, or none for a fault. Blocks of a fixed length leave no case open where
// they are read.
pub(crate) type Answer = Option<[u8; 2048]>;

// An answer that comes for a sector.
#[derive(Clone, Copy)]
pub(crate) struct Pending {
    pub(crate) sector: u32,
    pub(crate) answer: Answer,
}

// Bytes as the block of a sector, a fault where they have another length.
fn as_block(bytes: &[u8]) -> Answer
    ensures { result ≡ as_block bytes.now }
{
    if bytes.len() != 2048 {
        return None;
    }
    let mut block = [0u8; 2048];
    block.copy_from_slice(bytes);
    Some(block)
}

// The answer that a script stands for.
pub(crate) fn answer_of(script: &Script) -> Answer
    ensures { result ≡ answer_of script.now }
{
    match script {
        Script::Block(bytes) => as_block(bytes.items()),
        Script::Fault => None,
    }
}

// A block of zeros.
pub(crate) fn zero_block() -> [u8; 2048]
    ensures { result ≡ zeros 2048 }
{
    [0u8; 2048]
}

// Scripts as answers that come for a sector.
fn pending_for(alloc: Global, sector: u32, scripts: &[Script]) -> Result<Vec<Pending>, AllocError>
    ensures { IfOk result (λ list. list.items ≡ map (pending_for sector) scripts.now) }
{
    let mut list = Vec::with_capacity(alloc, scripts.len())?;
    for script in scripts {
        list.push(Pending {
            sector,
            answer: answer_of(script),
        })?;
    }
    Ok(list)
}

// Adds answers behind those that come for a sector. Without memory nothing changes.
pub(crate) fn add_coming(
    alloc: Global,
    pending: &mut Vec<Pending>,
    sector: u32,
    scripts: &[Script],
) -> Result<(), AllocError>
    ensures ok { OnOk result ((other : ℕ) → coming_in pending.new.items other
        ≡ add_coming (coming_in pending.old.items) sector (map answer_of scripts.now) other) }
    ensures err { OnErr result (pending.new.items ≡ pending.old.items) }
{
    let list = pending_for(alloc, sector, scripts)?;
    pending.extend_from_slice(&list)?;
    Ok(())
}

// The place of the first answer that comes for a sector.
fn place_of(pending: &[Pending], sector: u32) -> Option<usize>
    ensures found { IfSome result (IsFirstFor pending.now sector) }
    ensures nowhere { IsNone result → coming_in pending.now sector ≡ [] }
{
    for (place, next) in pending.iter().enumerate() {
        if next.sector == sector {
            return Some(place);
        }
    }
    None
}

// Takes the first answer that comes for a sector, where one comes.
pub(crate) fn take_next(pending: &mut Vec<Pending>, sector: u32) -> Option<Answer>
    ensures answer { result ≡ next_of (coming_in pending.old.items sector) }
    ensures rest { (other : ℕ) → coming_in pending.new.items other
        ≡ use_up (coming_in pending.old.items) sector other }
{
    match place_of(pending, sector) {
        Some(place) => Some(pending.remove(place).answer),
        None => None,
    }
}

// The steady answer of a sector.
pub(crate) fn steady_of(kept: &[Answer], sector: u32) -> Answer
    ensures { result ≡ steady_in kept.now sector }
{
    if (sector as usize) < kept.len() {
        kept[sector as usize]
    } else {
        Some(zero_block())
    }
}

// Keeps at least so many steady answers, which are the same as before. Without memory nothing
// changes.
fn lengthen(kept: &mut Vec<Answer>, count: usize) -> Result<(), AllocError>
    ensures same { (sector : ℕ)
        → steady_in kept.new.items sector ≡ steady_in kept.old.items sector }
    ensures ok { OnOk result (count ≤ length kept.new.items) }
    ensures err { OnErr result (kept.new.items ≡ kept.old.items) }
{
    if count > kept.len() {
        kept.resize(count, Some(zero_block()))?;
    }
    Ok(())
}

// Sets the steady answer of a sector. Without memory nothing changes.
pub(crate) fn set_steady(
    kept: &mut Vec<Answer>,
    sector: u32,
    answer: Answer,
) -> Result<(), AllocError>
    ensures ok { OnOk result ((other : ℕ) → steady_in kept.new.items other
        ≡ set_steady (steady_in kept.old.items) sector answer other) }
    ensures err { OnErr result (kept.new.items ≡ kept.old.items) }
{
    lengthen(kept, sector as usize + 1)?;
    kept[sector as usize] = answer;
    Ok(())
}

// Writes the first blocks of an image over answers that are there.
fn lay_blocks(kept: &mut [Answer], image: &[u8], count: u32)
    requires { count ≤ length kept.old }
    ensures { (sector : ℕ) → steady_in kept.new sector
        ≡ lay_image (steady_in kept.old) image.now count sector }
{
    for sector in 0..count {
        let mut block = zero_block();
        block_into(image, sector, 2048, &mut block);
        kept[sector as usize] = Some(block);
    }
}

// Makes the first blocks of an image the steady answers. Without memory nothing changes.
pub(crate) fn lay_image(kept: &mut Vec<Answer>, image: &[u8], count: u32) -> Result<(), AllocError>
    ensures ok { OnOk result ((sector : ℕ) → steady_in kept.new.items sector
        ≡ lay_image (steady_in kept.old.items) image.now count sector) }
    ensures err { OnErr result (kept.new.items ≡ kept.old.items) }
{
    lengthen(kept, count as usize)?;
    lay_blocks(kept, image, count);
    Ok(())
}
