//! Correcting a layer codeword by codeword: the plain program.

ghost use Rattle.std.specs.Prelude.{◌≡◌, ℕ, ◌+◌, ◌-◌, ◌*◌, ◌<◌, ◌≤◌, All, IfOk, length, take};
ghost use Rattle.rs01_erase.specs.Correcting.{blocks_in, correct};
ghost use Rattle.rs01_erase.specs.LayerValue.{erased_places, word_of};
ghost use Rattle.rs01_erase.specs.Restoring.{AreErased, HoldsCodeword, HoldsCodewords, HoldsOthers, HoldsWord, bad_sum_in, block_in, completed_at, placed_blocks, word_if};

use crate::places::places_of;
use crate::restore::restore_codeword;
use rs01_layers::{
    Bytes, LayerInput, LayerOut, LayerTask, Placed, PlacedList, column_of_blocks_into,
};
use rs01_lists::zeroed;
use rs01_sums::crc32;
use std::alloc::{AllocError, Global};

/// The task of `CorrectTask` codeword by codeword: the plain program, by which the other is tested.
#[derive(Clone, Copy)]
pub struct PlainCorrectTask;

impl LayerTask for PlainCorrectTask {
    ghost fit = { λ input. length input.parity ≡ 2048 * input.parity_count };

    ghost value = { correct };

    fn work(&self, alloc: Global, input: &LayerInput) -> Result<LayerOut, AllocError> {
        let mut room = [0u8; 255];
        let count = places_of(input.erased.items(), &mut room);
        if count > input.parity_count as usize {
            return Ok(LayerOut::Beyond(count as u32));
        }
        restore_places(alloc, input, &room[..count])
    }
}

// Writes a codeword: its byte of each block, and its parity.
fn gather(input: &LayerInput, codeword: u32, word: &mut [u8; 255])
    requires parity { length input.now.parity ≡ 2048 * input.now.parity_count }
    requires codeword { codeword < 2048 }
    ensures { word.new
        ≡ word_of (blocks_in input.now) input.now.parity input.now.parity_count codeword }
{
    let parity_count = input.parity_count as usize;
    let from = codeword as usize * parity_count;
    let (data_, parity) = word.split_at_mut(255 - parity_count);
    column_of_blocks_into(input.data_.items(), codeword, data_);
    parity.copy_from_slice(&input.parity.items()[from..from + parity_count]);
}

/// Writes a codeword with its bytes at the erased places restored. False where it is inconsistent.
pub fn complete(input: &LayerInput, erased: &[u8], codeword: u32, word: &mut [u8; 255]) -> bool
    requires erased { AreErased input.now erased.now }
    requires codeword { codeword < 2048 }
    ensures { completed_at input.now erased.now codeword ≡ word_if result word.new }
{
    gather(input, codeword, word);
    match restore_codeword(word, erased, input.parity_count) {
        Ok(()) => true,
        Err(_) => false,
    }
}

// Stores a codeword's bytes at the erased places, each in the block of its place.
fn store(word: &[u8; 255], erased: &[u8], codeword: u32, restored: &mut [u8])
    requires below { All (λ p. p < 255) erased.now }
    requires room { length restored.old ≡ 2048 * length erased.now }
    requires codeword { codeword < 2048 }
    ensures here { HoldsWord word.now erased.now restored.new codeword }
    ensures others { HoldsOthers restored.old restored.new codeword }
{
    for (k, place) in erased.iter().enumerate() {
        restored[2048 * k + codeword as usize] = word[*place as usize];
    }
}

// Restores and stores the codewords before the first that is inconsistent, and gives their number.
fn restore_all(input: &LayerInput, erased: &[u8], restored: &mut [u8]) -> u32
    requires erased { AreErased input.now erased.now }
    requires room { length restored.old ≡ 2048 * length erased.now }
    ensures { HoldsCodewords input.now erased.now restored.new result }
{
    let mut word = [0u8; 255];
    for codeword in 0..2048u32 {
        if !complete(input, erased, codeword, &mut word) {
            return codeword;
        }
        store(&word, erased, codeword, restored);
    }
    2048
}

// One of the restored blocks.
fn block_of(restored: &[u8], k: usize) -> &[u8]
    requires { 2048 * k + 2048 ≤ length restored.now }
    ensures { result.now ≡ block_in restored.now k }
{
    let from = 2048 * k;
    &restored[from..from + 2048]
}

// The first of the erased places whose restored block has not its recorded checksum.
fn find_bad_sum(restored: &[u8], erased: &[u8], sums: &[u32]) -> Option<u32>
    requires room { length restored.now ≡ 2048 * length erased.now }
    requires within { All (λ p. p < length sums.now) erased.now }
    ensures { result ≡ bad_sum_in restored.now erased.now sums.now }
{
    for (k, place) in erased.iter().enumerate() {
        if crc32(block_of(restored, k)) != sums[*place as usize] {
            return Some(u32::from(*place));
        }
    }
    None
}

// The erased places with their restored blocks.
fn place_blocks(alloc: Global, restored: &[u8], erased: &[u8]) -> Result<Vec<Placed>, AllocError>
    requires { length restored.now ≡ 2048 * length erased.now }
    ensures { IfOk result (λ list. list.items ≡ placed_blocks restored.now erased.now) }
{
    let mut list = Vec::with_capacity(alloc, erased.len())?;
    for (k, place) in erased.iter().enumerate() {
        let block = block_of(restored, k).to_vec(alloc)?;
        list.push(Placed {
            place: u32::from(*place),
            block: Bytes::of(block),
        })?;
    }
    Ok(list)
}

// Restores the blocks of the erased places, of which there are not too many, within a buffer.
fn restore_within(
    alloc: Global,
    input: &LayerInput,
    erased: &[u8],
    restored: &mut [u8],
) -> Result<LayerOut, AllocError>
    requires erased { AreErased input.now erased.now }
    requires room { length restored.old ≡ 2048 * length erased.now }
    ensures { IfOk result (λ out. out ≡ correct input.now) }
{
    let count = restore_all(input, erased, restored);
    if count < 2048 {
        return Ok(LayerOut::Inconsistent(count));
    }
    let out = answer_restored(alloc, input, erased, restored)?;
    Ok(out)
}

/// The answer where every codeword is completed, and the bytes of the erased places stand in these
/// blocks: `BadSum` or `Restored`.
pub fn answer_restored(
    alloc: Global,
    input: &LayerInput,
    erased: &[u8],
    restored: &[u8],
) -> Result<LayerOut, AllocError>
    requires erased { AreErased input.now erased.now }
    requires room { length restored.now ≡ 2048 * length erased.now }
    requires held { (b : ℕ) → b < 2048 → HoldsCodeword input.now erased.now restored.now b }
    ensures { IfOk result (λ out. out ≡ correct input.now) }
{
    if let Some(place) = find_bad_sum(restored, erased, input.sums.items()) {
        return Ok(LayerOut::BadSum(place));
    }
    let list = place_blocks(alloc, restored, erased)?;
    Ok(LayerOut::Restored(PlacedList::of(list)))
}

/// The same, with a buffer of its own.
pub fn restore_places(
    alloc: Global,
    input: &LayerInput,
    erased: &[u8],
) -> Result<LayerOut, AllocError>
    requires erased { AreErased input.now erased.now }
    ensures { IfOk result (λ out. out ≡ correct input.now) }
{
    let mut restored = zeroed(alloc, 2048 * erased.len())?;
    let out = restore_within(alloc, input, erased, restored.as_mut_slice())?;
    Ok(out)
}
