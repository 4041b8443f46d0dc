//! The task that corrects a layer, many codewords side by side.
//!
//! The blocks of the erased places are filled in by any means, and then the layer is tested: where
//! all its words are codewords, these are the blocks. Where one is none, the plain call tells whether
//! it is inconsistent.

ghost use Rattle.std.specs.Prelude.{◌≡◌, ◌+◌, ◌-◌, ◌*◌, ◌<◌, ◌≤◌, All, IfOk, length};
ghost use Rattle.rs01_erase.specs.Completed.{AreBlocksAt, AreCompleted};
ghost use Rattle.rs01_erase.specs.Correcting.{correct};
ghost use Rattle.rs01_erase.specs.Restoring.{AreErased, AreFilled};

use crate::correct::{PlainCorrectTask, answer_restored, complete, restore_places};
use crate::places::places_of;
use rs01_columns::LayerSyndromes;
use rs01_layers::{LayerInput, LayerOut, LayerTask};
use std::alloc::{AllocError, Global};

/// The task that restores the blocks of a layer's erased places. It takes an input with parity.
///
/// It gives the first that fits of these:
///
/// 1. `Beyond` with the number of erased places, where a codeword has fewer parity bytes.
/// 2. `Inconsistent` with the first codeword whose bytes at the other places no codeword has.
/// 3. `BadSum` with the first erased place whose restored block has not its recorded checksum.
/// 4. `Restored` with each erased place and its restored block, by rising place. It has none where
///    nothing is erased.
///
/// It works by columns, many codewords side by side, where the number of parity bytes is the one
/// that it was made for, and codeword by codeword elsewhere. A task that is made once serves a whole
/// run, and all threads.
#[derive(Drop)]
pub struct CorrectTask {
    syndromes: Option<LayerSyndromes>,
}

impl CorrectTask {
    /// The task for layers with so many parity bytes. It may lack memory.
    pub fn new(alloc: Global, parity: u32) -> Result<CorrectTask, AllocError>
        requires least { 8 ≤ parity }
        requires most { parity ≤ 100 }
    {
        Ok(CorrectTask {
            syndromes: LayerSyndromes::new(alloc, parity)?,
        })
    }
}

impl LayerTask for CorrectTask {
    ghost fit = { λ input. length input.parity ≡ 2048 * input.parity_count };

    ghost value = { correct };

    fn work(&self, alloc: Global, input: &LayerInput) -> Result<LayerOut, AllocError> {
        match &self.syndromes {
            Some(syndromes) => work_by_columns(syndromes, alloc, input),
            None => PlainCorrectTask.work(alloc, input),
        }
    }
}

// The answer by columns, if they are for this number of parity bytes.
fn work_by_columns(
    syndromes: &LayerSyndromes,
    alloc: Global,
    input: &LayerInput,
) -> Result<LayerOut, AllocError>
    requires parity { length input.now.parity ≡ 2048 * input.now.parity_count }
    ensures { IfOk result (λ out. out ≡ correct input.now) }
{
    if syndromes.parity_count() != input.parity_count {
        return PlainCorrectTask.work(alloc, input);
    }
    let mut room = [0u8; 255];
    let count = places_of(input.erased.items(), &mut room);
    if count > input.parity_count as usize {
        return Ok(LayerOut::Beyond(count as u32));
    }
    correct_places(syndromes, alloc, input, &room[..count])
}

// The answer where not too many places are erased.
fn correct_places(
    syndromes: &LayerSyndromes,
    alloc: Global,
    input: &LayerInput,
    erased: &[u8],
) -> Result<LayerOut, AllocError>
    requires count { syndromes.now ≡ input.now.parity_count }
    requires erased { AreErased input.now erased.now }
    ensures { IfOk result (λ out. out ≡ correct input.now) }
{
    if erased.is_empty() {
        return test_layer(syndromes, alloc, input, erased, input.data_.items());
    }
    let mut blocks = Vec::with_capacity(alloc, input.data_.len())?;
    blocks.extend_from_slice(input.data_.items())?;
    fill_and_test(syndromes, alloc, input, erased, blocks.as_mut_slice())
}

// The answer once the blocks of the erased places are filled in.
fn fill_and_test(
    syndromes: &LayerSyndromes,
    alloc: Global,
    input: &LayerInput,
    erased: &[u8],
    blocks: &mut [u8],
) -> Result<LayerOut, AllocError>
    requires count { syndromes.now ≡ input.now.parity_count }
    requires erased { AreErased input.now erased.now }
    requires same { blocks.old ≡ input.now.data_ }
    ensures { IfOk result (λ out. out ≡ correct input.now) }
{
    syndromes.fill_places(alloc, blocks, input.parity.items(), erased)?;
    let out = test_layer(syndromes, alloc, input, erased, blocks)?;
    Ok(out)
}

// The answer, with blocks that differ from the layer's at erased places alone.
fn test_layer(
    syndromes: &LayerSyndromes,
    alloc: Global,
    input: &LayerInput,
    erased: &[u8],
    blocks: &[u8],
) -> Result<LayerOut, AllocError>
    requires count { syndromes.now ≡ input.now.parity_count }
    requires erased { AreErased input.now erased.now }
    requires filled { AreFilled input.now erased.now blocks.now }
    ensures { IfOk result (λ out. out ≡ correct input.now) }
{
    let count = syndromes.count_codewords(alloc, blocks, input.parity.items())?;
    if count < 2048 {
        return answer_stopped(alloc, input, erased, blocks, count);
    }
    let restored = blocks_at(alloc, blocks, erased)?;
    let out = answer_restored(alloc, input, erased, &restored)?;
    Ok(out)
}

// The answer where the codewords before this one are completed, and this one may be inconsistent.
fn answer_stopped(
    alloc: Global,
    input: &LayerInput,
    erased: &[u8],
    blocks: &[u8],
    codeword: u32,
) -> Result<LayerOut, AllocError>
    requires erased { AreErased input.now erased.now }
    requires codeword { codeword < 2048 }
    requires completed { AreCompleted input.now erased.now blocks.now codeword }
    ensures { IfOk result (λ out. out ≡ correct input.now) }
{
    let mut word = [0u8; 255];
    if complete(input, erased, codeword, &mut word) {
        return restore_places(alloc, input, erased);
    }
    Ok(LayerOut::Inconsistent(codeword))
}

// The blocks at these places, one after the other.
fn blocks_at(alloc: Global, blocks: &[u8], erased: &[u8]) -> Result<Vec<u8>, AllocError>
    requires few { length erased.now ≤ 100 }
    requires within { All (λ p. 2048 * p + 2048 ≤ length blocks.now) erased.now }
    ensures size { IfOk result (λ list. length list.items ≡ 2048 * length erased.now) }
    ensures bytes { IfOk result (λ list. AreBlocksAt list.items blocks.now erased.now) }
{
    let mut list = Vec::with_capacity(alloc, 2048 * erased.len())?;
    for place in erased {
        let at = 2048 * *place as usize;
        list.extend_from_slice(&blocks[at..at + 2048])?;
    }
    Ok(list)
}
