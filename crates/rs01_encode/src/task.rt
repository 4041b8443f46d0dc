//! The task that encodes a layer.

ghost use Rattle.std.specs.Prelude.{◌≡◌, ◌-◌, ◌*◌, ◌≤◌, IfOk, length};
ghost use Rattle.rs01_encode.specs.Task.{encoded, layer_parity};

use crate::encoder::Encoder;
use rs01_columns::LayerEncoder;
use rs01_layers::{Bytes, LayerInput, LayerOut, LayerTask, column_of_blocks_into};
use rs01_lists::zeroed;
use std::alloc::{AllocError, Global};

/// The task that gives the parity of a layer's 2048 codewords, as `LayerOut::Parity`. It takes every
/// input, and looks at its blocks alone.
///
/// It works by columns, many codewords side by side, where the number of parity bytes is the one
/// that it was made for, and codeword by codeword elsewhere. A task that is made once serves a whole
/// run, and all threads.
#[derive(Drop)]
pub struct EncodeTask {
    encoder: Option<LayerEncoder>,
}

impl EncodeTask {
    /// The task for layers with so many parity bytes. It may lack memory.
    pub fn new(alloc: Global, parity: u32) -> Result<EncodeTask, AllocError>
        requires least { 8 ≤ parity }
        requires most { parity ≤ 100 }
    {
        let encoder = LayerEncoder::new(alloc, parity)?;
        Ok(EncodeTask { encoder })
    }
}

impl LayerTask for EncodeTask {
    ghost fit = { λ _. Unit {0} };

    ghost value = { encoded };

    fn work(&self, alloc: Global, input: &LayerInput) -> Result<LayerOut, AllocError> {
        match &self.encoder {
            Some(encoder) if encoder.parity_count() == input.parity_count => {
                work_by_columns(encoder, alloc, input)
            }
            _ => PlainEncodeTask.work(alloc, input),
        }
    }
}

// The parity by columns.
fn work_by_columns(
    encoder: &LayerEncoder,
    alloc: Global,
    input: &LayerInput,
) -> Result<LayerOut, AllocError>
    requires { encoder.now ≡ input.now.parity_count }
    ensures { IfOk result (λ out. out ≡ encoded input.now) }
{
    let parity = encode_by_columns(encoder, alloc, input.data_.items())?;
    Ok(LayerOut::Parity(Bytes::of(parity)))
}

// The parity of the codewords whose data lie in these blocks.
fn encode_by_columns(
    encoder: &LayerEncoder,
    alloc: Global,
    blocks: &[u8],
) -> Result<Vec<u8>, AllocError>
    requires blocks { length blocks.now ≡ 2048 * (255 - encoder.now) }
    ensures { IfOk result (λ bytes. bytes.items ≡ layer_parity encoder.now blocks.now) }
{
    let mut parity = zeroed(alloc, 2048 * encoder.parity_count() as usize)?;
    encode_into(encoder, alloc, blocks, parity.as_mut_slice())?;
    Ok(parity)
}

// The same, into a list.
fn encode_into(
    encoder: &LayerEncoder,
    alloc: Global,
    blocks: &[u8],
    parity: &mut [u8],
) -> Result<(), AllocError>
    requires most { encoder.now ≤ 100 }
    requires blocks { length blocks.now ≡ 2048 * (255 - encoder.now) }
    requires parity { length parity.old ≡ 2048 * encoder.now }
    ensures { IfOk result (λ _. parity.new ≡ layer_parity encoder.now blocks.now) }
{
    encoder.encode(alloc, blocks, parity)?;
    Ok(())
}

/// The same task codeword by codeword, as the definition says: the plain program, by which the other
/// is tested.
#[derive(Clone, Copy)]
pub struct PlainEncodeTask;

impl LayerTask for PlainEncodeTask {
    ghost fit = { λ _. Unit {0} };

    ghost value = { encoded };

    fn work(&self, alloc: Global, input: &LayerInput) -> Result<LayerOut, AllocError> {
        let mut data_room = [0u8; 247];
        let mut parity_room = [0u8; 100];
        let data_ = &mut data_room[..255 - input.parity_count as usize];
        let parity = &mut parity_room[..input.parity_count as usize];
        let bytes = encode_blocks(alloc, input, data_, parity)?;
        Ok(LayerOut::Parity(Bytes::of(bytes)))
    }
}

// The parity of the codewords of a layer. The two buffers are only used meanwhile.
fn encode_blocks(
    alloc: Global,
    input: &LayerInput,
    data_: &mut [u8],
    parity: &mut [u8],
) -> Result<Vec<u8>, AllocError>
    requires data_room { length data_.old ≡ 255 - input.now.parity_count }
    requires parity_room { length parity.old ≡ input.now.parity_count }
    ensures { IfOk result
        (λ bytes. bytes.items ≡ layer_parity input.now.parity_count input.now.data_) }
{
    let encoder = Encoder::new(input.parity_count);
    let mut bytes = Vec::with_capacity(alloc, 2048 * parity.len())?;
    for codeword in 0..2048u32 {
        column_of_blocks_into(input.data_.items(), codeword, data_);
        encoder.encode(data_, parity);
        bytes.extend_from_slice(parity)?;
    }
    Ok(bytes)
}

#[cfg(test)]
mod tests {
    use super::*;
    use crate::columns::encode_columns;
    use rs01_layers::{Flags, SumList};
    use std::process::Abort;
    use std::test::Fail;

    fn work_on<T: LayerTask>(
        task: &T,
        alloc: Global,
        input: &LayerInput,
    ) -> Result<LayerOut, AllocError>
        requires { T.fit input.now }
    {
        task.work(alloc, input)
    }

    // A layer of zeros but for the first byte of its last block: the parity of the first codeword is
    // the generator polynomial below its leading coefficient, and all other parity is zero.
    #[test]
    fn one_byte_in_the_last_block(rt: HostRuntime) -> Result<(), Fail> {
        let mut blocks = vec![in rt.alloc(); 0u8; 2048 * 223]?;
        blocks[2048 * 222] = 1;
        let input = LayerInput {
            layer: 0,
            parity_count: 32,
            data_: Bytes::of(blocks),
            erased: Flags::of(vec![in rt.alloc(); false; 223]?),
            sums: SumList::of(vec![in rt.alloc(); 0u32; 223]?),
            parity: Bytes::of(Vec::new(rt.alloc())),
        };
        let LayerOut::Parity(parity) = work_on(
            &EncodeTask::new(rt.alloc(), 32)?,
            rt.alloc(),
            &input,
        )?
        else {
            return Err("no parity")?;
        };
        assert_eq!(rt; parity.len(), 2048 * 32);
        let bytes = parity.items();
        assert_eq!(rt; (bytes[0], bytes[1], bytes[2]), (91, 127, 86));
        assert_eq!(rt; (bytes[30], bytes[31]), (91, 1));
        for byte in &bytes[32..] {
            assert_eq!(rt; *byte, 0);
        }
        Ok(())
    }

    // The bytes of a linear congruential generator.
    fn scramble(bytes: &mut [u8]) {
        let mut state = 12_345u32;
        for i in 0..bytes.len() {
            state = state.wrapping_mul(1_664_525).wrapping_add(1_013_904_223);
            bytes[i] = (state >> 24) as u8;
        }
    }

    // A layer of such bytes.
    fn layer_of(alloc: Global, r: u32) -> Result<LayerInput, AllocError>
        requires least { 8 ≤ r }
        requires most { r ≤ 100 }
    {
        let data_count = 255 - r as usize;
        let mut blocks = vec![in alloc; 0u8; 2048 * data_count]?;
        scramble(blocks.as_mut_slice());
        Ok(LayerInput {
            layer: 3,
            parity_count: r,
            data_: Bytes::of(blocks),
            erased: Flags::of(vec![in alloc; false; data_count]?),
            sums: SumList::of(vec![in alloc; 0u32; data_count]?),
            parity: Bytes::of(Vec::new(alloc)),
        })
    }

    // The parity by the register of columns.
    fn by_register(alloc: Global, input: &LayerInput) -> Result<Vec<u8>, AllocError> {
        let size = 2048 * input.parity_count as usize;
        let mut scratch = vec![in alloc; 7u8; size]?;
        let mut parity = vec![in alloc; 7u8; size]?;
        let blocks = input.data_.items();
        encode_columns(
            blocks,
            input.parity_count,
            scratch.as_mut_slice(),
            parity.as_mut_slice(),
        );
        Ok(parity)
    }

    // Whether a task gives this parity.
    fn gives<T: LayerTask>(
        task: &T,
        alloc: Global,
        input: &LayerInput,
        parity: &[u8],
    ) -> Result<bool, AllocError>
        requires { T.fit input.now }
    {
        match task.work(alloc, input)? {
            LayerOut::Parity(found) => Ok(found.items() == parity),
            _ => Ok(false),
        }
    }

    // The plain program, the task and the register of columns give the same parity.
    fn check_agreement(rt: &impl Abort, alloc: Global, r: u32, made: u32) -> Result<(), AllocError>
        requires least { 8 ≤ r }
        requires most { r ≤ 100 }
        requires least_made { 8 ≤ made }
        requires most_made { made ≤ 100 }
    {
        let input = layer_of(alloc, r)?;
        let parity = by_register(alloc, &input)?;
        let task = EncodeTask::new(alloc, made)?;
        assert!(rt; gives(&PlainEncodeTask, alloc, &input, &parity)?);
        assert!(rt; gives(&task, alloc, &input, &parity)?);
        Ok(())
    }

    #[test]
    fn all_ways_agree(rt: HostRuntime) -> Result<(), Fail> {
        for (r, made) in [
            (8u32, 8u32),
            (9, 9),
            (31, 31),
            (32, 32),
            (33, 33),
            (64, 64),
            (100, 100),
            (16, 99),
        ] {
            assert!(rt; made >= 8 && made <= 100 && r >= 8 && r <= 100);
            check_agreement(&rt, rt.alloc(), r, made)?;
        }
        Ok(())
    }
}
