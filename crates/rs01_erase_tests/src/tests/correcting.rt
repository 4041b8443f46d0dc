//! Correcting a layer, by a table.

ghost use Rattle.std.specs.Prelude.{◌≡◌, ◌*◌, ◌≤◌, length};

use super::random_codeword;
use rs01_erase::{CorrectTask, PlainCorrectTask};
use rs01_gf256::Gf;
use rs01_layers::{Bytes, Flags, LayerInput, LayerOut, LayerTask, PlacedList, SumList};
use rs01_sums::crc32;
use std::alloc::{AllocError, Global};
use std::process::Abort;
use std::test::Fail;

// What a layer's task gives, without blocks.
#[derive(Clone, Copy, PartialEq, Eq, Debug)]
enum Answer {
    Parity,
    Restored(usize),
    Beyond(u32),
    Inconsistent(u32),
    BadSum(u32),
}

fn answer_of(out: &LayerOut) -> Answer {
    match out {
        LayerOut::Parity(_) => Answer::Parity,
        LayerOut::Restored(list) => Answer::Restored(list.len()),
        LayerOut::Beyond(count) => Answer::Beyond(*count),
        LayerOut::Inconsistent(codeword) => Answer::Inconsistent(*codeword),
        LayerOut::BadSum(place) => Answer::BadSum(*place),
    }
}

// The places 20 .. 20 + erased are lost, a byte of the others and a recorded checksum may be wrong.
#[derive(Clone, Copy)]
struct Damage {
    erased: usize,
    wrong_byte: Option<(usize, usize)>,
    wrong_sum: Option<usize>,
}

// The blocks of a layer whose codeword b is this word times b % 256.
fn write_blocks(word: &[u8; 255], blocks: &mut [u8])
    requires { length blocks.old ≤ 2048 * 247 }
{
    for (k, byte) in blocks.iter_mut().enumerate() {
        *byte = Gf(word[k / 2048]).mul(Gf((k % 256) as u8)).0;
    }
}

// The parity of such a layer, with r bytes for each codeword.
fn write_parity(word: &[u8; 255], parity: &mut [u8], r: usize)
    requires least { 8 ≤ r }
    requires most { r ≤ 100 }
{
    for (k, byte) in parity.iter_mut().enumerate() {
        *byte = Gf(word[255 - r + k % r]).mul(Gf((k / r % 256) as u8)).0;
    }
}

fn write_sums(blocks: &[u8], sums: &mut [u32])
    requires { length blocks.now ≡ 2048 * length sums.old }
{
    for (place, sum) in sums.iter_mut().enumerate() {
        *sum = crc32(&blocks[2048 * place..2048 * place + 2048]);
    }
}

fn damage_blocks(blocks: &mut [u8], damage: Damage) {
    for (k, byte) in blocks.iter_mut().enumerate() {
        if k / 2048 >= 20 && k / 2048 - 20 < damage.erased {
            *byte = 0xa5;
        }
        if damage.wrong_byte == Some((k / 2048, k % 2048)) {
            *byte ^= 1;
        }
    }
}

fn damage_sums(sums: &mut [u32], damage: Damage) {
    for (place, sum) in sums.iter_mut().enumerate() {
        if damage.wrong_sum == Some(place) {
            *sum ^= 1;
        }
    }
}

fn write_flags(flags: &mut [bool], erased: usize) {
    for (place, flag) in flags.iter_mut().enumerate() {
        *flag = place >= 20 && place - 20 < erased;
    }
}

// Whether a block is the original one of a place.
fn is_original(place: u32, block: &[u8], original: &[u8]) -> bool {
    let from = 2048 * place as usize;
    block.len() == 2048 && from + 2048 <= original.len() && block == &original[from..from + 2048]
}

// Whether the restored places rise from 20 on, each with its original block.
fn are_original(list: &PlacedList, original: &[u8]) -> bool {
    let mut next = 20u32;
    for one in list.items() {
        if one.place != next || !is_original(one.place, one.block.items(), original) {
            return false;
        }
        next = next.wrapping_add(1);
    }
    true
}

// What a task gives of a damaged layer, whose original blocks these are.
fn check_answer<T: LayerTask>(
    rt: &impl Abort,
    alloc: Global,
    task: &T,
    input: &LayerInput,
    original: &[u8],
    answer: Answer,
) -> Result<(), AllocError>
    requires { T.fit input.now }
{
    let out = task.work(alloc, input)?;
    assert_eq!(rt; answer_of(&out), answer);
    if let LayerOut::Restored(list) = &out {
        assert!(rt; are_original(list, original));
    }
    Ok(())
}

// Damages a layer with r parity bytes, and corrects it by columns and codeword by codeword.
fn check_layer(
    rt: &impl Abort,
    alloc: Global,
    task: &CorrectTask,
    r: u32,
    damage: Damage,
    answer: Answer,
) -> Result<(), AllocError>
    requires least { 8 ≤ r }
    requires most { r ≤ 100 }
{
    let mut state = 3;
    let data_count = 255 - r as usize;
    let word = random_codeword(r, &mut state);
    let mut blocks = vec![in alloc; 0u8; 2048 * data_count]?;
    let mut sums = vec![in alloc; 0u32; data_count]?;
    let mut parity = vec![in alloc; 0u8; 2048 * r as usize]?;
    let mut flags = vec![in alloc; false; data_count]?;
    write_blocks(&word, blocks.as_mut_slice());
    write_sums(blocks.as_slice(), sums.as_mut_slice());
    write_parity(&word, parity.as_mut_slice(), r as usize);
    let original = blocks.as_slice().to_vec(alloc)?;
    damage_blocks(blocks.as_mut_slice(), damage);
    damage_sums(sums.as_mut_slice(), damage);
    write_flags(flags.as_mut_slice(), damage.erased);
    let input = LayerInput {
        layer: 5,
        parity_count: r,
        data_: Bytes::of(blocks),
        erased: Flags::of(flags),
        sums: SumList::of(sums),
        parity: Bytes::of(parity),
    };
    check_answer(rt, alloc, task, &input, &original, answer)?;
    check_answer(rt, alloc, &PlainCorrectTask, &input, &original, answer)
}

#[test]
fn corrected_layers(rt: HostRuntime) -> Result<(), Fail> {
    let byte = Some((7usize, 700usize));
    let task = CorrectTask::new(rt.alloc(), 8)?;
    for (erased, wrong_byte, wrong_sum, answer) in [
        (0usize, None, None, Answer::Restored(0)),
        (8, None, None, Answer::Restored(8)),
        (9, None, None, Answer::Beyond(9)),
        (9, byte, Some(20usize), Answer::Beyond(9)),
        // A byte of a place that is not erased differs in codeword 700.
        (0, byte, None, Answer::Inconsistent(700)),
        (7, byte, Some(20), Answer::Inconsistent(700)),
        // With 8 places erased each word is completed, to another codeword.
        (8, byte, None, Answer::BadSum(20)),
        (8, None, Some(23), Answer::BadSum(23)),
        // The checksum of a place that is not erased.
        (8, None, Some(7), Answer::Restored(8)),
    ] {
        let damage = Damage {
            erased,
            wrong_byte,
            wrong_sum,
        };
        check_layer(&rt, rt.alloc(), &task, 8, damage, answer)?;
    }
    Ok(())
}

// Nothing, one place, half as many as parity bytes, and as many; a byte that differs in the second
// half of the layer; and a task that was made for another number of parity bytes.
#[test]
fn numbers_of_parity_bytes(rt: HostRuntime) -> Result<(), Fail> {
    let byte = Some((7usize, 1700usize));
    for (made, r, erased, wrong_byte, answer) in [
        (8u32, 8u32, 4usize, None, Answer::Restored(4)),
        (9, 9, 0, byte, Answer::Inconsistent(1700)),
        (16, 16, 1, None, Answer::Restored(1)),
        (31, 31, 31, None, Answer::Restored(31)),
        (32, 32, 0, None, Answer::Restored(0)),
        (32, 32, 31, byte, Answer::Inconsistent(1700)),
        (33, 33, 16, None, Answer::Restored(16)),
        (64, 64, 64, None, Answer::Restored(64)),
        (99, 99, 1, byte, Answer::Inconsistent(1700)),
        (100, 100, 50, None, Answer::Restored(50)),
        (100, 9, 9, None, Answer::Restored(9)),
    ] {
        assert!(rt; made >= 8 && made <= 100 && r >= 8 && r <= 100);
        let task = CorrectTask::new(rt.alloc(), made)?;
        let damage = Damage {
            erased,
            wrong_byte,
            wrong_sum: None,
        };
        check_layer(&rt, rt.alloc(), &task, r, damage, answer)?;
    }
    Ok(())
}
