//! The checksum of a sector.

ghost use Rattle.std.specs.Prelude.{◌≡◌, ◌+◌, ◌*◌, ◌<◌, ◌≤◌, ◌++◌, length};
ghost use Rattle.rs01_sums.specs.Crc.{after_bits, after_bytes, after_zeros, bits, crc, word_at};

use crate::tables::{AFTER_HALF, AFTER_ZEROS};

// The number that a byte leads to after 8, 16, .. 128 zero bits, by the table's row.
fn entry(row: usize, byte: u32) -> u32
    requires row { row < 16 }
    requires byte { byte < 256 }
    ensures { result ≡ after_zeros (8 * (row + 1)) byte }
{
    AFTER_ZEROS[row][byte as usize]
}

// The number after the eight bits of a byte, the lowest first.
fn after_byte(state: u32, byte: u8) -> u32
    ensures { result ≡ after_bits state (bits 8 byte) }
{
    entry(0, ((state % 256) as u8 ^ byte) as u32) ^ (state / 256)
}

// The four bytes from a place on as a number, the lowest first. It isn't marked to be inlined: by itself it
// becomes a single load.
fn word(bytes: &[u8], at: usize) -> u32
    requires { at + 4 ≤ length bytes.now }
    ensures { result ≡ word_at bytes.now at }
{
    let first = bytes[at] as u32;
    let second = bytes[at + 1] as u32;
    let third = bytes[at + 2] as u32;
    let fourth = bytes[at + 3] as u32;
    first + 256 * second + 65_536 * third + 16_777_216 * fourth
}

// The number that four bytes lead to after their own bits and as many zero bytes as the row says. Each leads
// to a number of its own, and these are added.
#[inline(always)]
fn after_four(row: usize, four: u32) -> u32
    requires { row ≤ 12 }
    ensures { result ≡ after_zeros (8 * (row + 4)) four }
{
    let first = entry(row + 3, four % 256);
    let second = entry(row + 2, four / 256 % 256);
    let third = entry(row + 1, four / 65_536 % 256);
    let fourth = entry(row, four / 16_777_216);
    first ^ (second ^ (third ^ fourth))
}

// The number after eight bytes and then as many zero bytes as the row says. The first four bytes meet the
// state.
#[inline(always)]
fn after_eight(row: usize, state: u32, eight: &[u8]) -> u32
    requires row { row ≤ 8 }
    requires eight { length eight.now ≡ 8 }
    ensures { result ≡ after_zeros (8 * row) (after_bytes state eight.now) }
{
    let near = word(eight, 0);
    let far = word(eight, 4);
    after_four(row + 4, state ^ near) ^ after_four(row, far)
}

// The number after sixteen bytes: what the first eight lead to behind the others, and what these lead
// to alone, which doesn't wait for the state.
#[inline(always)]
fn after_sixteen(state: u32, sixteen: &[u8]) -> u32
    requires { length sixteen.now ≡ 16 }
    ensures { result ≡ after_bytes state sixteen.now }
{
    let (front, back) = sixteen.split_at(8);
    after_eight(8, state, front) ^ after_eight(0, 0, back)
}

// The number after bytes that are taken one at a time.
fn after_each(start: u32, bytes: &[u8]) -> u32
    ensures { result ≡ after_bytes start bytes.now }
{
    let mut state = start;
    for byte in bytes {
        state = after_byte(state, *byte);
    }
    state
}

// The number after bytes of which sixteen are taken at once.
fn after_all(start: u32, bytes: &[u8]) -> u32
    ensures { result ≡ after_bytes start bytes.now }
{
    let mut state = start;
    let mut rest = bytes;
    while rest.len() >= 16 {
        let (sixteen, later) = rest.split_at(16);
        state = after_sixteen(state, sixteen);
        rest = later;
    }
    after_each(state, rest)
}

// The numbers after two lists of the same length, the second of which is taken from 0. They are taken side by
// side, so that neither waits for the other.
fn after_both(start: u32, one: &[u8], other: &[u8]) -> (u32, u32)
    requires { length other.now ≡ length one.now }
    ensures one { result.0 ≡ after_bytes start one.now }
    ensures other { result.1 ≡ after_bytes 0 other.now }
{
    let mut first = start;
    let mut second = 0u32;
    let mut rest = one;
    let mut other_rest = other;
    while rest.len() >= 16 {
        let (sixteen, later) = rest.split_at(16);
        let (other_sixteen, other_later) = other_rest.split_at(16);
        first = after_sixteen(first, sixteen);
        second = after_sixteen(second, other_sixteen);
        rest = later;
        other_rest = other_later;
    }
    (after_each(first, rest), after_each(second, other_rest))
}

// The number that four bits lead to after 8164, 8168, .. 8192 zero bits, by the table's row.
fn far_entry(row: usize, four: u32) -> u32
    requires row { row < 8 }
    requires four { four < 16 }
    ensures { result ≡ after_zeros (8164 + 4 * row) four }
{
    AFTER_HALF[row][four as usize]
}

// The number after the zero bits of half a block. Each four bits lead to a number of their own.
fn after_half(state: u32) -> u32
    ensures { result ≡ after_zeros 8192 state }
{
    let first = far_entry(7, state % 16);
    let second = far_entry(6, state / 16 % 16);
    let third = far_entry(5, state / 256 % 16);
    let fourth = far_entry(4, state / 4096 % 16);
    let fifth = far_entry(3, state / 65_536 % 16);
    let sixth = far_entry(2, state / 1_048_576 % 16);
    let seventh = far_entry(1, state / 16_777_216 % 16);
    let eighth = far_entry(0, state / 268_435_456);
    let high = fifth ^ (sixth ^ (seventh ^ eighth));
    first ^ (second ^ (third ^ (fourth ^ high)))
}

// The number after a block: what the first half leads to behind the second, and what this leads to alone.
fn after_block(start: u32, block: &[u8]) -> u32
    requires { length block.now ≡ 2048 }
    ensures { result ≡ after_bytes start block.now }
{
    let (front, back) = block.split_at(1024);
    let (one, other) = after_both(start, front, back);
    after_half(one) ^ other
}

/// The CRC-32 of ISO/IEC 13239 of a list of bytes.
///
/// Sixteen bytes are taken at once, and of a block of 2048 bytes sixteen of each half.
pub fn crc32(bytes: &[u8]) -> u32
    ensures { result ≡ crc bytes.now }
{
    if bytes.len() == 2048 {
        return !after_block(u32::MAX, bytes);
    }
    !after_all(u32::MAX, bytes)
}
