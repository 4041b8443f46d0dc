//! Reading a header.
ghost use Rattle.std.specs.Prelude.{◌≡◌, ◌+◌, ◌≤◌, ◌==◌, if◌then◌else◌, length, MatchResult, Ok, Err};
ghost use Rattle.std.specs.Str.{bytes_eq};
ghost use Rattle.rs01_ecchead.specs.Header.{head_of, number_at, wide_number_at};
ghost use Rattle.rs01_lists.specs.Bytes.{part};
ghost use Rattle.rs01_ecchead.specs.Head.{fields_of};

use crate::head::{Head, HeadRefusal};

// Whether this text stands at a place.
fn has_text(from: &[u8], at: usize, text: &[u8]) -> bool
    requires { at + length text.now ≤ length from.now }
    ensures { result ≡ bytes_eq (part from.now at (length text.now)) text.now }
{
    &from[at..at + text.len()] == text
}

// The number in the 4 bytes from a place on.
pub fn number(from: &[u8], at: usize) -> u32
    requires { at + 4 ≤ length from.now }
    ensures { result ≡ number_at from.now at }
{
    u32::from_le_bytes([from[at], from[at + 1], from[at + 2], from[at + 3]])
}

// The number in the 8 bytes from a place on.
fn wide_number(from: &[u8], at: usize) -> u64
    requires { at + 8 ≤ length from.now }
    ensures { result ≡ wide_number_at from.now at }
{
    u64::from_le_bytes([
        from[at],
        from[at + 1],
        from[at + 2],
        from[at + 3],
        from[at + 4],
        from[at + 5],
        from[at + 6],
        from[at + 7],
    ])
}

// The 16 bytes of a digest from a place on.
fn digest_at(from: &[u8], at: usize) -> [u8; 16]
    requires { at + 16 ≤ length from.now }
    ensures { result ≡ part from.now at 16 }
{
    let mut digest = [0u8; 16];
    digest.copy_from_slice(&from[at..at + 16]);
    digest
}

// A last sector of 0 bytes is a full one.
fn full_or(last_bytes: u32) -> u32
    ensures value { result ≡ (if last_bytes == 0 then 2048 else last_bytes) }
    ensures some { 1 ≤ result }
    ensures fits { last_bytes ≤ 2048 → result ≤ 2048 }
{
    if last_bytes == 0 { 2048 } else { last_bytes }
}

/// Reads a header, or tells the first of the six refusals that fits.
///
/// A field of 0 for the last sector's bytes is read as 2048. Flags, creator version, fingerprint sector, digests and
/// reserved bytes may be anything.
#[tactic(auto, unfolding(crate::specs::Header::head_of, crate::specs::Header::judged))]
pub fn read_head(from: &[u8; 4096]) -> Result<Head, HeadRefusal>
    ensures { MatchResult result
        (λ head. head_of from.now ≡ Ok (fields_of head)) (λ why. head_of from.now ≡ Err why) }
{
    let sectors = wide_number(from, 68);
    let data_ = number(from, 76);
    let parity = number(from, 80);
    let needed = number(from, 88);
    let last_bytes = number(from, 116);
    if !has_text(from, 0, b"*dvdisaster*") {
        return Err(HeadRefusal::Cookie);
    }
    if !has_text(from, 12, b"RS01") {
        return Err(HeadRefusal::Method);
    }
    if needed > 1 {
        return Err(HeadRefusal::Version);
    }
    if sectors == 0 || sectors > 16_777_215 {
        return Err(HeadRefusal::Sectors);
    }
    if parity < 8 || parity > 100 || u64::from(data_) + u64::from(parity) != 255 {
        return Err(HeadRefusal::Parity);
    }
    if last_bytes > 2048 {
        return Err(HeadRefusal::LastBytes);
    }
    Ok(Head {
        flags: number(from, 16),
        fingerprint: digest_at(from, 20),
        image_sum: digest_at(from, 36),
        body_sum: digest_at(from, 52),
        sectors: sectors as u32,
        parity,
        creator: number(from, 84),
        needed,
        mark_sector: number(from, 92),
        last_bytes: full_or(last_bytes),
    })
}
