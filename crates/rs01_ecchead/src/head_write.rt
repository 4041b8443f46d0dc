//! Writing a header.
ghost use Rattle.std.specs.Prelude.{◌≡◌, ◌+◌, ◌≤◌, ◌++◌, length, take, drop};
ghost use Rattle.std.specs.Int.{to_le_bytes, w32};
ghost use Rattle.rs01_ecchead.specs.Header.{head_bytes, Puts};
ghost use Rattle.rs01_ecchead.specs.Head.{fields_of};

use crate::head::Head;

// Puts bytes over those at a place.
fn place(into: &mut [u8], at: usize, bytes: &[u8])
    requires { at + length bytes.now ≤ length into.old }
    ensures { into.new ≡ take at into.old ++ bytes.now ++ drop (at + length bytes.now) into.old }
{
    into[at..at + bytes.len()].copy_from_slice(bytes);
}

// Puts bytes at a place. Where all from there on is zeros, they come behind what stands before.
fn put(into: &mut [u8], at: usize, bytes: &[u8])
    requires { at + length bytes.now ≤ length into.old }
    ensures { Puts at bytes.now into.old into.new }
{
    place(into, at, bytes);
}

fn put_number(into: &mut [u8], at: usize, number: u32)
    requires { at + 4 ≤ length into.old }
    ensures { Puts at (to_le_bytes w32 number) into.old into.new }
{
    put(into, at, &number.to_le_bytes());
}

/// Writes the 4096 bytes of a header. Reserved bytes are zeros, and the number of data bytes is 255 less the parity's.
pub fn write_head(head: &Head, into: &mut [u8; 4096])
    ensures { into.new ≡ head_bytes (fields_of head.now) }
{
    into.fill(0);
    put(into, 0, b"*dvdisaster*RS01");
    put_number(into, 16, head.flags);
    put(into, 20, &head.fingerprint);
    put(into, 36, &head.image_sum);
    put(into, 52, &head.body_sum);
    put(into, 68, &u64::from(head.sectors).to_le_bytes());
    put_number(into, 76, 255 - head.parity);
    put_number(into, 80, head.parity);
    put_number(into, 84, head.creator);
    put_number(into, 88, head.needed);
    put_number(into, 92, head.mark_sector);
    put_number(into, 116, head.last_bytes);
}
