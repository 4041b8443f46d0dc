//! Comparing the image with the one that was made.
ghost use Rattle.std.specs.Prelude.{◌≡◌, ◌==◌, ◌≤◌, ◌+◌, ◌*◌, IfOk, is_err, length};
ghost use Rattle.std.specs.Str.{bytes_eq};
ghost use Rattle.rs01_lists.specs.Bytes.{part};
ghost use Rattle.rs01_outside.specs.DeskState.{InFile, OnlyReads};
ghost use Rattle.rs01_ecchead.specs.Pieces.{InFileTo};
ghost use Rattle.rs01_ecchead.specs.Walked.{is_walk_fault};
ghost use Rattle.rs01_demo.specs.Generator.{image};
ghost use Rattle.rs01_demo.specs.Steps.{Compares};

use crate::generator::fill;
use crate::making::{RUN, run_of};
use rs01_ecchead::{WalkFault, read_piece};
use rs01_lists::zeroed;
use rs01_outside::{Desk, Failed};
use std::alloc::Global;

// Whether the bytes of a file from a place on are these.
fn is_run<D: Desk>(
    desk: &mut D,
    name: &str,
    at: u64,
    made: &[u8],
    found: &mut [u8],
) -> Result<bool, Failed>
    requires { length found.old ≡ length made.now }
    ensures reads { OnlyReads (D.state desk.old) (D.state desk.new) (is_err result) }
    ensures same { InFileTo (D.state desk.old) name.now (at + length made.now) (λ file.
        IfOk result (λ same. same ≡ bytes_eq (part file at (length made.now)) made.now)) }
{
    read_piece(desk, name, at, found)?;
    Ok(*found == *made)
}

// Whether a file of the right length has the bytes of the image.
fn has_bytes<D: Desk>(
    desk: &mut D,
    name: &str,
    number: u64,
    sectors: u32,
    made: &mut [u8],
    found: &mut [u8],
) -> Result<bool, Failed>
    requires made { length made.old ≡ 131072 }
    requires found { length found.old ≡ 131072 }
    ensures reads { OnlyReads (D.state desk.old) (D.state desk.new) (is_err result) }
    ensures same { Compares (D.state desk.old) name.now number sectors result }
{
    let mut value = number;
    let mut first = 0u32;
    while first < sectors {
        let count = run_of(sectors, first);
        let len = 2048 * count as usize;
        let own = &mut made[..len];
        value = fill(value, own);
        let same = is_run(desk, name, 2048 * u64::from(first), own, &mut found[..len])?;
        if !same {
            return Ok(false);
        }
        first += count;
    }
    Ok(true)
}

// Whether a file has so many bytes.
fn has_length<D: Desk>(desk: &mut D, name: &str, len: u64) -> Result<bool, Failed>
    requires { 1 ≤ len }
    ensures reads { OnlyReads (D.state desk.old) (D.state desk.new) (is_err result) }
    ensures long { InFile (D.state desk.old) name.now (λ file.
        IfOk result (λ long. long ≡ (length file == len))) }
{
    match desk.size(name)? {
        Some(size) => Ok(size == len),
        None => Ok(false),
    }
}

// Whether a file is the image of so many sectors that is made from a number. It is read by long runs.
pub fn is_image<D: Desk>(
    alloc: Global,
    desk: &mut D,
    name: &str,
    number: u64,
    sectors: u32,
) -> Result<bool, WalkFault>
    requires { 1 ≤ sectors }
    ensures reads { OnlyReads (D.state desk.old) (D.state desk.new) (is_walk_fault result) }
    ensures same { InFile (D.state desk.old) name.now (λ file.
        IfOk result (λ same. same ≡ bytes_eq file (image number sectors))) }
{
    let mut made = zeroed(alloc, 2048 * RUN as usize)?;
    let mut found = zeroed(alloc, 2048 * RUN as usize)?;
    if !has_length(desk, name, 2048 * u64::from(sectors))? {
        return Ok(false);
    }
    Ok(has_bytes(desk, name, number, sectors, &mut made, &mut found)?)
}
