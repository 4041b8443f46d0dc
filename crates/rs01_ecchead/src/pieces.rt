//! Reading a file piece by piece, with a digest of what was read.
ghost use Rattle.std.specs.Prelude.{◌≡◌, ◌-◌, ◌<◌, ◌≤◌, IfOk, OnOk, is_err, length, min};
ghost use Rattle.rs01_lists.specs.Bytes.{part};
ghost use Rattle.rs01_outside.specs.DeskState.{InFile, OnlyReads};
ghost use Rattle.rs01_ecchead.specs.Pieces.{InFileTo, IsFed, IsPiece};
ghost use Rattle.rs01_ecchead.specs.Walked.{is_walk_fault};

use crate::walk::WalkFault;
use md5::{Digest, Md5};
use rs01_lists::zeroed;
use rs01_outside::{Desk, Failed};
use std::alloc::Global;

// How many bytes of a file are read at once.
pub const PIECE: usize = 65536;

/// Fills the whole of `into` with the bytes of a file from the place `at` on, which is counted in bytes. Zeros stand for
/// those that the file doesn't have, so all of `into` becomes zeros where the name isn't there.
///
/// It fails only where the desk fails to read, and then nothing is said of what `into` holds.
pub fn read_piece<D: Desk>(desk: &mut D, name: &str, at: u64, into: &mut [u8]) -> Result<(), Failed>
    ensures reads { OnlyReads (D.state desk.old) (D.state desk.new) (is_err result) }
    ensures filled { InFile (D.state desk.old) name.now
        (λ file. OnOk result (IsPiece file at into.new)) }
{
    let count = desk.read_at(name, at, into)?;
    into[count..].fill(0);
    Ok(())
}

/// So many bytes of a file from the place `at` on, which is counted in bytes. Zeros stand for those that the file
/// doesn't have.
pub fn read_bytes<D: Desk>(
    alloc: Global,
    desk: &mut D,
    name: &str,
    at: u64,
    size: usize,
) -> Result<Vec<u8>, WalkFault>
    ensures reads { OnlyReads (D.state desk.old) (D.state desk.new) (is_walk_fault result) }
    ensures len { IfOk result (λ bytes. length bytes.items ≡ size) }
    ensures bytes { InFile (D.state desk.old) name.now
        (λ file. IfOk result (λ bytes. IsPiece file at bytes.items)) }
{
    let mut bytes = zeroed(alloc, size)?;
    read_piece(desk, name, at, &mut bytes)?;
    Ok(bytes)
}

// Reads a piece, and adds it to a digest.
pub fn add_piece<D: Desk>(
    desk: &mut D,
    name: &str,
    at: u64,
    into: &mut [u8],
    hasher: &mut Md5,
) -> Result<(), Failed>
    ensures reads { OnlyReads (D.state desk.old) (D.state desk.new) (is_err result) }
    ensures filled { InFile (D.state desk.old) name.now
        (λ file. OnOk result (IsPiece file at into.new)) }
    ensures held { OnOk result (IsFed hasher.old hasher.new into.new) }
{
    read_piece(desk, name, at, into)?;
    hasher.update(&*into);
    Ok(())
}

// How many bytes the next piece takes.
pub fn piece_len(at: u64, to: u64, most: usize) -> usize
    requires some { 0 < most }
    requires left { at < to }
    ensures { result ≡ min (to - at) most }
{
    let left = to - at;
    if left < most as u64 {
        left as usize
    } else {
        most
    }
}

// Adds the bytes of a file between two places to a digest, a buffer at a time.
pub fn add_rest<D: Desk>(
    alloc: Global,
    desk: &mut D,
    name: &str,
    from: u64,
    to: u64,
    hasher: &mut Md5,
) -> Result<(), WalkFault>
    requires { from ≤ to }
    ensures reads { OnlyReads (D.state desk.old) (D.state desk.new) (is_walk_fault result) }
    ensures held { InFileTo (D.state desk.old) name.now to
        (λ file. OnOk result (IsFed hasher.old hasher.new (part file from (to - from)))) }
{
    let mut buffer = zeroed(alloc, PIECE)?;
    let mut at = from;
    while at < to {
        let count = piece_len(at, to, buffer.len());
        add_piece(desk, name, at, &mut buffer[..count], hasher)?;
        at += count as u64;
    }
    Ok(())
}
