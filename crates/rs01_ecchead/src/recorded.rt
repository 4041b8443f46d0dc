//! Reading the recorded checksums.
ghost use Rattle.std.specs.Prelude.{◌≡◌, ◌+◌, ◌*◌, ◌/◌, ◌≤◌, ◌++◌, IfOk, length};
ghost use Rattle.rs01_outside.specs.DeskState.{OnlyReads};
ghost use Rattle.rs01_ecchead.specs.Pieces.{InFileTo};
ghost use Rattle.rs01_ecchead.specs.Recorded.{AreRecorded, numbers_in};
ghost use Rattle.rs01_ecchead.specs.Walked.{is_walk_fault};

use crate::head_read::number;
use crate::pieces::{PIECE, add_piece, piece_len};
use crate::walk::WalkFault;
use md5::Md5;
use rs01_lists::zeroed;
use rs01_outside::Desk;
use rs01_sums::Sums;
use std::alloc::Global;

// Puts the numbers of a piece, 4 bytes each, behind the checksums that are there.
fn push_sums(piece: &[u8], sums: &mut Sums)
    requires room { length sums.old.list + length piece.now / 4 ≤ sums.old.room }
    ensures list { sums.new.list ≡ sums.old.list ++ numbers_in piece.now }
    ensures room { sums.new.room ≡ sums.old.room }
{
    for j in 0..piece.len() / 4 {
        sums.push_reserved(number(piece, 4 * j));
    }
}

// Reads the checksums of all sectors, a buffer at a time, and adds their bytes to a digest.
pub fn read_sums<D: Desk>(
    alloc: Global,
    desk: &mut D,
    name: &str,
    count: u32,
    hasher: &mut Md5,
) -> Result<Sums, WalkFault>
    ensures reads { OnlyReads (D.state desk.old) (D.state desk.new) (is_walk_fault result) }
    ensures len { IfOk result (λ sums. length sums.list ≡ count) }
    ensures read { InFileTo (D.state desk.old) name.now (4096 + 4 * count) (λ file.
        IfOk result (λ sums. AreRecorded file count sums.list hasher.old hasher.new)) }
{
    let mut buffer = zeroed(alloc, PIECE)?;
    let mut sums = Sums::new(alloc, count)?;
    let to = 4096 + 4 * u64::from(count);
    let mut at = 4096u64;
    while at < to {
        let len = piece_len(at, to, buffer.len());
        let piece = &mut buffer[..len];
        add_piece(desk, name, at, piece, hasher)?;
        push_sums(piece, &mut sums);
        at += len as u64;
    }
    Ok(sums)
}
