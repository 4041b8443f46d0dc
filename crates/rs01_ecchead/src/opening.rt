//! Opening an error correction file: its header, its length, its checksums and its digest.
ghost use Rattle.std.specs.Prelude.{◌≡◌, IfErr, IfOk, IsTrue, false, length};
ghost use Rattle.rs01_outside.specs.DeskState.{InFile, OnlyReads};
ghost use Rattle.rs01_ecchead.specs.Opened.{is_read_fault};
ghost use Rattle.rs01_ecchead.specs.Opening.{IsJudged, IsOfHeader, Opens, ReadsHeader, TellsTwo};
ghost use Rattle.rs01_ecchead.specs.Pieces.{InFileTo};
ghost use Rattle.rs01_ecchead.specs.Walked.{is_walk_fault};

use crate::head::Head;
use crate::head_read::read_head;
use crate::opened::{Ecc, EccRefusal};
use crate::pieces::{add_rest, read_piece};
use crate::recorded::read_sums;
use crate::walk::WalkFault;
use md5::{Digest, Md5};
use rs01_layers::Shape;
use rs01_outside::Desk;
use rs01_sums::Sums;
use std::alloc::Global;

// What stands behind a header: the recorded checksums, and the digest of all of it.
#[derive(Drop)]
struct Body {
    sums: Sums,
    digest: [u8; 16],
}

ghost use Rattle.rs01_ecchead.specs.Opening.{IsBodyOf};

// Reads what stands behind the header once.
fn read_body<D: Desk>(
    alloc: Global,
    desk: &mut D,
    name: &str,
    shape: &Shape,
) -> Result<Body, WalkFault>
    ensures reads { OnlyReads (D.state desk.old) (D.state desk.new) (is_walk_fault result) }
    ensures len { IfOk result (λ body. length body.sums.list ≡ shape.now.sectors) }
    ensures body { InFile (D.state desk.old) name.now
        (λ file. IfOk result (IsBodyOf file shape.now)) }
{
    let mut hasher = Md5::new();
    let count = shape.sectors();
    let sums = read_sums(alloc, desk, name, count, &mut hasher)?;
    let from = 4096 + 4 * u64::from(count);
    add_rest(alloc, desk, name, from, shape.file_size(), &mut hasher)?;
    Ok(Body {
        sums,
        digest: hasher.finalize(),
    })
}

// Reads the header of a file that has at least 4096 bytes.
fn read_header<D: Desk>(desk: &mut D, name: &str) -> Result<Head, EccRefusal>
    ensures reads { OnlyReads (D.state desk.old) (D.state desk.new) (is_read_fault result) }
    ensures header { InFileTo (D.state desk.old) name.now 4096 (λ file. ReadsHeader file result) }
    ensures causes { IfErr result IsOfHeader }
{
    let mut header = [0u8; 4096];
    read_piece(desk, name, 0, &mut header)?;
    Ok(read_head(&header)?)
}

// Keeps what was read, where its digest is the recorded one.
fn judge_body(head: Head, body: Body) -> Result<Ecc, EccRefusal>
    requires { length body.sums.list ≡ head.sectors }
    ensures judged { IsJudged head body result }
    ensures reads { is_read_fault result ≡ false }
    ensures differ { IfErr result TellsTwo }
{
    if body.digest != head.body_sum {
        return Err(EccRefusal::Body {
            have: body.digest,
            want: head.body_sum,
        });
    }
    Ok(Ecc {
        head,
        sums: body.sums,
    })
}

/// Opens an error correction file: reads its header, and reads the rest once in pieces, for its digest and for the
/// checksums, which are kept. The parity isn't kept. No file changes.
pub fn open_ecc<D: Desk>(alloc: Global, desk: &mut D, name: &str) -> Result<Ecc, EccRefusal>
    ensures reads { OnlyReads (D.state desk.old) (D.state desk.new) (is_read_fault result) }
    ensures answer { IsTrue (D.state desk.old).tells
        → Opens ((D.state desk.old).files name.now) result }
    ensures differ { IfErr result TellsTwo }
{
    let Some(have) = desk.size(name)? else {
        return Err(EccRefusal::NoFile);
    };
    if have < 4096 {
        return Err(EccRefusal::Size { have, want: 4096 });
    }
    let head = read_header(desk, name)?;
    let shape = head.shape();
    let want = shape.file_size();
    if have != want {
        return Err(EccRefusal::Size { have, want });
    }
    let body = read_body(alloc, desk, name, &shape)?;
    judge_body(head, body)
}
