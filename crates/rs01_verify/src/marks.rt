//! Digests that are compared with the recorded ones.
ghost use Rattle.std.specs.Prelude.{◌≡◌, ◌<◌, ◌≤◌, ◌==◌, ◌&&◌, if◌then◌else◌, List, ℕ};
ghost use Rattle.std.specs.Str.{bytes_eq};
ghost use Rattle.md5.specs.Md5.{Holds};
ghost use Rattle.rs01_verify.specs.Report.{mark_of};

use md5::{Digest, Md5};
use rs01_ecchead::Head;
use rs01_report::Mark;

// Whether a digest is the recorded one.
fn compare(digest: &[u8; 16], recorded: &[u8; 16]) -> Mark
    ensures { result ≡ (if bytes_eq digest.now recorded.now then Mark.Matches else Mark.Differs) }
{
    if digest == recorded {
        Mark::Matches
    } else {
        Mark::Differs
    }
}

// The mark of the fingerprint after a sector was looked at, from the one before: that sector's, where it is the
// fingerprint sector and is there.
pub fn fingerprint_after(
    head: &Head,
    there: bool,
    sector: u32,
    block: &[u8; 2048],
    before: Mark,
) -> Mark
    ensures { result ≡ (if there && (sector == head.now.mark_sector)
        then mark_of block.now head.now.fingerprint else before) }
{
    if there && sector == head.mark_sector {
        compare(&Md5::digest(block), &head.fingerprint)
    } else {
        before
    }
}

// The mark of an image file of `size` bytes whose first `len` bytes, where it isn't shorter, are in a digest.
pub fn image_mark_of(head: &Head, size: u64, len: u64, hasher: Md5) -> Mark
    ensures short { size < len → result ≡ Mark.Absent }
    ensures digest { len ≤ size → (bytes : List ℕ) → Holds hasher bytes
        → result ≡ mark_of bytes head.now.image_sum }
{
    let digest = hasher.finalize();
    if size < len {
        Mark::Absent
    } else {
        compare(&digest, &head.image_sum)
    }
}
