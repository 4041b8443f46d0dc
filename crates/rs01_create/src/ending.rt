//! Ending a file by its header.
ghost use Rattle.std.specs.Prelude.{◌≡◌, List, is_err, ℕ};
ghost use Rattle.rs01_outside.specs.DeskState.{OnlyChanges};
ghost use Rattle.rs01_create.specs.Create.{report_of};
ghost use Rattle.rs01_create.specs.Ending.{IsHeadOf, TellsEnd};
ghost use Rattle.rs01_create.specs.Looking.{IsFoundOf};

use crate::found::Found;
use md5::{Digest, Md5};
use rs01_ecchead::{Head, write_head};
use rs01_outside::{Desk, Failed};
use rs01_report::CreateReport;

// What the header of an image's file tells.
fn head_of(found: &Found, body_sum: [u8; 16]) -> Head
    ensures { (image : List ℕ) → IsFoundOf image found.now
        → IsHeadOf image found.now.plan.shape.parity body_sum result }
{
    let fingerprint = found.fingerprint;
    let image_sum = found.image_sum;
    let extent = &found.plan.extent;
    Head {
        flags: 0,
        fingerprint,
        image_sum,
        body_sum,
        sectors: extent.sectors,
        parity: found.plan.shape.parity(),
        creator: 1,
        needed: 1,
        mark_sector: (extent.sectors - 1).min(16),
        last_bytes: extent.last_bytes,
    }
}

// What is told of a new file.
fn report_on(found: &Found) -> CreateReport
    ensures { (image : List ℕ) → IsFoundOf image found.now
        → result ≡ report_of image found.now.plan.shape.parity }
{
    let image_sum = found.image_sum;
    CreateReport {
        sectors: found.plan.extent.sectors,
        layers: found.plan.shape.layers(),
        parity: found.plan.shape.parity(),
        last_bytes: found.plan.extent.last_bytes,
        image_sum,
    }
}

// Puts the header in front of a body that stands, and tells of the file.
pub fn end_file<D: Desk>(
    desk: &mut D,
    ecc: &str,
    found: &Found,
    hasher: Md5,
) -> Result<CreateReport, Failed>
    ensures changes { OnlyChanges ecc.now (D.state desk.old) (D.state desk.new) (is_err result) }
    ensures ends { TellsEnd found.now hasher ecc.now (D.state desk.old) (D.state desk.new) result }
{
    let body_sum = hasher.finalize();
    let head = head_of(found, body_sum);
    let mut header = [0u8; 4096];
    write_head(&head, &mut header);
    match desk.write_at(ecc, 0, &header) {
        Ok(()) => Ok(report_on(found)),
        Err(Failed) => Err(Failed),
    }
}
