//! Telling what a repair came to.
ghost use Rattle.std.specs.Prelude.{◌≡◌, ◌≤◌, IfOk, IsTrue, is_err, length};
ghost use Rattle.rs01_lists.specs.Bytes.{part};
ghost use Rattle.rs01_outside.specs.DeskState.{OnlyReads};
ghost use Rattle.rs01_ecchead.specs.Pieces.{InFileTo};
ghost use Rattle.rs01_ecchead.specs.Walked.{is_walk_fault};
ghost use Rattle.rs01_demo.specs.Steps.{TellsOf};
ghost use Rattle.rs01_demo.specs.Plan.{is_whole};

use crate::comparing::is_image;
use crate::demonstration::Demonstration;
use crate::plan::Plan;
use rs01_ecchead::{WalkFault, read_piece};
use rs01_outside::{Desk, Failed};
use rs01_report::{DemoReport, FixReport};
use std::alloc::Global;

// The digest of the bytes after the header that the header of an error correction file records.
fn recorded_sum<D: Desk>(desk: &mut D, name: &str) -> Result<[u8; 16], Failed>
    ensures reads { OnlyReads (D.state desk.old) (D.state desk.new) (is_err result) }
    ensures sum { InFileTo (D.state desk.old) name.now 68
        (λ file. IfOk result (λ sum. sum ≡ part file 52 16)) }
{
    let mut sum = [0u8; 16];
    read_piece(desk, name, 52, &mut sum)?;
    Ok(sum)
}

// The length of a list as it is told; the last number where it is longer.
fn count_of(list: &[u32]) -> u32
    ensures { length list.now ≤ 65536 → result ≡ length list.now }
{
    u32::try_from(list.len()).unwrap_or(u32::MAX)
}

// Whether a repair left no sector lost and found no layer strange.
fn is_whole(fixed: &FixReport) -> bool
    ensures { result ≡ is_whole fixed.now }
{
    let lost = fixed.lost.len();
    let strange = fixed.strange.len();
    lost == 0 && strange == 0
}

// Tells a repair of the image under one name by the file under another, where the made image has this digest.
pub fn tell<D: Desk>(
    alloc: Global,
    desk: &mut D,
    image: &str,
    ecc: &str,
    plan: Plan,
    image_sum: [u8; 16],
    fixed: &FixReport,
) -> Result<Demonstration, WalkFault>
    requires { 1 ≤ plan.sectors }
    ensures reads { OnlyReads (D.state desk.old) (D.state desk.new) (is_walk_fault result) }
    ensures told { IsTrue (D.state desk.old).tells
        → TellsOf plan image.now ecc.now (D.state desk.old).files image_sum fixed.now result }
{
    let body_sum = recorded_sum(desk, ecc)?;
    let original = is_image(alloc, desk, image, plan.number, plan.sectors)?;
    Ok(Demonstration {
        report: DemoReport {
            number: plan.number,
            sectors: plan.sectors,
            parity: plan.parity,
            lost_asked: plan.lost,
            image_sum,
            body_sum,
            restored: count_of(fixed.restored.items()),
            lost: count_of(fixed.lost.items()),
            original,
        },
        whole: is_whole(fixed),
    })
}
