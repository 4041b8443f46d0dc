//! Checking an image.
ghost use Rattle.std.specs.Prelude.{◌≡◌, IfErr, IsTrue, List, length, ℕ};
ghost use Rattle.rs01_outside.specs.DeskState.{OnlyReads};
ghost use Rattle.rs01_ecchead.specs.Opened.{opened_as};
ghost use Rattle.rs01_verify.specs.Answer.{IsAnswerOf};
ghost use Rattle.rs01_verify.specs.Refusal.{TellsTwo, is_read_fault};
ghost use Rattle.rs01_verify.specs.Report.{report_of};
ghost use Rattle.rs01_verify.specs.Surveyed.{CountedBy, SurveyedBy};

use crate::fullest::fullest;
use crate::marks::image_mark_of;
use crate::refusal::VerifyRefusal;
use crate::survey::{Survey, Surveyor, survey_image};
use crate::tally::Tally;
use rs01_ecchead::{Ecc, Which, open_ecc};
use rs01_outside::Desk;
use rs01_report::{SectorList, VerifyReport};
use std::alloc::Global;

// What is told of an image file of `size` bytes whose sectors were all looked at.
fn report(ecc: &Ecc, size: u64, survey: Survey) -> VerifyReport
    requires { CountedBy ecc.now ecc.now.head.sectors survey }
    ensures { (y e : List ℕ) → size ≡ length y → SurveyedBy ecc.now y ecc.now.head.sectors survey
        → result ≡ report_of (opened_as ecc.now e) y }
{
    let Survey {
        tally,
        hasher,
        fingerprint,
    } = survey;
    let Tally {
        missing,
        altered,
        counts,
    } = tally;
    let shape = ecc.shape();
    let len = ecc.extent().image_len();
    VerifyReport {
        sectors: shape.sectors(),
        layers: shape.layers(),
        parity: shape.parity(),
        missing: SectorList::of(missing),
        altered: SectorList::of(altered),
        fullest: fullest(&counts, shape.parity()),
        surplus: size.saturating_sub(len),
        fingerprint,
        image: image_mark_of(ecc.head(), size, len, hasher),
    }
}

/// Checks the image under the name `image` against the error correction file under `ecc`.
///
/// The error correction file is opened and read once, then the image is read once, in long runs. The image isn't held:
/// only checksums, counts by layer, a digest and the lists of the erased sectors are. No file changes.
///
/// Where the desk tells its files, the report is the one that they have, and so is each refusal but those for a fault
/// and for want of memory.
pub fn verify<D: Desk>(
    alloc: Global,
    desk: &mut D,
    image: &str,
    ecc: &str,
) -> Result<VerifyReport, VerifyRefusal>
    ensures reads { OnlyReads (D.state desk.old) (D.state desk.new) (is_read_fault result) }
    ensures answer { let files = (D.state desk.old).files in IsTrue (D.state desk.old).tells
        → IsAnswerOf (files ecc.now) (files image.now) result }
    ensures differ { IfErr result TellsTwo }
{
    let surveyor = Surveyor {
        ecc: open_ecc(alloc, desk, ecc)?,
    };
    let Some(size) = desk.size(image)? else {
        return Err(VerifyRefusal::NoFile(Which::Image));
    };
    let survey = survey_image(alloc, desk, image, size, &surveyor)?;
    Ok(report(&surveyor.ecc, size, survey))
}
