//! Looking at all sectors of an image, once and in rising order.
ghost use Rattle.std.specs.Prelude.{◌≡◌, ◌≤◌, ◌++◌, IfOk, IsTrue, List, length, take, ℕ};
ghost use Rattle.md5.specs.Md5.{Holds};
ghost use Rattle.rs01_outside.specs.DeskState.{InFile, OnlyReads};
ghost use Rattle.rs01_ecchead.specs.Walked.{is_walk_fault};

use crate::marks::fingerprint_after;
use crate::tally::Tally;
use md5::{Digest, Md5};
use rs01_ecchead::{Ecc, Visitor, WalkFault, judge, walk_image};
use rs01_outside::Desk;
use rs01_report::Mark;
use std::alloc::{AllocError, Global};

// What is kept of the sectors that were looked at: the erased ones, a digest of their bytes, and the mark of the
// fingerprint, which is absent until its sector comes.
#[derive(Drop)]
pub struct Survey {
    pub tally: Tally,
    pub hasher: Md5,
    pub fingerprint: Mark,
}

// Looks at the sectors of an image by its error correction file.
#[derive(Drop)]
pub struct Surveyor {
    pub ecc: Ecc,
}

ghost use Rattle.rs01_verify.specs.Surveyed.{CountedBy, IsEmpty, SurveyedBy};

// Adds a sector's own bytes to a digest, where it is there.
fn add_own(hasher: &mut Md5, there: bool, len: u32, block: &[u8; 2048])
    requires { len ≤ 2048 }
    ensures { IsTrue there → (m : List ℕ) → Holds hasher.old m
        → Holds hasher.new (m ++ take len block.now) }
{
    if there {
        hasher.update(&block[..len as usize]);
    }
}

impl Visitor for Surveyor {
    ghost use Rattle.rs01_verify.specs.Surveyed.{CountedBy, SurveyedShown};

    type Kept = Survey;

    ghost count = { λ v. v.ecc.head.sectors };

    ghost keeps = { λ v image n survey. SurveyedShown v.ecc image n survey };

    ghost fits = { λ v n survey. CountedBy v.ecc n survey };

    fn sector(
        &self,
        sector: u32,
        there: bool,
        len: u32,
        block: &[u8; 2048],
        kept: &mut Survey,
    ) -> Result<(), AllocError> {
        add_own(&mut kept.hasher, there, len, block);
        kept.fingerprint = fingerprint_after(
            self.ecc.head(),
            there,
            sector,
            block,
            kept.fingerprint,
        );
        let found = judge(there, Some(self.ecc.sums()), sector, block);
        kept.tally.add(&self.ecc.shape(), sector, found)?;
        Ok(())
    }
}

// Nothing yet, of an image in so many layers.
fn empty_survey(alloc: Global, layers: u32) -> Result<Survey, AllocError>
    ensures { IfOk result (λ survey. IsEmpty layers survey) }
{
    Ok(Survey {
        tally: Tally::new(alloc, layers)?,
        hasher: Md5::new(),
        fingerprint: Mark::Absent,
    })
}

// Looks at all sectors of an image file of `size` bytes. No file changes.
pub fn survey_image<D: Desk>(
    alloc: Global,
    desk: &mut D,
    name: &str,
    size: u64,
    surveyor: &Surveyor,
) -> Result<Survey, WalkFault>
    ensures reads { OnlyReads (D.state desk.old) (D.state desk.new) (is_walk_fault result) }
    ensures counted { let ecc = surveyor.now.ecc in IfOk result (CountedBy ecc ecc.head.sectors) }
    ensures surveyed { let ecc = surveyor.now.ecc in InFile (D.state desk.old) name.now (λ file.
        size ≡ length file → IfOk result (SurveyedBy ecc file ecc.head.sectors)) }
{
    let extent = surveyor.ecc.extent();
    let mut survey = empty_survey(alloc, surveyor.ecc.shape().layers())?;
    walk_image(alloc, desk, name, size, &extent, surveyor, &mut survey)?;
    Ok(survey)
}
