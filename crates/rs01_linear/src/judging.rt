//! Which sectors of an image file are good before anything is asked for.
ghost use Rattle.std.specs.Prelude.{◌≡◌, IfOk, length};
ghost use Rattle.rs01_outside.specs.DeskState.{InFile, OnlyReads};
ghost use Rattle.rs01_ecchead.specs.Walked.{is_walk_fault};
ghost use Rattle.rs01_linear.specs.Judged.{fate_by};
ghost use Rattle.rs01_linear.specs.Left.{first_fates};
ghost use Rattle.rs01_linear.specs.Medium.{known_of};
ghost use Rattle.rs01_linear.specs.Report.{IsFresh};

use crate::fate::Fate;
use crate::medium::Medium;
use rs01_ecchead::{Condition, Visitor, WalkFault, judge, walk_image};
use rs01_outside::Desk;
use std::alloc::{AllocError, Global};

// A sector that was found good is kept, and any other one isn't asked for yet.
fn fate_by(found: Condition) -> Fate
    ensures { result ≡ fate_by found }
{
    match found {
        Condition::Sound => Fate::Kept,
        Condition::Missing => Fate::LeftOut,
        Condition::Altered => Fate::LeftOut,
    }
}

impl Visitor for Medium {
    ghost use Rattle.rs01_linear.specs.Judged.{JudgedShown};
    ghost use Rattle.rs01_linear.specs.Report.{IsFresh};

    type Kept = Vec<Fate>;

    ghost count = { λ v. v.extent.sectors };

    ghost keeps = { λ v image n fates. JudgedShown v image n fates.items };

    ghost fits = { λ v n fates. IsFresh n fates.items };

    fn sector(
        &self,
        sector: u32,
        there: bool,
        _len: u32,
        block: &[u8; 2048],
        kept: &mut Vec<Fate>,
    ) -> Result<(), AllocError> {
        kept.push(fate_by(judge(there, self.sums(), sector, block)))?;
        Ok(())
    }
}

// What is known of each sector of an image file of `size` bytes: that it is kept, or that it isn't good. No file
// changes.
pub fn judge_image<D: Desk>(
    alloc: Global,
    desk: &mut D,
    name: &str,
    size: u64,
    medium: &Medium,
) -> Result<Vec<Fate>, WalkFault>
    ensures reads { OnlyReads (D.state desk.old) (D.state desk.new) (is_walk_fault result) }
    ensures fresh { IfOk result (λ fates. IsFresh medium.now.extent.sectors fates.items) }
    ensures judged { InFile (D.state desk.old) name.now (λ file. size ≡ length file
        → IfOk result (λ fates. fates.items ≡ first_fates (known_of medium.now) file)) }
{
    let mut fates = Vec::with_capacity(alloc, medium.extent.sectors as usize)?;
    let extent = medium.extent();
    walk_image(alloc, desk, name, size, &extent, medium, &mut fates)?;
    Ok(fates)
}
