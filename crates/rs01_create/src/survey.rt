//! One pass over an image, which takes its checksums and digests and looks for a marker.
ghost use Rattle.std.specs.Prelude.{◌≡◌, ◌≤◌, ◌++◌, [], IfOk, OnOk};
ghost use Rattle.rs01_outside.specs.DeskState.{InFile, OnlyReads};
ghost use Rattle.rs01_ecchead.specs.Walked.{is_walk_fault};
ghost use Rattle.rs01_create.specs.Surveyed.{Gathers, SeesAll, SurveyedBy};

use crate::digesting::Digesting;
use crate::found::{Gathered, Noted, Seen};
use md5::{Digest, Md5};
use rs01_ecchead::{Visitor, WalkFault, walk_image};
use rs01_layers::Extent;
use rs01_outside::Desk;
use std::alloc::{AllocError, Global};

// How many sectors are gathered before their checksums and digest are taken: enough that a thread for them pays, and few
// enough that they are still in the processor's cache.
const BATCH: usize = 256;

// Looks at the sectors of an image.
#[derive(Drop)]
pub struct Surveyor<'a, G: Digesting> {
    pub extent: Extent,
    pub digesting: &'a G,
}

// Puts a block behind others.
fn gather(block: &[u8; 2048], blocks: &mut Vec<u8>) -> Result<(), AllocError>
    ensures { OnOk result (blocks.new.items ≡ blocks.old.items ++ block.now) }
{
    blocks.extend_from_slice(block)?;
    Ok(())
}

// Takes checksums and digest of what was gathered, up to below the sector `past`.
fn take_gathered<G: Digesting>(
    extent: &Extent,
    digesting: &G,
    past: u32,
    kept: &mut Gathered,
) -> Result<(), AllocError>
    requires gathers { Gathers past kept.old }
    requires inside { past ≤ extent.now.sectors }
    ensures none { OnOk result ((kept.new.first ≡ past) × (kept.new.blocks.items ≡ [])) }
    ensures sees { OnOk result (SeesAll extent.now past kept.old kept.new) }
{
    digesting.digest(extent, kept.first, past, &kept.blocks, &mut kept.seen)?;
    kept.first = past;
    kept.blocks.clear();
    Ok(())
}

impl<'a, G: Digesting> Visitor for Surveyor<'a, G> {
    ghost use Rattle.rs01_create.specs.Surveyed.{Fits, GatheredShown};

    type Kept = Gathered;

    ghost count = { λ v. v.extent.sectors };

    ghost keeps = { λ v image n kept. GatheredShown v.extent image n kept };

    ghost fits = { λ v n kept. Fits v.extent n kept };

    fn sector(
        &self,
        sector: u32,
        _there: bool,
        _len: u32,
        block: &[u8; 2048],
        kept: &mut Gathered,
    ) -> Result<(), AllocError> {
        let sectors = self.extent.sectors;
        let past = sector + 1;
        gather(block, &mut kept.blocks)?;
        if kept.blocks.len() == 2048 * BATCH || past == sectors {
            take_gathered(&self.extent, self.digesting, past, kept)?;
        }
        Ok(())
    }
}

// Looks at all sectors of an image file of `size` bytes. No file changes.
pub fn survey_image<D: Desk, G: Digesting>(
    alloc: Global,
    desk: &mut D,
    name: &str,
    size: u64,
    extent: Extent,
    digesting: &G,
) -> Result<Seen, WalkFault>
    ensures reads { OnlyReads (D.state desk.old) (D.state desk.new) (is_walk_fault result) }
    ensures seen { InFile (D.state desk.old) name.now (λ file.
        IfOk result (SurveyedBy extent size file)) }
{
    let fingerprint = [0; 16];
    let sectors = extent.sectors as usize;
    let mut kept = Gathered {
        seen: Seen {
            noted: Noted {
                sums: Vec::with_capacity(alloc, 4 * sectors)?,
                fingerprint,
                marked: None,
            },
            hasher: Md5::new(),
        },
        first: 0,
        blocks: Vec::with_capacity(alloc, 2048 * BATCH.min(sectors))?,
    };
    let surveyor = Surveyor { extent, digesting };
    walk_image(alloc, desk, name, size, &extent, &surveyor, &mut kept)?;
    Ok(kept.seen)
}
