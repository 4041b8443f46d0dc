//! Getting an image file ready, before a sector is asked for.
ghost use Rattle.std.specs.Prelude.{IfErr, IfOk, IsTrue};
ghost use Rattle.rs01_linear.specs.Refusal.{IsOfWork, WorksBy};

use crate::fate::Fate;
use crate::judging::judge_image;
use crate::marking::put_markers;
use crate::medium::Medium;
use crate::refusal::ReadRefusal;
use rs01_outside::{Desk, Failed};
use std::alloc::Global;

/// An image file that is ready to be read into.
#[derive(Drop)]
pub struct Prepared {
    /// How many bytes it had.
    pub size: u64,
    /// What is known of each sector: that the file had it good, or that it wasn't asked for yet.
    pub fates: Vec<Fate>,
}

ghost use Rattle.rs01_linear.specs.Linear.{IsFreshOf, Starts, TellsReady};

// How many bytes the image file has. Where it isn't there it is made.
fn start_image<D: Desk>(desk: &mut D, name: &str) -> Result<u64, ReadRefusal>
    ensures works { WorksBy name.now (D.state desk.old) (D.state desk.new) result }
    ensures causes { IfErr result IsOfWork }
    ensures started { IsTrue (D.state desk.old).tells
        → Starts ((D.state desk.old).files name.now) ((D.state desk.new).files name.now) result }
{
    match desk.size(name) {
        Ok(Some(size)) => Ok(size),
        Ok(None) => match desk.make(name) {
            Ok(()) => Ok(0),
            Err(Failed) => Err(ReadRefusal::WriteFault),
        },
        Err(Failed) => Err(ReadRefusal::ReadFault),
    }
}

/// Gets the image file of a medium ready: makes it where it isn't there, judges its sectors, and puts the marker of each
/// that isn't good, in long runs. After a fault or want of memory some first bytes are those of the marked file.
pub fn prepare<D: Desk>(
    alloc: Global,
    desk: &mut D,
    name: &str,
    medium: &Medium,
) -> Result<Prepared, ReadRefusal>
    ensures works { WorksBy name.now (D.state desk.old) (D.state desk.new) result }
    ensures causes { IfErr result IsOfWork }
    ensures fresh { IfOk result (IsFreshOf medium.now.extent.sectors) }
    ensures told { TellsReady medium.now name.now (D.state desk.old) (D.state desk.new) result }
{
    let size = start_image(desk, name)?;
    let fates = judge_image(alloc, desk, name, size, medium)?;
    put_markers(alloc, desk, name, &medium.extent, &fates)?;
    Ok(Prepared { size, fates })
}
