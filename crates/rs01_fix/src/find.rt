//! Finding an image with its error correction file.
ghost use Rattle.std.specs.Prelude.{◌≡◌, Err, IfErr, IfOk, false};
ghost use Rattle.rs01_outside.specs.DeskState.{OnlyReads};
ghost use Rattle.rs01_fix.specs.Fixing.{IsFix, IsStarted};
ghost use Rattle.rs01_fix.specs.Outcome.{TellsTwo, is_read_fault, is_write_fault};
ghost use Rattle.rs01_fix.specs.Steps.{IsFoundOn};

use crate::course::Course;
use crate::refusal::FixRefusal;
use rs01_ecchead::{Which, open_ecc};
use rs01_outside::{Desk, Failed};
use rs01_repair::Found;
use std::alloc::Global;

// Opens the error correction file, and measures the image. No file changes.
fn find<D: Desk>(alloc: Global, desk: &mut D, image: &str, ecc: &str) -> Result<Found, FixRefusal>
    ensures reads { OnlyReads (D.state desk.old) (D.state desk.new) (is_read_fault result) }
    ensures answer { IsFoundOn ecc.now image.now (D.state desk.old) result }
    ensures causes { is_write_fault result ≡ false }
    ensures differ { IfErr result TellsTwo }
{
    let opened = open_ecc(alloc, desk, ecc)?;
    match desk.size(image) {
        Ok(Some(size)) => Ok(Found::new(alloc, opened, size)?),
        Ok(None) => Err(FixRefusal::NoFile(Which::Image)),
        Err(Failed) => Err(FixRefusal::ReadFault),
    }
}

/// What a repair starts from.
#[derive(Drop)]
pub struct Start {
    pub found: Found,
    pub course: Course,
}

// Finds the two files, and begins to repair the image. No file changes.
pub fn begin<D: Desk>(
    alloc: Global,
    desk: &mut D,
    image: &str,
    ecc: &str,
) -> Result<Start, FixRefusal>
    ensures started { IfOk result (λ start. IsStarted image.now ecc.now
        (D.state desk.old) (D.state desk.new) start.found start.course) }
    ensures refused { IfErr result (λ why. (cut : _) → IsFix image.now ecc.now cut
        (D.state desk.old) (D.state desk.new) (Err why)) }
{
    match find(alloc, desk, image, ecc) {
        Ok(found) => {
            match Course::new(alloc, &found, desk.read_faults(), desk.write_faults()) {
                Ok(course) => Ok(Start { found, course }),
                Err(_) => Err(FixRefusal::OutOfMemory),
            }
        }
        Err(why) => Err(why),
    }
}
