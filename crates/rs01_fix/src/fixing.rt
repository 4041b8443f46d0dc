//! Repairing an image by its error correction file, on one thread and by several.
ghost use Rattle.std.specs.Prelude.{◌≡◌, ◌≢◌, ◌≤◌, List, OnOk, false, is_err, ℕ};
ghost use Rattle.rs01_outside.specs.DeskState.{DeskState, OnlyChanges};
ghost use Rattle.rs01_repair.specs.Finding.{Sources, layers_in};
ghost use Rattle.rs01_fix.specs.Fixing.{IsFix, IsWorked};
ghost use Rattle.rs01_fix.specs.Steps.{HasRoom, IsRepaired, IsUnderway, Leads};

use crate::course::Course;
use crate::engine::{work_windows, work_windows_one};
use crate::find::{Start, begin};
use crate::refusal::FixRefusal;
use crate::told::{is_cut, report};
use rs01_outside::{Desk, Failed, Gate};
use rs01_repair::Found;
use rs01_report::FixReport;
use std::alloc::Global;
use std::sync::Wait;
use std::thread::Threads;

// Cuts the bytes past the image, where they are to be cut and there were some.
fn cut_surplus<D: Desk>(desk: &mut D, name: &str, found: &Found, cut: bool) -> Result<(), Failed>
    ensures changes { OnlyChanges name.now (D.state desk.old) (D.state desk.new) (is_err result) }
    ensures cut { (was : Sources found.now)
        → Leads (IsRepaired found.now was false) (IsRepaired found.now was cut)
        (IsUnderway found.now was cut) name.now (D.state desk.old) (D.state desk.new) result }
{
    if is_cut(found, cut) {
        desk.cut(name, found.ecc.extent().image_len())?;
    }
    Ok(())
}

// Ends a repair whose windows were worked: tells of the image, and cuts the bytes past it.
fn finish<D: Desk>(
    alloc: Global,
    desk: &mut D,
    image: &str,
    found: &Found,
    cut: bool,
    course: Course,
    worked: Result<(), FixRefusal>,
) -> Result<FixReport, FixRefusal>
    requires { OnOk worked (HasRoom found.now (layers_in found.now) course.repairs) }
    ensures { (ecc : List ℕ) (old : DeskState)
        → IsWorked image.now ecc old (D.state desk.old) found.now course worked
        → IsFix image.now ecc cut old (D.state desk.new) result }
{
    match worked {
        Ok(()) => {
            let Ok(told) = report(alloc, found, course.repairs, cut) else {
                return Err(FixRefusal::OutOfMemory);
            };
            match cut_surplus(desk, image, found, cut) {
                Ok(()) => Ok(told),
                Err(Failed) => Err(FixRefusal::WriteFault),
            }
        }
        Err(why) => Err(why),
    }
}

/// Repairs the image under the name `image` by the error correction file under `ecc`, on the caller's thread. With `cut`
/// the bytes past the image are cut.
///
/// Up to 16 neighbouring layers are read at a time, each of their places by one call of the desk, and then settled: the
/// layers are taken in rising order, and in each its sectors. Memory is asked for one such window, and for some bytes
/// for each sector. A sector is absent where the file was too short for it at the start. Each sector that changes goes
/// out by one write of its own: the restored bytes of a layer that is restored, and the markers of the absent sectors of
/// one that isn't. The cut comes last. The refusals that come from the files are told in their order before anything is
/// written. No other file changes. After a fault or want of memory the image is on the way from the old to the fixed
/// one, so that it can be repaired again; a write fault comes only where the files don't forbid the work. Where the
/// error correction file is intact, the image comes back.
pub fn fix_one<D: Desk>(
    alloc: Global,
    desk: &mut D,
    image: &str,
    ecc: &str,
    cut: bool,
) -> Result<FixReport, FixRefusal>
    requires { image.now ≢ ecc.now }
    ensures { IsFix image.now ecc.now cut (D.state desk.old) (D.state desk.new) result }
{
    match begin(alloc, desk, image, ecc) {
        Ok(Start { found, course }) => {
            let mut course = course;
            let worked = work_windows_one(alloc, desk, image, ecc, &found, &mut course);
            finish(alloc, desk, image, &found, cut, course, worked)
        }
        Err(why) => Err(why),
    }
}

/// The same by so many workers, of which the caller is the first: files, report and refusals are those of `fix_one`.
///
/// The caller alone uses the desk. The others correct the layers of a window while the next ones are handed over. Nothing
/// is said of whether it returns, since it waits for the others.
pub fn fix<R: Threads + Wait + Sync, D: Desk, G: Gate>(
    rt: &R,
    alloc: Global,
    desk: &mut D,
    image: &str,
    ecc: &str,
    cut: bool,
    workers: u32,
    gate: &G,
) -> Result<FixReport, FixRefusal>
    requires differ { image.now ≢ ecc.now }
    requires workers { (1 ≤ workers) × (workers ≤ 32) }
    ensures { IsFix image.now ecc.now cut (D.state desk.old) (D.state desk.new) result }
{
    match begin(alloc, desk, image, ecc) {
        Ok(Start { found, course }) => {
            let mut course = course;
            let worked = work_windows(
                rt,
                alloc,
                desk,
                image,
                ecc,
                &found,
                &mut course,
                workers,
                gate,
            );
            finish(alloc, desk, image, &found, cut, course, worked)
        }
        Err(why) => Err(why),
    }
}
