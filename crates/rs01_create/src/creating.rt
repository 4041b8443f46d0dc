//! Making the error correction file of an image, on one thread and by several.
ghost use Rattle.std.specs.Prelude.{◌≢◌, ◌≤◌, List, ℕ};
ghost use Rattle.rs01_outside.specs.DeskState.{DeskState};
ghost use Rattle.rs01_create.specs.Creating.{IsCreate, IsWorked};

use crate::adding::{add_layers, add_layers_one};
use crate::course::Course;
use crate::digesting::{Beside, InTurn};
use crate::ending::end_file;
use crate::found::Found;
use crate::refusal::CreateRefusal;
use crate::starting::{Start, look_and_begin};
use rs01_outside::{Desk, Failed, Gate};
use rs01_report::CreateReport;
use std::alloc::Global;
use std::sync::Wait;
use std::thread::Threads;

// Ends a file whose layers were worked, and tells of it.
fn finish<D: Desk>(
    desk: &mut D,
    ecc: &str,
    found: &Found,
    course: Course,
    added: Result<(), CreateRefusal>,
) -> Result<CreateReport, CreateRefusal>
    ensures { (image : List ℕ) (parity : ℕ) (old : DeskState)
        → IsWorked image ecc.now parity old (D.state desk.old) found.now course added
        → IsCreate image ecc.now parity old (D.state desk.new) result }
{
    match added {
        Ok(()) => match end_file(desk, ecc, found, course.hasher) {
            Ok(report) => Ok(report),
            Err(Failed) => Err(CreateRefusal::WriteFault),
        },
        Err(why) => Err(why),
    }
}

/// Makes the error correction file of an image, with `parity` parity bytes in a codeword of 255, under the name `ecc`, on
/// the caller's thread.
///
/// The image is read twice: once in order, for its checksums and digests, and then 32 layers at a time.
/// What is held at once is bounded by a window, but for four bytes a sector. The refusals that come from the image are
/// told in their order before anything is written, and then no file has changed. Then the name is made, 4096 zeros are
/// written, then the body, and the header last. No other file changes. After a fault or want of memory the file under
/// `ecc` is as before, or its first 4096 bytes are zeros as far as they are there, or they begin as the header does and
/// are zeros then. Such a file isn't to be used: where the last write broke off inside the header it can look whole, with
/// a wrong number of bytes in the last sector.
pub fn create_one<D: Desk>(
    alloc: Global,
    desk: &mut D,
    image: &str,
    ecc: &str,
    parity: u32,
) -> Result<CreateReport, CreateRefusal>
    requires differ { image.now ≢ ecc.now }
    requires parity { (8 ≤ parity) × (parity ≤ 100) }
    ensures { IsCreate image.now ecc.now parity (D.state desk.old) (D.state desk.new) result }
{
    match look_and_begin(alloc, desk, image, ecc, parity, &InTurn) {
        Ok(
            Start {
                found,
                task,
                course,
            },
        ) => {
            let mut course = course;
            let added = add_layers_one(alloc, desk, image, ecc, &found.plan, &task, &mut course);
            finish(desk, ecc, &found, course, added)
        }
        Err(why) => Err(why),
    }
}

/// The same by so many workers, of which the caller is the first: file, report and refusals are those of `create_one`.
///
/// The caller alone uses the desk. The others encode the layers of a window while the next ones are handed over. Nothing
/// is said of whether it returns, since it waits for the others.
pub fn create<R: Threads + Wait + Sync, D: Desk, G: Gate>(
    rt: &R,
    alloc: Global,
    desk: &mut D,
    image: &str,
    ecc: &str,
    parity: u32,
    workers: u32,
    gate: &G,
) -> Result<CreateReport, CreateRefusal>
    requires differ { image.now ≢ ecc.now }
    requires parity { (8 ≤ parity) × (parity ≤ 100) }
    requires workers { (1 ≤ workers) × (workers ≤ 32) }
    ensures { IsCreate image.now ecc.now parity (D.state desk.old) (D.state desk.new) result }
{
    let digesting = Beside { rt, workers };
    match look_and_begin(alloc, desk, image, ecc, parity, &digesting) {
        Ok(
            Start {
                found,
                task,
                course,
            },
        ) => {
            let mut course = course;
            let plan = &found.plan;
            let added = add_layers(
                rt,
                alloc,
                desk,
                image,
                ecc,
                plan,
                &task,
                &mut course,
                workers,
                gate,
            );
            finish(desk, ecc, &found, course, added)
        }
        Err(why) => Err(why),
    }
}
