//! What is done before the layers are worked: looking at the image, and beginning its file.
ghost use Rattle.std.specs.Prelude.{◌≡◌, ◌≢◌, ◌≤◌, Err, IfErr, IfOk};
ghost use Rattle.rs01_create.specs.Creating.{IsCreate, IsStarted};

use crate::beginning::begin;
use crate::course::Course;
use crate::digesting::Digesting;
use crate::found::Found;
use crate::look::look;
use crate::refusal::CreateRefusal;
use rs01_encode::EncodeTask;
use rs01_outside::{Desk, Failed};
use std::alloc::Global;

/// What the work on the layers starts from.
#[derive(Drop)]
pub struct Start {
    pub found: Found,
    pub task: EncodeTask,
    pub course: Course,
}

// Lets the checksums go, which stand in the file now: of a large image they are many.
fn let_go(alloc: Global, found: Found) -> Found
    ensures plan { result.plan ≡ found.plan }
    ensures image_sum { result.image_sum ≡ found.image_sum }
    ensures fingerprint { result.fingerprint ≡ found.fingerprint }
{
    let Found {
        plan,
        sums,
        image_sum,
        fingerprint,
    } = found;
    drop(sums);
    Found {
        plan,
        sums: Vec::new(alloc),
        image_sum,
        fingerprint,
    }
}

// Looks at an image, and begins its file.
pub fn look_and_begin<D: Desk, G: Digesting>(
    alloc: Global,
    desk: &mut D,
    image: &str,
    ecc: &str,
    parity: u32,
    digesting: &G,
) -> Result<Start, CreateRefusal>
    requires differ { image.now ≢ ecc.now }
    requires parity { (8 ≤ parity) × (parity ≤ 100) }
    ensures started { IfOk result (λ start. IsStarted image.now ecc.now parity
        (D.state desk.old) (D.state desk.new) start.found start.course) }
    ensures refused { IfErr result (λ why. IsCreate image.now ecc.now parity
        (D.state desk.old) (D.state desk.new) (Err why)) }
{
    match look(alloc, desk, image, parity, digesting) {
        Ok(found) => {
            let Ok(task) = EncodeTask::new(alloc, parity) else {
                return Err(CreateRefusal::OutOfMemory);
            };
            match begin(alloc, desk, ecc, &found.sums) {
                Ok(course) => Ok(Start {
                    found: let_go(alloc, found),
                    task,
                    course,
                }),
                Err(Failed) => Err(CreateRefusal::WriteFault),
            }
        }
        Err(why) => Err(why),
    }
}
