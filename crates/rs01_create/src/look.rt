//! Looking at an image: whether it is there, can be protected, and what it holds.
ghost use Rattle.std.specs.Prelude.{◌≡◌, ◌≢◌, ◌<◌, ◌≤◌, Err, IfOk};
ghost use Rattle.rs01_outside.specs.DeskState.{OnlyReads};
ghost use Rattle.rs01_create.specs.Answer.{is_read_fault};
ghost use Rattle.rs01_create.specs.Looking.{HasSums, IsMeasured, LooksAt};

use crate::digesting::Digesting;
use crate::found::Found;
use crate::plan::Plan;
use crate::refusal::CreateRefusal;
use crate::survey::survey_image;
use md5::Digest;
use rs01_layers::{Extent, Shape};
use rs01_outside::{Desk, Failed};
use std::alloc::Global;

// How far an image of this size goes, and the shape of its file.
fn measure(size: u64, parity: u32) -> Result<Plan, CreateRefusal>
    requires least { 8 ≤ parity }
    requires most { parity ≤ 100 }
    ensures { IsMeasured size parity result }
{
    if size == 0 {
        return Err(CreateRefusal::EmptyImage);
    }
    let sectors = (size - 1) / 2048 + 1;
    if sectors > u64::from(Shape::MOST_SECTORS) {
        return Err(CreateRefusal::TooManySectors(sectors));
    }
    match (Extent::of_len(size), Shape::new(sectors as u32, parity)) {
        (Some(extent), Ok(shape)) => Ok(Plan { extent, shape }),
        _ => unreachable!(),
    }
}

// Looks at all of an image that can be protected, or tells why it can't. No file changes.
pub fn look<D: Desk, G: Digesting>(
    alloc: Global,
    desk: &mut D,
    name: &str,
    parity: u32,
    digesting: &G,
) -> Result<Found, CreateRefusal>
    requires least { 8 ≤ parity }
    requires most { parity ≤ 100 }
    ensures reads { OnlyReads (D.state desk.old) (D.state desk.new) (is_read_fault result) }
    ensures answer { LooksAt (D.state desk.old) name.now result }
    ensures sums { HasSums (D.state desk.old) name.now result }
    ensures parity { IfOk result (λ found. found.plan.shape.parity ≡ parity) }
    ensures many { (n : _) → result ≡ Err (CreateRefusal.TooManySectors n) → 16777215 < n }
    ensures never { result ≢ Err CreateRefusal.WriteFault }
{
    let size = match desk.size(name) {
        Ok(Some(size)) => size,
        Ok(None) => return Err(CreateRefusal::NoImage),
        Err(Failed) => return Err(CreateRefusal::ReadFault),
    };
    let plan = measure(size, parity)?;
    let seen = survey_image(alloc, desk, name, size, plan.extent, digesting)?;
    match seen.noted.marked {
        Some(sector) => Err(CreateRefusal::Marker(sector)),
        None => {
            let image_sum = seen.hasher.finalize();
            let fingerprint = seen.noted.fingerprint;
            Ok(Found {
                plan,
                sums: seen.noted.sums,
                image_sum,
                fingerprint,
            })
        }
    }
}
