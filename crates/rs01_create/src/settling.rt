//! Putting the parity of a window's layers into the file.
ghost use Rattle.std.specs.Prelude.{◌≡◌, ◌<◌, ◌++◌, ℕ, IfErr, IfOk, IsSome, OnOk, length, slice_index_or};
ghost use Rattle.std.specs.List.{flat_map};
ghost use Rattle.rs01_layers.specs.Outs.{parity_in};
ghost use Rattle.rs01_create.specs.Making.{AtWork, HasStopped, IsWorked, Leads, Settles, moment};
ghost use Rattle.rs01_create.specs.Settling.{AllParity, bytes_in};

use crate::course::{Course, Faults};
use crate::plan::Plan;
use crate::refusal::CreateRefusal;
use md5::Digest;
use rs01_layers::LayerOut;
use rs01_outside::{Desk, Failed};
use rs01_workers::Results;
use std::alloc::{AllocError, Global};

// Puts the parity of a layer behind what is there.
fn push_out(out: &LayerOut, bytes: &mut Vec<u8>) -> Result<(), AllocError>
    requires { IsSome (parity_in out.now) }
    ensures { OnOk result (bytes.new.items ≡ bytes.old.items ++ bytes_in out.now) }
{
    match out {
        LayerOut::Parity(parity) => {
            bytes.extend_from_slice(parity.items())?;
            Ok(())
        }
        _ => unreachable!(),
    }
}

// The parity of a window's layers.
fn parity_of(alloc: Global, plan: &Plan, results: &Results) -> Result<Vec<u8>, AllocError>
    requires { AllParity results.now.outs }
    ensures { IfOk result (λ bytes. bytes.items ≡ flat_map bytes_in results.now.outs) }
{
    let room = 2048 * plan.shape.parity() as usize * results.len() as usize;
    let mut bytes = Vec::with_capacity(alloc, room)?;
    for i in 0..results.len() {
        push_out(results.out(i), &mut bytes)?;
    }
    Ok(bytes)
}

// Puts the parity of a window's layers behind what stands in the file, by one write.
pub fn settle_window<D: Desk>(
    alloc: Global,
    desk: &mut D,
    image: &str,
    ecc: &str,
    plan: &Plan,
    kept: &Faults,
    course: &mut Course,
    results: &Results,
) -> Result<(), CreateRefusal>
    requires work { AtWork
        (moment (D.state desk.old) image.now ecc.now plan.now kept.now course.old) }
    requires worked { IsWorked
        (moment (D.state desk.old) image.now ecc.now plan.now kept.now course.old) results.now }
    ensures leads { Leads
        (moment (D.state desk.old) image.now ecc.now plan.now kept.now course.old)
        (moment (D.state desk.new) image.now ecc.now plan.now kept.now course.new) }
    ensures settles { OnOk result (Settles
        (moment (D.state desk.old) image.now ecc.now plan.now kept.now course.old)
        (moment (D.state desk.new) image.now ecc.now plan.now kept.now course.new)) }
    ensures stops { IfErr result (HasStopped
        (moment (D.state desk.new) image.now ecc.now plan.now kept.now course.new)) }
{
    if course.first == course.next {
        return Ok(());
    }
    let parity = parity_of(alloc, plan, results)?;
    let at = plan.shape.parity_offset(course.first, 0);
    match desk.write_at(ecc, at, &parity) {
        Ok(()) => {
            course.hasher.update(&parity);
            course.first = course.next;
            Ok(())
        }
        Err(Failed) => Err(CreateRefusal::WriteFault),
    }
}
