//! Giving the inputs of layers, whose blocks are read a window ahead.
ghost use Rattle.std.specs.Prelude.{◌≡◌, ◌+◌, ◌-◌, ◌*◌, ◌<◌, All, IfErr, IfNone, IfOk, IfSome, OnOk, false, length};
ghost use Rattle.rs01_outside.specs.DeskState.{OnlyReads};
ghost use Rattle.rs01_ecchead.specs.Walked.{is_walk_fault};
ghost use Rattle.rs01_create.specs.Answer.{is_read_fault};
ghost use Rattle.rs01_create.specs.Giving.{GivesInput, IsOfReading};
ghost use Rattle.rs01_create.specs.Making.{IsAhead, layers};

use crate::course::Course;
use crate::plan::Plan;
use crate::refusal::CreateRefusal;
use crate::window::read_window;
use rs01_ecchead::WalkFault;
use rs01_layers::{Bytes, Flags, LayerInput, SumList};
use rs01_outside::Desk;
use std::alloc::{AllocError, Global};

// How many layers are read at once: few enough that others encode them while the next ones of the same window are read, and
// so many that 64 MiB take no more than 3,000 calls of the system.
const MOST: u32 = 32;

// Reads the blocks of the next layers from `next` on, where none are left of those that were read.
fn read_ahead<D: Desk>(
    alloc: Global,
    desk: &mut D,
    image: &str,
    plan: &Plan,
    next: u32,
    window: &mut Vec<Vec<u8>>,
) -> Result<(), WalkFault>
    requires below { next < layers plan.now }
    requires ahead { IsAhead (D.state desk.old) image.now plan.now next window.old.items }
    ensures reads { OnlyReads (D.state desk.old) (D.state desk.new) (is_walk_fault result) }
    ensures some { OnOk result (0 < length window.new.items) }
    ensures ahead { OnOk result
        (IsAhead (D.state desk.new) image.now plan.now next window.new.items) }
{
    if window.is_empty() {
        let count = (plan.shape.layers() - next).min(MOST);
        *window = read_window(alloc, desk, image, plan, next, count)?;
    }
    Ok(())
}

// What encoding is given of a layer: its blocks. No place is erased, and no checksum is looked at.
fn layer_input(
    alloc: Global,
    plan: &Plan,
    layer: u32,
    blocks: Vec<u8>,
) -> Result<LayerInput, AllocError>
    requires { length blocks.items ≡ 2048 * (255 - plan.now.shape.parity) }
    ensures layer { IfOk result (λ input. input.layer ≡ layer) }
    ensures parity { IfOk result (λ input. input.parity_count ≡ plan.now.shape.parity) }
    ensures flags { IfOk result (λ input. All (λ flag. flag ≡ false) input.erased) }
    ensures blocks { IfOk result (λ input. input.data_ ≡ blocks.items) }
{
    let places = plan.shape.data() as usize;
    let erased = vec![in alloc; false; places]?;
    let sums = vec![in alloc; 0u32; places]?;
    Ok(LayerInput {
        layer,
        parity_count: plan.shape.parity(),
        data_: Bytes::of(blocks),
        erased: Flags::of(erased),
        sums: SumList::of(sums),
        parity: Bytes::of(Vec::new(alloc)),
    })
}

// The input of the next layer, or `None` where the last one was given.
pub fn next_layer<D: Desk>(
    alloc: Global,
    desk: &mut D,
    image: &str,
    plan: &Plan,
    course: &mut Course,
) -> Result<Option<LayerInput>, CreateRefusal>
    requires { let window = course.old.window.items in
        IsAhead (D.state desk.old) image.now plan.now course.old.next window }
    ensures reads { OnlyReads (D.state desk.old) (D.state desk.new) (is_read_fault result) }
    ensures kept { (course.new.first ≡ course.old.first)
        × (course.new.hasher ≡ course.old.hasher) }
    ensures given { IfOk result (λ given. IfSome given
        (GivesInput (D.state desk.new) image.now plan.now course.old course.new)) }
    ensures none { IfOk result (λ given. IfNone given
        ((course.new ≡ course.old) × (course.old.next ≡ layers plan.now))) }
    ensures stops { IfErr result
        (λ why. IsOfReading why × (course.new.next ≡ course.old.next)) }
{
    if course.next == plan.shape.layers() {
        return Ok(None);
    }
    read_ahead(alloc, desk, image, plan, course.next, &mut course.window)?;
    let Some(blocks) = course.window.pop() else {
        unreachable!()
    };
    let input = layer_input(alloc, plan, course.next, blocks)?;
    course.next += 1;
    Ok(Some(input))
}
