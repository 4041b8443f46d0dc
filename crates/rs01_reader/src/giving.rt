//! Giving the layers that are settled.
ghost use Rattle.std.specs.Prelude.{IfOk, IfErr};
ghost use Rattle.rs01_linear.specs.Racks.{OnRack, seen_by};
ghost use Rattle.rs01_outside.specs.DeskState.{OnlyReads};
ghost use Rattle.rs01_reader.specs.Inputs.{CanRead, IsBuiltBy};
ghost use Rattle.rs01_reader.specs.Settled.{Going, moment};
ghost use Rattle.rs01_reader.specs.Steps.{Gives, GivesLayer, IsOfReading, Picks, is_read_stop};

use crate::asking::read_on;
use crate::course::Course;
use crate::input::read_input;
use crate::setup::Setup;
use crate::stop::Stop;
use rs01_layers::LayerInput;
use rs01_outside::{Desk, Drive};
use rs01_rack::Rack;
use std::alloc::Global;

// The next settled layer: of those that are settled already the lowest, and else the first that becomes so.
fn next_layer<D: Desk>(
    rack: &mut Rack,
    desk: &mut D,
    course: &mut Course,
    setup: &Setup,
) -> Result<Option<u32>, Stop>
    requires { Going (moment setup.now course.old
        (seen_by ⟦<dyn Drive as Drive>⟧ rack.old) (D.state desk.old)) }
    ensures { OnRack ⟦<dyn Drive as Drive>⟧ (Picks setup.now course.old course.new
        (D.state desk.old) (D.state desk.new) result) rack.old rack.new }
{
    match course.next_settled() {
        Some(layer) => Ok(Some(layer)),
        None => match read_on(rack, desk, course, setup) {
            Ok(Some(layer)) => Ok(Some(layer)),
            Ok(None) => Ok(None),
            Err(stop) => Err(stop),
        },
    }
}

// Reads a settled layer back.
fn read_layer<D: Desk>(
    alloc: Global,
    desk: &mut D,
    course: &Course,
    setup: &Setup,
    layer: u32,
) -> Result<LayerInput, Stop>
    requires { CanRead setup.now course.now layer }
    ensures reads { OnlyReads (D.state desk.old) (D.state desk.new) (is_read_stop result) }
    ensures built { IfOk result (IsBuiltBy setup.now course.now (D.state desk.old) layer) }
    ensures cause { IfErr result IsOfReading }
{
    match (setup.medium.ecc(), setup.ecc) {
        (Some(ecc), Some(name)) => {
            Ok(read_input(alloc, desk, setup.image, name, ecc, course, layer)?)
        }
        _ => unreachable!(),
    }
}

// Reads a settled layer back, and notes that it was given.
fn give_layer<D: Desk>(
    alloc: Global,
    desk: &mut D,
    course: &mut Course,
    setup: &Setup,
    layer: u32,
) -> Result<LayerInput, Stop>
    requires { CanRead setup.now course.old layer }
    ensures reads { OnlyReads (D.state desk.old) (D.state desk.new) (is_read_stop result) }
    ensures gives { GivesLayer setup.now course.old course.new (D.state desk.old) layer result }
{
    let input = read_layer(alloc, desk, course, setup, layer)?;
    course.give(layer)?;
    Ok(input)
}

/// The next layer that is settled, as its correction is given it, or `None` where no sector is unread and each settled
/// layer was given.
///
/// Layers that were settled at the start come first, by rising number, and no sector is asked for before they are given.
/// Then sectors are asked for by turns until a layer comes within its bound. A sector that was read is written at once.
/// Without an error correction file no layer is given, and all sectors are asked for.
///
/// The input has the blocks of the layer's good sectors as the image file has them, a flag for each of its other sectors,
/// zeros at padding, and the recorded checksums and parity. Whatever the answer, the reader went on from one moment to the
/// other. After `None` or a stop it isn't asked again.
pub fn next_input<D: Desk>(
    alloc: Global,
    rack: &mut Rack,
    desk: &mut D,
    course: &mut Course,
    setup: &Setup,
) -> Result<Option<LayerInput>, Stop>
    requires { Going (moment setup.now course.old
        (seen_by ⟦<dyn Drive as Drive>⟧ rack.old) (D.state desk.old)) }
    ensures { OnRack ⟦<dyn Drive as Drive>⟧ (Gives setup.now course.old course.new
        (D.state desk.old) (D.state desk.new) result) rack.old rack.new }
{
    match next_layer(rack, desk, course, setup) {
        Ok(Some(layer)) => match give_layer(alloc, desk, course, setup, layer) {
            Ok(input) => Ok(Some(input)),
            Err(stop) => Err(stop),
        },
        Ok(None) => Ok(None),
        Err(stop) => Err(stop),
    }
}
