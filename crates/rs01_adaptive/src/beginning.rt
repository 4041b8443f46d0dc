//! What a reading by turns begins with.
ghost use Rattle.std.specs.Prelude.{◌≡◌, IfOk};
ghost use Rattle.rs01_linear.specs.Report.{IsFresh};
ghost use Rattle.rs01_reader.specs.Settled.{IsShapeOf};
ghost use Rattle.rs01_states.specs.Sparing.{layer_count};
ghost use Rattle.rs01_adaptive.specs.Beginning.{IsBegun};

use crate::noting::Noted;
use rs01_erase::CorrectTask;
use rs01_layers::Shape;
use rs01_linear::{Fate, Medium};
use rs01_outside::Desk;
use rs01_reader::Course;
use std::alloc::{AllocError, Global};

/// What a reading is begun with.
#[derive(Drop)]
pub struct Start {
    pub task: CorrectTask,
    pub course: Course,
    pub noted: Noted,
}

// The shape of the error correction file, where one is given.
fn shape_of(medium: &Medium) -> Option<Shape>
    ensures { IsShapeOf medium.now.ecc result }
{
    match medium.ecc() {
        Some(ecc) => Some(ecc.shape()),
        None => None,
    }
}

// How many layers there are: none without a shape.
fn layers_in(shape: &Option<Shape>) -> u32
    ensures { result ≡ layer_count shape.now }
{
    match shape {
        Some(shape) => shape.layers(),
        None => 0,
    }
}

// The task that corrects layers of a medium.
fn task_for(alloc: Global, medium: &Medium) -> Result<CorrectTask, AllocError> {
    let parity = match medium.ecc() {
        Some(ecc) => ecc.shape().parity(),
        None => 8,
    };
    CorrectTask::new(alloc, parity)
}

// Begins to read a medium of whose sectors this is known.
pub fn begin<D: Desk>(
    alloc: Global,
    desk: &D,
    medium: &Medium,
    fates: Vec<Fate>,
) -> Result<Start, AllocError>
    requires fresh { IsFresh medium.now.extent.sectors fates.items }
    ensures { IfOk result (λ start. IsBegun medium.now fates.items (D.state desk.now)
        start.course start.noted) }
{
    let task = task_for(alloc, medium)?;
    let shape = shape_of(medium);
    let noted = Noted::new(alloc, layers_in(&shape))?;
    let read_faults = desk.read_faults();
    let write_faults = desk.write_faults();
    let course = Course::new(alloc, shape, fates, read_faults, write_faults)?;
    Ok(Start {
        task,
        course,
        noted,
    })
}
