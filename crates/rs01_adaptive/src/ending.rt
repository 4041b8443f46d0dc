//! What a reading by turns comes to.
ghost use Rattle.std.specs.Prelude.{◌≡◌, ◌<◌, ◌^◌, length};
ghost use Rattle.rs01_linear.specs.Racks.{seen_by};
ghost use Rattle.rs01_adaptive.specs.Beginning.{Finishes};
ghost use Rattle.rs01_adaptive.specs.Preparing.{EndsAs, refusal_by};

use crate::noting::Noted;
use crate::telling::told_of;
use rs01_linear::{ReadRefusal, asked_since};
use rs01_outside::Drive;
use rs01_rack::Rack;
use rs01_reader::{Course, Setup, Stop};
use rs01_report::ReadReport;
use rs01_workers::WindowStop;
use std::alloc::Global;

// How a stop is told.
fn refusal_by(why: Stop) -> ReadRefusal
    ensures { result ≡ refusal_by why }
{
    match why {
        Stop::ReadFault => ReadRefusal::ReadFault,
        Stop::WriteFault => ReadRefusal::WriteFault,
        Stop::OutOfMemory => ReadRefusal::OutOfMemory,
    }
}

// How a reading ended, by how that of its windows did.
fn ended_as(ended: Result<(), WindowStop<Stop>>) -> Result<(), ReadRefusal>
    ensures { EndsAs ended result }
{
    match ended {
        Ok(()) => Ok(()),
        Err(why) => Err(refusal_by(why.stop_or(Stop::OutOfMemory))),
    }
}

// Ends a reading whose windows were read, into an image file that had so many bytes, by a rack that had counted so many
// asks before.
pub fn finish(
    alloc: Global,
    rack: &Rack,
    setup: &Setup,
    size: u64,
    asks: u128,
    course: &Course,
    noted: &Noted,
    ended: Result<(), WindowStop<Stop>>,
) -> Result<ReadReport, ReadRefusal>
    requires { length course.now.fates < 2 ^ 32 }
    ensures { Finishes setup.now size asks course.now noted.now ended result
        (seen_by ⟦<dyn Drive as Drive>⟧ rack.now) }
{
    match ended_as(ended) {
        Ok(()) => {}
        Err(why) => return Err(why),
    }
    let asked = asked_since(asks, rack);
    let surplus = size.saturating_sub(setup.medium.extent.image_len());
    match told_of(alloc, course.fates(), noted, asked, surplus) {
        Ok(told) => Ok(told),
        Err(_) => Err(ReadRefusal::OutOfMemory),
    }
}
