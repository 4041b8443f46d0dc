//! Asking for sectors by turns.
ghost use Rattle.std.specs.Prelude.{◌≡◌, ◌*◌, ◌<◌, ◌≤◌, Some, is_err};
ghost use Rattle.rs01_outside.specs.DeskState.{OnlyChanges};
ghost use Rattle.rs01_linear.specs.Racks.{OnRack, seen_by};
ghost use Rattle.rs01_turns.specs.Moments.{IsReady};
ghost use Rattle.rs01_turns.specs.Turns.{next_sector};
ghost use Rattle.rs01_reader.specs.Settled.{Going, moment};
ghost use Rattle.rs01_reader.specs.Steps.{AsksNext, PutsSector, ReadsOn};

use crate::course::Course;
use crate::setup::Setup;
use crate::stop::Stop;
use rs01_layers::Extent;
use rs01_linear::{Asked, ask_sector};
use rs01_outside::{Desk, Drive, Failed};
use rs01_rack::Rack;

// Writes the sector's own bytes of a block at its place in the image file.
fn put_sector<D: Desk>(
    desk: &mut D,
    image: &str,
    extent: &Extent,
    sector: u32,
    block: &[u8; 2048],
) -> Result<(), Failed>
    requires { sector < extent.now.sectors }
    ensures only { OnlyChanges image.now (D.state desk.old) (D.state desk.new) (is_err result) }
    ensures put { PutsSector image.now extent.now sector block.now
        (D.state desk.old) (D.state desk.new) result }
{
    let length = extent.length(sector) as usize;
    desk.write_at(image, 2048 * u64::from(sector), &block[..length])
}

// Asks for the sector that is next, marks it, and writes it where it was read. Tells the layer that came within its bound
// by this, if one did.
fn ask_next<D: Desk>(
    rack: &mut Rack,
    desk: &mut D,
    course: &mut Course,
    setup: &Setup,
    sector: u32,
) -> Result<Option<u32>, Stop>
    requires next { next_sector course.old.states course.old.place ≡ Some sector }
    requires tries { 1 ≤ setup.now.tries }
    requires ready { IsReady (moment setup.now course.old
        (seen_by ⟦<dyn Drive as Drive>⟧ rack.old) (D.state desk.old)) }
    ensures { OnRack ⟦<dyn Drive as Drive>⟧ (AsksNext setup.now sector course.old course.new
        (D.state desk.old) (D.state desk.new) result) rack.old rack.new }
{
    let extent = setup.medium.extent();
    let mut block = [0u8; 2048];
    let asked = ask_sector(
        rack,
        &extent,
        setup.medium.sums(),
        sector,
        setup.tries,
        &mut block,
    );
    // The marks come before the write, so that they stand even where it fails.
    let settled = course.mark(sector, asked);
    match asked {
        Asked::Read => match put_sector(desk, setup.image, &extent, sector, &block) {
            Ok(()) => Ok(settled),
            Err(Failed) => Err(Stop::WriteFault),
        },
        Asked::Unreadable => Ok(settled),
        Asked::Altered => Ok(settled),
    }
}

// Asks for sectors until a layer comes within its bound, or no sector is unread.
pub fn read_on<D: Desk>(
    rack: &mut Rack,
    desk: &mut D,
    course: &mut Course,
    setup: &Setup,
) -> Result<Option<u32>, Stop>
    requires { Going (moment setup.now course.old
        (seen_by ⟦<dyn Drive as Drive>⟧ rack.old) (D.state desk.old)) }
    ensures { OnRack ⟦<dyn Drive as Drive>⟧ (ReadsOn setup.now course.old course.new
        (D.state desk.old) (D.state desk.new) result) rack.old rack.new }
{
    loop {
        match course.next_sector() {
            None => return Ok(None),
            Some(sector) => match ask_next(rack, desk, course, setup, sector) {
                Ok(None) => {}
                Ok(Some(layer)) => return Ok(Some(layer)),
                Err(stop) => return Err(stop),
            },
        }
    }
}
