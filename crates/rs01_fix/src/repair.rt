//! Repairing the layers of an image, window by window.
ghost use Rattle.std.specs.Prelude.{◌≡◌, ◌≢◌, ◌-◌, [], IfErr, IfNone, IfOk, IfSome, OnOk, refl};
ghost use Rattle.rs01_layers.specs.declared.input.LayerInput.{LayerInput as InputValue};
ghost use Rattle.rs01_repair.specs.Finding.{layers_in};
ghost use Rattle.rs01_repair.specs.Given.{Fits};
ghost use Rattle.rs01_fix.specs.Outcome.{IsOfRepair, Works};
ghost use Rattle.rs01_fix.specs.Steps.{ByEcc, HasRoom, KeepsAll, RepairsLayers};
ghost use Rattle.rs01_fix.specs.Windows.{GivesLayer, GoesOn, HasStopped, IsDone, IsFinished, IsGoing, IsWindow, given};

use crate::course::Course;
use crate::refusal::FixRefusal;
use crate::window::{keep_window, put_window};
use rs01_layers::LayerInput;
use rs01_outside::{Desk, Failed};
use rs01_repair::{Batch, Found, Judging, next_input};
use rs01_workers::Results;
use std::alloc::Global;

// What correcting is given of the next layer, or `None` where none is left.
pub fn next_layer<D: Desk, J: Judging>(
    alloc: Global,
    desk: &mut D,
    image: &str,
    ecc: &str,
    found: &Found,
    judging: &J,
    course: &mut Course,
) -> Result<Option<LayerInput>, FixRefusal>
    requires { IsGoing found.now image.now ecc.now (D.state desk.old) course.old }
    ensures goes { GoesOn
        found.now image.now ecc.now (D.state desk.old) course.old (D.state desk.new) course.new }
    ensures kept { (input : InputValue) → Fits found.now image.now ecc.now (D.state desk.old) input
        → Fits found.now image.now ecc.now (D.state desk.new) input }
    ensures given { IfOk result (λ next. IfSome next (GivesLayer
        found.now image.now ecc.now (D.state desk.new) course.old course.new)) }
    ensures done { IfOk result (λ next. IfNone next ((given course.new ≡ given course.old)
        × IsDone found.now image.now ecc.now (D.state desk.new) course.new)) }
    ensures stopped { IfErr result (λ why. (given course.new ≡ given course.old)
        × HasStopped (D.state desk.new) course.new why) }
{
    match next_input(alloc, desk, image, ecc, found, judging, &mut course.batch) {
        Ok(next) => Ok(next),
        Err(why) => Err(FixRefusal::from(why)),
    }
}

// Settles a window: puts its layers in place by rising layer, and in each its sectors by rising place, and keeps what is
// told of them. Layers that were read before aren't used any more, so nothing is that was read before these writes.
pub fn settle_window<D: Desk>(
    alloc: Global,
    desk: &mut D,
    image: &str,
    ecc: &str,
    found: &Found,
    course: &mut Course,
    results: &Results,
) -> Result<(), FixRefusal>
    requires { IsWindow
        found.now image.now ecc.now (D.state desk.old) course.old results.now }
    ensures goes { GoesOn
        found.now image.now ecc.now (D.state desk.old) course.old (D.state desk.new) course.new }
    ensures going { OnOk result
        (IsGoing found.now image.now ecc.now (D.state desk.new) course.new) }
    ensures start { OnOk result (course.new.start ≡ course.old.batch.next) }
    ensures none { OnOk result (given course.new ≡ []) }
    ensures stopped { IfErr result (HasStopped (D.state desk.new) course.new) }
{
    course.whole = false;
    match put_window(desk, image, found, course.start, results) {
        Ok(()) => {
            keep_window(found, course.start, results, &mut course.repairs)?;
            course.start = course.batch.next;
            course.batch = Batch::new(alloc, course.start);
            course.whole = true;
            Ok(())
        }
        Err(Failed) => Err(FixRefusal::WriteFault),
    }
}
