//! A repair as windows of layers: what it reads of them, and how it settles them.
ghost use Rattle.std.proofs.Common.{◌∙◌, arith, refl, ap, subst};
ghost use Rattle.std.specs.Prelude.{◌≡◌, ◌-◌, ℕ};
ghost use Rattle.rs01_repair.specs.Finding.{layers_in};
ghost use Rattle.rs01_repair.specs.Given.{Fits};
ghost use Rattle.rs01_fix.specs.Windows.{GoesOn, HasStopped, IsDone, IsFinished, IsGoing, given};
ghost use Rattle.rs01_fix.specs.GoingOn.{goes_on, goes_same};

use crate::course::Course;
use crate::refusal::FixRefusal;
use crate::repair::{next_layer, settle_window};
use rs01_erase::CorrectTask;
use rs01_layers::LayerInput;
use rs01_outside::Desk;
use rs01_repair::{Found, Judging};
use rs01_workers::{Filler, Results, Windows};
use std::alloc::Global;

/// A repair of the image under a name by the error correction file under another. It borrows the desk while layers are
/// given and settled.
#[derive(Drop)]
pub struct Repairing<'a, 'b, D: Desk, J: Judging> {
    pub desk: &'a mut D,
    pub image: &'a str,
    pub ecc: &'a str,
    pub found: &'a Found,
    pub judging: &'b J,
    pub course: &'a mut Course,
}

impl<'a, 'b, D: Desk, J: Judging> Filler for Repairing<'a, 'b, D, J> {
    type Stop = FixRefusal;

    ghost gave = { λ f. given f.course.now };

    ghost fits = { λ f input. Fits f.found.now f.image.now f.ecc.now (D.state f.desk.now) input };

    ghost leads = { λ f g. (g.desk.ghost_name ≡ f.desk.ghost_name)
        × (g.course.ghost_name ≡ f.course.ghost_name) × (g.found.now ≡ f.found.now)
        × (g.image.now ≡ f.image.now) × (g.ecc.now ≡ f.ecc.now)
        × GoesOn f.found.now f.image.now f.ecc.now (D.state f.desk.now) f.course.now
        (D.state g.desk.now) g.course.now };

    ghost going = { λ f. IsGoing f.found.now f.image.now f.ecc.now
        (D.state f.desk.now) f.course.now };

    ghost done = { λ f. IsDone f.found.now f.image.now f.ecc.now
        (D.state f.desk.now) f.course.now };

    ghost halted = { λ f why. HasStopped (D.state f.desk.now) f.course.now why };

    ghost leads_same = { λ f. (
      refl,
      refl,
      refl,
      refl,
      refl,
      goes_same f.found.now f.image.now
          f.ecc.now (D.state f.desk.now) f.course.now,
    ) };

    ghost leads_on = { λ f g h a b. (
      b.0 ∙ a.0,
      b.1 ∙ a.1,
      b.2 ∙ a.2,
      b.3 ∙ a.3,
      b.4 ∙ a.4,
      goes_on f.found.now g.found.now f.image.now g.image.now f.ecc.now g.ecc.now a.2 a.3 a.4
          (D.state f.desk.now) f.course.now (D.state g.desk.now) g.course.now
          (D.state h.desk.now) h.course.now a.5 b.5,
    ) };

    fn next(&mut self, alloc: Global) -> Result<Option<LayerInput>, FixRefusal> {
        next_layer(
            alloc,
            self.desk,
            self.image,
            self.ecc,
            self.found,
            self.judging,
            self.course,
        )
    }
}

impl<'a, 'b, D: Desk, J: Judging> Windows<CorrectTask> for Repairing<'a, 'b, D, J> {
    ghost left = { λ f. layers_in f.found.now - f.course.now.start };

    ghost finished = { λ f. IsFinished f.found.now (D.state f.desk.now) f.course.now };

    ghost fit = { λ f input fits. fits.shape.parity };

    ghost no_more = { λ f g leads. Prim.omega (arith, leads.5.start_later, ap layers_in leads.2) };

    fn settle(&mut self, alloc: Global, results: Results) -> Result<(), FixRefusal> {
        settle_window(
            alloc,
            self.desk,
            self.image,
            self.ecc,
            self.found,
            self.course,
            &results,
        )
    }
}
