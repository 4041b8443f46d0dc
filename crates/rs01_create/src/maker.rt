//! Making a file window by window.
ghost use Rattle.std.proofs.Common.{rules, ◌∙◌};
ghost use Rattle.std.specs.Prelude.{◌≡◌, ◌-◌, ◌≤◌, refl};
ghost use Rattle.std.specs.List.{range_with_len};
ghost use Rattle.rs01_create.specs.Making.{AtWork, Fits, HasStopped, IsDone, IsFinished, Leads, layers, moment};
ghost use Rattle.rs01_create.specs.Leading.{leads-on, leads-same, left-falls};

use crate::course::{Course, Faults};
use crate::giving::next_layer;
use crate::plan::Plan;
use crate::refusal::CreateRefusal;
use crate::settling::settle_window;
use rs01_encode::EncodeTask;
use rs01_layers::LayerInput;
use rs01_outside::Desk;
use rs01_workers::{Filler, Results, Windows};
use std::alloc::Global;

/// The making of a file: it gives the inputs of the image's layers, and puts their parity into the file.
#[derive(Drop)]
pub struct Maker<'a, D: Desk> {
    pub desk: &'a mut D,
    pub image: &'a str,
    pub ecc: &'a str,
    pub plan: Plan,
    pub kept: Faults,
    pub course: &'a mut Course,
}

impl<'a, D: Desk> Filler for Maker<'a, D> {
    type Stop = CreateRefusal;

    ghost gave = { λ m. range_with_len m.course.now.first (m.course.now.next - m.course.now.first) };

    ghost fits = { λ m. Fits (moment (D.state m.desk.now) m.image.now m.ecc.now m.plan m.kept m.course.now) };

    ghost leads = { λ f g. (g.desk.ghost_name ≡ f.desk.ghost_name) × (g.course.ghost_name ≡ f.course.ghost_name)
        × Leads (moment (D.state f.desk.now) f.image.now f.ecc.now f.plan f.kept f.course.now)
        (moment (D.state g.desk.now) g.image.now g.ecc.now g.plan g.kept g.course.now) };

    ghost going = { λ m. AtWork (moment (D.state m.desk.now) m.image.now m.ecc.now m.plan m.kept m.course.now) };

    ghost done = { λ m. IsDone (moment (D.state m.desk.now) m.image.now m.ecc.now m.plan m.kept m.course.now) };

    ghost halted = { λ m. HasStopped (moment (D.state m.desk.now) m.image.now m.ecc.now m.plan m.kept m.course.now) };

    ghost leads_same = { λ f. (refl, refl, leads-same _) };

    ghost leads_on = { λ f g h a b. (b.0 ∙ a.0, b.1 ∙ a.1, leads-on _ _ _ a.2 b.2) };

    fn next(&mut self, alloc: Global) -> Result<Option<LayerInput>, CreateRefusal> {
        next_layer(alloc, self.desk, self.image, &self.plan, self.course)
    }
}

impl<'a, D: Desk> Windows<EncodeTask> for Maker<'a, D> {
    ghost left = { λ m. layers m.plan - m.course.now.first };

    ghost finished = { λ m. IsFinished (moment (D.state m.desk.now) m.image.now m.ecc.now m.plan m.kept m.course.now) };

    ghost fit = { λ m input fits. tt };

    ghost no_more = { λ f g leads. left-falls _ _ leads.2 };

    fn settle(&mut self, alloc: Global, results: Results) -> Result<(), CreateRefusal> {
        settle_window(
            alloc,
            self.desk,
            self.image,
            self.ecc,
            &self.plan,
            &self.kept,
            self.course,
            &results,
        )
    }
}
