//! A reading by turns as a source of settled layers that also takes their answers.
ghost use Rattle.std.proofs.Common.{◌∙◌};
ghost use Rattle.std.specs.Prelude.{◌≡◌, ◌↔◌, IsTrue, refl};
ghost use Rattle.rs01_outside.specs.Causes.{Rose};
ghost use Rattle.rs01_rack.specs.State.{rack_state};
ghost use Rattle.rs01_reader.specs.Settled.{Fits};
ghost use Rattle.rs01_adaptive.specs.Sights.{
  Along,
  FaultSince,
  IsFinished,
  IsOver,
  MayGoOn,
  StoppedBy,
  left_of,
  sight_of,
  window_layers,
};
ghost use Rattle.rs01_adaptive.specs.AlongLaws.{along_on, along_same, fits_task, no_more_left};

use crate::noting::Noted;
use crate::settling::settle_results;
use rs01_erase::CorrectTask;
use rs01_layers::LayerInput;
use rs01_outside::{Desk, Drive};
use rs01_rack::Rack;
use rs01_reader::{Course, Setup, Stop, next_input};
use rs01_workers::{Filler, Results, Windows};
use std::alloc::Global;
use std::marker::PhantomData;

// A reading that is under way: what it works on, and how many layers were given since answers were last taken. `B` is what a rack
// holds its drives by. The setup is lent too: it may have a name or none, and held by value it would leave open what becomes of
// what was lent beside it.
#[derive(Drop)]
pub struct Engine<'a, D: Desk, B> {
    pub rack: &'a mut Rack,
    pub desk: &'a mut D,
    pub course: &'a mut Course,
    pub noted: &'a mut Noted,
    pub setup: &'a Setup<'a>,
    pub window: u32,
    pub kind: PhantomData<B>,
}

// Whether a count rose, or stands at its last value.
fn rose(before: u64, now: u64) -> bool
    ensures { IsTrue result ↔ Rose before now }
{
    before < now || now == u64::MAX
}

// Whether a fault of a file came since the counts were so, and which.
fn fault_since<D: Desk>(desk: &D, read_faults: u64, write_faults: u64) -> Option<Stop>
    ensures { FaultSince read_faults write_faults (D.state desk.now) result }
{
    if rose(write_faults, desk.write_faults()) {
        return Some(Stop::WriteFault);
    }
    if rose(read_faults, desk.read_faults()) {
        return Some(Stop::ReadFault);
    }
    None
}

impl<'a, D: Desk> Filler for Engine<'a, D, Box<dyn Drive>> {
    type Stop = Stop;

    ghost gave = { λ e. window_layers (sight_of e.setup.now e.course.now
        (rack_state (λ b. (Drive-box b).state b.value) e.rack.now)
        (D.state e.desk.now) e.noted.now e.window) };

    ghost fits = { λ e input. Fits (sight_of e.setup.now e.course.now
        (rack_state (λ b. (Drive-box b).state b.value) e.rack.now)
        (D.state e.desk.now) e.noted.now e.window).moment input };

    ghost leads = { λ f g. (g.rack.ghost_name ≡ f.rack.ghost_name)
        × (g.desk.ghost_name ≡ f.desk.ghost_name) × (g.course.ghost_name ≡ f.course.ghost_name)
        × (g.noted.ghost_name ≡ f.noted.ghost_name) × (g.setup.now ≡ f.setup.now)
        × Along (sight_of f.setup.now f.course.now
        (rack_state (λ b. (Drive-box b).state b.value) f.rack.now)
        (D.state f.desk.now) f.noted.now f.window)
        (sight_of g.setup.now g.course.now
        (rack_state (λ b. (Drive-box b).state b.value) g.rack.now)
        (D.state g.desk.now) g.noted.now g.window) };

    ghost going = { λ e. MayGoOn (sight_of e.setup.now e.course.now
        (rack_state (λ b. (Drive-box b).state b.value) e.rack.now)
        (D.state e.desk.now) e.noted.now e.window) };

    ghost done = { λ e. IsOver (sight_of e.setup.now e.course.now
        (rack_state (λ b. (Drive-box b).state b.value) e.rack.now)
        (D.state e.desk.now) e.noted.now e.window) };

    ghost halted = { λ e stop. StoppedBy (sight_of e.setup.now e.course.now
        (rack_state (λ b. (Drive-box b).state b.value) e.rack.now)
        (D.state e.desk.now) e.noted.now e.window).moment stop };

    ghost leads_same = { λ f. (refl, refl, refl, refl, refl, along_same _) };

    ghost leads_on = { λ f g h a b. (
      b.0 ∙ a.0,
      b.1 ∙ a.1,
      b.2 ∙ a.2,
      b.3 ∙ a.3,
      b.4 ∙ a.4,
      along_on _ _ _ a.5 b.5,
    ) };

    fn next(&mut self, alloc: Global) -> Result<Option<LayerInput>, Stop> {
        match next_input(alloc, self.rack, self.desk, self.course, self.setup) {
            Ok(Some(input)) => {
                self.window += 1;
                Ok(Some(input))
            }
            Ok(None) => Ok(None),
            Err(stop) => Err(stop),
        }
    }
}

impl<'a, D: Desk> Windows<CorrectTask> for Engine<'a, D, Box<dyn Drive>> {
    ghost left = { λ e. left_of (sight_of e.setup.now e.course.now
        (rack_state (λ b. (Drive-box b).state b.value) e.rack.now)
        (D.state e.desk.now) e.noted.now e.window) };

    ghost finished = { λ e. IsFinished (sight_of e.setup.now e.course.now
        (rack_state (λ b. (Drive-box b).state b.value) e.rack.now)
        (D.state e.desk.now) e.noted.now e.window) };

    ghost fit = { λ e input fits. fits_task _ input fits };

    ghost no_more = { λ f g leads. no_more_left _ _ leads.5 };

    fn settle(&mut self, _alloc: Global, results: Results) -> Result<(), Stop> {
        let read_faults = self.course.kept_reads();
        match fault_since(self.desk, read_faults, self.course.kept_writes()) {
            Some(stop) => Err(stop),
            None => match settle_results(self.desk, self.setup, self.noted, &results) {
                Ok(()) => {
                    self.window = 0;
                    Ok(())
                }
                Err(stop) => Err(stop),
            },
        }
    }
}
