//! Lists of events.

ghost use Rattle.std.specs.Prelude.{◌≡◌, IfOk};
ghost use Rattle.rs01_window.specs.Replay.{replay, AllKeepToTask};

use crate::events::{Event, Seen, StepRefused};
use crate::window::Window;
use rs01_layers::LayerTask;
use std::alloc::{AllocError, Global};

/// The answers to all events, in order. Memory is taken for their list alone.
pub fn replay<T: LayerTask>(
    alloc: Global,
    window: &mut Window<T>,
    events: Vec<Event>,
) -> Result<Vec<Result<Seen, StepRefused>>, AllocError>
    requires task { AllKeepToTask T.value window.old events.items }
    ensures state { IfOk result (λ _. window.new ≡ (replay window.old events.items).0) }
    ensures answers { IfOk result (λ seen. seen.items ≡ (replay window.old events.items).1) }
{
    let mut answers = Vec::new(alloc);
    for event in events {
        let answer = window.step(event);
        answers.push(answer)?;
    }
    Ok(answers)
}
