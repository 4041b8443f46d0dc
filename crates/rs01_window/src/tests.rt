//! Lists of events, and what is answered.
ghost use Rattle.std.specs.Prelude.{◌≡◌};
ghost use Rattle.rs01_layers.specs.declared.task.LayerOut.TheVariants.{Beyond};
ghost use Rattle.rs01_window.specs.Machine.{MayGive};

use super::*;
use rs01_fakes::{Numbering, numbered_layer};
use rs01_layers::LayerOut;
use std::alloc::{AllocError, Global};
use std::test::Fail;

// An event: a worker has the number, and a layer that is posted.
#[derive(Clone, Copy)]
enum Row {
    Post,
    Close,
    Draw,
    Take,
    Done,
    Left,
}

// What the worker gives: the number of the layer that it has, or nothing.
fn gift(window: &Window<Numbering>, worker: u32, leaves: bool) -> CoreGiven
    ensures { MayGive (λ input. Beyond input.layer) window.now worker result }
{
    match window.taken(worker) {
        Some(input) if !leaves => CoreGiven::Done(LayerOut::Beyond(input.layer)),
        _ => CoreGiven::Left,
    }
}

fn step(
    alloc: Global,
    window: &mut Window<Numbering>,
    row: Row,
    number: u32,
) -> Result<Result<Seen, StepRefused>, AllocError> {
    match row {
        Row::Post => Ok(window.step(Event::Post(numbered_layer(alloc, number)?))),
        Row::Close => Ok(window.step(Event::Close)),
        Row::Draw => Ok(window.step(Event::Draw(number))),
        Row::Take => Ok(window.step(Event::Take(number))),
        Row::Done => {
            let given = gift(window, number, false);
            Ok(window.step(Event::Give(number, given)))
        }
        Row::Left => {
            let given = gift(window, number, true);
            Ok(window.step(Event::Give(number, given)))
        }
    }
}

fn event_text(alloc: Global, event: &Event) -> Result<String, AllocError> {
    match event {
        Event::Post(input) => format!(in alloc; "post {}", input.layer),
        Event::Close => format!(in alloc; "close"),
        Event::Draw(worker) => format!(in alloc; "draw {worker}"),
        Event::Take(worker) => format!(in alloc; "take {worker}"),
        Event::Give(worker, _) => format!(in alloc; "give {worker}"),
    }
}

fn seen_text(alloc: Global, seen: Seen) -> Result<String, AllocError> {
    match seen {
        Seen::Slot(slot) => format!(in alloc; "slot {slot}"),
        Seen::Closed => format!(in alloc; "closed"),
        Seen::Ticket(ticket) => format!(in alloc; "ticket {ticket}"),
        Seen::Took(TakeSeen::Got) => format!(in alloc; "got"),
        Seen::Took(TakeSeen::NotYet) => format!(in alloc; "not yet"),
        Seen::Took(TakeSeen::Over) => format!(in alloc; "over"),
        Seen::Given => format!(in alloc; "given"),
    }
}

fn text(alloc: Global, answer: &Result<Seen, StepRefused>) -> Result<String, AllocError> {
    match answer {
        Ok(seen) => seen_text(alloc, *seen),
        Err(StepRefused::Illegal(event)) => {
            let event = event_text(alloc, event)?;
            format!(in alloc; "illegal: {event}")
        }
        Err(StepRefused::Post(refused)) => match refused.why {
            PostRefusal::Closed => format!(in alloc; "closed: {}", refused.input.layer),
            PostRefusal::Full => format!(in alloc; "full: {}", refused.input.layer),
        },
    }
}

fn result_text(alloc: Global, given: Option<&CoreGiven>) -> Result<String, AllocError> {
    match given {
        None => format!(in alloc; "none"),
        Some(CoreGiven::Left) => format!(in alloc; "left"),
        Some(CoreGiven::Done(LayerOut::Beyond(number))) => format!(in alloc; "done {number}"),
        Some(CoreGiven::Done(_)) => format!(in alloc; "done"),
    }
}

// Two workers of a window with two slots, into which three layers are to be posted.
#[test]
fn two_slots_and_two_workers(rt: HostRuntime) -> Result<(), Fail> {
    let alloc = rt.alloc();
    let mut window = Window::<Numbering>::new(alloc, 2, 2)?;
    for (row, number, wanted) in [
        (Row::Draw, 0u32, "ticket 0"),
        (Row::Take, 0, "not yet"),
        (Row::Post, 10, "slot 0"),
        (Row::Take, 0, "got"),
        (Row::Post, 11, "slot 1"),
        (Row::Post, 12, "full: 12"),
        (Row::Draw, 1, "ticket 1"),
        (Row::Take, 1, "got"),
        (Row::Done, 1, "given"),
        (Row::Draw, 1, "ticket 2"),
        (Row::Take, 1, "not yet"),
        (Row::Close, 0, "closed"),
        (Row::Close, 0, "closed"),
        (Row::Post, 13, "closed: 13"),
        (Row::Take, 1, "over"),
        (Row::Draw, 1, "illegal: draw 1"),
        (Row::Take, 0, "illegal: take 0"),
        (Row::Left, 1, "illegal: give 1"),
        (Row::Draw, 2, "illegal: draw 2"),
        (Row::Left, 0, "given"),
        (Row::Draw, 0, "ticket 3"),
        (Row::Take, 0, "over"),
    ] {
        let answer = step(alloc, &mut window, row, number)?;
        assert_eq!(rt; text(alloc, &answer)?.as_str(), wanted);
    }
    for (slot, wanted) in [(0u32, "left"), (1, "done 11"), (2, "none")] {
        assert_eq!(rt; result_text(alloc, window.result(slot))?.as_str(), wanted);
    }
    Ok(())
}

// A list of events at once, and what a worker has between.
#[test]
fn a_list_of_events(rt: HostRuntime) -> Result<(), Fail> {
    let alloc = rt.alloc();
    let mut window = Window::<Numbering>::new(alloc, 1, 1)?;
    let mut events = Vec::new(alloc);
    events.push(Event::Draw(0))?;
    events.push(Event::Post(numbered_layer(alloc, 7)?))?;
    events.push(Event::Take(0))?;
    let answers = replay(alloc, &mut window, events)?;
    let mut all = String::new(alloc);
    for answer in &answers {
        all.push_str(text(alloc, answer)?.as_str())?;
        all.push_str("; ")?;
    }
    assert_eq!(rt; all.as_str(), "ticket 0; slot 0; got; ");
    let number = match window.taken(0) {
        Some(input) => input.layer,
        None => 0,
    };
    assert_eq!(rt; number, 7);
    assert!(rt; window.taken(1).is_none());
    Ok(())
}
