//! What can happen to a window, and what is answered.

use rs01_layers::{LayerInput, LayerOut};

/// What a worker gives for the input that it has.
#[derive(Drop)]
pub enum CoreGiven {
    /// The task's value of the input.
    Done(LayerOut),
    /// Nothing: the input is left to others.
    Left,
}

/// Why an input isn't posted.
#[derive(Clone, Copy, PartialEq, Eq, Debug)]
pub enum PostRefusal {
    /// The window is closed.
    Closed,
    /// It isn't closed, and an input is posted for each slot.
    Full,
}

/// An input that isn't posted, and why. It is handed back.
#[derive(Drop)]
pub struct PostRefused {
    pub why: PostRefusal,
    pub input: LayerInput,
}

/// What a worker finds that looks for the input of its ticket.
#[derive(Clone, Copy, PartialEq, Eq, Debug)]
pub enum TakeSeen {
    /// It is posted, and the worker has it from now on.
    Got,
    /// It isn't posted, and the window isn't closed.
    NotYet,
    /// It isn't posted, and the window is closed. The worker is done.
    Over,
}

/// An event. A worker is named by its number.
#[derive(Drop)]
pub enum Event {
    /// The input is posted.
    Post(LayerInput),
    /// The window is closed.
    Close,
    /// The worker draws a ticket.
    Draw(u32),
    /// The worker looks for the input of its ticket.
    Take(u32),
    /// The worker gives something for the input that it has.
    Give(u32, CoreGiven),
}

/// What is answered to an event.
#[derive(Clone, Copy, PartialEq, Eq, Debug)]
pub enum Seen {
    /// The slot of the input that was posted.
    Slot(u32),
    /// The window is closed.
    Closed,
    /// The ticket that was drawn.
    Ticket(u64),
    /// What was found.
    Took(TakeSeen),
    /// It was given.
    Given,
}

/// Why an event doesn't happen.
#[derive(Drop)]
pub enum StepRefused {
    /// The input isn't posted.
    Post(PostRefused),
    /// The worker can't do this now, or there is no such worker. The event is handed back.
    Illegal(Event),
}
