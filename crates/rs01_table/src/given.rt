//! What a worker draws, finds and gives.

use rs01_layers::{LayerInput, LayerOut};

/// A ticket: the number of the slot whose input is for the worker that drew it.
#[derive(Clone, Copy, PartialEq, Eq, Debug)]
pub struct Ticket {
    pub number: u64,
}

/// What a look for a ticket's input finds.
#[derive(Drop)]
pub enum Taken {
    /// The input, which is the worker's from now on.
    Got(LayerInput),
    /// It isn't posted, and the window isn't closed.
    NotYet,
    /// It isn't posted, and the window is closed. The worker is done.
    Over,
}

/// What comes back of an input.
#[derive(Drop)]
pub enum Given {
    /// The input with the task's value of it.
    Done(LayerInput, LayerOut),
    /// The input alone.
    Left(LayerInput),
}
