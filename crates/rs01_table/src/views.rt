//! What the seats of a window know, for proofs alone: no value of these types is made.

use crate::given::Given;
use rs01_layers::LayerInput;
use std::collections::LinkedList;

/// What was given for a ticket.
pub struct Gave {
    pub ticket: u64,
    pub what: Given,
}

/// The input of a ticket, which a worker has.
pub struct Hold {
    pub ticket: u64,
    pub input: LayerInput,
}

/// What is known of a worker that the poster took over.
pub struct Gone {
    pub number: u64,
    pub held: LinkedList<u64>,
    pub given: LinkedList<Gave>,
}

/// What a seat knows.
pub struct View {
    /// Whether it is the poster's.
    pub posts: bool,
    /// The inputs that the poster posted.
    pub posted: LinkedList<LayerInput>,
    /// Whether the poster closed the window.
    pub closed: bool,
    /// Whether the poster claimed the next slot.
    pub claimed: bool,
    /// How many workers were split from the poster.
    pub workers: u64,
    /// The number of the worker, or of those that were taken over.
    pub numbers: LinkedList<u64>,
    /// The ticket of the worker, where it has one.
    pub held: LinkedList<u64>,
    /// What was given, by ticket.
    pub given: LinkedList<Gave>,
    /// The input of the worker's ticket, where it has it.
    pub got: LinkedList<Hold>,
    /// Whether the worker saw the end of the window.
    pub over: bool,
    /// How many inputs were posted at the worker's last look.
    pub seen: u64,
    /// Whether the window was closed then.
    pub seen_closed: bool,
    /// The workers that were taken over.
    pub gone: LinkedList<Gone>,
}
