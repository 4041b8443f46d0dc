//! What a worker is about.

/// What a worker of a window is about.
#[derive(Clone, Copy, PartialEq, Eq, Debug)]
pub enum Status {
    /// It has no ticket.
    Idle,
    /// It has this ticket, and not the input.
    Waits(u64),
    /// It has the input of this ticket.
    Holds(u64),
    /// It saw the end of the window.
    Over,
}
