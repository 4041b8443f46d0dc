//! What becomes of a sector in a reading.

/// What became of a sector of a medium that was read.
#[derive(Clone, Copy, PartialEq, Eq, Debug)]
pub enum Fate {
    /// The image file had it good at the start, and it wasn't asked for.
    Kept,
    /// A drive gave it.
    Read,
    /// It was asked for, and no drive answered.
    Unreadable,
    /// It was asked for, and no answer had a block that may stand for it.
    Altered,
    /// It wasn't good at the start and wasn't asked for.
    LeftOut,
}
