//! How the filling of a window ends.

/// How the filling of a window ends.
#[derive(Drop)]
pub enum Filled<S: Drop> {
    /// The filler has no input left.
    Ended,
    /// It gave 64.
    Full,
    /// It stopped so.
    Halted(S),
}
