//! The status that a run ends with.

ghost use Rattle.std.specs.Prelude.{◌≡◌};
ghost use Rattle.rs01_report.specs.Faults.{number_of};

/// The status that a run ends with.
#[derive(Clone, Copy, PartialEq, Eq, Debug)]
pub enum Status {
    /// The command was done, and nothing is wrong with what it leaves or looked at.
    Done,
    /// The command was done, and something is wrong there, as its report tells.
    Damaged,
    /// The words aren't understood.
    Words,
    /// A file isn't there or is refused.
    Files,
    /// A file couldn't be read or written.
    Access,
    /// The drives are refused.
    Drives,
    /// The output failed.
    Output,
    /// Memory ran out.
    Memory,
}

impl Status {
    /// The number that a program ends with, 0 to 7 in the order above.
    pub fn number(self) -> u8
        ensures { result ≡ number_of self }
    {
        match self {
            Status::Done => 0,
            Status::Damaged => 1,
            Status::Words => 2,
            Status::Files => 3,
            Status::Access => 4,
            Status::Drives => 5,
            Status::Output => 6,
            Status::Memory => 7,
        }
    }
}
