//! What can be wrong with the words.

/// A fault in the words.
#[derive(Clone, Copy, Debug, PartialEq, Eq)]
pub enum WordFault {
    /// There are no words.
    NoCommand,
    /// The first word is no command.
    UnknownCommand,
    /// The command has no such option, or takes no further plain word.
    UnknownOption,
    /// The option was given as often as it may be.
    Repeated,
    /// The option takes a value, and is the last word.
    NoValue,
    /// The word isn't a number in decimal digits.
    BadNumber,
    /// The number is outside of its range.
    OutOfRange,
    /// A plain word that the command needs isn't there.
    Missing,
    /// Two names are equal that must differ.
    SameName,
}

/// A fault, and the place of the word that has it, counted from 0.
#[derive(Clone, Copy, Debug, PartialEq, Eq)]
pub struct WordRefused {
    pub fault: WordFault,
    pub place: usize,
}
