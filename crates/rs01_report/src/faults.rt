//! The faults that end a run.

ghost use Rattle.std.specs.Prelude.{◌≡◌};
ghost use Rattle.rs01_report.specs.Faults.{number_of, status_of};

use crate::status::Status;

/// Why a run ended without its work, with the values that its line shows.
///
/// A `usize` is the place of a word, counted from 0, or the number of a drive.
#[derive(Clone, Copy, PartialEq, Eq, Debug)]
pub enum Fault {
    /// There are no words.
    NoCommand,
    /// The first word is no command.
    UnknownCommand,
    /// An option or a word that the command doesn't take.
    UnknownOption(usize),
    /// An option that was given before.
    Repeated(usize),
    /// An option without its value.
    NoValue(usize),
    /// A value that should be a number.
    BadNumber(usize),
    /// A number outside its range.
    OutOfRange(usize),
    /// A word that the command needs isn't there.
    Missing(usize),
    /// A name that equals an earlier one.
    SameName(usize),
    /// The image isn't there.
    NoImage,
    /// The error correction file isn't there.
    NoEcc,
    /// The image has no bytes.
    EmptyImage,
    /// The image has so many sectors.
    TooManySectors(u64),
    /// This sector of the image is its own marker.
    Marker(u32),
    /// The header's cookie.
    Cookie,
    /// The header's method.
    Method,
    /// The header's needed version.
    Version,
    /// The header's number of sectors.
    Sectors,
    /// The header's numbers of data and parity bytes.
    Parity,
    /// The header's number of bytes of the last sector.
    LastBytes,
    /// The length of the error correction file, and the one that is expected.
    Size(u64, u64),
    /// The digest of the bytes after the header, and the recorded one.
    Body([u8; 16], [u8; 16]),
    /// A file couldn't be read.
    ReadFault,
    /// A file couldn't be written.
    WriteFault,
    /// There is no drive.
    NoDrive,
    /// This drive doesn't tell its size.
    Failed(usize),
    /// The sectors of the first drive, and of the first drive that differs.
    Differ(u32, u32),
    /// The medium has so many sectors.
    DriveSize(u32),
    /// There is no memory.
    OutOfMemory,
}

impl Fault {
    /// The status of a run that this fault ends.
    pub fn status(&self) -> Status
        ensures { number_of result ≡ status_of self.now }
    {
        match *self {
            Fault::NoCommand
            | Fault::UnknownCommand
            | Fault::UnknownOption(_)
            | Fault::Repeated(_)
            | Fault::NoValue(_)
            | Fault::BadNumber(_)
            | Fault::OutOfRange(_)
            | Fault::Missing(_)
            | Fault::SameName(_) => Status::Words,
            Fault::NoImage
            | Fault::NoEcc
            | Fault::EmptyImage
            | Fault::TooManySectors(_)
            | Fault::Marker(_)
            | Fault::Cookie
            | Fault::Method
            | Fault::Version
            | Fault::Sectors
            | Fault::Parity
            | Fault::LastBytes
            | Fault::Size(_, _)
            | Fault::Body(_, _) => Status::Files,
            Fault::ReadFault | Fault::WriteFault => Status::Access,
            Fault::NoDrive | Fault::Failed(_) | Fault::Differ(_, _) | Fault::DriveSize(_) => {
                Status::Drives
            }
            Fault::OutOfMemory => Status::Memory,
        }
    }
}
