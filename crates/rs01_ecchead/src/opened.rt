//! Opening an error correction file.
ghost use Rattle.std.specs.Prelude.{◌≡◌, length};

use crate::head::{Head, HeadRefusal};
use crate::walk::WalkFault;
use rs01_layers::{Extent, Shape};
use rs01_outside::Failed;
use rs01_sums::Sums;
use thiserror::Error;

/// One of the two files that belong together.
#[derive(Clone, Copy, PartialEq, Eq, Debug)]
pub enum Which {
    /// The error correction file.
    Ecc,
    /// The image that it protects.
    Image,
}

/// Why a file isn't opened. The first four are told in the order of the reading: the name, a file that is shorter than
/// a header, the header, another length than the header asks for, and another digest than the recorded one.
#[derive(Clone, Copy, PartialEq, Eq, Debug, Error)]
pub enum EccRefusal {
    /// The file isn't there.
    #[error("there is no error correction file")]
    NoFile,
    /// The header is refused.
    #[error("the header is refused")]
    Head(HeadRefusal),
    /// The file has another length than is expected, both in bytes.
    #[error("the file has {have} bytes, {want} are expected")]
    Size { have: u64, want: u64 },
    /// The bytes after the header have another MD5 than the recorded one.
    #[error("the bytes after the header have another digest")]
    Body { have: [u8; 16], want: [u8; 16] },
    /// Reading a file failed.
    #[error("reading a file failed")]
    ReadFault,
    /// Memory ran out.
    #[error("memory ran out")]
    OutOfMemory,
}

impl From<Failed> for EccRefusal {
    ghost use Rattle.rs01_ecchead.specs.declared.opened.EccRefusal.TheVariants.{ReadFault};

    ghost from_gives = { λ _ why. why ≡ ReadFault };

    fn from(_failed: Failed) -> EccRefusal {
        EccRefusal::ReadFault
    }
}

impl From<WalkFault> for EccRefusal {
    ghost use Rattle.rs01_ecchead.specs.Walked.{walk_refusal};

    ghost from_gives = { λ of why. why ≡ walk_refusal of };

    fn from(why: WalkFault) -> EccRefusal {
        match why {
            WalkFault::ReadFault => EccRefusal::ReadFault,
            WalkFault::OutOfMemory => EccRefusal::OutOfMemory,
        }
    }
}

impl From<HeadRefusal> for EccRefusal {
    ghost use Rattle.rs01_ecchead.specs.declared.opened.EccRefusal.TheVariants.{Head};

    ghost from_gives = { λ of why. why ≡ Head of };

    fn from(why: HeadRefusal) -> EccRefusal {
        EccRefusal::Head(why)
    }
}

/// An opened error correction file: its header, and the recorded checksum of each sector.
#[derive(Drop)]
pub struct Ecc {
    pub head: Head,
    pub sums: Sums,
    ghost recorded: { length sums.list ≡ head.sectors },
}

impl Ecc {
    /// What the header tells.
    pub fn head(&self) -> &Head
        ensures { result.now ≡ self.now.head }
    {
        &self.head
    }

    /// The number of sectors and of parity bytes.
    pub fn shape(&self) -> Shape
        ensures sectors { result.sectors ≡ self.now.head.sectors }
        ensures parity { result.parity ≡ self.now.head.parity }
    {
        self.head.shape()
    }

    /// How far the protected image goes.
    pub fn extent(&self) -> Extent
        ensures sectors { result.sectors ≡ self.now.head.sectors }
        ensures last { result.last_bytes ≡ self.now.head.last_bytes }
    {
        Extent {
            sectors: self.head.sectors,
            last_bytes: self.head.last_bytes,
        }
    }

    /// The recorded checksums, one for each sector.
    pub fn sums(&self) -> &Sums
        ensures sums { result.now ≡ self.now.sums }
        ensures all { length result.now.list ≡ self.now.head.sectors }
    {
        &self.sums
    }
}
