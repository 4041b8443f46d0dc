//! What each command reports.

use crate::lists::{SectorList, StrangeList};

/// What was made by `create`.
#[derive(Clone, Copy, PartialEq, Eq, Debug)]
pub struct CreateReport {
    /// The sectors of the image.
    pub sectors: u32,
    /// The layers that hold them.
    pub layers: u32,
    /// The parity bytes of a codeword.
    pub parity: u32,
    /// The bytes of the last sector.
    pub last_bytes: u32,
    /// The MD5 of the image.
    pub image_sum: [u8; 16],
}

/// Why a layer whose erased sectors are few enough wasn't restored.
#[derive(Clone, Copy, PartialEq, Eq, Debug)]
pub enum Why {
    /// No codeword has the other bytes of this codeword, 0 to 2047, the lowest such.
    Codeword(u32),
    /// The restored block of this sector has another checksum than the recorded one.
    Sum(u32),
}

/// A layer that wasn't restored though its erased sectors are few enough.
#[derive(Clone, Copy, PartialEq, Eq, Debug)]
pub struct Strange {
    /// The number of the layer.
    pub layer: u32,
    /// Why it wasn't restored.
    pub why: Why,
}

/// What was done by `fix`.
#[derive(Drop)]
pub struct FixReport {
    /// The erased sectors that were restored, rising.
    pub restored: SectorList,
    /// The erased sectors that weren't, rising.
    pub lost: SectorList,
    /// The layers that weren't restored though their erased sectors are few enough, rising.
    pub strange: StrangeList,
    /// The bytes that the image file had past the protected image.
    pub surplus: u64,
    /// Whether there were such bytes, and they were cut.
    pub cut: bool,
}

/// Whether a digest is the recorded one.
#[derive(Clone, Copy, PartialEq, Eq, Debug)]
pub enum Mark {
    /// It is.
    Matches,
    /// It is another one.
    Differs,
    /// What it should be taken of isn't there.
    Absent,
}

/// The layer with most erased sectors, the lowest on a tie, and how many layers can't be restored.
#[derive(Clone, Copy, PartialEq, Eq, Debug)]
pub struct Fullest {
    /// The number of that layer.
    pub layer: u32,
    /// Its erased sectors.
    pub erased: u32,
    /// The parity bytes of a codeword: so many erased sectors of a layer can be restored.
    pub parity: u32,
    /// The number of layers with more erased sectors than that.
    pub beyond: u32,
}

/// What was found by `verify`.
#[derive(Drop)]
pub struct VerifyReport {
    /// The sectors of the protected image.
    pub sectors: u32,
    /// The layers that hold them.
    pub layers: u32,
    /// The parity bytes of a codeword.
    pub parity: u32,
    /// The sectors that the image file doesn't reach, or that are marked as missing.
    pub missing: SectorList,
    /// The other sectors with another checksum than the recorded one.
    pub altered: SectorList,
    /// How full the layers are.
    pub fullest: Fullest,
    /// The bytes of the image file past the protected image.
    pub surplus: u64,
    /// The digest of the fingerprint sector.
    pub fingerprint: Mark,
    /// The digest of the image, without surplus bytes.
    pub image: Mark,
}

/// What was found by `scan`, which asks the drives for each sector once.
#[derive(Drop)]
pub struct ScanReport {
    /// The sectors of the disc.
    pub sectors: u32,
    /// The sectors that no drive could read, rising.
    pub unreadable: SectorList,
    /// The sectors that were read with another checksum than the recorded one, rising.
    pub altered: SectorList,
    /// How full the layers are with these two kinds, where there is an error correction file.
    pub fullest: Option<Fullest>,
}

/// What was done by `read`.
#[derive(Drop)]
pub struct ReadReport {
    /// The sectors of the disc.
    pub sectors: u32,
    /// How often all drives together were asked for a sector.
    pub asked: u64,
    /// The sectors that the image file had good at the start.
    pub kept: u32,
    /// The sectors that became good by reading.
    pub read: u32,
    /// The sectors that were asked for and that no drive could read, rising.
    pub unreadable: SectorList,
    /// The sectors that were read, and never with the recorded checksum, rising.
    pub altered: SectorList,
    /// The sectors that weren't good at the start and were never asked for, rising.
    pub not_asked: SectorList,
    /// The sectors that correction put in place, rising.
    pub restored: SectorList,
    /// The sectors that are neither good nor restored at the end, rising.
    pub lost: SectorList,
    /// The layers that weren't restored though their erased sectors are few enough, rising.
    pub strange: StrangeList,
    /// The bytes of the image file past the image of the disc.
    pub surplus: u64,
}

/// What was shown by `demo`, which makes an image, protects it, loses sectors and repairs it.
#[derive(Clone, Copy, PartialEq, Eq, Debug)]
pub struct DemoReport {
    /// The number that the image was made from.
    pub number: u64,
    /// The sectors of the image.
    pub sectors: u32,
    /// The parity bytes of a codeword.
    pub parity: u32,
    /// How many sectors were to be lost, from the first one on.
    pub lost_asked: u32,
    /// The MD5 of the image that was made.
    pub image_sum: [u8; 16],
    /// The MD5 of the error correction file's bytes after its header, as the header records it.
    pub body_sum: [u8; 16],
    /// How many sectors were restored.
    pub restored: u32,
    /// How many sectors stay lost.
    pub lost: u32,
    /// Whether the repaired image is the one that was made.
    pub original: bool,
}
