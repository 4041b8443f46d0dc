//! What a header tells, and why one is refused.
ghost use Rattle.std.specs.Prelude.{◌≡◌, ◌≤◌};

use rs01_layers::Shape;
use thiserror::Error;

/// The fields of a header.
///
/// A value keeps that it describes an image which can be protected: 1 to 16,777,215 sectors, 8 to 100 parity bytes a
/// codeword, a needed version of at most 1, and 1 to 2048 bytes in the last sector.
#[derive(Clone, Copy, Debug)]
pub struct Head {
    /// Kept for later versions; 0 in a new file.
    pub flags: u32,
    /// The MD5 (RFC 1321) of the block of the fingerprint sector.
    pub fingerprint: [u8; 16],
    /// The MD5 of the image's bytes, without padding.
    pub image_sum: [u8; 16],
    /// The MD5 of all bytes of the file after the header.
    pub body_sum: [u8; 16],
    /// The number of sectors of the image.
    pub sectors: u32,
    /// The number of parity bytes of a codeword.
    pub parity: u32,
    /// The version of the program that made the file.
    pub creator: u32,
    /// The version that a reader needs.
    pub needed: u32,
    /// The number of the fingerprint sector.
    pub mark_sector: u32,
    /// The number of bytes in the image's last sector.
    pub last_bytes: u32,
    ghost some_sectors: { 1 ≤ sectors },
    ghost few_sectors: { sectors ≤ 16777215 },
    ghost least_parity: { 8 ≤ parity },
    ghost most_parity: { parity ≤ 100 },
    ghost known_version: { needed ≤ 1 },
    ghost some_last: { 1 ≤ last_bytes },
    ghost last_fits: { last_bytes ≤ 2048 },
}

impl Head {
    /// The number of sectors and of parity bytes.
    pub fn shape(&self) -> Shape
        ensures sectors { result.sectors ≡ self.now.sectors }
        ensures parity { result.parity ≡ self.now.parity }
    {
        match Shape::new(self.sectors, self.parity) {
            Ok(shape) => shape,
            Err(_) => unreachable!(),
        }
    }
}

/// Why a header is refused: the first of these that fits, in this order.
#[derive(Clone, Copy, PartialEq, Eq, Debug, Error)]
pub enum HeadRefusal {
    /// The first 12 bytes aren't the text `*dvdisaster*`.
    #[error("the cookie is another")]
    Cookie,
    /// The next 4 bytes aren't the text `RS01`.
    #[error("the method is another")]
    Method,
    /// A reader needs a version above 1.
    #[error("a newer version is needed")]
    Version,
    /// The number of sectors is 0 or above 16,777,215.
    #[error("the number of sectors is out of range")]
    Sectors,
    /// The number of parity bytes isn't 8 to 100, or data and parity bytes don't add up to 255.
    #[error("the numbers of data and parity bytes don't fit")]
    Parity,
    /// The last sector has more than 2048 bytes.
    #[error("the last sector is too long")]
    LastBytes,
}
