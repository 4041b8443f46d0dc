//! What a medium is read by.

use rs01_linear::Medium;

/// What doesn't change while a medium is read: the opened medium, the names of its files, and how often a drive is asked
/// for a sector at most.
#[derive(Clone, Copy)]
pub struct Setup<'a> {
    pub medium: &'a Medium,
    /// The name of the image file.
    pub image: &'a str,
    /// The name of the error correction file, where one is given.
    pub ecc: Option<&'a str>,
    pub tries: u32,
}
