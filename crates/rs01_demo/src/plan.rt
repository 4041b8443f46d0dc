//! What a demonstration is asked for.

/// The numbers of a demonstration.
#[derive(Clone, Copy, PartialEq, Eq, Debug)]
pub struct Plan {
    /// What the image is made from.
    pub number: u64,
    /// The sectors of the image, 1 to 65,536.
    pub sectors: u32,
    /// The parity bytes of a codeword, 8 to 100.
    pub parity: u32,
    /// How many sectors are marked as missing, from the first one on; at most as many as there are.
    pub lost: u32,
}
