//! What the words ask for.
use crate::places::Places;

/// A command with its names and numbers. A name is the place of its word, counted from 0.
#[derive(Debug, Drop)]
pub enum Command {
    /// Make the error correction file `ecc` of `image`. `parity` is the parity bytes of a codeword,
    /// 8 to 100, and `workers` the threads, 1 to 32.
    Create {
        image: usize,
        ecc: usize,
        parity: u32,
        workers: u32,
    },
    /// Restore what is missing in `image`; with `cut`, cut off what stands behind it.
    Fix {
        image: usize,
        ecc: usize,
        workers: u32,
        cut: bool,
    },
    /// Compare `image` with `ecc`.
    Verify {
        image: usize,
        ecc: usize,
    },
    /// Ask the drives for every sector.
    Scan {
        ecc: Option<usize>,
        drives: Places,
    },
    /// Read a medium into `image`. `jump` is in sectors, 1 to 1,048,576; `tries` is how often one
    /// sector is asked for, 1 to 16.
    Read {
        image: usize,
        ecc: Option<usize>,
        drives: Places,
        adaptive: bool,
        jump: u32,
        tries: u32,
        workers: u32,
    },
    /// Make an image of `sectors` sectors, 1 to 65,536, from `number`; protect it, lose the first
    /// `lost` sectors and restore them.
    Demo {
        number: u64,
        sectors: u32,
        parity: u32,
        lost: u32,
    },
}
