//! What a repair of an image starts from.
ghost use Rattle.std.specs.Prelude.{◌≡◌, ◌<◌, IfOk};
ghost use Rattle.rs01_ecchead.specs.Erased.{known_of};
ghost use Rattle.rs01_repair.specs.Finding.{is_past};

use rs01_ecchead::Ecc;
use rs01_erase::CorrectTask;
use std::alloc::{AllocError, Global};

/// What the error correction file of an image tells, and how many bytes the image file had when it was found. The task
/// that corrects the image's layers is made once.
#[derive(Drop)]
pub struct Found {
    pub ecc: Ecc,
    pub size: u64,
    pub task: CorrectTask,
}

impl Found {
    /// An image file of `size` bytes with its opened error correction file.
    pub fn new(alloc: Global, ecc: Ecc, size: u64) -> Result<Found, AllocError>
        ensures ecc { IfOk result (λ found. found.ecc ≡ ecc) }
        ensures size { IfOk result (λ found. found.size ≡ size) }
    {
        let task = CorrectTask::new(alloc, ecc.shape().parity())?;
        Ok(Found { ecc, size, task })
    }

    /// Whether a sector is absent: the image file ended before it did when it was found.
    pub fn is_absent(&self, sector: u32) -> bool
        requires { sector < self.now.ecc.head.sectors }
        ensures { result ≡ is_past (known_of self.now.ecc) self.now.size sector }
    {
        let length = self.ecc.extent().length(sector);
        self.size < 2048 * u64::from(sector) + u64::from(length)
    }
}
