//! The recorded checksums of an image's sectors.

ghost use Rattle.std.specs.Prelude.{◌≡◌, ◌+◌, ◌<◌, ◌==◌, IfOk, [], ◌∷◌, ◌++◌, length, slice_index};
ghost use Rattle.rs01_sums.specs.Usable.{has_sum};

use crate::checksum::crc32;
use std::alloc::{AllocError, Global};
use std::marker::Model;

/// Checksums by sector, with room that is reserved when it is made.
///
/// Contracts see the list of the checksums and the number that there is room for.
#[derive(Drop)]
pub struct Sums {
    sums: Vec<u32>,
    room: u32,
}

impl Model for Sums {
    ghost use Rattle.std.specs.Prelude.{vec_len, vec_capacity};
    ghost use Rattle.rs01_sums.specs.Checksums.{Checksums, KeepsRoom};

    ghost Value = { Checksums };

    ghost view = { λ s. record { list = s.sums.items; room = s.room } };

    ghost invariant = { λ s. KeepsRoom (vec_len s.sums) s.room (vec_capacity s.sums) };
}

impl Sums {
    /// An empty list with room for `count` checksums.
    pub fn new(alloc: Global, count: u32) -> Result<Sums, AllocError>
        ensures empty { IfOk result (λ made. made.list ≡ []) }
        ensures room { IfOk result (λ made. made.room ≡ count) }
    {
        let sums = Vec::with_capacity(alloc, count as usize)?;
        Ok(Sums { sums, room: count })
    }

    /// Puts the checksum of the next sector at the end.
    pub fn push_reserved(&mut self, sum: u32)
        requires { length self.old.list < self.old.room }
        ensures list { self.new.list ≡ self.old.list ++ sum ∷ [] }
        ensures room { self.new.room ≡ self.old.room }
    {
        self.sums.push_reserved(sum);
    }

    /// How many checksums there are.
    pub fn len(&self) -> u32
        ensures { result ≡ length self.now.list }
    {
        self.sums.len() as u32
    }

    /// Whether there is no checksum.
    pub fn is_empty(&self) -> bool
        ensures { result ≡ (length self.now.list == 0) }
    {
        self.sums.is_empty()
    }

    /// The checksum of a sector.
    pub fn get(&self, sector: u32) -> u32
        requires { sector < length self.now.list }
        ensures { result ≡ slice_index self.now.list sector }
    {
        self.sums[sector as usize]
    }

    /// Whether a block has the checksum of a sector.
    pub fn matches(&self, sector: u32, block: &[u8; 2048]) -> bool
        requires { sector < length self.now.list }
        ensures { result ≡ has_sum self.now.list sector block.now }
    {
        self.get(sector) == crc32(block)
    }
}
