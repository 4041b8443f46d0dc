//! The shape of an error correction file: how many sectors it protects, and with how much parity.

ghost use Rattle.std.specs.Prelude.{◌≡◌, ◌≢◌, ◌+◌, ◌-◌, ◌*◌, ◌<◌, ◌≤◌, ◌↔◌, ◌⊎◌, IfOk, IsOk};
ghost use Rattle.rs01_layers.specs.Layout.{
  IsShape,
  file_size,
  layer_of,
  layers_of,
  parity_offset,
  place_of,
  sector_at,
};

use thiserror::Error;

/// Why two numbers make no shape.
#[derive(Clone, Copy, PartialEq, Eq, Debug, Error)]
pub enum ShapeRefusal {
    /// There is no sector.
    #[error("there is no sector")]
    NoSectors,
    /// There are more than 16,777,215 sectors.
    #[error("there are more than 16777215 sectors")]
    TooManySectors,
    /// A codeword's parity bytes are fewer than 8 or more than 100.
    #[error("a codeword has 8 to 100 parity bytes")]
    ParityRange,
}

/// The number of sectors, 1 to 16,777,215, and the number of parity bytes in a codeword, 8 to 100.
///
/// A codeword has 255 bytes. Those that aren't parity are data, one of each sector of a layer.
/// Sector `s` of `n` lies in layer `s % layers` at place `s / layers`, so that a run of damaged
/// sectors is spread over the layers.
#[derive(Clone, Copy)]
pub struct Shape {
    pub sectors: u32,
    pub parity: u32,
    ghost in_range: { IsShape sectors parity },
}

impl Shape {
    /// The largest number of sectors.
    pub const MOST_SECTORS: u32 = 16_777_215;

    /// The shape of `sectors` sectors with `parity` parity bytes in a codeword.
    ///
    /// The first refusal that fits is told, in the order of `ShapeRefusal`.
    pub fn new(sectors: u32, parity: u32) -> Result<Shape, ShapeRefusal>
        ensures no_sectors { (result ≡ Err ShapeRefusal.NoSectors) ↔ (sectors ≡ 0) }
        ensures too_many { (result ≡ Err ShapeRefusal.TooManySectors) ↔ (16777215 < sectors) }
        ensures parity_range { (result ≡ Err ShapeRefusal.ParityRange)
            ↔ ((1 ≤ sectors) × (sectors ≤ 16777215) × ((parity < 8) ⊎ (100 < parity))) }
        ensures accepted { IsOk result ↔ IsShape sectors parity }
        ensures shape { IfOk result (λ made. (made.sectors ≡ sectors) × (made.parity ≡ parity)) }
    {
        if sectors == 0 {
            return Err(ShapeRefusal::NoSectors);
        }
        if sectors > Shape::MOST_SECTORS {
            return Err(ShapeRefusal::TooManySectors);
        }
        if parity < 8 || parity > 100 {
            return Err(ShapeRefusal::ParityRange);
        }
        Ok(Shape { sectors, parity })
    }

    /// The number of sectors.
    pub fn sectors(&self) -> u32
        ensures { result ≡ self.now.sectors }
    {
        self.sectors
    }

    /// The number of parity bytes in a codeword.
    pub fn parity(&self) -> u32
        ensures { result ≡ self.now.parity }
    {
        self.parity
    }

    /// The number of data bytes in a codeword: 255 less the parity.
    pub fn data(&self) -> u32
        ensures value { result ≡ 255 - self.now.parity }
        ensures range { (155 ≤ result) × (result ≤ 247) }
    {
        255 - self.parity
    }

    /// The number of layers: the sectors divided by the data bytes of a codeword, rounded up.
    pub fn layers(&self) -> u32
        ensures value { result ≡ layers_of self.now.sectors self.now.parity }
        ensures range { (1 ≤ result) × (result ≤ self.now.sectors) }
    {
        (self.sectors + (254 - self.parity)) / self.data()
    }

    /// The layer of a sector.
    pub fn layer_of(&self, sector: u32) -> u32
        requires { sector < self.now.sectors }
        ensures { result ≡ layer_of self.now.sectors self.now.parity sector }
    {
        sector % self.layers()
    }

    /// The place of a sector in its layer.
    pub fn place_of(&self, sector: u32) -> u32
        requires { sector < self.now.sectors }
        ensures { result ≡ place_of self.now.sectors self.now.parity sector }
    {
        sector / self.layers()
    }

    /// The sector at a place of a layer, or `None` where the place is padding.
    pub fn sector_at(&self, layer: u32, place: u32) -> Option<u32>
        requires layer { layer < layers_of self.now.sectors self.now.parity }
        requires place { place < 255 - self.now.parity }
        ensures { result ≡ sector_at self.now.sectors self.now.parity layer place }
    {
        let sector = layer + place * self.layers();
        if sector < self.sectors {
            Some(sector)
        } else {
            None
        }
    }

    /// Where the parity bytes of a codeword, 0 to 2047, of a layer begin in the file.
    pub fn parity_offset(&self, layer: u32, codeword: u32) -> u64
        requires layer { layer < layers_of self.now.sectors self.now.parity }
        requires codeword { codeword < 2048 }
        ensures { result ≡ parity_offset self.now.sectors self.now.parity layer codeword }
    {
        let codewords_before = 2048 * u64::from(layer) + u64::from(codeword);
        4096 + 4 * u64::from(self.sectors) + codewords_before * u64::from(self.parity)
    }

    /// The number of bytes of the file.
    pub fn file_size(&self) -> u64
        ensures { result ≡ file_size self.now.sectors self.now.parity }
    {
        4096 + 4 * u64::from(self.sectors)
            + 2048 * u64::from(self.parity) * u64::from(self.layers())
    }
}
