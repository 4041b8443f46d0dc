//! What is known of a medium before a sector is asked for.
ghost use Rattle.std.specs.Prelude.{◌≡◌, ◌≤◌, length};
ghost use Rattle.std.specs.Option.{ForSome, option_map};

use rs01_ecchead::Ecc;
use rs01_layers::Extent;
use rs01_sums::Sums;

/// A medium that is to be read: how far it goes, and its opened error correction file, where one is given.
#[derive(Drop)]
pub struct Medium {
    pub extent: Extent,
    pub ecc: Option<Ecc>,
    ghost sectors: { ForSome ecc (λ ecc. ecc.head.sectors ≡ extent.sectors) },
    ghost last_bytes: { ForSome ecc (λ ecc. ecc.head.last_bytes ≡ extent.last_bytes) },
    ghost few_sectors: { extent.sectors ≤ 16777215 },
}

impl Medium {
    /// How far the medium goes.
    pub fn extent(&self) -> Extent
        ensures { result ≡ self.now.extent }
    {
        self.extent
    }

    /// The error correction file, where one is given.
    pub fn ecc(&self) -> Option<&Ecc>
        ensures { option_map (λ ecc. ecc.now) result ≡ self.now.ecc }
    {
        self.ecc.as_ref()
    }

    /// The recorded checksums, one for each sector, where an error correction file is given.
    pub fn sums(&self) -> Option<&Sums>
        ensures sums { option_map (λ kept. kept.now.list) result
            ≡ option_map (λ ecc. ecc.sums.list) self.now.ecc }
        ensures all { ForSome result (λ kept. length kept.now.list ≡ self.now.extent.sectors) }
    {
        match &self.ecc {
            None => None,
            Some(ecc) => Some(ecc.sums()),
        }
    }
}
