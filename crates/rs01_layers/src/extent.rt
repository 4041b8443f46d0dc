//! How far an image goes: its sectors, and the bytes of the last one.

ghost use Rattle.std.specs.Prelude.{◌≡◌, ◌+◌, ◌-◌, ◌*◌, ◌^◌, ◌<◌, ◌≤◌, ◌↔◌, ◌⊎◌, IfSome, IsNone};
ghost use Rattle.rs01_layers.specs.Sectors.{last_of, length_of, sectors_of};

/// The number of sectors of an image, and how many bytes the last of them has, 1 to 2048.
#[derive(Clone, Copy)]
pub struct Extent {
    pub sectors: u32,
    pub last_bytes: u32,
    ghost some_sectors: { 1 ≤ sectors },
    ghost some_last_bytes: { 1 ≤ last_bytes },
    ghost last_fits: { last_bytes ≤ 2048 },
}

impl Extent {
    /// The extent of an image of `len` bytes, or `None` where the image is empty or the number of
    /// its sectors passes a `u32`.
    pub fn of_len(len: u64) -> Option<Extent>
        ensures none { IsNone result ↔ ((len ≡ 0) ⊎ (2 ^ 32 ≤ sectors_of len)) }
        ensures some { IfSome result (λ extent. (extent.sectors ≡ sectors_of len)
            × (extent.last_bytes ≡ last_of len)) }
    {
        if len == 0 {
            return None;
        }
        let sectors_before = (len - 1) / 2048;
        if sectors_before >= u64::from(u32::MAX) {
            return None;
        }
        Some(Extent {
            sectors: sectors_before as u32 + 1,
            last_bytes: (len - 2048 * sectors_before) as u32,
        })
    }

    /// The number of bytes of a sector: 2048, or fewer in the last one.
    pub fn length(&self, sector: u32) -> u32
        requires { sector < self.now.sectors }
        ensures value { result ≡ length_of self.now.sectors self.now.last_bytes sector }
        ensures range { (1 ≤ result) × (result ≤ 2048) }
    {
        if sector + 1 == self.sectors {
            self.last_bytes
        } else {
            2048
        }
    }

    /// The number of bytes of the image.
    pub fn image_len(&self) -> u64
        ensures value { result ≡ 2048 * (self.now.sectors - 1) + self.now.last_bytes }
        ensures sectors { sectors_of result ≡ self.now.sectors }
        ensures last { last_of result ≡ self.now.last_bytes }
    {
        2048 * u64::from(self.sectors - 1) + u64::from(self.last_bytes)
    }
}
