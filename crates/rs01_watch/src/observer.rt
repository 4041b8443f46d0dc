//! Who is told of calls.

/// What is told of calls once they were made. It changes nothing of what they answer.
pub trait Observer: Drop {
    /// A desk told the length of a file.
    fn sized(&self, name: &str, len: u64);

    /// A desk read so many bytes of a file.
    fn read(&self, name: &str, count: u64);

    /// A desk wrote so many bytes to a file.
    fn wrote(&self, name: &str, count: u64);

    /// A drive told its number of sectors.
    fn counted(&self, sectors: u32);

    /// A drive was asked for a sector, and gave a block or failed.
    fn asked(&self, sector: u32, is_given: bool);

    /// A sink is about to take these bytes.
    fn putting(&self, bytes: &[u8]);
}
