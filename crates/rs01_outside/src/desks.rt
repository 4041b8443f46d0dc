//! Named files.
ghost use Rattle.std.specs.Prelude.{◌≡◌, ◌≤◌, IfOk, IsTrue, is_err, length};
ghost use Rattle.rs01_outside.specs.DeskState.{DeskState, OnlyChanges, OnlyReads};
ghost use Rattle.rs01_outside.specs.Files.{Cuts, Makes, ReadsAt, SizeIs, WritesAt};

use crate::Failed;

/// Named files. Every call may be made at any time, with any name, place and length.
///
/// Places and lengths are in bytes. A desk that tells its files goes on doing so, and one that
/// doesn't never begins to.
pub trait Desk {
    /// What the desk tells of itself: its files, and its two counts of faults.
    ghost state: { Self → DeskState };

    /// The length of a file, and `None` exactly where the name isn't there.
    fn size(&mut self, name: &str) -> Result<Option<u64>, Failed>
        ensures reads { OnlyReads (state self.old) (state self.new) (is_err result) }
        ensures size { IsTrue (state self.old).tells
            → IfOk result (SizeIs (state self.old).files name.now) };

    /// Fills `into` with the bytes from a place on, and says how many it took: fewer than asked only
    /// at the file's end, and 0 where the name isn't there. After a failure `into` holds anything.
    fn read_at(&mut self, name: &str, at: u64, into: &mut [u8]) -> Result<usize, Failed>
        ensures reads { OnlyReads (state self.old) (state self.new) (is_err result) }
        ensures bound { IfOk result (λ count. count ≤ length into.old) }
        ensures bytes { IsTrue (state self.old).tells
            → IfOk result (ReadsAt (state self.old).files name.now at into.new) };

    /// Puts bytes at a place. A name that isn't there is made first, and a gap before the place
    /// becomes zeros. After a failure all is as before, or some first bytes are in place.
    fn write_at(&mut self, name: &str, at: u64, bytes: &[u8]) -> Result<(), Failed>
        ensures changes { OnlyChanges name.now (state self.old) (state self.new) (is_err result) }
        ensures written { IsTrue (state self.old).tells
            → WritesAt (state self.old).files (state self.new).files name.now at bytes.now result };

    /// Leaves the empty file under a name. After a failure all is as before, or as after success.
    fn make(&mut self, name: &str) -> Result<(), Failed>
        ensures changes { OnlyChanges name.now (state self.old) (state self.new) (is_err result) }
        ensures made { IsTrue (state self.old).tells
            → Makes (state self.old).files (state self.new).files name.now result };

    /// Keeps the first `len` bytes of a file. One that isn't longer stays, and so does an absent
    /// name. After a failure all is as before, or as after success.
    fn cut(&mut self, name: &str, len: u64) -> Result<(), Failed>
        ensures changes { OnlyChanges name.now (state self.old) (state self.new) (is_err result) }
        ensures cut { IsTrue (state self.old).tells
            → Cuts (state self.old).files (state self.new).files name.now len result };

    /// How often `size` and `read_at` have failed.
    fn read_faults(&self) -> u64
        ensures { result ≡ (state self.now).read_faults };

    /// How often `write_at`, `make` and `cut` have failed.
    fn write_faults(&self) -> u64
        ensures { result ≡ (state self.now).write_faults };
}
