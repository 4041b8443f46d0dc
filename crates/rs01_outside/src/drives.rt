//! Drives that read an optical disc.
ghost use Rattle.std.specs.Prelude.{◌≡◌, IsNone, IsTrue, is_err, not, slice_get};
ghost use Rattle.rs01_outside.specs.DriveState.{Answers, DriveState};
ghost use Rattle.rs01_outside.specs.DriveView.{Counts, Gives, answer_at, ask};

use crate::Failed;

/// A drive: sectors of 2,048 bytes, numbered from 0.
///
/// A drive that tells its view after a call told it before that call. It may stop, and never begins
/// again.
pub trait Drive: Drop {
    /// What the drive tells of itself: its view, and its count of faults.
    ghost state: { Self → DriveState };

    /// The number of sectors.
    fn sectors(&mut self) -> Result<u32, Failed>
        ensures answers { let view = (state self.old).view in
            Answers (state self.old) (state self.new) view (is_err result) }
        ensures number { IsTrue (state self.new).tells → Counts (state self.old).view result };

    /// Reads the block of a sector. After a failure `into` holds anything.
    fn read(&mut self, sector: u32, into: &mut [u8; 2048]) -> Result<(), Failed>
        ensures answers { let view = ask (state self.old).view sector in
            Answers (state self.old) (state self.new) view (is_err result) }
        ensures gives { IsTrue (state self.new).tells
            → Gives (answer_at (state self.old).view sector) into.new result };

    /// The sector that was asked for at this place in the order of all asks, counted from 0. `None`
    /// where there were not so many asks, and always where the drive doesn't tell its view.
    fn asked_at(&self, i: u64) -> Option<u32>
        ensures told { IsTrue (state self.now).tells
            → result ≡ slice_get (state self.now).view.asked i }
        ensures untold { IsTrue (not (state self.now).tells) → IsNone result };

    /// How often `sectors` and `read` have failed.
    fn faults(&self) -> u64
        ensures { result ≡ (state self.now).faults };
}
