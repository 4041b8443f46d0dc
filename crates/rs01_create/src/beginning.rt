//! Beginning a file: its header comes last, so that a file that isn't finished is no error correction file.
ghost use Rattle.std.specs.Prelude.{IfOk, IsTrue, is_err};
ghost use Rattle.rs01_outside.specs.DeskState.{OnlyChanges};
ghost use Rattle.rs01_create.specs.Beginning.{IsStart};
ghost use Rattle.rs01_create.specs.Unfinished.{Begins};

use crate::course::Course;
use md5::{Digest, Md5};
use rs01_outside::{Desk, Failed};
use std::alloc::Global;

// Makes a file of zeros in place of a header, and of the checksums behind it.
fn begin_file<D: Desk>(desk: &mut D, name: &str, sums: &[u8]) -> Result<(), Failed>
    ensures changes { OnlyChanges name.now (D.state desk.old) (D.state desk.new) (is_err result) }
    ensures begun { IsTrue (D.state desk.old).tells
        → Begins sums.now name.now (D.state desk.old).files (D.state desk.new).files result }
{
    desk.make(name)?;
    desk.write_at(name, 0, &[0; 4096])?;
    desk.write_at(name, 4096, sums)?;
    Ok(())
}

// Begins a file with the checksums of an image, to which the parity of its layers is to be added.
pub fn begin<D: Desk>(
    alloc: Global,
    desk: &mut D,
    name: &str,
    sums: &[u8],
) -> Result<Course, Failed>
    ensures changes { OnlyChanges name.now (D.state desk.old) (D.state desk.new) (is_err result) }
    ensures start { IfOk result (IsStart sums.now) }
    ensures begun { IsTrue (D.state desk.old).tells
        → Begins sums.now name.now (D.state desk.old).files (D.state desk.new).files result }
{
    match begin_file(desk, name, sums) {
        Ok(()) => {
            let mut hasher = Md5::new();
            hasher.update(sums);
            Ok(Course {
                first: 0,
                next: 0,
                window: Vec::new(alloc),
                hasher,
            })
        }
        Err(Failed) => Err(Failed),
    }
}
