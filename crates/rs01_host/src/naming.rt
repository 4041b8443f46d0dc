//! What a name stands for.
ghost use Rattle.std.specs.Prelude.{◌≡◌, ◌↔◌, IsTrue, is_err};
ghost use Rattle.rs01_host.specs.Counting.{Counts};
ghost use Rattle.rs01_host.specs.Presence.{IsPresent};

use crate::causes::Reason;
use crate::fault_count::FaultCount;
use crate::reading::read_text;
use rs01_outside::Failed;
use std::alloc::AllocError;
use std::fs::{self, File, Metadata};
use std::io::{self, ErrorKind, Seek, SeekFrom};
use std::os::unix::fs::{FileTypeExt, MetadataExt};
use std::rt::Files;

// Which file it is. No two plain files have the same device and number, and no two block devices
// the same device.
#[derive(Clone, Copy, PartialEq, Eq)]
pub(crate) struct Identity {
    is_device: bool,
    device: u64,
    number: u64,
}

impl Identity {
    // Only plain files and block devices have places: what is neither has no identity.
    fn of(metadata: &Metadata) -> Option<Identity> {
        if metadata.is_file() {
            return Some(Identity {
                is_device: false,
                device: metadata.dev(),
                number: metadata.ino(),
            });
        }
        if metadata.file_type().is_block_device() {
            return Some(Identity {
                is_device: true,
                device: metadata.rdev(),
                number: 0,
            });
        }
        None
    }

    pub(crate) fn is_device(&self) -> bool {
        self.is_device
    }

    // The numbers by which the system names a block device, taken out of the one that it tells.
    fn numbers(&self) -> (u64, u64) {
        let major = ((self.device >> 8) & 0xfff) | ((self.device >> 32) & 0xffff_f000);
        let minor = (self.device & 0xff) | ((self.device >> 12) & 0xffff_ff00);
        (major, minor)
    }

    pub(crate) fn is_same(&self, other: Identity) -> bool
        ensures { IsTrue result ↔ (self.now ≡ other) }
    {
        self.is_device == other.is_device
            && self.device == other.device
            && self.number == other.number
    }
}

// A file that was found, and its length as the system tells it, which is 0 for a block device.
#[derive(Clone, Copy)]
pub(crate) struct Found {
    pub(crate) identity: Identity,
    pub(crate) len: u64,
}

impl Found {
    // What has no places is a fault.
    fn of(metadata: &Metadata, faults: &mut FaultCount) -> Result<Found, Failed>
        ensures { Counts faults.old faults.new (is_err result) }
    {
        match Identity::of(metadata) {
            Some(identity) => Ok(Found {
                identity,
                len: metadata.len(),
            }),
            None => faults.refuse(Reason::NotAFile),
        }
    }
}

// What the system answered, with `None` where it says that there is no such file.
pub(crate) fn present<T>(outcome: io::Result<T>) -> io::Result<Option<T>>
    ensures { IsPresent outcome result }
{
    match outcome {
        Ok(value) => Ok(Some(value)),
        Err(error) => {
            if error.kind() == ErrorKind::NotFound {
                return Ok(None);
            }
            Err(error)
        }
    }
}

// What a name stands for, and `None` where it isn't there. It is asked before a name is opened,
// since opening a pipe would wait.
pub(crate) fn look_up<R: Files>(
    files: &R,
    name: &str,
    faults: &mut FaultCount,
) -> Result<Option<Found>, Failed>
    ensures { Counts faults.old faults.new (is_err result) }
{
    match faults.settle(present(fs::metadata(files, name)))? {
        Some(metadata) => Ok(Some(Found::of(&metadata, faults)?)),
        None => Ok(None),
    }
}

// What an open file is.
pub(crate) fn examine(file: &File, faults: &mut FaultCount) -> Result<Found, Failed>
    ensures { Counts faults.old faults.new (is_err result) }
{
    let metadata = faults.settle(file.metadata())?;
    Ok(Found::of(&metadata, faults)?)
}

// The length of an open file by its end, which block devices have too.
pub(crate) fn measure(file: &File, faults: &mut FaultCount) -> Result<u64, Failed>
    ensures { Counts faults.old faults.new (is_err result) }
{
    let mut file = file;
    faults.settle(file.seek(SeekFrom::End(0)))
}

// What the first line of a file names.
fn named_in<R: Files>(files: &R, list: &str) -> Option<Identity> {
    let mut buffer = [0u8; 4096];
    let name = read_text(files, list, &mut buffer)?.lines().next()?;
    Identity::of(&fs::metadata(files, name).ok()?)
}

// The file that lies behind a loop device, where the system tells it.
pub(crate) fn file_behind<R: Files + AllocGlobal>(
    files: &R,
    identity: Identity,
) -> Result<Option<Identity>, AllocError> {
    if !identity.is_device {
        return Ok(None);
    }
    let (major, minor) = identity.numbers();
    let list = format!(in files.alloc(); "/sys/dev/block/{major}:{minor}/loop/backing_file")?;
    Ok(named_in(files, list.as_str()))
}
