//! One open file of the system, or one block device.
ghost use Rattle.std.specs.Prelude.{◌≡◌, ◌+◌, ◌-◌, ◌≤◌, min, IfOk, OnOk, length, is_err};
ghost use Rattle.rs01_host.specs.Counting.{Counts};

use crate::causes::Reason;
use crate::fault_count::FaultCount;
use crate::naming::{Found, Identity, examine, look_up, measure, present};
use crate::place::Place;
use crate::reading::fill;
use crate::writing::put_all;
use rs01_outside::Failed;
use std::fs::{self, File, OpenOptions, TryLockError};
use std::io::{self, ErrorKind};
use std::rt::Files;

// The first bytes of an error correction file.
const COOKIE: &[u8; 12] = b"*dvdisaster*";

// An open file, with the length that it is known to have. It may be longer where another process
// made it so.
#[derive(Drop)]
pub(crate) struct Opened {
    file: File,
    pub(crate) identity: Identity,
    pub(crate) len: u64,
    can_read: bool,
    pub(crate) can_write: bool,
}

// Opens a file to write to it, and to read it too where that is asked for.
fn open_as<R: Files<File = File>>(
    files: &R,
    name: &str,
    create: bool,
    read: bool,
) -> io::Result<File> {
    let mut options = OpenOptions::new();
    options.write(true);
    options.create(create);
    options.read(read);
    options.open(files, name)
}

// Opens a file to change it, and says whether it may be read too.
fn open_to_change<R: Files<File = File>>(
    files: &R,
    name: &str,
    create: bool,
) -> io::Result<(File, bool)> {
    match open_as(files, name, create, true) {
        Ok(file) => Ok((file, true)),
        Err(error) => {
            if error.kind() != ErrorKind::PermissionDenied {
                return Err(error);
            }
            Ok((open_as(files, name, create, false)?, false))
        }
    }
}

// Whether another open of the file holds its lock. If none does, this one does until it is closed,
// where the file system knows locks.
fn is_locked_elsewhere(file: &File) -> bool {
    matches!(file.try_lock(), Err(TryLockError::WouldBlock))
}

impl Opened {
    fn new(
        file: File,
        can_read: bool,
        can_write: bool,
        faults: &mut FaultCount,
    ) -> Result<Opened, Failed>
        ensures { Counts faults.old faults.new (is_err result) }
    {
        let found = examine(&file, faults)?;
        let len = measure(&file, faults)?;
        Ok(Opened {
            file,
            identity: found.identity,
            len,
            can_read,
            can_write,
        })
    }

    // The file under a name, to be read, and `None` where the name isn't there.
    pub(crate) fn to_read<R: Files<File = File>>(
        files: &R,
        name: &str,
        faults: &mut FaultCount,
    ) -> Result<Option<Opened>, Failed>
        ensures { Counts faults.old faults.new (is_err result) }
    {
        if look_up(files, name, faults)?.is_none() {
            return Ok(None);
        }
        match faults.settle(present(fs::open(files, name)))? {
            Some(file) => Ok(Some(Opened::new(file, true, false, faults)?)),
            None => Ok(None),
        }
    }

    // The file under a name, to be changed and locked. It is a fault where another open of it holds
    // the lock.
    pub(crate) fn to_change<R: Files<File = File>>(
        files: &R,
        name: &str,
        create: bool,
        faults: &mut FaultCount,
    ) -> Result<Opened, Failed>
        ensures { Counts faults.old faults.new (is_err result) }
    {
        let (file, can_read) = faults.settle(open_to_change(files, name, create))?;
        if is_locked_elsewhere(&file) {
            return faults.refuse(Reason::Locked);
        }
        Ok(Opened::new(file, can_read, true, faults)?)
    }

    // Goes on with another open of the file. It is a fault where that is another file, or where it
    // became shorter.
    pub(crate) fn replace(&mut self, other: Opened, faults: &mut FaultCount) -> Result<(), Failed>
        ensures same { OnOk result (self.new.identity ≡ self.old.identity) }
        ensures known { OnOk result (self.old.len ≤ self.new.len) }
        ensures counted { Counts faults.old faults.new (is_err result) }
    {
        if !self.identity.is_same(other.identity) || other.len < self.len {
            return faults.refuse(Reason::Changed);
        }
        *self = other;
        Ok(())
    }

    // The length of the file that was found under its name.
    fn length_of(&self, found: Found, faults: &mut FaultCount) -> Result<u64, Failed>
        ensures { Counts faults.old faults.new (is_err result) }
    {
        if self.identity.is_device() {
            return Ok(measure(&self.file, faults)?);
        }
        Ok(found.len)
    }

    // Looks whether the name still stands for this file, and how long that is. It is a fault where
    // it was moved, replaced or cut.
    pub(crate) fn confirm<R: Files>(
        &mut self,
        files: &R,
        name: &str,
        faults: &mut FaultCount,
    ) -> Result<(), Failed>
        ensures known { OnOk result (self.old.len ≤ self.new.len) }
        ensures counted { Counts faults.old faults.new (is_err result) }
    {
        let Some(found) = look_up(files, name, faults)? else {
            return faults.refuse(Reason::Changed);
        };
        if !self.identity.is_same(found.identity) {
            return faults.refuse(Reason::Changed);
        }
        let len = self.length_of(found, faults)?;
        if len < self.len {
            return faults.refuse(Reason::Changed);
        }
        self.len = len;
        Ok(())
    }

    // Reads at a place. It is a fault where the file ends before the length that it is known to
    // have.
    pub(crate) fn read_at(
        &self,
        at: u64,
        into: &mut [u8],
        faults: &mut FaultCount,
    ) -> Result<usize, Failed>
        ensures most { IfOk result (λ count. count ≤ length into.old) }
        ensures least { IfOk result (λ count. min (self.now.len - at) (length into.old) ≤ count) }
        ensures counted { Counts faults.old faults.new (is_err result) }
    {
        let known = self.len.saturating_sub(at).min(into.len() as u64);
        let count = faults.settle(fill(&mut Place::new(&self.file, at), into))?;
        if (count as u64) < known {
            return faults.refuse(Reason::Changed);
        }
        Ok(count)
    }

    // Whether a read of so many bytes from a place on takes the last byte of the file.
    pub(crate) fn ends_within(&self, at: u64, count: usize) -> bool {
        self.len <= at.saturating_add(count as u64)
    }

    // Puts bytes at a place, where the file doesn't become longer than the limit by them.
    pub(crate) fn write_at(
        &mut self,
        at: u64,
        bytes: &[u8],
        limit: u64,
        faults: &mut FaultCount,
    ) -> Result<(), Failed>
        ensures known { OnOk result (at + length bytes.now ≤ self.new.len) }
        ensures allowed { OnOk result (at + length bytes.now ≤ limit) }
        ensures counted { Counts faults.old faults.new (is_err result) }
    {
        let end = match at.checked_add(bytes.len() as u64) {
            Some(end) if end <= limit => end,
            _ => return faults.refuse(Reason::TooLong),
        };
        if !bytes.is_empty() {
            faults.settle(put_all(&mut Place::new(&self.file, at), bytes))?;
        } else if self.len < at {
            // No byte would be written after the gap, so the gap is made by the length.
            faults.settle(self.file.set_len(at))?;
        }
        self.len = self.len.max(end);
        Ok(())
    }

    // Cuts the file to a length. It is a fault where the file is longer then, as a device is.
    pub(crate) fn shorten<R: Files>(
        &mut self,
        files: &R,
        name: &str,
        len: u64,
        faults: &mut FaultCount,
    ) -> Result<(), Failed>
        ensures cut { OnOk result (self.new.len ≡ len) }
        ensures counted { Counts faults.old faults.new (is_err result) }
    {
        faults.settle(self.file.set_len(len))?;
        self.len = len;
        self.confirm(files, name, faults)?;
        if self.len > len {
            return faults.refuse(Reason::Uncut);
        }
        Ok(())
    }

    // Cuts the file to a length, where it is longer.
    pub(crate) fn cut<R: Files>(
        &mut self,
        files: &R,
        name: &str,
        len: u64,
        faults: &mut FaultCount,
    ) -> Result<(), Failed>
        ensures most { OnOk result (self.new.len ≤ len) }
        ensures counted { Counts faults.old faults.new (is_err result) }
    {
        self.confirm(files, name, faults)?;
        if self.len <= len {
            return Ok(());
        }
        self.shorten(files, name, len, faults)?;
        Ok(())
    }

    // Whether the file begins as an error correction file. One that may not be read doesn't.
    pub(crate) fn begins_as_ecc(&self, faults: &mut FaultCount) -> Result<bool, Failed>
        ensures { Counts faults.old faults.new (is_err result) }
    {
        if !self.can_read {
            return Ok(false);
        }
        let mut first = [0u8; 12];
        let count = faults.settle(fill(&mut Place::new(&self.file, 0), &mut first))?;
        Ok(count == 12 && &first == COOKIE)
    }
}
