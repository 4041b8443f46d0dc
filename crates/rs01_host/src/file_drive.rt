//! A file or a block device of the system as a drive.
ghost use Rattle.std.specs.Prelude.{◌≡◌, ◌*◌, ◌<◌, IfOk, OnOk, is_err};
ghost use Rattle.rs01_host.specs.Counting.{Counts};
ghost use Rattle.rs01_host.specs.Reaching.{HasSectors, Reaches, sectors_in};
ghost use Rattle.rs01_host.specs.Untold.{untold_drive};

use crate::causes::{Causes, Reason};
use crate::fault_count::FaultCount;
use crate::opened::Opened;
use rs01_outside::{Drive, Failed};
use std::fs::File;
use std::rt::Files;

// The number of sectors of so many bytes, up to the last value of a u32.
fn sector_count(len: u64) -> u32
    ensures { result ≡ sectors_in len }
{
    len.div_ceil(2048).min(u32::MAX as u64) as u32
}

/// A file or a block device of the system, which doesn't tell its view.
///
/// It is opened at the first call and stays open. Its length is found then, by its end, and a last
/// sector that the length cuts short is padded with zeros. Each ask reads that one sector and
/// nothing else, in one call of the system; where the drive ends within it, in a second one too,
/// which finds the end.
///
/// It is a fault where the name can't be opened, or is anything but a plain file or a block device,
/// where a sector lies at or past the end, and where a read ends before the length that was found.
#[derive(Drop)]
pub struct FileDrive<R: Files<File = File> + Drop> {
    files: R,
    name: String,
    opened: Option<Opened>,
    faults: FaultCount,
    causes: Causes,
}

impl<R: Files<File = File> + Drop> FileDrive<R> {
    /// The drive under a name that this runtime value reaches. It takes no memory, and opens
    /// nothing.
    pub fn new(files: R, name: String) -> FileDrive<R>
        ensures { ⟦<FileDrive<R> as Drive>⟧.state result ≡ untold_drive 0 }
    {
        FileDrive {
            files,
            name,
            opened: None,
            faults: FaultCount::new(),
            causes: Causes::none(),
        }
    }

    /// Lets this list keep why calls fail from now on.
    pub fn tell(&mut self, causes: Causes)
        ensures { let state = ⟦<FileDrive<R> as Drive>⟧.state in state self.new ≡ state self.old }
    {
        self.causes = causes;
    }

    // Opens the drive, where it isn't open yet and the name is there.
    fn open(&mut self) -> Result<(), Failed>
        ensures { Counts self.old.faults self.new.faults (is_err result) }
    {
        if self.opened.is_none() {
            self.opened = Opened::to_read(&self.files, self.name.as_str(), &mut self.faults)?;
        }
        Ok(())
    }

    // The number of sectors, once the drive is open.
    fn count_sectors(&mut self) -> Result<u32, Failed>
        ensures number { IfOk result (λ number. HasSectors number self.new.opened) }
        ensures counted { Counts self.old.faults self.new.faults (is_err result) }
    {
        self.open()?;
        match &self.opened {
            Some(opened) => Ok(sector_count(opened.len)),
            None => self.faults.refuse(Reason::Absent),
        }
    }

    // Reads a sector, once the drive is open.
    fn read_opened(&mut self, sector: u32, into: &mut [u8; 2048]) -> Result<(), Failed>
        ensures there { OnOk result (Reaches sector self.new.opened) }
        ensures counted { Counts self.old.faults self.new.faults (is_err result) }
    {
        self.open()?;
        match &self.opened {
            Some(opened) => read_sector(opened, sector, into, &mut self.faults),
            None => self.faults.refuse(Reason::Absent),
        }
    }
}

// Reads a sector, with zeros where the drive ends within it.
fn read_sector(
    opened: &Opened,
    sector: u32,
    into: &mut [u8; 2048],
    faults: &mut FaultCount,
) -> Result<(), Failed>
    ensures there { OnOk result (2048 * sector < opened.now.len) }
    ensures counted { Counts faults.old faults.new (is_err result) }
{
    let at = sector as u64 * 2048;
    if opened.len <= at {
        return faults.refuse(Reason::PastEnd);
    }
    let count = opened.read_at(at, into, faults)?;
    into[count..].fill(0);
    Ok(())
}

impl<R: Files<File = File> + Drop> Drive for FileDrive<R> {
    ghost state = { λ drive. untold_drive drive.faults.count };

    fn sectors(&mut self) -> Result<u32, Failed>
        ensures number { IfOk result (λ number. HasSectors number self.new.opened) }
        ensures counted { Counts self.old.faults self.new.faults (is_err result) }
    {
        let outcome = self.count_sectors();
        self.causes
            .note(self.name.as_str(), &outcome, self.faults.reason());
        outcome
    }

    fn read(&mut self, sector: u32, into: &mut [u8; 2048]) -> Result<(), Failed>
        ensures there { OnOk result (Reaches sector self.new.opened) }
        ensures counted { Counts self.old.faults self.new.faults (is_err result) }
    {
        let outcome = self.read_opened(sector, into);
        self.causes
            .note(self.name.as_str(), &outcome, self.faults.reason());
        outcome
    }

    fn asked_at(&self, _i: u64) -> Option<u32> {
        None
    }

    fn faults(&self) -> u64 {
        self.faults.count
    }
}
