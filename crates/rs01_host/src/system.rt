//! Files of the system by their names.
ghost use Rattle.std.specs.Prelude.{◌≡◌, ◌<◌, ◌≤◌, true, IfOk, IfSome, OnOk, length, is_err};
ghost use Rattle.rs01_host.specs.Counting.{Counts};
ghost use Rattle.rs01_host.specs.Keeping.{IsAlone};

use crate::causes::Reason;
use crate::fault_count::FaultCount;
use crate::limit::longest_file;
use crate::naming::{Identity, file_behind, look_up};
use crate::opened::Opened;
use rs01_outside::Failed;
use std::alloc::AllocError;
use std::fs::File;
use std::rt::Files;

// A file that stays open, the place of its name among the names, and the file behind a loop device.
#[derive(Drop)]
pub(crate) struct Kept {
    name: usize,
    pub(crate) opened: Opened,
    behind: Option<Identity>,
}

impl Kept {
    fn lies_on(&self, other: Identity) -> bool {
        match self.behind {
            Some(file) => file.is_same(other),
            None => false,
        }
    }

    // Whether they share bytes: they are one file, or one of them is the file behind the other.
    fn shares(&self, other: &Kept) -> bool
        ensures { self.now.opened.identity ≡ other.now.opened.identity → result ≡ true }
    {
        self.opened.identity.is_same(other.opened.identity)
            || self.lies_on(other.opened.identity)
            || other.lies_on(self.opened.identity)
    }
}

// Files of the system that stay open, each under the name that it was opened by.
//
// Two names may stand for one file: by a dot in the path, a link or a second name of the file, or
// by a loop device and the file behind it. A file that would be changed is refused where it is open
// under another name as well, so that none is lost to a write that was meant for another.
#[derive(Drop)]
pub(crate) struct System<R: Files<File = File> + AllocGlobal + Drop> {
    files: R,
    names: Vec<String>,
    kept: Vec<Kept>,
    limit: u64,
}

impl<R: Files<File = File> + AllocGlobal + Drop> System<R> {
    pub(crate) fn new(files: R) -> System<R> {
        let names = Vec::new(files.alloc());
        let kept = Vec::new(files.alloc());
        let limit = longest_file(&files);
        System {
            files,
            names,
            kept,
            limit,
        }
    }

    // Makes room to keep files of these names.
    pub(crate) fn reserve(&mut self, names: &[String]) -> Result<(), AllocError> {
        self.names.reserve(names.len())?;
        self.kept.reserve(names.len())?;
        for name in names {
            self.add_name(name.as_str())?;
        }
        Ok(())
    }

    // The place of a name among the names.
    fn find_name(&self, name: &str) -> Option<usize> {
        self.names.iter().position(|own| own.as_str() == name)
    }

    // The place of the file that is open under a name.
    fn find(&self, name: &str) -> Option<usize>
        ensures { IfSome result (λ place. place < length self.now.kept.items) }
    {
        let own = self.find_name(name)?;
        self.kept.iter().position(|kept| kept.name == own)
    }

    // Adds a name that there was no room made for.
    fn add_name(&mut self, name: &str) -> Result<usize, AllocError> {
        if let Some(own) = self.find_name(name) {
            return Ok(own);
        }
        let own = self.names.len();
        let text = String::from_str(self.files.alloc(), name)?;
        self.names.push(text)?;
        Ok(own)
    }

    // Keeps a file open under its name.
    fn keep(&mut self, name: &str, opened: Opened, faults: &mut FaultCount) -> Result<usize, Failed>
        ensures place { IfOk result (λ place. place < length self.new.kept.items) }
        ensures counted { Counts faults.old faults.new (is_err result) }
    {
        let name = faults.settle(self.add_name(name))?;
        let behind = faults.settle(file_behind(&self.files, opened.identity))?;
        let place = self.kept.len();
        faults.settle(
            self.kept.push(Kept {
                name,
                opened,
                behind,
            }),
        )?;
        Ok(place)
    }

    // The place of a file that may be read, and `None` where the name isn't there.
    fn open(&mut self, name: &str, faults: &mut FaultCount) -> Result<Option<usize>, Failed>
        ensures place { IfOk result (λ found.
            IfSome found (λ place. place < length self.new.kept.items)) }
        ensures counted { Counts faults.old faults.new (is_err result) }
    {
        if let Some(place) = self.find(name) {
            return Ok(Some(place));
        }
        match Opened::to_read(&self.files, name, faults)? {
            Some(opened) => Ok(Some(self.keep(name, opened, faults)?)),
            None => Ok(None),
        }
    }

    // A file that is open under another name as well is a fault.
    fn refuse_other_names(&self, place: usize, faults: &mut FaultCount) -> Result<(), Failed>
        requires { place < length self.now.kept.items }
        ensures alone { OnOk result (IsAlone self.now.kept.items place) }
        ensures counted { Counts faults.old faults.new (is_err result) }
    {
        for k in 0..self.kept.len() {
            if k != place && self.kept[k].shares(&self.kept[place]) {
                return faults.refuse(Reason::SecondName);
            }
        }
        Ok(())
    }

    // Lets a file be changed that was opened to be read.
    fn allow_changes(
        &mut self,
        place: usize,
        name: &str,
        faults: &mut FaultCount,
    ) -> Result<(), Failed>
        requires { place < length self.old.kept.items }
        ensures place { place < length self.new.kept.items }
        ensures counted { Counts faults.old faults.new (is_err result) }
    {
        if self.kept[place].opened.can_write {
            return Ok(());
        }
        let opened = Opened::to_change(&self.files, name, false, faults)?;
        self.kept[place].opened.replace(opened, faults)?;
        Ok(())
    }

    // The place of a file that may be changed. `None` where the name isn't there and isn't made.
    fn open_to_change(
        &mut self,
        name: &str,
        create: bool,
        faults: &mut FaultCount,
    ) -> Result<Option<usize>, Failed>
        ensures place { IfOk result (λ found.
            IfSome found (λ place. place < length self.new.kept.items)) }
        ensures counted { Counts faults.old faults.new (is_err result) }
    {
        let place = match self.find(name) {
            Some(place) => {
                self.allow_changes(place, name, faults)?;
                place
            }
            None => {
                if look_up(&self.files, name, faults)?.is_none() && !create {
                    return Ok(None);
                }
                let opened = Opened::to_change(&self.files, name, create, faults)?;
                self.keep(name, opened, faults)?
            }
        };
        self.refuse_other_names(place, faults)?;
        Ok(Some(place))
    }

    // The place of a file that may be changed, which is made where the name isn't there.
    fn open_or_make(&mut self, name: &str, faults: &mut FaultCount) -> Result<usize, Failed>
        ensures place { IfOk result (λ place. place < length self.new.kept.items) }
        ensures counted { Counts faults.old faults.new (is_err result) }
    {
        match self.open_to_change(name, true, faults)? {
            Some(place) => Ok(place),
            None => faults.refuse(Reason::Absent),
        }
    }

    // A file that holds anything but an error correction file is a fault, where another open file
    // begins as one.
    fn refuse_swapped(&self, place: usize, faults: &mut FaultCount) -> Result<(), Failed>
        requires { place < length self.now.kept.items }
        ensures { Counts faults.old faults.new (is_err result) }
    {
        if self.kept[place].opened.len == 0 || self.kept[place].opened.begins_as_ecc(faults)? {
            return Ok(());
        }
        for k in 0..self.kept.len() {
            if k != place && self.kept[k].opened.begins_as_ecc(faults)? {
                return faults.refuse(Reason::Swapped);
            }
        }
        Ok(())
    }

    pub(crate) fn size(
        &mut self,
        name: &str,
        faults: &mut FaultCount,
    ) -> Result<Option<u64>, Failed>
        ensures { Counts faults.old faults.new (is_err result) }
    {
        let Some(place) = self.open(name, faults)? else {
            return Ok(None);
        };
        self.kept[place].opened.confirm(&self.files, name, faults)?;
        Ok(Some(self.kept[place].opened.len))
    }

    pub(crate) fn read_at(
        &mut self,
        name: &str,
        at: u64,
        into: &mut [u8],
        faults: &mut FaultCount,
    ) -> Result<usize, Failed>
        ensures bound { IfOk result (λ count. count ≤ length into.old) }
        ensures counted { Counts faults.old faults.new (is_err result) }
    {
        let Some(place) = self.open(name, faults)? else {
            return Ok(0);
        };
        let count = self.kept[place].opened.read_at(at, into, faults)?;
        if self.kept[place].opened.ends_within(at, into.len()) {
            self.kept[place].opened.confirm(&self.files, name, faults)?;
        }
        Ok(count)
    }

    pub(crate) fn write_at(
        &mut self,
        name: &str,
        at: u64,
        bytes: &[u8],
        faults: &mut FaultCount,
    ) -> Result<(), Failed>
        ensures { Counts faults.old faults.new (is_err result) }
    {
        let place = self.open_or_make(name, faults)?;
        self.kept[place]
            .opened
            .write_at(at, bytes, self.limit, faults)?;
        self.kept[place].opened.confirm(&self.files, name, faults)?;
        Ok(())
    }

    pub(crate) fn make(&mut self, name: &str, faults: &mut FaultCount) -> Result<(), Failed>
        ensures { Counts faults.old faults.new (is_err result) }
    {
        let place = self.open_or_make(name, faults)?;
        self.refuse_swapped(place, faults)?;
        self.kept[place]
            .opened
            .shorten(&self.files, name, 0, faults)?;
        Ok(())
    }

    pub(crate) fn cut(
        &mut self,
        name: &str,
        len: u64,
        faults: &mut FaultCount,
    ) -> Result<(), Failed>
        ensures { Counts faults.old faults.new (is_err result) }
    {
        let Some(place) = self.open_to_change(name, false, faults)? else {
            return Ok(());
        };
        self.kept[place].opened.cut(&self.files, name, len, faults)?;
        Ok(())
    }
}
