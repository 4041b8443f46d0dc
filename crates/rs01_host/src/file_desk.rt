//! Files of the system as a desk.
ghost use Rattle.std.specs.Prelude.{◌≡◌};
ghost use Rattle.rs01_host.specs.Untold.{untold_desk};

use crate::causes::Causes;
use crate::fault_count::FaultCount;
use crate::system::System;
use rs01_outside::{Desk, Failed};
use std::alloc::AllocError;
use std::fs::File;
use std::rt::Files;

/// Named files of the system, which tell nothing of their contents.
///
/// A file stays open from the first call on its name until the desk is dropped, and all later calls
/// on the name are on that file. `size` answers `None`, and `read_at` and `cut` do nothing, only
/// where the system says that there is no such file. Each other failure is a fault: a folder, a
/// pipe, a character device, a path through a plain file, a name that may not be opened, a write
/// that takes nothing.
///
/// A file that is to be changed is opened anew under its name, once, and locked. It is a fault, and
/// nothing changes, where it is another file by then, is open under a second name, or is locked by
/// another open of it, as that of another run. Where the file system knows no locks, there is none.
///
/// Each `size`, each change and each read that takes the last byte looks whether the name still
/// stands for that file. It is a fault where it doesn't, where a file is shorter than this desk
/// knows it to be, where it isn't empty once it was made, as a device never is, and where a write
/// would make it longer than this process may. So is `make` of a file that isn't empty and doesn't
/// begin as an error correction file, where another open file does: the names are likely swapped.
#[derive(Drop)]
pub struct FileDesk<R: Files<File = File> + AllocGlobal + Drop> {
    system: System<R>,
    reads: FaultCount,
    writes: FaultCount,
    causes: Causes,
}

impl<R: Files<File = File> + AllocGlobal + Drop> FileDesk<R> {
    /// The files that this runtime value reaches. It takes no memory.
    pub fn new(files: R) -> FileDesk<R>
        ensures { ⟦<FileDesk<R> as Desk>⟧.state result ≡ untold_desk 0 0 }
    {
        FileDesk {
            system: System::new(files),
            reads: FaultCount::new(),
            writes: FaultCount::new(),
            causes: Causes::none(),
        }
    }

    /// Lets this list keep why calls fail from now on.
    pub fn tell(&mut self, causes: Causes)
        ensures { let state = ⟦<FileDesk<R> as Desk>⟧.state in state self.new ≡ state self.old }
    {
        self.causes = causes;
    }

    /// Makes room to keep the files of these names. Calls on other names make room for each when
    /// they open it, and there want of memory is a fault.
    pub fn reserve(&mut self, names: &[String]) -> Result<(), AllocError>
        ensures { let state = ⟦<FileDesk<R> as Desk>⟧.state in state self.new ≡ state self.old }
    {
        self.system.reserve(names)
    }
}

impl<R: Files<File = File> + AllocGlobal + Drop> Desk for FileDesk<R> {
    ghost state = { λ desk. untold_desk desk.reads.count desk.writes.count };

    fn size(&mut self, name: &str) -> Result<Option<u64>, Failed> {
        let outcome = self.system.size(name, &mut self.reads);
        self.causes.note(name, &outcome, self.reads.reason());
        outcome
    }

    fn read_at(&mut self, name: &str, at: u64, into: &mut [u8]) -> Result<usize, Failed> {
        let outcome = self.system.read_at(name, at, into, &mut self.reads);
        self.causes.note(name, &outcome, self.reads.reason());
        outcome
    }

    fn write_at(&mut self, name: &str, at: u64, bytes: &[u8]) -> Result<(), Failed> {
        let outcome = self.system.write_at(name, at, bytes, &mut self.writes);
        self.causes.note(name, &outcome, self.writes.reason());
        outcome
    }

    fn make(&mut self, name: &str) -> Result<(), Failed> {
        let outcome = self.system.make(name, &mut self.writes);
        self.causes.note(name, &outcome, self.writes.reason());
        outcome
    }

    fn cut(&mut self, name: &str, len: u64) -> Result<(), Failed> {
        let outcome = self.system.cut(name, len, &mut self.writes);
        self.causes.note(name, &outcome, self.writes.reason());
        outcome
    }

    fn read_faults(&self) -> u64 {
        self.reads.count
    }

    fn write_faults(&self) -> u64 {
        self.writes.count
    }
}
