//! Named files in memory.
ghost use Rattle.std.specs.Prelude.{◌≡◌, ◌≤◌, IfOk, IsOk, IsSome, IsTrue, None, is_err, length, not, take};
ghost use Rattle.std.specs.Option.{option_copied};
ghost use Rattle.rs01_outside.specs.Files.{Becomes, ReadsAt, Shortens, SizeIs};
ghost use Rattle.rs01_fakes.specs.Marks.{call_is_marked, unmarked};
ghost use Rattle.rs01_fakes.specs.Stored.{DoneOrNot, KeepsPrefix, MakesOrNot, files_in};

use crate::marks::{self, Marks};
use crate::stored::{self, StoredFiles};
use rs01_outside::{Desk, Failed};
use std::alloc::{AllocError, Global};
use std::collections::BTreeMap;

/// Named files in memory, which tell what they hold.
///
/// A call fails where it was marked to, and where it had to grow and found no memory. Calls are
/// numbered from 0 in the order in which they are made, up to the last value of a `u64`.
#[derive(Drop)]
pub struct MemoryDesk {
    alloc: Global,
    files: StoredFiles,
    marks: Marks,
    read_faults: u64,
    write_faults: u64,
}

impl MemoryDesk {
    ghost use Rattle.rs01_fakes.specs.Memory.{desk_state, files_of, mark_call, mark_kept, mark_write, marks_of, with_files};

    /// A desk with no file and no mark. It keeps the allocator for later growths.
    pub fn new(alloc: Global) -> MemoryDesk
        ensures empty { (name : _) → files_of result name ≡ None }
        ensures marks { marks_of result ≡ unmarked }
        ensures read_faults { (desk_state result).read_faults ≡ 0 }
        ensures write_faults { (desk_state result).write_faults ≡ 0 }
    {
        MemoryDesk {
            alloc,
            files: BTreeMap::new(alloc),
            marks: Marks::new(),
            read_faults: 0,
            write_faults: 0,
        }
    }

    /// Puts a file under a name, in the place of one that may be there. It isn't counted as a call
    /// of the desk. Without memory nothing changes.
    pub fn put_file(&mut self, alloc: Global, name: &str, bytes: &[u8]) -> Result<(), AllocError>
        ensures put { DoneOrNot (Becomes name.now bytes.now)
            (files_of self.old) (files_of self.new) result }
        ensures marks { marks_of self.new ≡ marks_of self.old }
        ensures rest { desk_state self.new ≡ with_files (desk_state self.old) (files_of self.new) }
    {
        stored::store(alloc, &mut self.files, name, bytes)?;
        Ok(())
    }

    /// The bytes under a name, and `None` exactly where the name isn't there.
    pub fn file(&self, name: &str) -> Option<&[u8]>
        ensures { option_copied result ≡ files_of self.now name.now }
    {
        match self.files.get(name) {
            Some(bytes) => Some(bytes.as_slice()),
            None => None,
        }
    }

    /// Makes the call with this number fail, counted from 0 over all calls of `size`, `read_at`,
    /// `write_at`, `make` and `cut`. One number is marked at a time.
    pub fn fail_call(&mut self, call: u64)
        ensures marks { marks_of self.new ≡ mark_call (marks_of self.old) call }
        ensures rest { desk_state self.new ≡ desk_state self.old }
    {
        self.marks.calls.set(call);
    }

    /// Makes the `write_at` with this number fail, counted from 0 over the calls of `write_at`
    /// alone. One number is marked at a time.
    pub fn fail_write(&mut self, write: u64)
        ensures marks { marks_of self.new ≡ mark_write (marks_of self.old) write }
        ensures rest { desk_state self.new ≡ desk_state self.old }
    {
        self.marks.writes.set(write);
    }

    /// How many of its bytes a marked `write_at` puts in place before it fails. With `None`, as at
    /// the start, it leaves all as before. With `Some(0)` it makes an absent name and fills a gap
    /// before its place, and puts no byte.
    pub fn keep_prefix(&mut self, bytes: Option<u64>)
        ensures marks { marks_of self.new ≡ mark_kept (marks_of self.old) bytes }
        ensures rest { desk_state self.new ≡ desk_state self.old }
    {
        self.marks.kept = bytes;
    }
}

// The first bytes of a piece, all of them where it has fewer.
fn prefix(bytes: &[u8], kept: u64) -> &[u8]
    ensures { result.now ≡ take kept bytes.now }
{
    if kept >= bytes.len() as u64 {
        return bytes;
    }
    &bytes[..kept as usize]
}

// Puts what a marked write keeps in place, and leaves all as before where there is no memory.
fn write_kept(
    alloc: Global,
    files: &mut StoredFiles,
    kept: Option<u64>,
    name: &str,
    at: u64,
    bytes: &[u8],
)
    ensures { KeepsPrefix kept name.now at bytes.now (files_in files.old) (files_in files.new) }
{
    match kept {
        Some(kept) => match stored::write(alloc, files, name, at, prefix(bytes, kept)) {
            Ok(()) => {}
            Err(_) => {}
        },
        None => {}
    }
}

impl Desk for MemoryDesk {
    ghost use Rattle.rs01_fakes.specs.Memory.{CallChanges, Reads, WriteChanges, WritesAsMarked, desk_state, files_of, marks_of};

    ghost state = { desk_state };

    fn size(&mut self, name: &str) -> Result<Option<u64>, Failed>
        ensures reads { Reads self.old self.new (is_err result) }
        ensures size { IfOk result (SizeIs (files_of self.old) name.now) }
    {
        if self.marks.call() {
            return Err(marks::fail(&mut self.read_faults));
        }
        Ok(stored::size(&self.files, name))
    }

    fn read_at(&mut self, name: &str, at: u64, into: &mut [u8]) -> Result<usize, Failed>
        ensures reads { Reads self.old self.new (is_err result) }
        ensures bound { IfOk result (λ count. count ≤ length into.old) }
        ensures bytes { IfOk result (ReadsAt (files_of self.old) name.now at into.new) }
    {
        if self.marks.call() {
            return Err(marks::fail(&mut self.read_faults));
        }
        Ok(stored::read(&self.files, name, at, into))
    }

    fn write_at(&mut self, name: &str, at: u64, bytes: &[u8]) -> Result<(), Failed>
        ensures changes { WriteChanges name.now self.old self.new (is_err result) }
        ensures written { WritesAsMarked name.now at bytes.now self.old self.new result }
    {
        let kept = self.marks.kept;
        if self.marks.write() {
            write_kept(self.alloc, &mut self.files, kept, name, at, bytes);
            return Err(marks::fail(&mut self.write_faults));
        }
        match stored::write(self.alloc, &mut self.files, name, at, bytes) {
            Ok(()) => Ok(()),
            Err(_) => Err(marks::fail(&mut self.write_faults)),
        }
    }

    fn make(&mut self, name: &str) -> Result<(), Failed>
        ensures changes { CallChanges name.now self.old self.new (is_err result) }
        ensures made { MakesOrNot name.now (files_of self.old) (files_of self.new) result }
        ensures there { IsTrue (not (call_is_marked (marks_of self.old)))
            → IsSome (files_of self.old name.now) → IsOk result }
    {
        if self.marks.call() {
            return Err(marks::fail(&mut self.write_faults));
        }
        match stored::make(self.alloc, &mut self.files, name) {
            Ok(()) => Ok(()),
            Err(_) => Err(marks::fail(&mut self.write_faults)),
        }
    }

    fn cut(&mut self, name: &str, len: u64) -> Result<(), Failed>
        ensures changes { CallChanges name.now self.old self.new (is_err result) }
        ensures cut { DoneOrNot (λ old new. Shortens old new name.now len)
            (files_of self.old) (files_of self.new) result }
        ensures fails { is_err result ≡ call_is_marked (marks_of self.old) }
    {
        if self.marks.call() {
            return Err(marks::fail(&mut self.write_faults));
        }
        stored::cut(&mut self.files, name, len);
        Ok(())
    }

    fn read_faults(&self) -> u64 {
        self.read_faults
    }

    fn write_faults(&self) -> u64 {
        self.write_faults
    }
}
