//! Files that a map holds by their names.
ghost use Rattle.std.specs.Prelude.{◌≡◌, ◌+◌, ◌≤◌, [], IsOk, IsSome, OnErr, OnOk, length};
ghost use Rattle.rs01_lists.specs.Bytes.{padded};
ghost use Rattle.rs01_outside.specs.Files.{Becomes, ReadsAt, ReadsBytes, Shortens, SizeIs, over, put_at};
ghost use Rattle.rs01_fakes.specs.Stored.{DoneOrNot, WritesOrNot, files_in};

use std::alloc::{AllocError, Global};
use std::collections::BTreeMap;

pub(crate) type StoredFiles = BTreeMap<String, Vec<u8>>;

// The length of a file.
pub(crate) fn size(files: &StoredFiles, name: &str) -> Option<u64>
    ensures { SizeIs (files_in files.now) name.now result }
{
    match files.get(name) {
        Some(file) => Some(file.len() as u64),
        None => None,
    }
}

// Reads from a file's bytes, as many as the buffer takes.
fn read_bytes(bytes: &[u8], at: u64, into: &mut [u8]) -> usize
    ensures bound { result ≤ length into.old }
    ensures bytes { ReadsBytes bytes.now at into.new result }
{
    if at >= bytes.len() as u64 {
        return 0;
    }
    let from = at as usize;
    let count = into.len().min(bytes.len() - from);
    into[..count].copy_from_slice(&bytes[from..from + count]);
    count
}

// Reads from a file, nothing where the name isn't there.
pub(crate) fn read(files: &StoredFiles, name: &str, at: u64, into: &mut [u8]) -> usize
    ensures bound { result ≤ length into.old }
    ensures bytes { ReadsAt (files_in files.now) name.now at into.new result }
{
    match files.get(name) {
        Some(file) => read_bytes(file, at, into),
        None => 0,
    }
}

// Puts bytes over those at a place.
fn place(bytes: &mut [u8], from: usize, new: &[u8])
    requires { from + length new.now ≤ length bytes.old }
    ensures { bytes.new ≡ over bytes.old from new.now }
{
    bytes[from..from + new.len()].copy_from_slice(new);
}

// Makes a file at least so long, with zeros at its end.
#[tactic(auto, unfolding(rs01_lists::specs::Bytes::padded, rs01_lists::specs::Bytes::zeros))]
fn lengthen(bytes: &mut Vec<u8>, end: usize) -> Result<(), AllocError>
    ensures ok { OnOk result (bytes.new.items ≡ padded end bytes.old.items) }
    ensures err { OnErr result (bytes.new.items ≡ bytes.old.items) }
    ensures long_enough { end ≤ length bytes.old.items → IsOk result }
{
    if end > bytes.len() {
        bytes.resize(end, 0)?;
    }
    Ok(())
}

// Writes into a file's bytes, and fills a gap before the place with zeros.
fn write_bytes(bytes: &mut Vec<u8>, at: u64, new: &[u8]) -> Result<(), AllocError>
    ensures ok { OnOk result (bytes.new.items ≡ put_at bytes.old.items at new.now) }
    ensures err { OnErr result (bytes.new.items ≡ bytes.old.items) }
    ensures within { at + length new.now ≤ length bytes.old.items → IsOk result }
{
    let Some(end) = at.checked_add(new.len() as u64) else {
        return Err(AllocError);
    };
    lengthen(bytes, end as usize)?;
    place(bytes, at as usize, new);
    Ok(())
}

// Puts a file under a name, in the place of one that may be there.
pub(crate) fn store(
    alloc: Global,
    files: &mut StoredFiles,
    name: &str,
    bytes: &[u8],
) -> Result<(), AllocError>
    ensures { DoneOrNot (Becomes name.now bytes.now)
        (files_in files.old) (files_in files.new) result }
{
    let key = String::from_str(alloc, name)?;
    let file = Vec::from_slice(alloc, bytes)?;
    files.insert(key, file)?;
    Ok(())
}

// Writes into a file, which is made where the name isn't there.
pub(crate) fn write(
    alloc: Global,
    files: &mut StoredFiles,
    name: &str,
    at: u64,
    bytes: &[u8],
) -> Result<(), AllocError>
    ensures { WritesOrNot name.now at bytes.now (files_in files.old) (files_in files.new) result }
{
    match files.get_mut(name) {
        Some(file) => match write_bytes(file, at, bytes) {
            Ok(()) => Ok(()),
            Err(error) => Err(error),
        },
        None => {
            let mut file = Vec::new(alloc);
            write_bytes(&mut file, at, bytes)?;
            let key = String::from_str(alloc, name)?;
            files.insert(key, file)?;
            Ok(())
        }
    }
}

// Leaves the empty file under a name. One that is there takes no memory.
pub(crate) fn make(alloc: Global, files: &mut StoredFiles, name: &str) -> Result<(), AllocError>
    ensures made { DoneOrNot (Becomes name.now [])
        (files_in files.old) (files_in files.new) result }
    ensures there { IsSome (files_in files.old name.now) → IsOk result }
{
    match files.get_mut(name) {
        Some(file) => {
            file.clear();
            Ok(())
        }
        None => match store(alloc, files, name, &[]) {
            Ok(()) => Ok(()),
            Err(error) => Err(error),
        },
    }
}

// Keeps the first bytes of a file.
pub(crate) fn cut(files: &mut StoredFiles, name: &str, len: u64)
    ensures { Shortens (files_in files.old) (files_in files.new) name.now len }
{
    match files.get_mut(name) {
        Some(file) => file.truncate(len as usize),
        None => {}
    }
}
