//! Runs in which each call of the desk fails once, and runs whose first text can't be put.
use super::drives::{drive, rack_of};
use super::{NAMES, copied, is_blank, mark, protected, puts, run_line};
use rs01_fakes::{MemoryDesk, MemorySink};
use rs01_outside::{Desk, Sink};
use rs01_rack::Rack;
use std::alloc::{AllocError, Global};
use std::process::Abort;
use std::test::Fail;

// A command on the protected image of so many sectors of zeros: the parity bytes of its file, the last of the sectors
// that are marked from 10 on, the words, the sector that the drive fails to read, the name of the file that may change,
// the status of the whole run, how many of its calls of the desk read, and write, and whether it is run again on what a
// failed call leaves. Without checksums a sector of which one byte was written is no longer told from a good one.
#[derive(Clone, Copy)]
struct Row {
    sectors: u32,
    parity: u32,
    marked: u32,
    line: &'static str,
    fault: Option<u32>,
    changes: &'static str,
    status: u8,
    calls: (u64, u64),
    again: bool,
}

// What a run leaves: its files, the rack that it asked, what it put, and its status.
#[derive(Drop)]
struct Left {
    desk: MemoryDesk,
    rack: Rack,
    out: MemorySink,
    status: u8,
}

// Runs the row's line on a copy of files, of whose calls one fails and keeps so many bytes of what it writes.
fn run_row(
    alloc: Global,
    row: Row,
    files: &MemoryDesk,
    call: u64,
    kept: u64,
) -> Result<Left, AllocError> {
    let mut desk = copied(alloc, files)?;
    desk.fail_call(call);
    desk.keep_prefix(Some(kept));
    let mut rack = rack_of(alloc, drive(alloc, row.sectors, row.fault, None)?, None)?;
    let mut out = MemorySink::new(alloc);
    let status = run_line(alloc, row.line, &mut desk, &mut rack, &mut out)?;
    Ok(Left {
        desk,
        rack,
        out,
        status,
    })
}

// The sectors that the first drive was asked for, in order.
fn asked_of(alloc: Global, rack: &Rack) -> Result<Vec<u32>, AllocError> {
    let mut asked = Vec::new(alloc);
    if rack.drives() == 0 {
        return Ok(asked);
    }
    for place in 0u64..1000 {
        match rack.asked_at(0, place) {
            Some(sector) => asked.push(sector)?,
            None => return Ok(asked),
        }
    }
    Ok(asked)
}

// Whether a list begins with another one.
fn begins_with(all: &[u32], some: &[u32]) -> bool {
    if some.len() > all.len() {
        return false;
    }
    for i in 0..some.len() {
        if some[i] != all[i] {
            return false;
        }
    }
    true
}

// Whether each byte of a file is one of two others of its length.
fn is_of_both(file: &[u8], one: &[u8], other: &[u8]) -> bool {
    if file.len() != one.len() || file.len() != other.len() {
        return false;
    }
    for i in 0..file.len() {
        if file[i] != one[i] && file[i] != other[i] {
            return false;
        }
    }
    true
}

// Whether no other file has changed, and each byte of the one that may change, where it was there, is the one before or
// the one that the whole run leaves.
fn stands(row: Row, files: &MemoryDesk, left: &MemoryDesk, whole: &MemoryDesk) -> bool {
    for name in NAMES {
        if name != row.changes && left.file(name) != files.file(name) {
            return false;
        }
    }
    match (
        files.file(row.changes),
        left.file(row.changes),
        whole.file(row.changes),
    ) {
        (Some(old), Some(file), Some(end)) => is_of_both(file, old, end),
        (Some(_), _, _) => false,
        (None, _, _) => true,
    }
}

// The line of the fault that the counts of a desk tell of.
fn fault_line(desk: &MemoryDesk) -> &'static str {
    match (desk.read_faults(), desk.write_faults()) {
        (1, 0) => "rs01: reading a file failed\n",
        (0, 1) => "rs01: writing a file failed\n",
        _ => "another number of faults",
    }
}

// A call fails. A second run on what is left ends as the whole one, which needs no test where nothing has changed. Tells
// how many calls failed that read, and that write.
fn check_call(
    rt: &impl Abort,
    alloc: Global,
    row: Row,
    files: &MemoryDesk,
    whole: &MemoryDesk,
    all: &[u32],
    call: u64,
    kept: u64,
) -> Result<(u64, u64), AllocError> {
    let line = row.line;
    let left = run_row(alloc, row, files, call, kept)?;
    let faults = (left.desk.read_faults(), left.desk.write_faults());
    if faults == (0, 0) {
        let done = left.status == row.status;
        assert!(rt; done, "{line} past its calls");
        return Ok(faults);
    }
    let told = left.status == 4 && left.out.bytes() == fault_line(&left.desk).as_bytes();
    assert!(rt; told, "{line} call {call}");
    let stood = stands(row, files, &left.desk, whole);
    assert!(rt; stood, "{line} call {call}");
    let asked = asked_of(alloc, &left.rack)?;
    let in_order = begins_with(all, &asked);
    assert!(rt; in_order, "{line} call {call}");
    if row.again && left.desk.file(row.changes) != files.file(row.changes) {
        let again = run_row(alloc, row, &left.desk, u64::MAX, 0)?;
        let same = again.desk.file(row.changes) == whole.file(row.changes);
        let done = again.status == row.status && same;
        assert!(rt; done, "{line} after call {call}");
    }
    Ok(faults)
}

// All calls of a command fail, one in each run. A write that fails keeps no byte, and in another run one.
fn check_row(rt: &impl Abort, alloc: Global, row: Row) -> Result<(), AllocError> {
    let bytes = (row.sectors as usize).saturating_mul(2048);
    let mut files = protected(alloc, bytes, row.parity)?;
    assert!(rt; mark(&mut files, 10, row.marked));
    let line = row.line;
    let whole = run_row(alloc, row, &files, u64::MAX, 0)?;
    let done = whole.status == row.status;
    assert!(rt; done, "{line}");
    let all = asked_of(alloc, &whole.rack)?;
    let mut calls = (0u64, 0u64);
    for call in 0u64..500 {
        let (reads, writes) = check_call(rt, alloc, row, &files, &whole.desk, &all, call, 0)?;
        if reads == writes {
            break;
        }
        if writes > 0 {
            let again = check_call(rt, alloc, row, &files, &whole.desk, &all, call, 1)?;
            assert_eq!(rt; again, (0, 1), "{line} call {call}");
        }
        calls = (
            calls.0.saturating_add(reads),
            calls.1.saturating_add(writes),
        );
    }
    let (reads, writes) = calls;
    let counted = calls == row.calls;
    assert!(rt; counted, "{line}: {reads} reads, {writes} writes");
    Ok(())
}

#[test]
fn each_call_fails(rt: HostRuntime) -> Result<(), Fail> {
    for row in [
        Row {
            sectors: 247,
            parity: 8,
            marked: 17,
            line: "fix disc.iso disc.ecc",
            fault: None,
            changes: "disc.iso",
            status: 0,
            calls: (253, 8),
            again: true,
        },
        Row {
            sectors: 224,
            parity: 32,
            marked: 9,
            line: "verify disc.iso disc.ecc",
            fault: None,
            changes: "disc.iso",
            status: 0,
            calls: (10, 0),
            again: true,
        },
        Row {
            sectors: 10,
            parity: 32,
            marked: 9,
            line: "read new.iso --drive d --jump 4",
            fault: Some(3),
            changes: "new.iso",
            status: 1,
            calls: (2, 4),
            again: false,
        },
    ] {
        check_row(&rt, rt.alloc(), row)?;
    }
    Ok(())
}

#[test]
fn each_call_of_a_reading_by_turns_fails(rt: HostRuntime) -> Result<(), Fail> {
    let row = Row {
        sectors: 223,
        parity: 32,
        marked: 9,
        line: "read new.iso disc.ecc --drive d --adaptive",
        fault: None,
        changes: "new.iso",
        status: 0,
        calls: (201, 228),
        again: false,
    };
    check_row(&rt, rt.alloc(), row)?;
    Ok(())
}

// A run whose first text can't be put: nothing is put, and the files are those of the run whose text was put.
fn check_put(rt: &impl Abort, alloc: Global, line: &str) -> Result<(), AllocError> {
    let files = protected(alloc, 20_480, 32)?;
    let mut whole = copied(alloc, &files)?;
    let mut rack = rack_of(alloc, drive(alloc, 10, None, None)?, None)?;
    let mut out = MemorySink::new(alloc);
    let status = run_line(alloc, line, &mut whole, &mut rack, &mut out)?;
    assert_eq!(rt; (status, out.faults()), (0, 0), "{line}");
    let mut desk = copied(alloc, &files)?;
    let mut rack = rack_of(alloc, drive(alloc, 10, None, None)?, None)?;
    let mut out = MemorySink::new(alloc);
    out.fail_put(0);
    let status = run_line(alloc, line, &mut desk, &mut rack, &mut out)?;
    assert_eq!(rt;
        (status, out.faults(), out.bytes().len()),
        (6, 1, 0),
        "{line}"
    );
    for name in NAMES {
        assert!(rt; desk.file(name) == whole.file(name), "{line}: {name}");
    }
    Ok(())
}

#[test]
fn first_texts_that_are_not_put(rt: HostRuntime) -> Result<(), Fail> {
    for line in [
        "create disc.iso other.ecc",
        "fix disc.iso disc.ecc",
        "verify disc.iso disc.ecc",
        "scan disc.ecc --drive d",
        "read new.iso --drive d",
        "read new.iso disc.ecc --drive d --adaptive",
        "demo 3 9 8 2",
    ] {
        check_put(&rt, rt.alloc(), line)?;
    }
    Ok(())
}

// The third write fails. The 100 bytes of sector 12 that it keeps are all that differ, so five sectors are left.
#[test]
fn interrupted_repair(rt: HostRuntime) -> Result<(), Fail> {
    let mut files = protected(rt.alloc(), 505_856, 8)?;
    assert!(rt; mark(&mut files, 10, 17));
    let mut desk = copied(rt.alloc(), &files)?;
    desk.fail_write(2);
    desk.keep_prefix(Some(100));
    for (status, want) in [
        (4, "rs01: writing a file failed\n"),
        (
            0,
            "fixed disc.iso\nrestored 5: 13-17\nlost 0: none\nstrange layers 0\nsurplus bytes 0\n",
        ),
    ] {
        let ran = puts(rt.alloc(), "fix disc.iso disc.ecc", &mut desk, want)?;
        assert_eq!(rt; ran, (status, true));
    }
    assert!(rt; is_blank(&desk, "disc.iso", 505_856));
    Ok(())
}
