//! Readings by turns.
use super::layers::change;
use super::workers::run_shared;
use super::{protected, run_line};
use rs01_fakes::{MeetDrive, MeetGate, MemoryDesk, MemorySink, Script, ScriptDrive};
use rs01_outside::{Drive, OpenGate};
use rs01_rack::Rack;
use std::alloc::{AllocError, Global};
use std::process::Abort;
use std::sync::Arc;
use std::test::Fail;

// Whether a sector is in one of these runs, each told by its first sector and the one behind its last.
fn is_in(runs: &[(u32, u32)], sector: u32) -> bool {
    for (first, past) in runs {
        if *first <= sector && sector < *past {
            return true;
        }
    }
    false
}

// A drive of so many sectors of zeros that fails at some of them.
fn rack_with(alloc: Global, sectors: u32, faults: &[(u32, u32)]) -> Result<Rack, AllocError> {
    let mut drive = ScriptDrive::new(alloc, sectors)?;
    for sector in 0..sectors {
        if is_in(faults, sector) {
            drive.steady(alloc, sector, Script::Fault)?;
        }
    }
    let mut drives: Vec<Box<dyn Drive>> = Vec::new(alloc);
    drives.push(Box::new(alloc, drive)?)?;
    Rack::new(alloc, drives)
}

// Whether the first drive was asked for these runs of sectors, each told by its first and its last one, in this order.
fn was_asked(rack: &Rack, runs: &[(u32, u32)]) -> bool {
    if rack.drives() == 0 {
        return false;
    }
    let mut place = 0u64;
    for (first, last) in runs {
        for sector in *first..last.saturating_add(1) {
            if rack.asked_at(0, place) != Some(sector) {
                return false;
            }
            place = place.saturating_add(1);
        }
    }
    rack.asked_at(0, place).is_none()
}

// A reading of a medium of zeros: its sectors, the parity of the error correction file and a byte of it that was changed,
// the words, the sectors that the drive fails to read, the asks, the status and what is put.
#[derive(Clone, Copy)]
struct Row {
    sectors: u32,
    parity: u32,
    changed: Option<u64>,
    line: &'static str,
    faults: &'static [(u32, u32)],
    asks: &'static [(u32, u32)],
    status: u8,
    want: &'static str,
}

// Whether the report was put, and the drive was asked so.
fn is_as_wanted(row: Row, out: &MemorySink, rack: &Rack) -> bool {
    out.bytes() == row.want.as_bytes() && was_asked(rack, row.asks)
}

#[test]
fn media_read_by_turns(rt: HostRuntime) -> Result<(), Fail> {
    for row in [
        Row {
            sectors: 10,
            parity: 32,
            changed: None,
            line: "read new.iso --drive d --adaptive",
            faults: &[(4, 5)],
            asks: &[(0, 4), (7, 9), (6, 6), (5, 5)],
            status: 1,
            want: "read new.iso\nsectors 10\nasked 10\nkept 0\nread 9\nunreadable 1: 4\naltered 0: none\nnot asked 0: none\nrestored 0: none\nlost 1: 4\nstrange layers 0\nsurplus bytes 0\n",
        },
        Row {
            sectors: 20,
            parity: 32,
            changed: None,
            line: "read new.iso disc.ecc --drive d --adaptive",
            faults: &[],
            asks: &[],
            status: 0,
            want: "read new.iso\nsectors 20\nasked 0\nkept 0\nread 0\nunreadable 0: none\naltered 0: none\nnot asked 20: 0-19\nrestored 20: 0-19\nlost 0: none\nstrange layers 0\nsurplus bytes 0\n",
        },
        Row {
            sectors: 223,
            parity: 32,
            changed: None,
            line: "read new.iso disc.ecc --drive d --adaptive",
            faults: &[],
            asks: &[(0, 190)],
            status: 0,
            want: "read new.iso\nsectors 223\nasked 191\nkept 0\nread 191\nunreadable 0: none\naltered 0: none\nnot asked 32: 191-222\nrestored 32: 191-222\nlost 0: none\nstrange layers 0\nsurplus bytes 0\n",
        },
        Row {
            sectors: 223,
            parity: 32,
            changed: None,
            line: "read new.iso disc.ecc --drive d --adaptive",
            faults: &[(3, 4)],
            asks: &[(0, 3), (113, 222), (58, 112), (31, 53)],
            status: 0,
            want: "read new.iso\nsectors 223\nasked 192\nkept 0\nread 191\nunreadable 1: 3\naltered 0: none\nnot asked 31: 4-30,54-57\nrestored 32: 3-30,54-57\nlost 0: none\nstrange layers 0\nsurplus bytes 0\n",
        },
        Row {
            sectors: 247,
            parity: 8,
            changed: None,
            line: "read new.iso disc.ecc --drive d --adaptive",
            faults: &[(238, 247)],
            asks: &[
                (0, 238),
                (243, 243),
                (241, 241),
                (245, 245),
                (240, 240),
                (239, 239),
                (242, 242),
                (244, 244),
                (246, 246),
            ],
            status: 1,
            want: "read new.iso\nsectors 247\nasked 247\nkept 0\nread 238\nunreadable 9: 238-246\naltered 0: none\nnot asked 0: none\nrestored 0: none\nlost 9: 238-246\nstrange layers 0\nsurplus bytes 0\n",
        },
        Row {
            sectors: 446,
            parity: 32,
            changed: None,
            line: "read new.iso disc.ecc --drive d --adaptive",
            faults: &[],
            asks: &[(0, 381)],
            status: 0,
            want: "read new.iso\nsectors 446\nasked 382\nkept 0\nread 382\nunreadable 0: none\naltered 0: none\nnot asked 64: 382-445\nrestored 64: 382-445\nlost 0: none\nstrange layers 0\nsurplus bytes 0\n",
        },
        Row {
            sectors: 247,
            parity: 8,
            changed: Some(4096 + 4 * 247 + 8 * 5),
            line: "read disc.iso disc.ecc --drive d --adaptive",
            faults: &[],
            asks: &[],
            status: 1,
            want: "read disc.iso\nsectors 247\nasked 0\nkept 247\nread 0\nunreadable 0: none\naltered 0: none\nnot asked 0: none\nrestored 0: none\nlost 0: none\nstrange layers 1\nlayer 0: codeword 5 disagrees\nsurplus bytes 0\n",
        },
    ] {
        let alloc = rt.alloc();
        let bytes = (row.sectors as usize).saturating_mul(2048);
        let mut desk = protected(alloc, bytes, row.parity)?;
        if let Some(at) = row.changed {
            assert!(rt; change(&mut desk, at));
        }
        let mut rack = rack_with(alloc, row.sectors, row.faults)?;
        let mut out = MemorySink::new(alloc);
        let status = run_line(alloc, row.line, &mut desk, &mut rack, &mut out)?;
        assert_eq!(rt; status, row.status, "{} sectors", row.sectors);
        assert!(rt; is_as_wanted(row, &out, &rack), "{} sectors", row.sectors);
        let same = desk.file("new.iso") == desk.file("disc.iso");
        assert_eq!(rt; same, row.status == 0, "{} sectors", row.sectors);
    }
    Ok(())
}

// Whether two racks' first drives were asked for the same sectors in the same order.
fn were_asked_alike(one: &Rack, other: &Rack) -> bool {
    if one.drives() == 0 || other.drives() == 0 {
        return false;
    }
    let mut alike = one.asks() == other.asks();
    for place in 0u64..1000 {
        alike &= one.asked_at(0, place) == other.asked_at(0, place);
    }
    alike
}

#[test]
fn media_read_by_several_workers(rt: HostRuntime) -> Result<(), Fail> {
    let alloc = rt.alloc();
    let cases: [&[(u32, u32)]; 3] = [&[], &[(3, 4), (100, 120)], &[(200, 280)]];
    for faults in cases {
        let mut one = protected(alloc, 913_408, 32)?;
        let mut first = rack_with(alloc, 446, faults)?;
        let line = "read new.iso disc.ecc --drive d --adaptive";
        let mut want = MemorySink::new(alloc);
        let status = run_line(alloc, line, &mut one, &mut first, &mut want)?;
        for workers in [1u32, 2, 7, 32] {
            let mut desk = protected(alloc, 913_408, 32)?;
            let mut rack = rack_with(alloc, 446, faults)?;
            let shared = format!(in alloc; "{line} --workers {workers}")?;
            let mut out = MemorySink::new(alloc);
            let ran = run_shared(
                &rt, alloc, &shared, &mut desk, &mut rack, &mut out, &OpenGate,
            )?;
            assert_eq!(rt; ran, status, "{workers} workers");
            assert!(rt; out.bytes() == want.bytes(), "{workers} workers");
            assert!(rt;
                desk.file("new.iso") == one.file("new.iso"),
                "{workers} workers"
            );
            assert!(rt; were_asked_alike(&rack, &first), "{workers} workers");
        }
    }
    Ok(())
}

// The reader waits at the sector by which the second layer comes within its bound, until a worker took the first one.
#[test]
fn worker_beside_reader(rt: HostRuntime) -> Result<(), Fail> {
    let alloc = rt.alloc();
    let gate = Arc::new(alloc, MeetGate::new())?;
    let inner = ScriptDrive::new(alloc, 446)?;
    let mut drives: Vec<Box<dyn Drive>> = Vec::new(alloc);
    let drive = MeetDrive::new(inner, Arc::try_clone(&gate)?, 381);
    drives.push(Box::new(alloc, drive)?)?;
    let mut rack = Rack::new(alloc, drives)?;
    let mut desk = protected(alloc, 913_408, 32)?;
    let line = "read new.iso disc.ecc --drive d --adaptive --workers 2";
    let mut out = MemorySink::new(alloc);
    let status = run_shared(&rt, alloc, line, &mut desk, &mut rack, &mut out, &*gate)?;
    assert_eq!(rt; status, 0);
    assert!(rt; gate.waited() && gate.met());
    assert!(rt; was_asked(&rack, &[(0, 381)]));
    assert!(rt; desk.file("new.iso") == desk.file("disc.iso"));
    Ok(())
}
