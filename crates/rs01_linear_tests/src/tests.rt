//! Reading from scripted drives into images in memory.
use rs01_fakes::{MemoryDesk, Script, ScriptDrive};
use rs01_layers::{Bytes, Extent};
use rs01_linear::{Asked, ReadRefusal, ask_sector, read_linear};
use rs01_outside::Drive;
use rs01_rack::{Rack, RackRefusal};
use rs01_report::ReadReport;
use rs01_sums::{Sums, crc32, marker};
use std::alloc::{AllocError, Global};
use std::process::Abort;
use std::test::Fail;

// The marker of a sector, as an answer.
fn marked(alloc: Global, sector: u32) -> Result<Script, AllocError> {
    let mut block = [0u8; 2048];
    marker(sector, &mut block);
    Ok(Script::Block(Bytes::of(block.to_vec(alloc)?)))
}

// An image of so many sectors, each of which begins with its number and one more.
fn image(alloc: Global, sectors: u8) -> Result<Vec<u8>, AllocError> {
    let mut bytes = Vec::new(alloc);
    for sector in 0..sectors {
        for place in 0..2048u32 {
            bytes.push(if place == 0 {
                sector.saturating_add(1)
            } else {
                0
            })?;
        }
    }
    Ok(bytes)
}

// What is told: the asks, the kept and the read sectors, and the lists.
fn is_told(
    report: &ReadReport,
    counts: (u64, u32, u32),
    unreadable: &[u32],
    altered: &[u32],
    not_asked: &[u32],
    lost: &[u32],
) -> bool {
    (report.asked, report.kept, report.read) == counts
        && report.unreadable.items() == unreadable
        && report.altered.items() == altered
        && report.not_asked.items() == not_asked
        && report.lost.items() == lost
        && report.restored.items().is_empty()
        && report.strange.items().is_empty()
}

// Whether the drive at a place was asked for these sectors, in this order.
fn was_asked(rack: &Rack, drive: usize, sectors: &[u32]) -> bool {
    if drive >= rack.drives() {
        return false;
    }
    let mut place = 0u64;
    for sector in sectors {
        if rack.asked_at(drive, place) != Some(*sector) {
            return false;
        }
        place = place.saturating_add(1);
    }
    rack.asked_at(drive, place).is_none()
}

// Whether two files have the same bytes from a place to another.
fn is_same(one: &[u8], other: &[u8], from: usize, to: usize) -> bool {
    match (one.get(from..to), other.get(from..to)) {
        (Some(part), Some(other)) => part == other,
        _ => false,
    }
}

// Whether a file has the marker of a sector at its place.
fn has_marker(file: &[u8], sector: u32) -> bool {
    let mut block = [0u8; 2048];
    marker(sector, &mut block);
    let at = (sector as usize).saturating_mul(2048);
    match file.get(at..at.saturating_add(2048)) {
        Some(part) => part == block.as_slice(),
        None => false,
    }
}

#[test]
fn a_jump_and_a_second_drive(rt: HostRuntime) -> Result<(), Fail> {
    let alloc = rt.alloc();
    let whole = image(alloc, 10)?;
    let mut desk = MemoryDesk::new(alloc);
    let mut bad = ScriptDrive::new(alloc, 10)?;
    bad.load(alloc, &whole)?;
    bad.steady(alloc, 3, Script::Fault)?;
    let mut drives: Vec<Box<dyn Drive>> = Vec::new(alloc);
    drives.push(Box::new(alloc, bad)?)?;
    let mut rack = Rack::new(alloc, drives)?;
    let Ok(report) = read_linear(alloc, &mut rack, &mut desk, "disc.iso", None, 4, 1) else {
        panic!(rt; "refused");
    };
    assert!(rt; is_told(&report, (7, 0, 6), &[3], &[], &[4, 5, 6], &[3, 4, 5, 6]));
    assert!(rt; was_asked(&rack, 0, &[0, 1, 2, 3, 7, 8, 9]));
    assert_eq!(rt; rack.faults(), 1);
    let Some(left) = desk.file("disc.iso") else {
        panic!(rt; "no image");
    };
    assert_eq!(rt; left.len(), 20_480);
    assert!(rt; is_same(left, &whole, 0, 6144) && is_same(left, &whole, 14_336, 20_480));
    assert!(rt; has_marker(left, 3) && has_marker(left, 6) && !has_marker(left, 7));
    let mut good = ScriptDrive::new(alloc, 10)?;
    good.load(alloc, &whole)?;
    let mut drives: Vec<Box<dyn Drive>> = Vec::new(alloc);
    drives.push(Box::new(alloc, good)?)?;
    let mut rack = Rack::new(alloc, drives)?;
    let Ok(report) = read_linear(alloc, &mut rack, &mut desk, "disc.iso", None, 4, 1) else {
        panic!(rt; "refused");
    };
    assert!(rt; is_told(&report, (4, 6, 4), &[], &[], &[], &[]));
    assert!(rt; was_asked(&rack, 0, &[3, 4, 5, 6]));
    assert!(rt; desk.file("disc.iso") == Some(whole.as_slice()));
    Ok(())
}

#[test]
fn two_drives_and_two_tries(rt: HostRuntime) -> Result<(), Fail> {
    let alloc = rt.alloc();
    let mut desk = MemoryDesk::new(alloc);
    // An image that is there already: sector 0 is good, sector 1 is marked, and sector 2 is cut.
    let mut there = image(alloc, 1)?;
    let mut block = [0u8; 2048];
    marker(1, &mut block);
    there.extend_from_slice(&block)?;
    for _byte in 0..904 {
        there.push(0)?;
    }
    desk.put_file(alloc, "disc.iso", &there)?;
    let mut first = ScriptDrive::new(alloc, 8)?;
    first.steady(alloc, 5, Script::Fault)?;
    first.steady(alloc, 6, marked(alloc, 6)?)?;
    first.steady(alloc, 7, Script::Fault)?;
    let mut second = ScriptDrive::new(alloc, 8)?;
    second.steady(alloc, 7, marked(alloc, 7)?)?;
    let mut drives: Vec<Box<dyn Drive>> = Vec::new(alloc);
    drives.push(Box::new(alloc, first)?)?;
    drives.push(Box::new(alloc, second)?)?;
    let mut rack = Rack::new(alloc, drives)?;
    let Ok(report) = read_linear(alloc, &mut rack, &mut desk, "disc.iso", None, 1, 2) else {
        panic!(rt; "refused");
    };
    assert!(rt; is_told(&report, (12, 1, 6), &[], &[7], &[], &[7]));
    assert!(rt; was_asked(&rack, 0, &[1, 2, 3, 4, 5, 5, 6, 7, 7]));
    assert!(rt; was_asked(&rack, 1, &[5, 6, 7]));
    assert_eq!(rt; rack.faults(), 4);
    Ok(())
}

#[test]
fn media_that_are_refused(rt: HostRuntime) -> Result<(), Fail> {
    let alloc = rt.alloc();
    for (count, second, failing, wanted) in [
        (0, 0, 9, ReadRefusal::Rack(RackRefusal::NoDrive)),
        (1, 0, 9, ReadRefusal::DriveSize(0)),
        (2, 11, 9, ReadRefusal::Rack(RackRefusal::Differ(10, 11))),
        (2, 11, 0, ReadRefusal::Rack(RackRefusal::Failed(0))),
        (2, 10, 1, ReadRefusal::Rack(RackRefusal::Failed(1))),
    ] {
        let mut desk = MemoryDesk::new(alloc);
        let mut drives: Vec<Box<dyn Drive>> = Vec::new(alloc);
        for place in 0..2 {
            let number = if count == 1 {
                0
            } else if place == 0 {
                10
            } else {
                second
            };
            let mut drive = ScriptDrive::new(alloc, number)?;
            if place == failing {
                drive.fail_sectors();
            }
            if place < count {
                drives.push(Box::new(alloc, drive)?)?;
            }
        }
        assert!(rt; drives.len() <= 2);
        let mut rack = Rack::new(alloc, drives)?;
        let Err(why) = read_linear(alloc, &mut rack, &mut desk, "disc.iso", None, 1, 1) else {
            panic!(rt; "read");
        };
        assert_eq!(rt; why, wanted);
        assert!(rt; desk.file("disc.iso").is_none());
        assert_eq!(rt; rack.asks(), 0);
    }
    Ok(())
}

#[test]
fn each_call_of_the_desk_fails_once(rt: HostRuntime) -> Result<(), Fail> {
    let alloc = rt.alloc();
    for (sectors, call, wanted, asks) in [
        (10, 0, Some(ReadRefusal::ReadFault), 0),
        (10, 1, Some(ReadRefusal::WriteFault), 0),
        (10, 2, Some(ReadRefusal::ReadFault), 0),
        (10, 3, Some(ReadRefusal::WriteFault), 0),
        (10, 4, Some(ReadRefusal::WriteFault), 10),
        (10, 5, None, 10),
        // Three reads, three runs of markers, and then three of sectors.
        (130, 7, Some(ReadRefusal::WriteFault), 0),
        (130, 8, Some(ReadRefusal::WriteFault), 64),
        (130, 10, Some(ReadRefusal::WriteFault), 130),
        (130, 11, None, 130),
    ] {
        let mut desk = MemoryDesk::new(alloc);
        desk.fail_call(call);
        let mut drives: Vec<Box<dyn Drive>> = Vec::new(alloc);
        drives.push(Box::new(alloc, ScriptDrive::new(alloc, sectors)?)?)?;
        let mut rack = Rack::new(alloc, drives)?;
        let given = read_linear(alloc, &mut rack, &mut desk, "disc.iso", None, 1, 1);
        assert_eq!(rt; given.err(), wanted);
        assert_eq!(rt; rack.asks(), asks);
    }
    Ok(())
}

#[test]
fn a_last_sector_of_one_byte(rt: HostRuntime) -> Result<(), Fail> {
    let alloc = rt.alloc();
    let extent = Extent {
        sectors: 2,
        last_bytes: 1,
    };
    let mut whole = [0u8; 2048];
    whole[0] = 7;
    for (sum, wanted) in [(crc32(&whole), Asked::Read), (5, Asked::Altered)] {
        let mut sums = Sums::new(alloc, 2)?;
        sums.push_reserved(0);
        sums.push_reserved(sum);
        let mut drive = ScriptDrive::new(alloc, 2)?;
        // The drive gives more bytes than the sector has.
        let long = Script::Block(Bytes::of([7u8; 2048].to_vec(alloc)?));
        drive.steady(alloc, 1, long)?;
        let mut drives: Vec<Box<dyn Drive>> = Vec::new(alloc);
        drives.push(Box::new(alloc, drive)?)?;
        let mut rack = Rack::new(alloc, drives)?;
        let mut block = [9u8; 2048];
        let asked = ask_sector(&mut rack, &extent, Some(&sums), 1, 2, &mut block);
        assert_eq!(rt; asked, wanted);
        assert!(rt; block == whole);
        assert_eq!(rt; rack.asks(), 1);
    }
    Ok(())
}
