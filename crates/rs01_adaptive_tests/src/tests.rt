//! Reading by turns from scripted drives into images in memory.
use rs01_adaptive::read_adaptive_one;
use rs01_fakes::{MemoryDesk, Script, ScriptDrive, sample_desk};
use rs01_linear::ReadRefusal;
use rs01_outside::Drive;
use rs01_rack::Rack;
use rs01_report::ReadReport;
use rs01_sums::marker;
use std::alloc::{AllocError, Global};
use std::process::Abort;
use std::test::Fail;

// One drive of ten sectors of zeros that fails at some of them.
fn rack_with(alloc: Global, faults: &[u32]) -> Result<Rack, AllocError> {
    let mut drive = ScriptDrive::new(alloc, 10)?;
    for sector in 0..10u32 {
        if faults.contains(&sector) {
            drive.steady(alloc, sector, Script::Fault)?;
        }
    }
    let mut drives: Vec<Box<dyn Drive>> = Vec::new(alloc);
    drives.push(Box::new(alloc, drive)?)?;
    Rack::new(alloc, drives)
}

// Whether the drive was asked for these sectors, in this order.
fn was_asked(rack: &Rack, sectors: &[u32]) -> bool {
    if rack.drives() == 0 {
        return false;
    }
    let mut place = 0u64;
    for sector in sectors {
        if rack.asked_at(0, place) != Some(*sector) {
            return false;
        }
        place = place.saturating_add(1);
    }
    rack.asked_at(0, place).is_none()
}

// A reading of the sample's medium: whether its error correction file is given, the sectors that the image file has marked
// where it is there, the bytes behind the image, the sectors that the drive fails to read, and what is told.
#[derive(Clone, Copy)]
struct Row {
    protected: bool,
    marked: Option<&'static [u32]>,
    surplus: usize,
    faults: &'static [u32],
    asks: &'static [u32],
    kept: u32,
    read: u32,
    not_asked: &'static [u32],
    restored: &'static [u32],
    lost: &'static [u32],
}

// An image file of ten sectors of zeros, some of which have their markers, and some bytes more.
fn put_image(alloc: Global, desk: &mut MemoryDesk, row: Row) -> Result<(), AllocError> {
    let Some(marked) = row.marked else {
        return Ok(());
    };
    let mut bytes = Vec::new(alloc);
    for sector in 0..10u32 {
        let mut block = [0u8; 2048];
        if marked.contains(&sector) {
            marker(sector, &mut block);
        }
        bytes.extend_from_slice(&block)?;
    }
    for _byte in 0..row.surplus {
        bytes.push(7)?;
    }
    desk.put_file(alloc, "new.iso", &bytes)
}

// Whether a report tells what the row does.
fn is_told(report: &ReadReport, row: Row) -> bool {
    report.sectors == 10
        && report.asked == row.asks.len() as u64
        && (report.kept, report.read) == (row.kept, row.read)
        && report.altered.items().is_empty()
        && report.not_asked.items() == row.not_asked
        && report.restored.items() == row.restored
        && report.lost.items() == row.lost
        && report.strange.items().is_empty()
        && report.surplus == row.surplus as u64
}

#[test]
fn media_read_by_turns(rt: HostRuntime) -> Result<(), Fail> {
    for row in [
        Row {
            protected: false,
            marked: None,
            surplus: 0,
            faults: &[4],
            asks: &[0, 1, 2, 3, 4, 7, 8, 9, 6, 5],
            kept: 0,
            read: 9,
            not_asked: &[],
            restored: &[],
            lost: &[4],
        },
        Row {
            protected: true,
            marked: None,
            surplus: 0,
            faults: &[],
            asks: &[0, 1],
            kept: 0,
            read: 2,
            not_asked: &[2, 3, 4, 5, 6, 7, 8, 9],
            restored: &[2, 3, 4, 5, 6, 7, 8, 9],
            lost: &[],
        },
        Row {
            protected: true,
            marked: None,
            surplus: 0,
            faults: &[0],
            asks: &[0, 5, 6],
            kept: 0,
            read: 2,
            not_asked: &[1, 2, 3, 4, 7, 8, 9],
            restored: &[0, 1, 2, 3, 4, 7, 8, 9],
            lost: &[],
        },
        Row {
            protected: true,
            marked: None,
            surplus: 0,
            faults: &[0, 1, 2, 3, 4, 5, 6, 7, 8],
            asks: &[0, 5, 3, 8, 2, 7, 1, 4, 6, 9],
            kept: 0,
            read: 1,
            not_asked: &[],
            restored: &[],
            lost: &[0, 1, 2, 3, 4, 5, 6, 7, 8],
        },
        Row {
            protected: true,
            marked: Some(&[3]),
            surplus: 5,
            faults: &[3],
            asks: &[],
            kept: 9,
            read: 0,
            not_asked: &[3],
            restored: &[3],
            lost: &[],
        },
        Row {
            protected: false,
            marked: Some(&[3, 7, 8]),
            surplus: 0,
            faults: &[7],
            asks: &[8, 3, 7],
            kept: 7,
            read: 2,
            not_asked: &[],
            restored: &[],
            lost: &[7],
        },
    ] {
        let alloc = rt.alloc();
        let mut desk = sample_desk(alloc)?;
        put_image(alloc, &mut desk, row)?;
        let mut rack = rack_with(alloc, row.faults)?;
        let ecc = if row.protected {
            Some("disc.ecc")
        } else {
            None
        };
        let Ok(report) = read_adaptive_one(alloc, &mut rack, &mut desk, "new.iso", ecc, 1) else {
            panic!(rt; "refused");
        };
        assert!(rt; is_told(&report, row));
        assert!(rt; was_asked(&rack, row.asks));
        let Some(left) = desk.file("new.iso") else {
            panic!(rt; "no image");
        };
        assert_eq!(rt; left.len(), 20_480usize.saturating_add(row.surplus));
        let zeros = desk.file("disc.iso");
        assert_eq!(rt; left.get(..20_480) == zeros, row.lost.is_empty());
    }
    Ok(())
}

#[test]
fn a_read_that_fails_is_told(rt: HostRuntime) -> Result<(), Fail> {
    let alloc = rt.alloc();
    for (call, wanted, asks) in [(0, Some(ReadRefusal::ReadFault), 0), (1000, None, 2)] {
        let mut desk = sample_desk(alloc)?;
        desk.fail_call(call);
        let mut rack = rack_with(alloc, &[])?;
        let given = read_adaptive_one(alloc, &mut rack, &mut desk, "new.iso", Some("disc.ecc"), 1);
        assert_eq!(rt; given.err(), wanted);
        assert_eq!(rt; rack.asks(), asks);
    }
    Ok(())
}

// The first write lays the markers, the next two are of the sectors that are read, and the eleventh is of the last restored one. What
// a broken reading left to be restored, a second one restores.
#[test]
fn a_write_that_fails_is_told(rt: HostRuntime) -> Result<(), Fail> {
    let alloc = rt.alloc();
    for (write, asks, all) in [(0, 0, 2), (1, 1, 3), (10, 2, 2)] {
        let mut desk = sample_desk(alloc)?;
        desk.fail_write(write);
        let mut rack = rack_with(alloc, &[])?;
        let given = read_adaptive_one(alloc, &mut rack, &mut desk, "new.iso", Some("disc.ecc"), 1);
        assert_eq!(rt; given.err(), Some(ReadRefusal::WriteFault));
        assert_eq!(rt; rack.asks(), asks);
        assert_eq!(rt; desk.file("new.iso") == desk.file("disc.iso"), false);
        let Ok(_) = read_adaptive_one(alloc, &mut rack, &mut desk, "new.iso", Some("disc.ecc"), 1)
        else {
            panic!(rt; "refused");
        };
        assert_eq!(rt; desk.file("new.iso") == desk.file("disc.iso"), true);
        assert_eq!(rt; rack.asks(), all);
    }
    Ok(())
}
