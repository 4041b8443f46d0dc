//! Runs that ask drives: scans, and readings into an image.
use super::{image_with, is_blank, no_drives, protected, run_line, size_of};
use rs01_fakes::{MemoryDesk, MemorySink, Script, ScriptDrive};
use rs01_outside::{Desk, Drive};
use rs01_rack::Rack;
use std::alloc::{AllocError, Global};
use std::process::Abort;
use std::test::Fail;

// A drive of zeros: so many sectors, one that it fails to read, and a byte that isn't 0.
pub fn drive(
    alloc: Global,
    sectors: u32,
    fault: Option<u32>,
    altered: Option<usize>,
) -> Result<ScriptDrive, AllocError> {
    let mut drive = ScriptDrive::new(alloc, sectors)?;
    if let Some(at) = altered {
        let image = image_with(alloc, at.saturating_add(1), at, &[1])?;
        drive.load(alloc, &image)?;
    }
    if let Some(sector) = fault {
        if sector < sectors {
            drive.steady(alloc, sector, Script::Fault)?;
        }
    }
    Ok(drive)
}

// One drive or two.
pub fn rack_of(
    alloc: Global,
    first: ScriptDrive,
    second: Option<ScriptDrive>,
) -> Result<Rack, AllocError> {
    let mut drives: Vec<Box<dyn Drive>> = Vec::new(alloc);
    drives.push(Box::new(alloc, first)?)?;
    if let Some(second) = second {
        drives.push(Box::new(alloc, second)?)?;
    }
    Rack::new(alloc, drives)
}

// Runs a line with drives, and tells the status and whether these bytes were put.
fn asks(
    alloc: Global,
    line: &str,
    desk: &mut MemoryDesk,
    rack: &mut Rack,
    want: &str,
) -> Result<(u8, bool), AllocError> {
    let mut out = MemorySink::new(alloc);
    let status = run_line(alloc, line, desk, rack, &mut out)?;
    Ok((status, out.bytes() == want.as_bytes()))
}

// The same beside the file of an image of so many zeros.
fn scans(
    alloc: Global,
    bytes: usize,
    line: &str,
    rack: &mut Rack,
    want: &str,
) -> Result<(u8, bool), AllocError> {
    let mut desk = protected(alloc, bytes, 32)?;
    asks(alloc, line, &mut desk, rack, want)
}

// A scan: the bytes of the protected image, the words, a drive and maybe another one, by its sectors, the one that it
// fails to read, and where it has a byte that isn't 0; the status, and what is put.
#[derive(Clone, Copy)]
struct Scanned {
    bytes: usize,
    line: &'static str,
    first: (u32, Option<u32>, Option<usize>),
    second: Option<(u32, Option<u32>, Option<usize>)>,
    status: u8,
    want: &'static str,
}

const WITHOUT_FILE: Scanned = Scanned {
    bytes: 20_480,
    line: "scan --drive d",
    first: (10, None, None),
    second: None,
    status: 0,
    want: "scanned 10 sectors\nunreadable 0: none\naltered 0: none\n",
};

const WITH_FILE: Scanned = Scanned {
    line: "scan disc.ecc --drive d",
    ..WITHOUT_FILE
};

const TWO_DRIVES: Scanned = Scanned {
    line: "scan disc.ecc --drive a --drive b",
    ..WITHOUT_FILE
};

fn check_scan(rt: &impl Abort, alloc: Global, row: &Scanned) -> Result<(), AllocError> {
    let first = drive(alloc, row.first.0, row.first.1, row.first.2)?;
    let second = match row.second {
        Some(second) => Some(drive(alloc, second.0, second.1, second.2)?),
        None => None,
    };
    let mut rack = rack_of(alloc, first, second)?;
    let ran = scans(alloc, row.bytes, row.line, &mut rack, row.want)?;
    assert_eq!(rt; ran, (row.status, true), "{} {}", row.line, row.want);
    Ok(())
}

// One sector that can't be read, or has a byte that the recorded checksum doesn't know.
#[test]
fn scanned_media(rt: HostRuntime) -> Result<(), Fail> {
    for row in [
        Scanned {
            first: (10, Some(3), None),
            status: 1,
            want: "scanned 10 sectors\nunreadable 1: 3\naltered 0: none\n",
            ..WITHOUT_FILE
        },
        Scanned {
            first: (10, Some(3), None),
            status: 1,
            want: "scanned 10 sectors\nunreadable 1: 3\naltered 0: none\nfullest layer 0: 1 of 32\nlayers beyond 0\n",
            ..WITH_FILE
        },
        Scanned {
            first: (10, None, Some(10_240)),
            status: 1,
            want: "scanned 10 sectors\nunreadable 0: none\naltered 1: 5\nfullest layer 0: 1 of 32\nlayers beyond 0\n",
            ..WITH_FILE
        },
        Scanned {
            first: (10, None, Some(10_240)),
            ..WITHOUT_FILE
        },
        Scanned {
            first: (9, None, None),
            status: 1,
            want: "scanned 10 sectors\nunreadable 1: 9\naltered 0: none\nfullest layer 0: 1 of 32\nlayers beyond 0\n",
            ..WITH_FILE
        },
    ] {
        check_scan(&rt, rt.alloc(), &row)?;
    }
    Ok(())
}

#[test]
fn scanned_by_two_drives(rt: HostRuntime) -> Result<(), Fail> {
    for row in [
        Scanned {
            first: (10, Some(3), None),
            second: Some((10, None, Some(10_240))),
            want: "scanned 10 sectors\nunreadable 0: none\naltered 0: none\nfullest layer 0: 0 of 32\nlayers beyond 0\n",
            ..TWO_DRIVES
        },
        Scanned {
            first: (10, Some(5), None),
            second: Some((10, None, Some(10_240))),
            status: 1,
            want: "scanned 10 sectors\nunreadable 0: none\naltered 1: 5\nfullest layer 0: 1 of 32\nlayers beyond 0\n",
            ..TWO_DRIVES
        },
    ] {
        check_scan(&rt, rt.alloc(), &row)?;
    }
    Ok(())
}

// The image's second sector has one byte. What stands behind it in the drive's block isn't looked at.
#[test]
fn scanned_last_sectors(rt: HostRuntime) -> Result<(), Fail> {
    for row in [
        Scanned {
            bytes: 2049,
            first: (2, None, Some(2049)),
            want: "scanned 2 sectors\nunreadable 0: none\naltered 0: none\nfullest layer 0: 0 of 32\nlayers beyond 0\n",
            ..WITH_FILE
        },
        Scanned {
            bytes: 2049,
            first: (2, None, Some(2048)),
            status: 1,
            want: "scanned 2 sectors\nunreadable 0: none\naltered 1: 1\nfullest layer 0: 1 of 32\nlayers beyond 0\n",
            ..WITH_FILE
        },
    ] {
        check_scan(&rt, rt.alloc(), &row)?;
    }
    Ok(())
}

#[test]
fn scans_that_are_refused(rt: HostRuntime) -> Result<(), Fail> {
    for row in [
        Scanned {
            line: "scan --drive a --drive b",
            second: Some((11, None, None)),
            status: 5,
            want: "rs01: drives differ: 10 and 11 sectors\n",
            ..WITHOUT_FILE
        },
        Scanned {
            first: (0, None, None),
            status: 5,
            want: "rs01: the medium has 0 sectors\n",
            ..WITHOUT_FILE
        },
        Scanned {
            line: "scan other.ecc --drive d",
            status: 3,
            want: "rs01: no error correction file\n",
            ..WITHOUT_FILE
        },
    ] {
        check_scan(&rt, rt.alloc(), &row)?;
    }
    Ok(())
}

#[test]
fn asks_of_a_scan(rt: HostRuntime) -> Result<(), Fail> {
    let one = drive(rt.alloc(), 10, Some(3), None)?;
    let other = drive(rt.alloc(), 10, Some(3), None)?;
    let mut rack = rack_of(rt.alloc(), one, Some(other))?;
    let want = "scanned 10 sectors\nunreadable 1: 3\naltered 0: none\n";
    let ran = scans(rt.alloc(), 1, "scan --drive a --drive b", &mut rack, want)?;
    assert_eq!(rt; ran, (1, true));
    assert!(rt; rack.drives() == 2);
    if rack.drives() == 2 {
        for (i, asked) in [(0, Some(0)), (3, Some(3)), (9, Some(9)), (10, None)] {
            assert_eq!(rt; rack.asked_at(0, i), asked);
        }
        assert_eq!(rt; (rack.asked_at(1, 0), rack.asked_at(1, 1)), (Some(3), None));
    }
    assert_eq!(rt; (rack.asks(), rack.faults()), (11, 2));
    let mut faulty = drive(rt.alloc(), 10, None, None)?;
    faulty.fail_sectors();
    let mut rack = rack_of(rt.alloc(), faulty, None)?;
    let want = "rs01: drive 0: size failed\n";
    let ran = scans(rt.alloc(), 1, "scan --drive d", &mut rack, want)?;
    assert_eq!(rt; ran, (5, true));
    let mut rack = no_drives(rt.alloc())?;
    let ran = scans(rt.alloc(), 1, "scan", &mut rack, "rs01: no drive\n")?;
    assert_eq!(rt; ran, (5, true));
    Ok(())
}

// A reading by a drive of 10 sectors: the words; the sector that it fails to read, and where it has a byte that isn't 0;
// where another drive has one, if there is another; the status, how many asks there were, one of the first drive, and
// what is put.
#[derive(Clone, Copy)]
struct ReadRow {
    line: &'static str,
    damage: (Option<u32>, Option<usize>),
    second: Option<usize>,
    status: u8,
    asks: u128,
    ask: (u64, Option<u32>),
    want: &'static str,
}

fn check_read(
    rt: &impl Abort,
    alloc: Global,
    desk: &mut MemoryDesk,
    row: &ReadRow,
) -> Result<(), AllocError> {
    let first = drive(alloc, 10, row.damage.0, row.damage.1)?;
    let second = match row.second {
        Some(place) => Some(drive(alloc, 10, None, Some(place))?),
        None => None,
    };
    let mut rack = rack_of(alloc, first, second)?;
    let ran = asks(alloc, row.line, desk, &mut rack, row.want)?;
    assert_eq!(rt; ran, (row.status, true), "{}", row.want);
    assert_eq!(rt; rack.asks(), row.asks, "{}", row.want);
    let drives = rack.drives();
    assert!(rt; drives > 0);
    if drives > 0 {
        assert_eq!(rt; rack.asked_at(0, row.ask.0), row.ask.1, "{}", row.want);
    }
    Ok(())
}

// The second line reads the image that the first one leaves.
#[test]
fn read_media(rt: HostRuntime) -> Result<(), Fail> {
    let mut desk = protected(rt.alloc(), 20_480, 32)?;
    for row in [
        ReadRow {
            line: "read new.iso --drive d --jump 4",
            damage: (Some(3), None),
            second: None,
            status: 1,
            asks: 7,
            ask: (4, Some(7)),
            want: "read new.iso\nsectors 10\nasked 7\nkept 0\nread 6\nunreadable 1: 3\naltered 0: none\nnot asked 3: 4-6\nrestored 0: none\nlost 4: 3-6\nstrange layers 0\nsurplus bytes 0\n",
        },
        ReadRow {
            line: "read new.iso --drive d",
            damage: (None, None),
            second: None,
            status: 0,
            asks: 4,
            ask: (0, Some(3)),
            want: "read new.iso\nsectors 10\nasked 4\nkept 6\nread 4\nunreadable 0: none\naltered 0: none\nnot asked 0: none\nrestored 0: none\nlost 0: none\nstrange layers 0\nsurplus bytes 0\n",
        },
        ReadRow {
            line: "read other.iso disc.ecc --drive a --drive b --tries 2",
            damage: (Some(3), Some(14_336)),
            second: Some(14_336),
            status: 1,
            asks: 13,
            ask: (4, Some(3)),
            want: "read other.iso\nsectors 10\nasked 13\nkept 0\nread 9\nunreadable 0: none\naltered 1: 7\nnot asked 0: none\nrestored 0: none\nlost 1: 7\nstrange layers 0\nsurplus bytes 0\n",
        },
    ] {
        check_read(&rt, rt.alloc(), &mut desk, &row)?;
    }
    assert!(rt; is_blank(&desk, "new.iso", 20_480));
    Ok(())
}

#[test]
fn media_that_are_not_read(rt: HostRuntime) -> Result<(), Fail> {
    let mut desk = MemoryDesk::new(rt.alloc());
    let mut rack = no_drives(rt.alloc())?;
    let none = asks(
        rt.alloc(),
        "read new.iso",
        &mut desk,
        &mut rack,
        "rs01: no drive\n",
    )?;
    assert_eq!(rt; none, (5, true));
    assert!(rt; desk.file("new.iso").is_none());
    let mut rack = rack_of(rt.alloc(), drive(rt.alloc(), 10, None, None)?, None)?;
    desk.fail_write(1);
    let ran = asks(
        rt.alloc(),
        "read new.iso --drive d",
        &mut desk,
        &mut rack,
        "rs01: writing a file failed\n",
    )?;
    assert_eq!(rt; ran, (4, true));
    assert_eq!(rt; size_of(&desk, "new.iso"), Some(20_480));
    assert_eq!(rt; (rack.asks(), desk.write_faults()), (10, 1));
    Ok(())
}
