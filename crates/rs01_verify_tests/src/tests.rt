//! A small image, checked whole and changed.
use rs01_ecchead::{HeadRefusal, Which};
use rs01_fakes::{MemoryDesk, sample_desk, sample_ecc};
use rs01_outside::Desk;
use rs01_report::{Mark, VerifyReport};
use rs01_verify::*;
use std::alloc::Global;
use std::process::Abort;
use std::test::Fail;

mod scanning;

// A file is cut, and then bytes are put at a place of it.
fn change(desk: &mut MemoryDesk, name: &str, len: u64, at: u64, bytes: &[u8]) -> bool {
    desk.cut(name, len).is_ok() && desk.write_at(name, at, bytes).is_ok()
}

fn check(alloc: Global, desk: &mut MemoryDesk) -> Result<VerifyReport, VerifyRefusal> {
    verify(alloc, desk, "disc.iso", "disc.ecc")
}

#[derive(Clone, Copy)]
struct Row {
    // how the image is cut, and the bytes that are put at a place of it
    len: u64,
    at: u64,
    bytes: &'static [u8],
    missing: &'static [u32],
    altered: &'static [u32],
    surplus: u64,
    fingerprint: Mark,
    image: Mark,
}

const WHOLE: Row = Row {
    len: 20_480,
    at: 0,
    bytes: b"",
    missing: &[],
    altered: &[],
    surplus: 0,
    fingerprint: Mark::Matches,
    image: Mark::Matches,
};

#[test]
fn images(rt: HostRuntime) -> Result<(), Fail> {
    for row in [
        WHOLE,
        Row {
            at: 4 * 2048 + 2047,
            bytes: b"!!",
            altered: &[4, 5],
            image: Mark::Differs,
            ..WHOLE
        },
        Row {
            at: 9 * 2048,
            bytes: b"!",
            altered: &[9],
            fingerprint: Mark::Differs,
            image: Mark::Differs,
            ..WHOLE
        },
        Row {
            at: 3 * 2048,
            bytes: b"rs01 missing sector 0000000003\n",
            missing: &[3],
            image: Mark::Differs,
            ..WHOLE
        },
        Row {
            len: 20_479,
            missing: &[9],
            fingerprint: Mark::Absent,
            image: Mark::Absent,
            ..WHOLE
        },
        Row {
            at: 20_480,
            bytes: b"surplus",
            surplus: 7,
            ..WHOLE
        },
    ] {
        let mut desk = sample_desk(rt.alloc())?;
        assert!(rt; change(&mut desk, "disc.iso", row.len, row.at, row.bytes));
        let report = check(rt.alloc(), &mut desk)?;
        assert!(rt; report.missing.items() == row.missing);
        assert!(rt; report.altered.items() == row.altered);
        let erased = row.missing.len().saturating_add(row.altered.len());
        assert!(rt; report.fullest.erased as usize == erased && report.fullest.beyond == 0);
        assert_eq!(rt; report.surplus, row.surplus);
        assert_eq!(rt;
            (report.fingerprint, report.image),
            (row.fingerprint, row.image)
        );
        assert_eq!(rt; (report.sectors, report.layers, report.parity), (10, 1, 8));
    }
    Ok(())
}

#[test]
fn refusals(rt: HostRuntime) -> Result<(), Fail> {
    // How the error correction file is cut, and the byte that is put in it.
    let cases: [(u64, u64, &[u8], VerifyRefusal); 3] = [
        (
            20_519,
            0,
            b"",
            VerifyRefusal::Size {
                have: 20_519,
                want: 20_520,
            },
        ),
        (
            4095,
            0,
            b"",
            VerifyRefusal::Size {
                have: 4095,
                want: 4096,
            },
        ),
        (20_520, 0, b"+", VerifyRefusal::Head(HeadRefusal::Cookie)),
    ];
    for (len, at, bytes, want) in cases {
        let mut desk = sample_desk(rt.alloc())?;
        assert!(rt; change(&mut desk, "disc.ecc", len, at, bytes));
        assert!(rt;
            check(rt.alloc(), &mut desk).err() == Some(want),
            "{len} bytes"
        );
    }
    let mut desk = MemoryDesk::new(rt.alloc());
    let absent = check(rt.alloc(), &mut desk).err();
    assert!(rt; absent == Some(VerifyRefusal::NoFile(Which::Ecc)));
    desk.put_file(rt.alloc(), "disc.ecc", &sample_ecc(rt.alloc())?)?;
    let absent = check(rt.alloc(), &mut desk).err();
    assert!(rt; absent == Some(VerifyRefusal::NoFile(Which::Image)));
    Ok(())
}

// The calls are size, header, checksums and parity of the one file, and size and bytes of the other.
#[test]
fn each_call_failing_in_turn(rt: HostRuntime) -> Result<(), Fail> {
    for call in 0..6 {
        let mut desk = sample_desk(rt.alloc())?;
        desk.fail_call(call);
        let refused = check(rt.alloc(), &mut desk).err();
        assert!(rt; refused == Some(VerifyRefusal::ReadFault), "call {call}");
        assert!(rt; desk.read_faults() == 1 && desk.write_faults() == 0);
    }
    let mut desk = sample_desk(rt.alloc())?;
    desk.fail_call(6);
    assert!(rt; check(rt.alloc(), &mut desk).is_ok());
    Ok(())
}
