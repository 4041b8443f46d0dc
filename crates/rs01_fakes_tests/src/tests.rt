use rs01_fakes::{MemoryDesk, MemorySink, Script, ScriptDrive, sample_desk, sample_ecc};
use rs01_layers::Bytes;
use rs01_outside::{Desk, Drive, Failed, Sink};
use std::alloc::{AllocError, Global};

mod meeting;

// Whether the file under a name is this one.
fn holds(desk: &MemoryDesk, name: &str, want: &[u8]) -> bool {
    match desk.file(name) {
        Some(bytes) => bytes == want,
        None => false,
    }
}

// Makes one of the five calls, by its number.
fn call(desk: &mut MemoryDesk, which: u8) -> Result<(), Failed> {
    let mut buffer = [0u8; 2];
    match which {
        0 => desk.size("file").map(|_| ()),
        1 => desk.read_at("file", 1, &mut buffer).map(|_| ()),
        2 => desk.write_at("file", 1, b"xy"),
        3 => desk.make("file"),
        _ => desk.cut("file", 2),
    }
}

#[test]
fn reads_what_was_put(rt: HostRuntime) -> Result<(), AllocError> {
    let mut desk = MemoryDesk::new(rt.alloc());
    assert!(rt; desk.file("disc").is_none());
    desk.put_file(rt.alloc(), "disc", b"old")?;
    desk.put_file(rt.alloc(), "disc", b"abcdef")?;
    assert!(rt; holds(&desk, "disc", b"abcdef"));
    assert!(rt; desk.size("disc") == Ok(Some(6)));
    assert!(rt; desk.size("Disc") == Ok(None));
    for (at, want) in [(0u64, 4usize), (2, 4), (4, 2), (6, 0), (u64::MAX, 0)] {
        let mut buffer = [b'-'; 4];
        assert!(rt;
            desk.read_at("disc", at, &mut buffer) == Ok(want),
            "at {at}"
        );
    }
    let mut buffer = [b'-'; 4];
    assert!(rt; desk.read_at("disc", 3, &mut buffer) == Ok(3));
    assert!(rt; &buffer == b"def-");
    assert!(rt; desk.read_at("absent", 0, &mut buffer) == Ok(0));
    assert!(rt; desk.read_faults() == 0 && desk.write_faults() == 0);
    Ok(())
}

#[test]
fn writes_makes_and_cuts(rt: HostRuntime) {
    let mut desk = MemoryDesk::new(rt.alloc());
    assert!(rt; desk.write_at("new", 2, b"ab") == Ok(()));
    assert!(rt; holds(&desk, "new", b"\0\0ab"));
    assert!(rt; desk.write_at("new", 1, b"xy") == Ok(()));
    assert!(rt; holds(&desk, "new", b"\0xyb"));
    assert!(rt; desk.write_at("new", 6, b"z") == Ok(()));
    assert!(rt; holds(&desk, "new", b"\0xyb\0\0z"));
    assert!(rt; desk.cut("new", 9) == Ok(()) && holds(&desk, "new", b"\0xyb\0\0z"));
    assert!(rt; desk.cut("new", 3) == Ok(()) && holds(&desk, "new", b"\0xy"));
    assert!(rt; desk.cut("absent", 3) == Ok(()) && desk.file("absent").is_none());
    assert!(rt; desk.make("new") == Ok(()) && holds(&desk, "new", b""));
    assert!(rt; desk.make("other") == Ok(()) && holds(&desk, "other", b""));
    assert!(rt; desk.read_faults() == 0 && desk.write_faults() == 0);
}

#[test]
fn a_marked_call_fails_once(rt: HostRuntime) -> Result<(), AllocError> {
    for (which, reads, writes) in [
        (0u8, 1u64, 0u64),
        (1, 1, 0),
        (2, 0, 1),
        (3, 0, 1),
        (4, 0, 1),
    ] {
        let mut desk = MemoryDesk::new(rt.alloc());
        desk.put_file(rt.alloc(), "file", b"abc")?;
        desk.fail_call(1);
        assert!(rt; desk.size("file") == Ok(Some(3)));
        assert!(rt; call(&mut desk, which) == Err(Failed), "call {which}");
        assert!(rt; holds(&desk, "file", b"abc"), "call {which}");
        assert!(rt;
            desk.read_faults() == reads && desk.write_faults() == writes,
            "call {which}"
        );
        assert!(rt; call(&mut desk, which) == Ok(()), "call {which}");
        assert!(rt;
            desk.read_faults() == reads && desk.write_faults() == writes,
            "call {which}"
        );
    }
    Ok(())
}

#[test]
fn a_marked_write_keeps_a_prefix(rt: HostRuntime) -> Result<(), AllocError> {
    for (kept, want) in [
        (None, b"abc".as_slice()),
        (Some(0u64), b"abc\0"),
        (Some(1), b"abc\0x"),
        (Some(9), b"abc\0xy"),
    ] {
        let mut desk = MemoryDesk::new(rt.alloc());
        desk.put_file(rt.alloc(), "file", b"abc")?;
        desk.fail_write(1);
        desk.keep_prefix(kept);
        assert!(rt; desk.write_at("other", 0, b"q") == Ok(()));
        assert!(rt; desk.size("file") == Ok(Some(3)));
        assert!(rt; desk.write_at("file", 4, b"xy") == Err(Failed));
        assert!(rt; holds(&desk, "file", want));
        assert!(rt; desk.write_faults() == 1 && desk.read_faults() == 0);
        assert!(rt; desk.write_at("file", 0, b"xyzxyz") == Ok(()));
        assert!(rt; holds(&desk, "file", b"xyzxyz"));
    }
    Ok(())
}

#[test]
fn a_sink_takes_what_is_put(rt: HostRuntime) {
    let mut sink = MemorySink::new(rt.alloc());
    sink.fail_put(1);
    assert!(rt; sink.put(b"ab") == Ok(()));
    assert!(rt; sink.put(b"cd") == Err(Failed) && sink.faults() == 1);
    assert!(rt; sink.put(b"ef") == Ok(()) && sink.faults() == 1);
    assert!(rt; sink.bytes() == b"abef".as_slice());
}

// So many bytes, all the same, as an answer.
fn same_bytes(alloc: Global, byte: u8, len: usize) -> Result<Script, AllocError> {
    Ok(Script::Block(Bytes::of(vec![in alloc; byte; len]?)))
}

// The first, second and last byte that a read gives, `None` for a fault.
fn answer(drive: &mut ScriptDrive, sector: u32) -> Option<[u8; 3]> {
    let mut block = [b'-'; 2048];
    match drive.read(sector, &mut block) {
        Ok(()) => Some([block[0], block[1], block[2047]]),
        Err(Failed) => None,
    }
}

#[test]
fn a_new_drive_answers_with_zeros(rt: HostRuntime) -> Result<(), AllocError> {
    let mut drive = ScriptDrive::new(rt.alloc(), 3)?;
    assert!(rt; drive.sectors() == Ok(3));
    assert!(rt; drive.asked_at(0) == None);
    for (sector, want) in [
        (0u32, Some([0u8; 3])),
        (2, Some([0; 3])),
        (3, None),
        (u32::MAX, None),
    ] {
        assert!(rt; answer(&mut drive, sector) == want, "sector {sector}");
    }
    for (ask, want) in [
        (0u64, Some(0u32)),
        (1, Some(2)),
        (2, Some(3)),
        (3, Some(u32::MAX)),
        (4, None),
        (u64::MAX, None),
    ] {
        assert!(rt; drive.asked_at(ask) == want, "ask {ask}");
    }
    assert!(rt; drive.faults() == 2);
    Ok(())
}

#[test]
fn an_image_is_loaded_by_blocks(rt: HostRuntime) -> Result<(), AllocError> {
    let alloc = rt.alloc();
    let mut image = vec![in alloc; b'a'; 2 * 2048 + 1]?;
    image[2048] = b'b';
    let mut drive = ScriptDrive::new(alloc, 4)?;
    drive.steady(alloc, 0, same_bytes(alloc, b'y', 2048)?)?;
    drive.steady(alloc, 3, same_bytes(alloc, b'z', 2048)?)?;
    drive.load(alloc, &image)?;
    let mut smaller = ScriptDrive::new(alloc, 2)?;
    smaller.load(alloc, &image)?;
    for (sector, want, want_smaller) in [
        (0u32, Some(*b"aaa"), Some(*b"aaa")),
        (1, Some(*b"baa"), Some(*b"baa")),
        (2, Some(*b"a\0\0"), None),
        (3, Some(*b"zzz"), None),
        (4, None, None),
    ] {
        assert!(rt; answer(&mut drive, sector) == want, "sector {sector}");
        assert!(rt;
            answer(&mut smaller, sector) == want_smaller,
            "sector {sector} of two"
        );
    }
    Ok(())
}

#[test]
fn coming_answers_are_used_up_in_order(rt: HostRuntime) -> Result<(), AllocError> {
    let alloc = rt.alloc();
    let mut drive = ScriptDrive::new(alloc, 2)?;
    drive.coming(alloc, 1, &[same_bytes(alloc, b'a', 2048)?, Script::Fault])?;
    drive.coming(alloc, 0, &[same_bytes(alloc, b'b', 2048)?])?;
    drive.coming(
        alloc,
        1,
        &[
            same_bytes(alloc, b'c', 2048)?,
            same_bytes(alloc, b'd', 2047)?,
        ],
    )?;
    drive.steady(alloc, 0, Script::Fault)?;
    drive.steady(alloc, 1, same_bytes(alloc, b'e', 2048)?)?;
    for (sector, want, faults) in [
        (1u32, Some(*b"aaa"), 0u64),
        (1, None, 1),
        (0, Some(*b"bbb"), 1),
        (2, None, 2),
        (1, Some(*b"ccc"), 2),
        (0, None, 3),
        (1, None, 4),
        (1, Some(*b"eee"), 4),
        (1, Some(*b"eee"), 4),
    ] {
        assert!(rt;
            answer(&mut drive, sector) == want && drive.faults() == faults,
            "sector {sector}, then {faults} faults"
        );
    }
    assert!(rt; drive.asked_at(2) == Some(0) && drive.asked_at(9) == None);
    Ok(())
}

#[test]
fn a_drive_without_its_number_still_reads(rt: HostRuntime) -> Result<(), AllocError> {
    let mut drive = ScriptDrive::new(rt.alloc(), 1)?;
    assert!(rt; drive.sectors() == Ok(1));
    drive.fail_sectors();
    assert!(rt; drive.sectors() == Err(Failed) && drive.faults() == 1);
    assert!(rt; answer(&mut drive, 0) == Some([0; 3]));
    assert!(rt; drive.sectors() == Err(Failed) && drive.faults() == 2);
    Ok(())
}

#[test]
fn each_ask_is_recorded_up_to_the_room_and_past_it(rt: HostRuntime) -> Result<(), AllocError> {
    let mut drive = ScriptDrive::new(rt.alloc(), 1)?;
    // Two reads of each sector, and 16 more.
    for ask in 0..18u64 {
        assert!(rt; drive.asked_at(ask) == None, "before ask {ask}");
        let wanted = if ask % 2 == 0 { Some([0; 3]) } else { None };
        assert!(rt; answer(&mut drive, (ask % 2) as u32) == wanted, "ask {ask}");
        assert!(rt;
            drive.asked_at(ask) == Some((ask % 2) as u32),
            "after ask {ask}"
        );
    }
    assert!(rt; drive.faults() == 9 && drive.asked_at(18) == None);
    assert!(rt; answer(&mut drive, 0) == Some([0; 3]));
    assert!(rt; drive.asked_at(18) == Some(0) && drive.asked_at(17) == Some(1));
    Ok(())
}

// The MD5 of 2048 zeros, of 20,480 zeros, and of ten times the CRC-32 of 2048 zeros and 16,384 zeros.
const DIGESTS: [[u8; 16]; 3] = [
    [
        0xc9, 0x9a, 0x74, 0xc5, 0x55, 0x37, 0x1a, 0x43, 0x3d, 0x12, 0x1f, 0x55, 0x1d, 0x6c, 0x63,
        0x98,
    ],
    [
        0xda, 0xa1, 0x00, 0xdf, 0x6e, 0x67, 0x11, 0x90, 0x6b, 0x61, 0xc9, 0xab, 0x5a, 0xa1, 0x60,
        0x32,
    ],
    [
        0xd8, 0x7f, 0xa4, 0x30, 0x4e, 0x88, 0x59, 0x36, 0x92, 0x5b, 0xe2, 0x6b, 0x75, 0x95, 0x03,
        0x06,
    ],
];

#[test]
fn the_worked_pair(rt: HostRuntime) -> Result<(), AllocError> {
    let desk = sample_desk(rt.alloc())?;
    let image = desk.file("disc.iso").unwrap_or(&[]);
    assert!(rt; image.len() == 20_480 && image.iter().all(|byte| *byte == 0));
    let file = sample_ecc(rt.alloc())?;
    assert!(rt; holds(&desk, "disc.ecc", file.as_slice()) && file.len() == 20_520);
    for (at, want) in [(20usize, DIGESTS[0]), (36, DIGESTS[1]), (52, DIGESTS[2])] {
        assert!(rt; file.get(at..at + 16) == Some(want.as_slice()), "at {at}");
    }
    Ok(())
}
