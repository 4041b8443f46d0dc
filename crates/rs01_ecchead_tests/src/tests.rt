//! Headers byte by byte, and judgements of sectors.
use rs01_ecchead::laws::headers_read_back;
use rs01_ecchead::{Condition, Head, HeadRefusal, judge, read_head, write_head};
use rs01_sums::{Sums, marker};
use std::process::Abort;
use std::test::Fail;

// The texts at the head of the file, and all numbers that aren't 0, for an image of 3 bytes.
const NUMBERS: [(usize, &[u8]); 7] = [
    (0, b"*dvdisaster*RS01"),
    (68, &[1, 0, 0, 0, 0, 0, 0, 0]),
    (76, &[0xdf, 0, 0, 0]),
    (80, &[0x20, 0, 0, 0]),
    (84, &[1, 0, 0, 0]),
    (88, &[1, 0, 0, 0]),
    (116, &[3, 0, 0, 0]),
];

// Puts bytes at a place.
fn put(header: &mut [u8; 4096], at: usize, bytes: &[u8]) {
    for (into, byte) in header.iter_mut().skip(at).zip(bytes) {
        *into = *byte;
    }
}

// The header of an image of 3 bytes, with digests that are easily told apart.
fn header() -> [u8; 4096] {
    let mut header = [0u8; 4096];
    for (at, bytes) in NUMBERS {
        put(&mut header, at, bytes);
    }
    put(&mut header, 20, &[0xf0; 16]);
    put(&mut header, 36, b"0123456789abcdef");
    put(&mut header, 52, &[0x0f; 16]);
    header
}

#[test]
fn written_and_read_back(rt: HostRuntime) {
    let head = Head {
        flags: 0,
        fingerprint: [0xf0; 16],
        image_sum: *b"0123456789abcdef",
        body_sum: [0x0f; 16],
        sectors: 1,
        parity: 32,
        creator: 1,
        needed: 1,
        mark_sector: 0,
        last_bytes: 3,
    };
    let mut written = [0xaau8; 4096];
    write_head(&head, &mut written);
    assert!(rt; written == header());
    let Ok(read) = read_head(&written) else {
        panic!(rt; "refused");
    };
    assert!(rt; read.flags == 0 && read.mark_sector == 0);
    assert!(rt; read.fingerprint == [0xf0; 16]);
    assert!(rt; read.image_sum == *b"0123456789abcdef");
    assert!(rt; read.body_sum == [0x0f; 16]);
    assert!(rt; read.sectors == 1 && read.parity == 32 && read.last_bytes == 3);
    assert!(rt; read.creator == 1 && read.needed == 1);
    assert!(rt; read.shape().file_size() == 69_636);
    headers_read_back();
}

#[test]
fn refused_by_the_first_that_fits(rt: HostRuntime) {
    let cases: [(usize, &[u8], Option<HeadRefusal>); 22] = [
        (0, b"*dvdisaster*RS01", None),
        (11, b" ", Some(HeadRefusal::Cookie)),
        (11, b" RS02", Some(HeadRefusal::Cookie)),
        (12, b"RS02", Some(HeadRefusal::Method)),
        (16, &[0xff; 52], None),
        (68, &[0; 8], Some(HeadRefusal::Sectors)),
        (68, &[1, 0, 0, 0, 1, 0, 0, 0], Some(HeadRefusal::Sectors)),
        (68, &[0, 0, 0, 1, 0, 0, 0, 0], Some(HeadRefusal::Sectors)),
        (68, &[0xff, 0xff, 0xff, 0, 0, 0, 0, 0], None),
        (76, &[155, 0, 0, 0, 100, 0, 0, 0], None),
        (76, &[247, 0, 0, 0, 8, 0, 0, 0], None),
        (
            76,
            &[0xff, 0xff, 0xff, 0xff, 100, 0, 0, 0],
            Some(HeadRefusal::Parity),
        ),
        (76, &[154, 0, 0, 0, 101, 0, 0, 0], Some(HeadRefusal::Parity)),
        (76, &[248, 0, 0, 0, 7, 0, 0, 0], Some(HeadRefusal::Parity)),
        (76, &[222, 0, 0, 0], Some(HeadRefusal::Parity)),
        (84, &[0x84, 3, 0, 0], None),
        (88, &[0, 0, 0, 0], None),
        (88, &[2, 0, 0, 0], Some(HeadRefusal::Version)),
        (68, &[0xff; 28], Some(HeadRefusal::Version)),
        (92, &[0xff; 24], None),
        (116, &[1, 8, 0, 0], Some(HeadRefusal::LastBytes)),
        (120, &[0xff; 3976], None),
    ];
    for (at, bytes, want) in cases {
        let mut changed = header();
        put(&mut changed, at, bytes);
        assert!(rt; read_head(&changed).err() == want, "at {at}");
    }
}

#[test]
fn a_last_sector_of_no_bytes_is_full(rt: HostRuntime) {
    for (bytes, want) in [
        ([0u8, 0], 2048u32),
        ([1, 0], 1),
        ([0, 8], 2048),
        ([0, 4], 1024),
    ] {
        let mut changed = header();
        put(&mut changed, 84, &[0x84, 3, 0, 0]);
        put(&mut changed, 116, &bytes);
        let Ok(head) = read_head(&changed) else {
            panic!(rt; "refused at {want}");
        };
        assert!(rt; head.last_bytes == want && head.creator == 900, "at {want}");
    }
}

#[test]
fn sectors_as_they_are_found(rt: HostRuntime) -> Result<(), Fail> {
    let zeros = [0u8; 2048];
    let mut marked = [0u8; 2048];
    marker(0, &mut marked);
    let mut sums = Sums::new(rt.alloc(), 1)?;
    sums.push_reserved(0xf1e8_ba9e);
    if sums.len() > 0 {
        for (there, block, plain, summed) in [
            (true, &zeros, Condition::Sound, Condition::Sound),
            (true, &[1u8; 2048], Condition::Sound, Condition::Altered),
            (true, &marked, Condition::Missing, Condition::Missing),
            (false, &zeros, Condition::Missing, Condition::Missing),
        ] {
            assert!(rt; judge(there, None, 0, block) == plain);
            assert!(rt; judge(there, Some(&sums), 0, block) == summed);
        }
    }
    Ok(())
}
