//! The files of worked images, and what stands after a fault.
use md5::{Digest, Md5};
use rs01_create::{CreateRefusal, create, create_one};
use rs01_ecchead::{EccRefusal, HeadRefusal, open_ecc, sector_in};
use rs01_fakes::{MemoryDesk, sample_desk};
use rs01_outside::{Desk, Failed, OpenGate};
use rs01_report::CreateReport;
use rs01_sums::marker;
use std::alloc::{AllocError, Global};
use std::process::Abort;
use std::test::Fail;

mod windows;

// An image of zeros, but for some bytes.
fn image_with(alloc: Global, len: usize, changes: &[(usize, u8)]) -> Result<Vec<u8>, AllocError> {
    let mut image = vec![in alloc; 0u8; len]?;
    for (at, value) in changes {
        if let Some(byte) = image.get_mut(*at) {
            *byte = *value;
        }
    }
    Ok(image)
}

// A desk with one image.
fn desk_with(alloc: Global, image: &[u8]) -> Result<MemoryDesk, AllocError> {
    let mut desk = MemoryDesk::new(alloc);
    desk.put_file(alloc, "disc.iso", image)?;
    Ok(desk)
}

fn created(alloc: Global, desk: &mut MemoryDesk) -> Result<CreateReport, CreateRefusal> {
    create_one(alloc, desk, "disc.iso", "disc.ecc", 32)
}

// The file that was made, or no bytes.
fn made(desk: &MemoryDesk) -> &[u8] {
    desk.file("disc.ecc").unwrap_or(&[])
}

// How long the file is that was made, where it is there.
fn made_len(desk: &MemoryDesk) -> Option<usize> {
    desk.file("disc.ecc").map(|file| file.len())
}

// Whether one fault of the kind that is told was counted, and none of the other.
fn counts_one<D: Desk>(desk: &D, told: CreateRefusal) -> bool {
    let counts = (desk.read_faults(), desk.write_faults());
    if told == CreateRefusal::ReadFault {
        counts == (1, 0)
    } else {
        counts == (0, 1)
    }
}

// The bytes between two places, or none.
fn between(bytes: &[u8], from: usize, to: usize) -> &[u8] {
    bytes.get(from..to).unwrap_or(&[])
}

fn all_zeros(bytes: &[u8]) -> bool {
    bytes.iter().all(|byte| *byte == 0)
}

// The parity of the word whose last data byte is 1: the coefficients of the generator below the leading one.
const GENERATOR: [u8; 32] = [
    0x5b, 0x7f, 0x56, 0x10, 0x1e, 0x0d, 0xeb, 0x61, 0xa5, 0x08, 0x2a, 0x36, 0x56, 0xab, 0x20, 0x71,
    0x20, 0xab, 0x56, 0x36, 0x2a, 0x08, 0xa5, 0x61, 0xeb, 0x0d, 0x1e, 0x10, 0x56, 0x7f, 0x5b, 0x01,
];

// The parity of the word with a 1 at the places 0 and 111 of 223.
const TWO_ONES: [u8; 32] = [
    0x42, 0xdd, 0xfb, 0x6d, 0x55, 0xc0, 0x78, 0xb2, 0xbc, 0x05, 0x09, 0xb2, 0xd1, 0x95, 0x35, 0x0a,
    0x5b, 0xbe, 0x68, 0xb1, 0xae, 0x2b, 0xa8, 0x78, 0x38, 0x9e, 0xd3, 0x5b, 0x2b, 0xd2, 0xf9, 0x18,
];

// The MD5 of `abc` and 2045 zeros.
const ABC_FINGERPRINT: [u8; 16] = [
    0x2c, 0x33, 0xa3, 0x57, 0xbd, 0x1e, 0xef, 0xfd, 0xb3, 0xea, 0x16, 0x55, 0xa2, 0xa9, 0xcc, 0xab,
];

// The MD5 of `abc`.
const ABC_IMAGE: [u8; 16] = [
    0x90, 0x01, 0x50, 0x98, 0x3c, 0xd2, 0x4f, 0xb0, 0xd6, 0x96, 0x3f, 0x7d, 0x28, 0xe1, 0x7f, 0x72,
];

// The MD5 of the 65,540 bytes after the header of its file.
const ABC_BODY: [u8; 16] = [
    0xc3, 0xe8, 0xd4, 0x08, 0xc9, 0x44, 0x3a, 0xa2, 0xa1, 0xe5, 0xf7, 0xf8, 0x47, 0x1b, 0x56, 0x88,
];

// The MD5 of its whole file.
const ABC_FILE: [u8; 16] = [
    0xbd, 0x33, 0x74, 0x93, 0x8a, 0x56, 0x94, 0x51, 0x34, 0x03, 0x31, 0xcd, 0x38, 0x26, 0x5f, 0x01,
];

// The MD5 of the body of the file of one sector of zeros, and of that body with a 1 at byte 5004.
const WHOLE: [u8; 16] = [
    0x26, 0xa3, 0xd5, 0xef, 0x41, 0xe4, 0xfa, 0x99, 0xbc, 0xba, 0xdb, 0x74, 0xc1, 0x81, 0xa3, 0x02,
];

const FLIPPED: [u8; 16] = [
    0x50, 0x47, 0x9c, 0xd9, 0xed, 0xef, 0x9d, 0x5a, 0x9c, 0x49, 0xc5, 0x98, 0xd2, 0x1b, 0x72, 0x4b,
];

// The MD5 of `a` and 2047 zeros.
const FINGERPRINT: [u8; 16] = [
    0x56, 0xae, 0x42, 0x6e, 0x92, 0xff, 0xdb, 0xbe, 0xce, 0xcb, 0x49, 0x4b, 0x8c, 0xb4, 0x0e, 0x07,
];

#[test]
fn sizes_and_parity(rt: HostRuntime) -> Result<(), Fail> {
    // The length of an image and its bytes that aren't 0; sectors, layers, bytes of the last sector and of the file;
    // where the only parity that isn't zero stands, and what it is.
    let cases: [(usize, &[(usize, u8)], u32, u32, u32, usize, usize, &[u8]); 4] = [
        (2048, &[], 1, 1, 2048, 69_636, 4100, &[]),
        (
            456_704,
            &[(454_656, 1)],
            223,
            1,
            2048,
            70_524,
            4988,
            &GENERATOR,
        ),
        (458_752, &[], 224, 2, 2048, 136_064, 4992, &[]),
        (
            458_752,
            &[(2048, 1), (456_704, 1)],
            224,
            2,
            2048,
            136_064,
            70_528,
            &TWO_ONES,
        ),
    ];
    for (len, changes, sectors, layers, last_bytes, size, at, parity) in cases {
        let image = image_with(rt.alloc(), len, changes)?;
        let mut desk = desk_with(rt.alloc(), &image)?;
        let report = created(rt.alloc(), &mut desk)?;
        assert_eq!(rt; (report.sectors, report.layers), (sectors, layers));
        assert_eq!(rt; (report.last_bytes, report.parity), (last_bytes, 32));
        let file = made(&desk);
        assert_eq!(rt; file.len(), size, "at {len}");
        let end = at.saturating_add(parity.len());
        assert!(rt; between(file, at, end) == parity, "at {at}");
        let first = 4096usize.saturating_add(4 * sectors as usize);
        assert!(rt; all_zeros(between(file, first, at)), "before {at}");
        assert!(rt; all_zeros(between(file, end, size)), "after {end}");
        assert!(rt; desk.file("disc.iso") == Some(image.as_slice()));
    }
    Ok(())
}

// Two layers, by one worker and by more.
#[test]
fn files_by_several_workers(rt: HostRuntime) -> Result<(), Fail> {
    let image = image_with(rt.alloc(), 458_752, &[(2048, 1), (456_704, 1)])?;
    let mut one = desk_with(rt.alloc(), &image)?;
    let report = created(rt.alloc(), &mut one)?;
    for workers in [1u32, 3] {
        let mut desk = desk_with(rt.alloc(), &image)?;
        let (name, ecc) = ("disc.iso", "disc.ecc");
        let told = create(
            &rt,
            rt.alloc(),
            &mut desk,
            name,
            ecc,
            32,
            workers,
            &OpenGate,
        )?;
        assert_eq!(rt; told, report);
        assert!(rt; made(&desk) == made(&one), "{workers} workers");
    }
    Ok(())
}

#[test]
fn a_last_sector_of_one_byte(rt: HostRuntime) -> Result<(), Fail> {
    let image = image_with(rt.alloc(), 2049, &[(2048, b'a')])?;
    let mut desk = desk_with(rt.alloc(), &image)?;
    let report = created(rt.alloc(), &mut desk)?;
    assert_eq!(rt;
        (report.sectors, report.layers, report.last_bytes),
        (2, 1, 1)
    );
    let file = made(&desk);
    assert_eq!(rt; file.len(), 69_640);
    assert!(rt; between(file, 20, 36) == FINGERPRINT.as_slice());
    assert!(rt; between(file, 92, 96) == [1, 0, 0, 0].as_slice());
    assert!(rt; between(file, 116, 120) == [1, 0, 0, 0].as_slice());
    Ok(())
}

// The worked file that tests of the other engines begin with is the one that is made of its image.
#[test]
fn the_worked_pair(rt: HostRuntime) -> Result<(), Fail> {
    let mut desk = sample_desk(rt.alloc())?;
    let report = create_one(rt.alloc(), &mut desk, "disc.iso", "made", 8)?;
    assert_eq!(rt; (report.sectors, report.layers, report.parity), (10, 1, 8));
    assert_eq!(rt; desk.file("made").map(|file| file.len()), Some(20_520));
    assert!(rt; desk.file("made") == desk.file("disc.ecc"));
    Ok(())
}

#[test]
fn refused_images(rt: HostRuntime) -> Result<(), Fail> {
    let mut desk = MemoryDesk::new(rt.alloc());
    assert_eq!(rt; created(rt.alloc(), &mut desk), Err(CreateRefusal::NoImage));
    desk.put_file(rt.alloc(), "disc.iso", &[])?;
    assert_eq!(rt;
        created(rt.alloc(), &mut desk),
        Err(CreateRefusal::EmptyImage)
    );
    for (marked, want) in [(7u32, Some(CreateRefusal::Marker(7))), (8, None)] {
        let mut image = image_with(rt.alloc(), 20_480, &[])?;
        let mut block = [0u8; 2048];
        marker(marked, &mut block);
        for (into, byte) in image.iter_mut().skip(14_336).zip(&block) {
            *into = *byte;
        }
        desk.put_file(rt.alloc(), "disc.iso", &image)?;
        assert!(rt; desk.file("disc.ecc").is_none());
        assert!(rt;
            created(rt.alloc(), &mut desk).err() == want,
            "marker of {marked}"
        );
    }
    assert_eq!(rt; made(&desk).len(), 69_672);
    assert!(rt; desk.read_faults() == 0 && desk.write_faults() == 0);
    Ok(())
}

// The header of the file of the image `abc`, where it isn't zero.
const ABC: [(usize, &[u8]); 10] = [
    (0, b"*dvdisaster*"),
    (12, b"RS01"),
    (20, &ABC_FINGERPRINT),
    (36, &ABC_IMAGE),
    (52, &ABC_BODY),
    (68, &[1, 0, 0, 0, 0, 0, 0, 0]),
    (76, &[0xdf, 0, 0, 0, 0x20, 0, 0, 0]),
    (84, &[1, 0, 0, 0]),
    (88, &[1, 0, 0, 0]),
    (116, &[3, 0, 0, 0]),
];

#[test]
fn abc(rt: HostRuntime) -> Result<(), Fail> {
    let mut desk = desk_with(rt.alloc(), b"abc")?;
    let report = created(rt.alloc(), &mut desk)?;
    assert_eq!(rt;
        (report.sectors, report.layers, report.last_bytes),
        (1, 1, 3)
    );
    assert_eq!(rt; report.image_sum, ABC_IMAGE);
    let mut header = image_with(rt.alloc(), 4096, &[])?;
    for (at, bytes) in ABC {
        for (into, byte) in header.iter_mut().skip(at).zip(bytes) {
            *into = *byte;
        }
    }
    assert!(rt; between(made(&desk), 0, 4096) == header.as_slice());
    assert_eq!(rt; Md5::digest(made(&desk)), ABC_FILE);
    let ecc = open_ecc(rt.alloc(), &mut desk, "disc.ecc")?;
    assert_eq!(rt; ecc.head().body_sum, ABC_BODY);
    assert_eq!(rt; ecc.shape().sectors(), 1);
    assert_eq!(rt; ecc.sums().len(), 1);
    let mut block = [0xaau8; 2048];
    let extent = ecc.extent();
    assert!(rt; extent.sectors == 1 && extent.last_bytes == 3);
    if 0 < extent.sectors {
        for (size, there) in [(2u64, false), (3, true)] {
            let read = sector_in(&mut desk, "disc.iso", size, &extent, 0, &mut block);
            assert_eq!(rt; read, Ok(there));
        }
    }
    assert!(rt; between(&block, 0, 4) == b"abc\0".as_slice());
    assert!(rt; all_zeros(between(&block, 3, 2048)));
    Ok(())
}

#[test]
fn damaged_files(rt: HostRuntime) -> Result<(), Fail> {
    let mut desk = desk_with(rt.alloc(), &image_with(rt.alloc(), 2048, &[])?)?;
    let absent = open_ecc(rt.alloc(), &mut desk, "disc.ecc").err();
    assert!(rt; absent == Some(EccRefusal::NoFile));
    created(rt.alloc(), &mut desk)?;
    let flipped = Some(EccRefusal::Body {
        have: FLIPPED,
        want: WHOLE,
    });
    let cases: [(usize, u8, usize, Option<EccRefusal>); 7] = [
        (9100, 0, 69_636, None),
        (
            9100,
            0,
            69_635,
            Some(EccRefusal::Size {
                have: 69_635,
                want: 69_636,
            }),
        ),
        (
            9100,
            0,
            4095,
            Some(EccRefusal::Size {
                have: 4095,
                want: 4096,
            }),
        ),
        (
            9100,
            0,
            0,
            Some(EccRefusal::Size {
                have: 0,
                want: 4096,
            }),
        ),
        (9100, 1, 69_636, flipped),
        (0, b'+', 69_635, Some(EccRefusal::Head(HeadRefusal::Cookie))),
        (84, 9, 69_636, None),
    ];
    for (at, value, len, want) in cases {
        let file = made(&desk);
        let mut changed = image_with(rt.alloc(), len, &[])?;
        for (place, (into, byte)) in changed.iter_mut().zip(file).enumerate() {
            *into = if place == at { value } else { *byte };
        }
        desk.put_file(rt.alloc(), "changed", &changed)?;
        let refused = open_ecc(rt.alloc(), &mut desk, "changed").err();
        assert!(rt; refused == want, "byte {at}, {len} bytes");
    }
    assert!(rt; desk.read_faults() == 0);
    for call in 0..4 {
        let mut again = desk_with(rt.alloc(), b"")?;
        again.put_file(rt.alloc(), "disc.ecc", made(&desk))?;
        again.fail_call(call);
        let refused = open_ecc(rt.alloc(), &mut again, "disc.ecc").err();
        assert!(rt; refused == Some(EccRefusal::ReadFault), "call {call}");
        assert!(rt; again.read_faults() == 1 && again.write_faults() == 0);
    }
    Ok(())
}

#[test]
fn each_call_failing_in_turn(rt: HostRuntime) -> Result<(), Fail> {
    // The calls are size, the read for the checksums, make, the writes of zeros and checksums, the read of the layer, and
    // the writes of parity and header. After each comes the length of the file that is left with 60 bytes of a failed
    // write, and with none.
    let cases: [(u64, CreateRefusal, Option<usize>, Option<usize>); 8] = [
        (0, CreateRefusal::ReadFault, None, None),
        (1, CreateRefusal::ReadFault, None, None),
        (2, CreateRefusal::WriteFault, None, None),
        (3, CreateRefusal::WriteFault, Some(60), Some(0)),
        (4, CreateRefusal::WriteFault, Some(4100), Some(4096)),
        (5, CreateRefusal::ReadFault, Some(4100), Some(4100)),
        (6, CreateRefusal::WriteFault, Some(4160), Some(4100)),
        (7, CreateRefusal::WriteFault, Some(69_636), Some(69_636)),
    ];
    for (call, want, partly, nothing) in cases {
        for (kept, left) in [(Some(60u64), partly), (None, nothing)] {
            let mut desk = desk_with(rt.alloc(), b"abc")?;
            desk.fail_call(call);
            desk.keep_prefix(kept);
            assert_eq!(rt; created(rt.alloc(), &mut desk), Err(want), "call {call}");
            assert!(rt; counts_one(&desk, want), "call {call}");
            assert_eq!(rt; made_len(&desk), left, "call {call}");
            assert!(rt; desk.file("disc.iso") == Some(b"abc".as_slice()));
            assert!(rt;
                open_ecc(rt.alloc(), &mut desk, "disc.ecc").is_err(),
                "call {call}"
            );
        }
    }
    let mut desk = desk_with(rt.alloc(), b"abc")?;
    desk.fail_call(8);
    assert!(rt; created(rt.alloc(), &mut desk).is_ok());
    assert_eq!(rt; desk.size("disc.ecc"), Err(Failed));
    Ok(())
}
