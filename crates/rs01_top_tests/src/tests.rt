//! Runs: from words and files to the status, the bytes put, and the files.
use rs01_fakes::{MemoryDesk, MemorySink};
use rs01_outside::{Desk, Failed, Sink};
use rs01_rack::Rack;
use rs01_sums::marker;
use rs01_top::run_one;
use std::alloc::{AllocError, Global};
use std::fmt::Write;
use std::process::Abort;
use std::test::Fail;

mod demo;
mod drives;
mod interrupted;
mod layers;
mod turns;
mod workers;

// The words of a line, parted by spaces.
pub fn words_of(alloc: Global, line: &str) -> Result<Vec<String>, AllocError> {
    let mut words = Vec::new(alloc);
    for word in line.split_whitespace() {
        words.push(String::from_str(alloc, word)?)?;
    }
    Ok(words)
}

// A rack without drives.
pub fn no_drives(alloc: Global) -> Result<Rack, AllocError> {
    Rack::new(alloc, Vec::new(alloc))
}

// Runs a line on one thread.
pub fn run_line<D: Desk>(
    alloc: Global,
    line: &str,
    desk: &mut D,
    rack: &mut Rack,
    out: &mut MemorySink,
) -> Result<u8, AllocError> {
    let words = words_of(alloc, line)?;
    Ok(run_one(alloc, &words, desk, rack, out))
}

// Runs a line, and tells the status and whether these bytes were put.
pub fn puts<D: Desk>(
    alloc: Global,
    line: &str,
    desk: &mut D,
    want: &str,
) -> Result<(u8, bool), AllocError> {
    let mut out = MemorySink::new(alloc);
    let mut rack = no_drives(alloc)?;
    let status = run_line(alloc, line, desk, &mut rack, &mut out)?;
    Ok((status, out.bytes() == want.as_bytes() && out.faults() == 0))
}

// An image of zeros, but for bytes from a place on.
pub fn image_with(
    alloc: Global,
    len: usize,
    at: usize,
    bytes: &[u8],
) -> Result<Vec<u8>, AllocError> {
    let mut image = vec![in alloc; 0u8; len]?;
    for (into, byte) in image.iter_mut().skip(at).zip(bytes) {
        *into = *byte;
    }
    Ok(image)
}

pub fn size_of(desk: &MemoryDesk, name: &str) -> Option<usize> {
    desk.file(name).map(|file| file.len())
}

#[test]
fn words_that_give_no_work(rt: HostRuntime) -> Result<(), Fail> {
    for (line, want) in [
        ("", "rs01: word 0: no command\n"),
        ("burn", "rs01: word 0: unknown command\n"),
        ("verify a b --cut", "rs01: word 3: not known here\n"),
        ("fix a b c", "rs01: word 3: not known here\n"),
        (
            "create a b --workers 2 --workers 2",
            "rs01: word 5: given twice\n",
        ),
        ("create a b --parity", "rs01: word 3: needs a value\n"),
        ("create a b --parity x", "rs01: word 4: not a number\n"),
        ("create a b --parity 7", "rs01: word 4: out of range\n"),
        ("create a b --parity 101", "rs01: word 4: out of range\n"),
        ("create a b --workers 0", "rs01: word 4: out of range\n"),
        ("create a", "rs01: word 2: something is missing\n"),
        ("create a a", "rs01: word 2: the same name twice\n"),
        ("demo 1 300 32 301", "rs01: word 4: out of range\n"),
    ] {
        let mut desk = MemoryDesk::new(rt.alloc());
        desk.put_file(rt.alloc(), "a", b"abc")?;
        assert_eq!(rt;
            puts(rt.alloc(), line, &mut desk, want)?,
            (2, true),
            "{line}"
        );
        assert!(rt; desk.file("a") == Some(b"abc".as_slice()), "{line}");
        assert!(rt; desk.file("b").is_none(), "{line}");
    }
    Ok(())
}

#[test]
fn images(rt: HostRuntime) -> Result<(), Fail> {
    // The length of an image, where bytes stand that aren't zero, and these; the status, the length of the file, and
    // what is put.
    let cases: [(usize, usize, &[u8], u8, Option<usize>, &str); 8] = [
        (
            3,
            0,
            b"abc",
            0,
            Some(69_636),
            "created disc.ecc\nsectors 1, layers 1, parity 32\nlast sector 3 bytes\nimage md5 900150983cd24fb0d6963f7d28e17f72\n",
        ),
        (
            2048,
            0,
            b"",
            0,
            Some(69_636),
            "created disc.ecc\nsectors 1, layers 1, parity 32\nlast sector 2048 bytes\nimage md5 c99a74c555371a433d121f551d6c6398\n",
        ),
        (0, 0, b"", 3, None, "rs01: the image is empty\n"),
        (
            2049,
            0,
            b"",
            0,
            Some(69_640),
            "created disc.ecc\nsectors 2, layers 1, parity 32\nlast sector 1 bytes\nimage md5 8f40e11d1419c18b04578152536da294\n",
        ),
        (
            456_704,
            454_656,
            &[1],
            0,
            Some(70_524),
            "created disc.ecc\nsectors 223, layers 1, parity 32\nlast sector 2048 bytes\nimage md5 77729311ce6b008376e7ddd534e15825\n",
        ),
        (
            458_752,
            0,
            b"",
            0,
            Some(136_064),
            "created disc.ecc\nsectors 224, layers 2, parity 32\nlast sector 2048 bytes\nimage md5 72b5e7556a604b06e790401ecc7b5b2d\n",
        ),
        (
            20_480,
            14_336,
            b"rs01 missing sector 0000000007\n",
            3,
            None,
            "rs01: sector 7 is marked as missing\n",
        ),
        (
            20_480,
            14_336,
            b"rs01 missing sector 0000000008\n",
            0,
            Some(69_672),
            "created disc.ecc\nsectors 10, layers 1, parity 32\nlast sector 2048 bytes\nimage md5 568ce25c76d7a2f5cc940533937e6276\n",
        ),
    ];
    for (len, at, bytes, status, size, want) in cases {
        let mut desk = MemoryDesk::new(rt.alloc());
        let image = image_with(rt.alloc(), len, at, bytes)?;
        desk.put_file(rt.alloc(), "disc.iso", &image)?;
        let ran = puts(rt.alloc(), "create disc.iso disc.ecc", &mut desk, want)?;
        assert_eq!(rt; ran, (status, true), "{want}");
        assert_eq!(rt; size_of(&desk, "disc.ecc"), size, "{want}");
        assert!(rt; desk.file("disc.iso") == Some(image.as_slice()), "{want}");
    }
    Ok(())
}

#[test]
fn another_number_of_parity_bytes(rt: HostRuntime) -> Result<(), Fail> {
    let mut desk = MemoryDesk::new(rt.alloc());
    desk.put_file(rt.alloc(), "disc.iso", b"abc")?;
    for (line, size, want) in [
        (
            "create disc.iso a --parity 8",
            20_484,
            "created a\nsectors 1, layers 1, parity 8\nlast sector 3 bytes\nimage md5 900150983cd24fb0d6963f7d28e17f72\n",
        ),
        (
            "create --parity high disc.iso a",
            135_172,
            "created a\nsectors 1, layers 1, parity 64\nlast sector 3 bytes\nimage md5 900150983cd24fb0d6963f7d28e17f72\n",
        ),
    ] {
        assert_eq!(rt;
            puts(rt.alloc(), line, &mut desk, want)?,
            (0, true),
            "{line}"
        );
        assert_eq!(rt; size_of(&desk, "a"), Some(size), "{line}");
    }
    Ok(())
}

#[test]
fn faults(rt: HostRuntime) -> Result<(), Fail> {
    // The failing call of the desk and the failing put; the status, the length of the file, and what is put.
    let cases: [(u64, u64, u8, Option<usize>, &str); 5] = [
        (99, 0, 6, Some(69_636), ""),
        (0, 99, 4, None, "rs01: reading a file failed\n"),
        (1, 99, 4, None, "rs01: reading a file failed\n"),
        (2, 99, 4, None, "rs01: writing a file failed\n"),
        (4, 99, 4, Some(4096), "rs01: writing a file failed\n"),
    ];
    for (call, put, status, size, want) in cases {
        let mut desk = MemoryDesk::new(rt.alloc());
        desk.put_file(rt.alloc(), "disc.iso", b"abc")?;
        desk.fail_call(call);
        let mut out = MemorySink::new(rt.alloc());
        out.fail_put(put);
        let mut rack = no_drives(rt.alloc())?;
        let line = "create disc.iso disc.ecc";
        let ended = run_line(rt.alloc(), line, &mut desk, &mut rack, &mut out)?;
        assert_eq!(rt; ended, status, "call {call}");
        assert!(rt; out.bytes() == want.as_bytes(), "call {call}");
        assert_eq!(rt; size_of(&desk, "disc.ecc"), size, "call {call}");
    }
    let mut desk = MemoryDesk::new(rt.alloc());
    let absent = puts(rt.alloc(), "create a b", &mut desk, "rs01: no image\n")?;
    assert_eq!(rt; absent, (3, true));
    Ok(())
}

// A desk with an image of so many zeros and its error correction file.
pub fn protected(alloc: Global, len: usize, parity: u32) -> Result<MemoryDesk, AllocError> {
    let mut desk = MemoryDesk::new(alloc);
    let image = image_with(alloc, len, 0, b"")?;
    desk.put_file(alloc, "disc.iso", &image)?;
    let mut line = String::new(alloc);
    write!(line, "create disc.iso disc.ecc --parity {parity}")?;
    let mut rack = no_drives(alloc)?;
    let mut out = MemorySink::new(alloc);
    let _status = run_line(alloc, line.as_str(), &mut desk, &mut rack, &mut out)?;
    Ok(desk)
}

#[test]
fn checked_images(rt: HostRuntime) -> Result<(), Fail> {
    // How the image is cut, and the bytes that are put at a place of it; the status, and what is put.
    let cases: [(u64, u64, &[u8], u8, &str); 5] = [
        (
            0,
            0,
            b"",
            1,
            "checked disc.iso\nsectors 224, layers 2, parity 32\nmissing 224: 0-223\naltered 0: none\nfullest layer 0: 112 of 32\nlayers beyond 2\nsurplus bytes 0\nfingerprint absent\nimage md5 short\n",
        ),
        (
            458_752,
            0,
            b"",
            0,
            "checked disc.iso\nsectors 224, layers 2, parity 32\nmissing 0: none\naltered 0: none\nfullest layer 0: 0 of 32\nlayers beyond 0\nsurplus bytes 0\nfingerprint matches\nimage md5 matches\n",
        ),
        (
            458_752,
            10_240,
            &[1],
            1,
            "checked disc.iso\nsectors 224, layers 2, parity 32\nmissing 0: none\naltered 1: 5\nfullest layer 1: 1 of 32\nlayers beyond 0\nsurplus bytes 0\nfingerprint matches\nimage md5 differs\n",
        ),
        (
            458_252,
            0,
            b"",
            1,
            "checked disc.iso\nsectors 224, layers 2, parity 32\nmissing 1: 223\naltered 0: none\nfullest layer 1: 1 of 32\nlayers beyond 0\nsurplus bytes 0\nfingerprint matches\nimage md5 short\n",
        ),
        (
            458_752,
            458_752,
            b"rs01",
            0,
            "checked disc.iso\nsectors 224, layers 2, parity 32\nmissing 0: none\naltered 0: none\nfullest layer 0: 0 of 32\nlayers beyond 0\nsurplus bytes 4\nfingerprint matches\nimage md5 matches\n",
        ),
    ];
    for (len, at, bytes, status, want) in cases {
        let mut desk = protected(rt.alloc(), 458_752, 32)?;
        assert!(rt;
            desk.cut("disc.iso", len).is_ok() && desk.write_at("disc.iso", at, bytes).is_ok()
        );
        let ran = puts(rt.alloc(), "verify disc.iso disc.ecc", &mut desk, want)?;
        assert_eq!(rt; ran, (status, true), "{want}");
    }
    Ok(())
}

// Whether a file has so many bytes, and all are zeros.
pub fn is_blank(desk: &MemoryDesk, name: &str, len: usize) -> bool {
    desk.file(name).is_some_and(|file| file.len() == len && file.iter().all(|byte| *byte == 0))
}

// The names that a run may find or leave.
pub const NAMES: [&str; 6] = [
    "disc.iso",
    "disc.ecc",
    "new.iso",
    "other.ecc",
    "demo.iso",
    "demo.ecc",
];

// A desk with the files of another one.
pub fn copied(alloc: Global, desk: &MemoryDesk) -> Result<MemoryDesk, AllocError> {
    let mut copy = MemoryDesk::new(alloc);
    for name in NAMES {
        if let Some(file) = desk.file(name) {
            copy.put_file(alloc, name, file)?;
        }
    }
    Ok(copy)
}

#[test]
fn files_that_are_refused(rt: HostRuntime) -> Result<(), Fail> {
    // The length to which the error correction file of one sector is cut, the bytes that are put at a place of it, and
    // what is told. Its numbers of sectors, data bytes and parity bytes stand from 68 on.
    let cases: [(u64, u64, &[u8], &str); 12] = [
        (0, 0, b"", "rs01: the file has 0 bytes, 4096 are expected\n"),
        (1, 0, b"", "rs01: the file has 1 bytes, 4096 are expected\n"),
        (
            4095,
            0,
            b"",
            "rs01: the file has 4095 bytes, 4096 are expected\n",
        ),
        (
            4096,
            0,
            b"",
            "rs01: the file has 4096 bytes, 69636 are expected\n",
        ),
        (
            4100,
            0,
            b"",
            "rs01: the file has 4100 bytes, 69636 are expected\n",
        ),
        (
            69_635,
            0,
            b"",
            "rs01: the file has 69635 bytes, 69636 are expected\n",
        ),
        (
            69_636,
            69_636,
            b"+",
            "rs01: the file has 69637 bytes, 69636 are expected\n",
        ),
        (
            4096,
            68,
            b"\xff\xff\xff\0\0\0\0\0\x9b\0\0\0\x64\0\0\0",
            "rs01: the file has 4096 bytes, 22234869756 are expected\n",
        ),
        (
            69_636,
            68,
            b"\x01\0\0\0\x01\0\0\0",
            "rs01: header: sectors\n",
        ),
        (
            69_636,
            76,
            b"\xff\xff\xff\xff\x64\0\0\0",
            "rs01: header: parity\n",
        ),
        (69_636, 0, b"!", "rs01: header: cookie\n"),
        (69_636, 88, b"\xff", "rs01: header: version\n"),
    ];
    let files = protected(rt.alloc(), 2048, 32)?;
    for (len, at, bytes, want) in cases {
        let mut desk = copied(rt.alloc(), &files)?;
        assert!(rt;
            desk.cut("disc.ecc", len).is_ok() && desk.write_at("disc.ecc", at, bytes).is_ok()
        );
        for line in ["verify disc.iso disc.ecc", "fix disc.iso disc.ecc"] {
            let ran = puts(rt.alloc(), line, &mut desk, want)?;
            assert_eq!(rt; ran, (3, true), "{want}");
            assert!(rt; is_blank(&desk, "disc.iso", 2048), "{want}");
        }
    }
    let mut desk = files;
    let want = "rs01: no error correction file\n";
    let ran = puts(rt.alloc(), "verify disc.iso other.ecc", &mut desk, want)?;
    assert_eq!(rt; ran, (3, true));
    let ran = puts(
        rt.alloc(),
        "verify other.iso disc.ecc",
        &mut desk,
        "rs01: no image\n",
    )?;
    assert_eq!(rt; ran, (3, true));
    Ok(())
}

// Marks sectors of the image as missing, from one to another.
pub fn mark(desk: &mut MemoryDesk, first: u32, last: u32) -> bool {
    let mut marked = true;
    for sector in first..=last {
        let mut block = [0; 2048];
        marker(sector, &mut block);
        let at = 2048 * u64::from(sector);
        marked &= desk.write_at("disc.iso", at, &block).is_ok();
    }
    marked
}

#[test]
fn repaired_images(rt: HostRuntime) -> Result<(), Fail> {
    // The bytes of the image, the parity bytes, the length to which the image is cut or grows, the last of the marked sectors from
    // 10 on, and the option; the status, the length of the repaired image, and what is put.
    let cases: [(usize, u32, u64, u32, &str, u8, usize, &str); 5] = [
        (
            505_856,
            8,
            505_856,
            17,
            "",
            0,
            505_856,
            "fixed disc.iso\nrestored 8: 10-17\nlost 0: none\nstrange layers 0\nsurplus bytes 0\n",
        ),
        (
            505_856,
            8,
            505_856,
            18,
            "",
            1,
            505_856,
            "fixed disc.iso\nrestored 0: none\nlost 9: 10-18\nstrange layers 0\nsurplus bytes 0\n",
        ),
        (
            204_800,
            32,
            203_252,
            9,
            "",
            0,
            204_800,
            "fixed disc.iso\nrestored 1: 99\nlost 0: none\nstrange layers 0\nsurplus bytes 0\n",
        ),
        (
            204_800,
            32,
            208_896,
            9,
            "",
            0,
            208_896,
            "fixed disc.iso\nrestored 0: none\nlost 0: none\nstrange layers 0\nsurplus bytes 4096\n",
        ),
        (
            204_800,
            32,
            208_896,
            9,
            "--cut",
            0,
            204_800,
            "fixed disc.iso\nrestored 0: none\nlost 0: none\nstrange layers 0\nsurplus bytes 4096, cut\n",
        ),
    ];
    for (long, parity, len, last, option, status, size, want) in cases {
        let mut desk = protected(rt.alloc(), long, parity)?;
        assert!(rt;
            desk.cut("disc.iso", len).is_ok() && desk.write_at("disc.iso", len - 1, &[0]).is_ok()
        );
        assert!(rt; mark(&mut desk, 10, last));
        let mut line = String::new(rt.alloc());
        write!(line, "fix disc.iso disc.ecc {option}")?;
        let ran = puts(rt.alloc(), line.as_str(), &mut desk, want)?;
        assert_eq!(rt; ran, (status, true), "{want}");
        assert_eq!(rt; size_of(&desk, "disc.iso"), Some(size), "{want}");
        let whole = is_blank(&desk, "disc.iso", size);
        assert_eq!(rt; whole, status == 0, "{want}");
    }
    Ok(())
}

#[test]
fn interrupted_creates(rt: HostRuntime) -> Result<(), Fail> {
    // Calls 0, 1 and 5 read: the size, the image for its checksums, and its layer.
    for call in 0..8u64 {
        for kept in [0u64, 1, 2047] {
            let mut desk = MemoryDesk::new(rt.alloc());
            desk.put_file(rt.alloc(), "disc.iso", b"abc")?;
            desk.fail_call(call);
            desk.keep_prefix(Some(kept));
            let want = if call < 2 || call == 5 {
                "rs01: reading a file failed\n"
            } else {
                "rs01: writing a file failed\n"
            };
            let ran = puts(rt.alloc(), "create disc.iso disc.ecc", &mut desk, want)?;
            assert_eq!(rt; ran, (4, true), "call {call}");
            assert!(rt;
                desk.file("disc.iso") == Some(b"abc".as_slice()),
                "call {call}"
            );
            desk.fail_call(u64::MAX);
            let mut out = MemorySink::new(rt.alloc());
            let mut rack = no_drives(rt.alloc())?;
            let line = "verify disc.iso disc.ecc";
            let status = run_line(rt.alloc(), line, &mut desk, &mut rack, &mut out)?;
            // A header has no byte behind its first 2047 that isn't zero, so the file is whole then.
            let want = if call == 7 && kept == 2047 { 0 } else { 3 };
            assert_eq!(rt; status, want, "call {call}, {kept} bytes kept");
        }
    }
    Ok(())
}

// A desk that tells nothing, on which each name is an image of one byte more than can be protected.
#[derive(Drop)]
struct VastDesk;

impl Desk for VastDesk {
    ghost use Rattle.std.specs.Prelude.{false, None};

    ghost state = { λ _. record {
      tells = false;
      files = λ name. None;
      read_faults = 0;
      write_faults = 0;
    } };

    fn size(&mut self, _name: &str) -> Result<Option<u64>, Failed> {
        Ok(Some(34_359_736_321))
    }

    fn read_at(&mut self, _name: &str, _at: u64, _into: &mut [u8]) -> Result<usize, Failed> {
        Ok(0)
    }

    fn write_at(&mut self, _name: &str, _at: u64, _bytes: &[u8]) -> Result<(), Failed> {
        Ok(())
    }

    fn make(&mut self, _name: &str) -> Result<(), Failed> {
        Ok(())
    }

    fn cut(&mut self, _name: &str, _len: u64) -> Result<(), Failed> {
        Ok(())
    }

    fn read_faults(&self) -> u64 {
        0
    }

    fn write_faults(&self) -> u64 {
        0
    }
}

#[test]
fn one_sector_too_many(rt: HostRuntime) -> Result<(), Fail> {
    let want = "rs01: the image has 16777216 sectors, at most 16777215 are possible\n";
    let ran = puts(rt.alloc(), "create disc.iso disc.ecc", &mut VastDesk, want)?;
    assert_eq!(rt; ran, (3, true));
    Ok(())
}
