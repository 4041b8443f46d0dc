//! Images of zeros that are repaired.
ghost use Rattle.std.specs.Prelude.{◌≤◌};

use md5::{Digest, Md5};
use rs01_ecchead::{Head, HeadRefusal, Which, write_head};
use rs01_fakes::MemoryDesk;
use rs01_fix::*;
use rs01_lists::{push_zeros, zeroed};
use rs01_outside::{Desk, Failed, OpenGate};
use rs01_report::{FixReport, Strange, Why};
use rs01_sums::{crc32, marker};
use std::alloc::{AllocError, Global};
use std::process::Abort;
use std::test::Fail;

// The error correction file of an image of so many sectors of zeros, whose parity is zeros too.
fn ecc_bytes(alloc: Global, sectors: u32, parity: u32) -> Result<Vec<u8>, AllocError>
    requires sectors { (1 ≤ sectors) × (sectors ≤ 16777215) }
    requires parity { (8 ≤ parity) × (parity ≤ 100) }
{
    let block = [0u8; 2048];
    let sum = crc32(&block).to_le_bytes();
    let mut body = Vec::new(alloc);
    for _sector in 0..sectors {
        body.extend_from_slice(&sum)?;
    }
    let layers = (sectors + (254 - parity)) / (255 - parity);
    push_zeros(2048 * parity as usize * layers as usize, &mut body)?;
    let head = Head {
        flags: 0,
        fingerprint: Md5::digest(&block),
        image_sum: Md5::digest(&block),
        body_sum: Md5::digest(&body),
        sectors,
        parity,
        creator: 1,
        needed: 1,
        mark_sector: 0,
        last_bytes: 2048,
    };
    let mut header = [0u8; 4096];
    write_head(&head, &mut header);
    let mut bytes = Vec::new(alloc);
    bytes.extend_from_slice(&header)?;
    bytes.extend_from_slice(&body)?;
    Ok(bytes)
}

// A desk with that image and its error correction file.
fn protected(alloc: Global) -> Result<MemoryDesk, AllocError> {
    let mut desk = MemoryDesk::new(alloc);
    desk.put_file(alloc, "disc.iso", &[0u8; 20_480])?;
    desk.put_file(alloc, "disc.ecc", &ecc_bytes(alloc, 10, 8)?)?;
    Ok(desk)
}

// A file is cut, and then bytes are put at a place of it.
fn change(desk: &mut MemoryDesk, name: &str, len: u64, at: u64, bytes: &[u8]) -> bool {
    desk.cut(name, len).is_ok() && desk.write_at(name, at, bytes).is_ok()
}

fn repaired(alloc: Global, desk: &mut MemoryDesk, cut: bool) -> Result<FixReport, FixRefusal> {
    fix_one(alloc, desk, "disc.iso", "disc.ecc", cut)
}

// Whether the image has so many bytes, all of them zeros.
fn is_zeros(desk: &MemoryDesk, len: usize) -> bool {
    let bytes = desk.file("disc.iso").unwrap_or(&[]);
    bytes.len() == len && bytes.iter().all(|byte| *byte == 0)
}

#[derive(Clone, Copy)]
struct Row {
    // how the image is cut, and the bytes that are put at a place of it
    len: u64,
    at: u64,
    bytes: &'static [u8],
    cut: bool,
    restored: &'static [u32],
    surplus: u64,
    was_cut: bool,
    // how many bytes it has afterwards
    left: usize,
}

const WHOLE: Row = Row {
    len: 20_480,
    at: 0,
    bytes: b"",
    cut: false,
    restored: &[],
    surplus: 0,
    was_cut: false,
    left: 20_480,
};

#[test]
fn images_come_back(rt: HostRuntime) -> Result<(), Fail> {
    for row in [
        WHOLE,
        Row {
            at: 4 * 2048 + 2047,
            bytes: b"!!",
            restored: &[4, 5],
            ..WHOLE
        },
        Row {
            len: 16_385,
            restored: &[8, 9],
            ..WHOLE
        },
        Row {
            at: 22_000,
            bytes: b"\0",
            surplus: 1521,
            left: 22_001,
            ..WHOLE
        },
        Row {
            at: 22_000,
            bytes: b"!",
            cut: true,
            surplus: 1521,
            was_cut: true,
            ..WHOLE
        },
        Row { cut: true, ..WHOLE },
    ] {
        let mut desk = protected(rt.alloc())?;
        assert!(rt; change(&mut desk, "disc.iso", row.len, row.at, row.bytes));
        let report = repaired(rt.alloc(), &mut desk, row.cut)?;
        assert!(rt; report.restored.items() == row.restored);
        assert!(rt; report.lost.len() == 0 && report.strange.len() == 0);
        assert_eq!(rt; (report.surplus, report.cut), (row.surplus, row.was_cut));
        assert!(rt; is_zeros(&desk, row.left), "{} bytes", row.len);
    }
    Ok(())
}

// Nine of ten sectors are gone, which is one more than there are parity bytes: those that are absent get their markers.
#[test]
fn markers_of_absent_sectors(rt: HostRuntime) -> Result<(), Fail> {
    let mut desk = protected(rt.alloc())?;
    assert!(rt; change(&mut desk, "disc.iso", 2053, 0, b""));
    let report = repaired(rt.alloc(), &mut desk, false)?;
    assert!(rt; report.restored.len() == 0 && report.strange.len() == 0);
    assert!(rt; report.lost.items() == [1u32, 2, 3, 4, 5, 6, 7, 8, 9].as_slice());
    let mut want = protected(rt.alloc())?;
    let mut block = [0u8; 2048];
    for sector in 1..10 {
        marker(sector, &mut block);
        assert!(rt;
            want.write_at("disc.iso", 2048 * u64::from(sector), &block)
                .is_ok()
        );
    }
    assert!(rt; desk.file("disc.iso") == want.file("disc.iso"));
    Ok(())
}

// Puts a byte into the error correction file, and makes its digest anew.
fn change_ecc(desk: &mut MemoryDesk, at: u64) -> bool {
    if desk.write_at("disc.ecc", at, b"?").is_err() {
        return false;
    }
    let file = desk.file("disc.ecc").unwrap_or(&[]);
    let sum = Md5::digest(file.get(4096..).unwrap_or(&[]));
    desk.write_at("disc.ecc", 52, &sum).is_ok()
}

#[test]
fn strange_layers(rt: HostRuntime) -> Result<(), Fail> {
    // A parity byte of codeword 5, and a byte of the checksum of sector 3.
    let cases: [(u64, &[u32], Why); 2] = [
        (4136 + 5 * 8, &[], Why::Codeword(5)),
        (4096 + 4 * 3, &[3], Why::Sum(3)),
    ];
    for (at, lost, why) in cases {
        let mut desk = protected(rt.alloc())?;
        assert!(rt; change_ecc(&mut desk, at));
        let report = repaired(rt.alloc(), &mut desk, false)?;
        assert!(rt; report.strange.items() == [Strange { layer: 0, why }].as_slice());
        assert!(rt; report.lost.items() == lost && report.restored.len() == 0);
        assert!(rt; is_zeros(&desk, 20_480), "byte {at}");
    }
    Ok(())
}

#[test]
fn refusals(rt: HostRuntime) -> Result<(), Fail> {
    // How the error correction file is cut, and the byte that is put in it.
    let cases: [(u64, u64, &[u8], FixRefusal); 3] = [
        (
            20_519,
            0,
            b"",
            FixRefusal::Size {
                have: 20_519,
                want: 20_520,
            },
        ),
        (
            4095,
            0,
            b"",
            FixRefusal::Size {
                have: 4095,
                want: 4096,
            },
        ),
        (20_520, 0, b"+", FixRefusal::Head(HeadRefusal::Cookie)),
    ];
    for (len, at, bytes, want) in cases {
        let mut desk = protected(rt.alloc())?;
        assert!(rt; change(&mut desk, "disc.ecc", len, at, bytes));
        assert!(rt;
            repaired(rt.alloc(), &mut desk, false).err() == Some(want),
            "{len} bytes"
        );
        assert!(rt; is_zeros(&desk, 20_480));
    }
    let mut desk = MemoryDesk::new(rt.alloc());
    let absent = repaired(rt.alloc(), &mut desk, false).err();
    assert!(rt; absent == Some(FixRefusal::NoFile(Which::Ecc)));
    desk.put_file(rt.alloc(), "disc.ecc", &ecc_bytes(rt.alloc(), 10, 8)?)?;
    let absent = repaired(rt.alloc(), &mut desk, false).err();
    assert!(rt; absent == Some(FixRefusal::NoFile(Which::Image)));
    assert!(rt; desk.file("disc.iso").is_none());
    Ok(())
}

// The calls are size, header, checksums and parity of the one file, the size of the other, its sectors one by one, since
// they are places of one layer, the parity of the layer, the writes of sectors 0 and 1, and the cut. After a fault a
// second repair goes on.
#[test]
fn each_call_failing_in_turn(rt: HostRuntime) -> Result<(), Fail> {
    for call in 0..19 {
        let mut desk = protected(rt.alloc())?;
        assert!(rt; change(&mut desk, "disc.iso", 20_480, 2047, b"!!"));
        assert!(rt; desk.write_at("disc.iso", 20_480, b"!").is_ok());
        let mut again = MemoryDesk::new(rt.alloc());
        again.put_file(rt.alloc(), "disc.ecc", desk.file("disc.ecc").unwrap_or(&[]))?;
        again.put_file(rt.alloc(), "disc.iso", desk.file("disc.iso").unwrap_or(&[]))?;
        again.fail_call(call);
        again.keep_prefix(Some(100));
        let refused = repaired(rt.alloc(), &mut again, true).err();
        let reading = call < 16;
        let want = if reading {
            FixRefusal::ReadFault
        } else {
            FixRefusal::WriteFault
        };
        assert!(rt; refused == Some(want), "call {call}");
        assert!(rt;
            again.read_faults() == u64::from(reading) && again.write_faults() == u64::from(!reading)
        );
        assert!(rt; repaired(rt.alloc(), &mut again, true).is_ok());
        assert!(rt; is_zeros(&again, 20_480), "call {call}");
    }
    Ok(())
}

// A desk with an image of so many sectors of zeros, of whose codewords 100 bytes are parity.
fn large(alloc: Global, sectors: u32) -> Result<MemoryDesk, AllocError>
    requires { (1 ≤ sectors) × (sectors ≤ 16777215) }
{
    let mut desk = MemoryDesk::new(alloc);
    desk.put_file(alloc, "disc.iso", &zeroed(alloc, 2048 * sectors as usize)?)?;
    desk.put_file(alloc, "disc.ecc", &ecc_bytes(alloc, sectors, 100)?)?;
    Ok(desk)
}

// Repairs an image of so many sectors after a byte of three of them was changed, and looks at what is told.
fn repair_three(rt: &impl Abort, alloc: Global, sectors: u32) -> Result<(), Fail>
    requires { (100 ≤ sectors) × (sectors ≤ 16777215) }
{
    let mut desk = large(alloc, sectors)?;
    let damaged = [63u32, 64, sectors - 1];
    for sector in damaged {
        let at = 2048 * u64::from(sector) + 2047;
        assert!(rt; desk.write_at("disc.iso", at, b"!").is_ok());
    }
    let report = repaired(alloc, &mut desk, false)?;
    assert!(rt;
        report.restored.items() == damaged.as_slice(),
        "{sectors} sectors"
    );
    assert!(rt; report.lost.len() == 0 && report.strange.len() == 0);
    assert!(rt; is_zeros(&desk, 2048 * sectors as usize));
    Ok(())
}

// Images of 64, 65, 128 and 129 layers, of which 16 are read at a time.
#[test]
fn damage_at_the_edge_of_a_window(rt: HostRuntime) -> Result<(), Fail> {
    repair_three(&rt, rt.alloc(), 9920)?;
    repair_three(&rt, rt.alloc(), 9921)?;
    repair_three(&rt, rt.alloc(), 19_840)?;
    repair_three(&rt, rt.alloc(), 19_841)?;
    Ok(())
}

// 65 layers, by one worker and by more.
#[test]
fn repairs_by_several_workers(rt: HostRuntime) -> Result<(), Fail> {
    let damaged = [63u32, 64, 9920];
    for workers in [1u32, 3] {
        let mut desk = large(rt.alloc(), 9921)?;
        for sector in damaged {
            let at = 2048 * u64::from(sector);
            assert!(rt; desk.write_at("disc.iso", at, b"!").is_ok());
        }
        let (image, ecc) = ("disc.iso", "disc.ecc");
        let report = fix(
            &rt,
            rt.alloc(),
            &mut desk,
            image,
            ecc,
            false,
            workers,
            &OpenGate,
        )?;
        assert!(rt; report.restored.items() == damaged.as_slice());
        assert!(rt; report.lost.len() == 0 && report.strange.len() == 0);
        assert!(rt; is_zeros(&desk, 2048 * 9921), "{workers} workers");
    }
    Ok(())
}

// A desk that tells whether a byte of the image was read after one was written.
#[derive(Drop)]
struct Ordered {
    desk: MemoryDesk,
    wrote: bool,
    read_after: bool,
}

impl Desk for Ordered {
    ghost use Rattle.rs01_fakes.specs.Memory.{desk_state};

    ghost state = { λ d. desk_state d.desk };

    fn size(&mut self, name: &str) -> Result<Option<u64>, Failed> {
        self.desk.size(name)
    }

    fn read_at(&mut self, name: &str, at: u64, into: &mut [u8]) -> Result<usize, Failed> {
        self.read_after |= self.wrote && name == "disc.iso";
        self.desk.read_at(name, at, into)
    }

    fn write_at(&mut self, name: &str, at: u64, bytes: &[u8]) -> Result<(), Failed> {
        self.wrote = true;
        self.desk.write_at(name, at, bytes)
    }

    fn make(&mut self, name: &str) -> Result<(), Failed> {
        self.desk.make(name)
    }

    fn cut(&mut self, name: &str, len: u64) -> Result<(), Failed> {
        self.desk.cut(name, len)
    }

    fn read_faults(&self) -> u64 {
        self.desk.read_faults()
    }

    fn write_faults(&self) -> u64 {
        self.desk.write_faults()
    }
}

// The image is cut so that sectors of all five windows are absent. The later windows are read after the first one's writes,
// by which the file has grown already.
#[test]
fn absent_in_five_windows(rt: HostRuntime) -> Result<(), Fail> {
    let mut desk = Ordered {
        desk: large(rt.alloc(), 9921)?,
        wrote: false,
        read_after: false,
    };
    assert!(rt; desk.desk.cut("disc.iso", 2048 * 9860).is_ok());
    let report = fix_one(rt.alloc(), &mut desk, "disc.iso", "disc.ecc", false)?;
    assert_eq!(rt; report.restored.len(), 61);
    let rising = report.restored.items().iter().enumerate();
    for (i, sector) in rising {
        assert_eq!(rt; *sector as usize, 9860usize.wrapping_add(i));
    }
    assert!(rt; report.lost.len() == 0 && report.strange.len() == 0);
    assert!(rt; desk.read_after);
    assert!(rt; is_zeros(&desk.desk, 2048 * 9921));
    Ok(())
}

// Calls that fail in each window. After the fault a second repair goes on.
#[test]
fn calls_failing_in_five_windows(rt: HostRuntime) -> Result<(), Fail> {
    for row in 0..8u64 {
        let mut desk = large(rt.alloc(), 9921)?;
        for sector in [0u64, 64, 9920] {
            assert!(rt; desk.write_at("disc.iso", 2048 * sector, b"!").is_ok());
        }
        desk.fail_call(3 + 134 * row);
        desk.keep_prefix(Some(100));
        let refused = repaired(rt.alloc(), &mut desk, false).err();
        let want = match (desk.read_faults(), desk.write_faults()) {
            (0, 0) => None,
            (1, 0) => Some(FixRefusal::ReadFault),
            _ => Some(FixRefusal::WriteFault),
        };
        assert!(rt; refused == want, "row {row}");
        assert!(rt; repaired(rt.alloc(), &mut desk, false).is_ok());
        assert!(rt; is_zeros(&desk, 2048 * 9921), "row {row}");
    }
    Ok(())
}
