//! Reports and fault lines, whole.
use rs01_outside::{Failed, Sink};
use rs01_report::*;
use std::alloc::Global;
use std::process::Abort;
use std::test::Fail;

// A sink that keeps its bytes, or fails.
#[derive(Drop)]
struct Page {
    bytes: Vec<u8>,
    closed: bool,
    faults: u64,
}

impl Sink for Page {
    ghost use Rattle.std.specs.Prelude.{false, []};

    ghost state = { λ page. record { tells = false; taken = []; faults = page.faults } };

    fn put(&mut self, bytes: &[u8]) -> Result<(), Failed> {
        if !self.closed && self.bytes.extend_from_slice(bytes).is_ok() {
            return Ok(());
        }
        self.faults = self.faults.saturating_add(1);
        Err(Failed)
    }

    fn faults(&self) -> u64 {
        self.faults
    }
}

const REPORT: CreateReport = CreateReport {
    sectors: 1,
    layers: 1,
    parity: 32,
    last_bytes: 3,
    image_sum: [
        0x90, 0x01, 0x50, 0x98, 0x3c, 0xd2, 0x4f, 0xb0, 0xd6, 0x96, 0x3f, 0x7d, 0x28, 0xe1, 0x7f,
        0x72,
    ],
};

fn empty_page(alloc: Global, closed: bool) -> Page {
    Page {
        bytes: Vec::new(alloc),
        closed,
        faults: 0,
    }
}

#[test]
fn created(rt: HostRuntime) {
    let mut out = empty_page(rt.alloc(), false);
    assert!(rt; put_create(rt.alloc(), &REPORT, "disc.ecc", &mut out).is_ok());
    let want =
        b"created disc.ecc\nsectors 1, layers 1, parity 32\nlast sector 3 bytes\nimage md5 900150983cd24fb0d6963f7d28e17f72\n";
    assert_eq!(rt; out.bytes.as_slice(), want.as_slice());
}

// A report of 224 sectors of which one is altered.
fn altered_report(alloc: Global, fingerprint: Mark, image: Mark) -> Result<VerifyReport, Fail> {
    Ok(VerifyReport {
        sectors: 224,
        layers: 2,
        parity: 32,
        missing: SectorList::of(Vec::new(alloc)),
        altered: SectorList::of([5u32].to_vec(alloc)?),
        fullest: Fullest {
            layer: 1,
            erased: 1,
            parity: 32,
            beyond: 0,
        },
        surplus: 0,
        fingerprint,
        image,
    })
}

#[test]
fn verified(rt: HostRuntime) -> Result<(), Fail> {
    for (fingerprint, image, ends) in [
        (
            Mark::Matches,
            Mark::Differs,
            "fingerprint matches\nimage md5 differs\n",
        ),
        (
            Mark::Differs,
            Mark::Absent,
            "fingerprint differs\nimage md5 short\n",
        ),
        (
            Mark::Absent,
            Mark::Matches,
            "fingerprint absent\nimage md5 matches\n",
        ),
    ] {
        let report = altered_report(rt.alloc(), fingerprint, image)?;
        let mut out = empty_page(rt.alloc(), false);
        assert!(rt; put_verify(rt.alloc(), &report, "disc.iso", &mut out).is_ok());
        let want = format!(in rt.alloc();
            "checked disc.iso\nsectors 224, layers 2, parity 32\nmissing 0: none\naltered 1: 5\nfullest layer 1: 1 of 32\nlayers beyond 0\nsurplus bytes 0\n{ends}"
        )?;
        assert_eq!(rt; out.bytes.as_slice(), want.as_bytes());
    }
    Ok(())
}

#[test]
fn closed_sink(rt: HostRuntime) {
    let mut out = empty_page(rt.alloc(), true);
    assert_eq!(rt;
        put_create(rt.alloc(), &REPORT, "disc.ecc", &mut out),
        Err(PutRefusal::SinkFault)
    );
    assert_eq!(rt;
        put_fault(rt.alloc(), &Fault::NoImage, &mut out),
        Err(PutRefusal::SinkFault)
    );
    assert_eq!(rt; out.faults, 2);
}

fn assert_line(rt: &impl Abort, alloc: Global, fault: &Fault, status: u8, line: &str) {
    let mut out = empty_page(alloc, false);
    assert!(rt; put_fault(alloc, fault, &mut out).is_ok());
    assert!(rt; out.bytes.as_slice() == line.as_bytes(), "{line}");
    assert!(rt; fault.status().number() == status, "{line}");
}

#[test]
fn fault_lines(rt: HostRuntime) {
    let have = REPORT.image_sum;
    let want = [0x0f; 16];
    for (fault, status, line) in [
        (Fault::NoCommand, 2, "rs01: word 0: no command\n"),
        (Fault::UnknownCommand, 2, "rs01: word 0: unknown command\n"),
        (Fault::UnknownOption(3), 2, "rs01: word 3: not known here\n"),
        (Fault::Repeated(5), 2, "rs01: word 5: given twice\n"),
        (Fault::NoValue(3), 2, "rs01: word 3: needs a value\n"),
        (Fault::BadNumber(4), 2, "rs01: word 4: not a number\n"),
        (Fault::OutOfRange(4), 2, "rs01: word 4: out of range\n"),
        (Fault::Missing(2), 2, "rs01: word 2: something is missing\n"),
        (Fault::SameName(2), 2, "rs01: word 2: the same name twice\n"),
        (Fault::NoImage, 3, "rs01: no image\n"),
        (Fault::NoEcc, 3, "rs01: no error correction file\n"),
        (Fault::EmptyImage, 3, "rs01: the image is empty\n"),
        (
            Fault::TooManySectors(16_777_216),
            3,
            "rs01: the image has 16777216 sectors, at most 16777215 are possible\n",
        ),
        (Fault::Marker(7), 3, "rs01: sector 7 is marked as missing\n"),
        (Fault::Cookie, 3, "rs01: header: cookie\n"),
        (Fault::Method, 3, "rs01: header: method\n"),
        (Fault::Version, 3, "rs01: header: version\n"),
        (Fault::Sectors, 3, "rs01: header: sectors\n"),
        (Fault::Parity, 3, "rs01: header: parity\n"),
        (Fault::LastBytes, 3, "rs01: header: last bytes\n"),
        (
            Fault::Size(69_635, 69_636),
            3,
            "rs01: the file has 69635 bytes, 69636 are expected\n",
        ),
        (
            Fault::Body(have, want),
            3,
            "rs01: body md5 900150983cd24fb0d6963f7d28e17f72, recorded 0f0f0f0f0f0f0f0f0f0f0f0f0f0f0f0f\n",
        ),
        (Fault::ReadFault, 4, "rs01: reading a file failed\n"),
        (Fault::WriteFault, 4, "rs01: writing a file failed\n"),
        (Fault::NoDrive, 5, "rs01: no drive\n"),
        (Fault::Failed(0), 5, "rs01: drive 0: size failed\n"),
        (
            Fault::Differ(10, 11),
            5,
            "rs01: drives differ: 10 and 11 sectors\n",
        ),
        (Fault::DriveSize(0), 5, "rs01: the medium has 0 sectors\n"),
        (Fault::OutOfMemory, 7, "rs01: memory ran out\n"),
    ] {
        assert_line(&rt, rt.alloc(), &fault, status, line);
    }
}

#[test]
fn lists(rt: HostRuntime) -> Result<(), Fail> {
    for (sectors, want) in [
        ([].as_slice(), "0: none"),
        ([5u32].as_slice(), "1: 5"),
        ([3u32, 4, 5, 6, 9].as_slice(), "5: 3-6,9"),
        ([1u32, 3, 5, 6].as_slice(), "4: 1,3,5-6"),
        ([0u32, 1, 2, 4_294_967_295].as_slice(), "4: 0-2,4294967295"),
    ] {
        let list = SectorList::of(sectors.to_vec(rt.alloc())?);
        let mut text = String::new(rt.alloc());
        push_list(&mut text, list.items())?;
        assert_eq!(rt; text.as_str(), want);
        assert_eq!(rt; list.len(), sectors.len());
    }
    let list = SectorList::of([3u32, 9].to_vec(rt.alloc())?);
    assert_eq!(rt; list.len(), 2);
    assert_eq!(rt; *list.get(1), 9);
    Ok(())
}

// The report that was put.
fn assert_report(rt: &impl Abort, out: &Page, put: Result<(), PutRefusal>, lines: &str) {
    assert!(rt;
        put.is_ok() && out.bytes.as_slice() == lines.as_bytes(),
        "{lines}"
    );
}

const STRANGE: [Strange; 2] = [
    Strange {
        layer: 0,
        why: Why::Codeword(5),
    },
    Strange {
        layer: 1,
        why: Why::Sum(3),
    },
];

#[test]
fn fixed(rt: HostRuntime) -> Result<(), Fail> {
    let alloc = rt.alloc();
    for (strange, surplus, cut, ends) in [
        (0, 0, false, "0\nsurplus bytes 0\n"),
        (0, 0, true, "0\nsurplus bytes 0\n"),
        (0, 4096, true, "0\nsurplus bytes 4096, cut\n"),
        (
            2,
            7,
            false,
            "2\nlayer 0: codeword 5 disagrees\nlayer 1: sector 3 has another checksum\nsurplus bytes 7\n",
        ),
    ] {
        let report = FixReport {
            restored: SectorList::of([10u32, 11, 12, 17].to_vec(alloc)?),
            lost: SectorList::of([9u32].to_vec(alloc)?),
            strange: StrangeList::of(STRANGE[..strange].to_vec(alloc)?),
            surplus,
            cut,
        };
        let mut out = empty_page(alloc, false);
        let put = put_fix(alloc, &report, "disc.iso", &mut out);
        let want = format!(in alloc;
            "fixed disc.iso\nrestored 4: 10-12,17\nlost 1: 9\nstrange layers {ends}"
        )?;
        assert_report(&rt, &out, put, want.as_str());
    }
    Ok(())
}

#[test]
fn scanned(rt: HostRuntime) -> Result<(), Fail> {
    let alloc = rt.alloc();
    let fullest = Fullest {
        layer: 0,
        erased: 1,
        parity: 32,
        beyond: 0,
    };
    for (fullest, ends) in [
        (None, ""),
        (Some(fullest), "fullest layer 0: 1 of 32\nlayers beyond 0\n"),
    ] {
        let report = ScanReport {
            sectors: 10,
            unreadable: SectorList::of([3u32].to_vec(alloc)?),
            altered: SectorList::of(Vec::new(alloc)),
            fullest,
        };
        let mut out = empty_page(alloc, false);
        let put = put_scan(alloc, &report, &mut out);
        let want = format!(in alloc;
            "scanned 10 sectors\nunreadable 1: 3\naltered 0: none\n{ends}"
        )?;
        assert_report(&rt, &out, put, want.as_str());
    }
    Ok(())
}

// The sectors 191 to 222.
fn last_sectors(alloc: Global) -> Result<SectorList, Fail> {
    let mut sectors = Vec::new(alloc);
    for sector in 191..223u32 {
        sectors.push(sector)?;
    }
    Ok(SectorList::of(sectors))
}

#[test]
fn read(rt: HostRuntime) -> Result<(), Fail> {
    let alloc = rt.alloc();
    let report = ReadReport {
        sectors: 223,
        asked: 191,
        kept: 0,
        read: 191,
        unreadable: SectorList::of(Vec::new(alloc)),
        altered: SectorList::of(Vec::new(alloc)),
        not_asked: last_sectors(alloc)?,
        restored: last_sectors(alloc)?,
        lost: SectorList::of(Vec::new(alloc)),
        strange: StrangeList::of(Vec::new(alloc)),
        surplus: 0,
    };
    let mut out = empty_page(alloc, false);
    let put = put_read(alloc, &report, "disc.iso", &mut out);
    assert_report(
        &rt,
        &out,
        put,
        "read disc.iso\nsectors 223\nasked 191\nkept 0\nread 191\nunreadable 0: none\naltered 0: none\nnot asked 32: 191-222\nrestored 32: 191-222\nlost 0: none\nstrange layers 0\nsurplus bytes 0\n",
    );
    Ok(())
}

#[test]
fn demonstrated(rt: HostRuntime) -> Result<(), Fail> {
    let alloc = rt.alloc();
    let image_sum = REPORT.image_sum;
    for (lost_asked, restored, lost, original, ends) in [
        (40, 40, 0, true, "40\nlost 0\nimage is the original\n"),
        (66, 0, 66, false, "0\nlost 66\nimage isn't the original\n"),
    ] {
        let report = DemoReport {
            number: 1,
            sectors: 300,
            parity: 32,
            lost_asked,
            image_sum,
            body_sum: [0x0f; 16],
            restored,
            lost,
            original,
        };
        let mut out = empty_page(alloc, false);
        let put = put_demo(alloc, &report, &mut out);
        let want = format!(in alloc;
            "demo 1 300 32 {lost_asked}\nimage md5 900150983cd24fb0d6963f7d28e17f72\nbody md5 0f0f0f0f0f0f0f0f0f0f0f0f0f0f0f0f\nrestored {ends}"
        )?;
        assert_report(&rt, &out, put, want.as_str());
    }
    Ok(())
}
