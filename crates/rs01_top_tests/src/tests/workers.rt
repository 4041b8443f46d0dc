//! Runs by several workers: files, lines and status are those of one.
use super::{mark, no_drives, puts, words_of};
use rs01_fakes::{MeetGate, MemoryDesk, MemorySink};
use rs01_outside::{Gate, OpenGate, Sink};
use rs01_rack::Rack;
use rs01_top::run;
use std::alloc::{AllocError, Global};
use std::process::Abort;
use std::sync::Wait;
use std::test::Fail;
use std::thread::Threads;

const CREATED: &str =
    "created disc.ecc\nsectors 500, layers 3, parity 32\nlast sector 2048 bytes\nimage md5 0c2d290e9a8107742ae5ff6a516701ac\n";

const FIXED: &str =
    "fixed disc.iso\nrestored 20: 100-119\nlost 0: none\nstrange layers 0\nsurplus bytes 0\n";

// An image of so many sectors, in which neighbours differ.
fn image(alloc: Global, sectors: usize) -> Result<Vec<u8>, AllocError> {
    let mut image = vec![in alloc; 0u8; sectors.saturating_mul(2048)]?;
    for (i, byte) in image.iter_mut().enumerate() {
        *byte = (((i >> 11) ^ (i >> 3) ^ i) & 0xff) as u8;
    }
    Ok(image)
}

// Runs a line by `run`.
pub fn run_shared<R: Threads + Wait + Sync, G: Gate>(
    rt: &R,
    alloc: Global,
    line: &str,
    desk: &mut MemoryDesk,
    rack: &mut Rack,
    out: &mut MemorySink,
    gate: &G,
) -> Result<u8, AllocError> {
    let words = words_of(alloc, line)?;
    Ok(run(rt, alloc, &words, desk, rack, out, gate))
}

// Runs a line without drives, and tells the status and whether these bytes were put.
fn runs<R: Threads + Wait + Sync, G: Gate>(
    rt: &R,
    alloc: Global,
    line: &str,
    desk: &mut MemoryDesk,
    gate: &G,
    want: &str,
) -> Result<(u8, bool), AllocError> {
    let mut out = MemorySink::new(alloc);
    let mut rack = no_drives(alloc)?;
    let status = run_shared(rt, alloc, line, desk, &mut rack, &mut out, gate)?;
    Ok((status, out.bytes() == want.as_bytes() && out.faults() == 0))
}

// An image of so many sectors by so many parity bytes; what making its file puts, and what repairing sectors 100 to 119
// puts.
#[derive(Clone, Copy)]
struct Shared {
    sectors: usize,
    parity: u32,
    created: &'static str,
    fixed: &'static str,
}

const THREE_LAYERS: Shared = Shared {
    sectors: 500,
    parity: 32,
    created: CREATED,
    fixed: FIXED,
};

// 65 layers, of which the last one is alone in its window.
const TWO_WINDOWS: Shared = Shared {
    sectors: 15_809,
    parity: 8,
    created: "created disc.ecc\nsectors 15809, layers 65, parity 8\nlast sector 2048 bytes\nimage md5 6ea81cec133d6094748df4036f0a1731\n",
    fixed: FIXED,
};

// What one worker leaves of an image and its file.
fn made_by_one<A: Abort>(
    rt: &A,
    alloc: Global,
    row: Shared,
    image: &[u8],
) -> Result<MemoryDesk, AllocError> {
    let mut one = MemoryDesk::new(alloc);
    one.put_file(alloc, "disc.iso", image)?;
    let line = format!(in alloc; "create disc.iso disc.ecc --parity {}", row.parity)?;
    let ran = puts(alloc, &line, &mut one, row.created)?;
    assert_eq!(rt; ran, (0, true), "one worker");
    Ok(one)
}

// Makes the file of an image by so many workers, and repairs the image by as many: files and lines are those of one.
fn check_shared<R: Threads + Wait + Sync + Abort>(
    rt: &R,
    alloc: Global,
    row: Shared,
    image: &[u8],
    one: &MemoryDesk,
    workers: u32,
) -> Result<(), AllocError> {
    let mut desk = MemoryDesk::new(alloc);
    desk.put_file(alloc, "disc.iso", image)?;
    let line = format!(in alloc;
        "create disc.iso disc.ecc --parity {} --workers {workers}",
        row.parity
    )?;
    let ran = runs(rt, alloc, &line, &mut desk, &OpenGate, row.created)?;
    assert_eq!(rt; ran, (0, true), "{workers} workers");
    assert!(rt;
        desk.file("disc.ecc") == one.file("disc.ecc"),
        "{workers} workers"
    );
    assert!(rt; mark(&mut desk, 100, 119));
    let line = format!(in alloc; "fix disc.iso disc.ecc --workers {workers}")?;
    let ran = runs(rt, alloc, &line, &mut desk, &OpenGate, row.fixed)?;
    assert_eq!(rt; ran, (0, true), "{workers} workers");
    assert!(rt; desk.file("disc.iso") == Some(image), "{workers} workers");
    assert!(rt;
        desk.file("disc.ecc") == one.file("disc.ecc"),
        "{workers} workers"
    );
    Ok(())
}

// The file of an image and its repair, by one worker and then by several.
fn check_all<R: Threads + Wait + Sync + Abort>(
    rt: &R,
    alloc: Global,
    row: Shared,
) -> Result<(), AllocError> {
    let image = image(alloc, row.sectors)?;
    let one = made_by_one(rt, alloc, row, &image)?;
    for workers in [1u32, 2, 7, 32] {
        check_shared(rt, alloc, row, &image, &one, workers)?;
    }
    Ok(())
}

#[test]
fn files_and_lines_by_several_workers(rt: HostRuntime) -> Result<(), Fail> {
    check_all(&rt, rt.alloc(), THREE_LAYERS)?;
    Ok(())
}

#[test]
fn two_windows_by_several_workers(rt: HostRuntime) -> Result<(), Fail> {
    check_all(&rt, rt.alloc(), TWO_WINDOWS)?;
    Ok(())
}

// The first worker that takes a layer goes on once the other one took one too.
#[test]
fn two_workers_meet(rt: HostRuntime) -> Result<(), Fail> {
    let alloc = rt.alloc();
    let image = image(alloc, 500)?;
    let mut desk = MemoryDesk::new(alloc);
    desk.put_file(alloc, "disc.iso", &image)?;
    let making = MeetGate::new();
    let line = "create disc.iso disc.ecc --workers 2";
    let ran = runs(&rt, alloc, line, &mut desk, &making, CREATED)?;
    assert_eq!(rt; ran, (0, true));
    assert!(rt; making.met());
    assert!(rt; mark(&mut desk, 100, 119));
    let mending = MeetGate::new();
    let line = "fix disc.iso disc.ecc --workers 2";
    let ran = runs(&rt, alloc, line, &mut desk, &mending, FIXED)?;
    assert_eq!(rt; ran, (0, true));
    assert!(rt; mending.met());
    assert!(rt; desk.file("disc.iso") == Some(image.as_slice()));
    Ok(())
}

// What isn't shared among workers, and words that give no work, are as by one.
#[test]
fn lines_that_one_does(rt: HostRuntime) -> Result<(), Fail> {
    let alloc = rt.alloc();
    let mut desk = MemoryDesk::new(alloc);
    let cases = [
        (
            "verify disc.iso disc.ecc",
            3,
            "rs01: no error correction file\n",
        ),
        ("create disc.iso disc.ecc", 3, "rs01: no image\n"),
        ("burn", 2, "rs01: word 0: unknown command\n"),
        (
            "demo 1 300 32 40",
            0,
            "demo 1 300 32 40\nimage md5 4182841fbdb51db095c9c3b8ea27a092\nbody md5 7484ad1a9532a27daa429cacd6035f44\nrestored 40\nlost 0\nimage is the original\n",
        ),
    ];
    for (line, want, text) in cases {
        let ran = runs(&rt, alloc, line, &mut desk, &OpenGate, text)?;
        assert_eq!(rt; ran, (want, true), "{line}");
    }
    Ok(())
}
