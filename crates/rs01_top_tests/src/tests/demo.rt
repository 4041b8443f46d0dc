//! Demonstrations: their whole reports, and what stands after a call that failed.
use super::{puts, size_of};
use rs01_fakes::MemoryDesk;
use rs01_outside::Desk;
use std::process::Abort;
use std::test::Fail;

// Each report was computed by another program, from the description of the files alone.
const REPORTS: [(&str, u8, &str); 5] = [
    (
        "demo 1 300 32 40",
        0,
        "demo 1 300 32 40\nimage md5 4182841fbdb51db095c9c3b8ea27a092\nbody md5 7484ad1a9532a27daa429cacd6035f44\nrestored 40\nlost 0\nimage is the original\n",
    ),
    (
        "demo 1 300 normal 066",
        1,
        "demo 1 300 32 66\nimage md5 4182841fbdb51db095c9c3b8ea27a092\nbody md5 7484ad1a9532a27daa429cacd6035f44\nrestored 0\nlost 66\nimage isn't the original\n",
    ),
    (
        "demo 7 4096 32 620",
        1,
        "demo 7 4096 32 620\nimage md5 fe3c8b7a7d8b2ccb084bd8ab99da4e60\nbody md5 dd0134f376b3455b9ef5c8b80c13ace3\nrestored 224\nlost 396\nimage isn't the original\n",
    ),
    (
        "demo 7 4096 32 500",
        0,
        "demo 7 4096 32 500\nimage md5 fe3c8b7a7d8b2ccb084bd8ab99da4e60\nbody md5 dd0134f376b3455b9ef5c8b80c13ace3\nrestored 500\nlost 0\nimage is the original\n",
    ),
    (
        "demo 18446744073709551615 247 8 9",
        1,
        "demo 18446744073709551615 247 8 9\nimage md5 d2ce198021cf9e2e390c3719299f970f\nbody md5 d7e779ec101decc2cbfbb9461a597361\nrestored 0\nlost 9\nimage isn't the original\n",
    ),
];

#[test]
fn demonstrations(rt: HostRuntime) -> Result<(), Fail> {
    // All on one desk, so that each overwrites what the one before left.
    let mut desk = MemoryDesk::new(rt.alloc());
    desk.put_file(rt.alloc(), "disc.iso", b"abc")?;
    for (line, status, want) in REPORTS {
        let ran = puts(rt.alloc(), line, &mut desk, want)?;
        assert_eq!(rt; ran, (status, true), "{line}");
    }
    let (line, status, want) = REPORTS[0];
    let ran = puts(rt.alloc(), line, &mut desk, want)?;
    assert_eq!(rt; ran, (status, true), "again");
    assert_eq!(rt; size_of(&desk, "demo.iso"), Some(614_400));
    assert_eq!(rt; size_of(&desk, "demo.ecc"), Some(136_368));
    assert_eq!(rt; size_of(&desk, "disc.iso"), Some(3));
    Ok(())
}

// 81 layers, which are two windows, with eight and then with up to nine sectors gone in each.
#[test]
fn two_windows(rt: HostRuntime) -> Result<(), Fail> {
    let mut desk = MemoryDesk::new(rt.alloc());
    let begins =
        "image md5 1db2d10574ce1a6d7e26e64b81110a14\nbody md5 1748a9abbd0318b5d019ec87544f890b\n";
    for (lost, status, restored, left, what) in [
        (649u32, 1u8, 640u32, 9u32, "isn't"),
        (648, 0, 648, 0, "is"),
    ] {
        let line = format!(in rt.alloc(); "demo 7 20000 8 {lost}")?;
        let ends = format!(in rt.alloc();
            "restored {restored}\nlost {left}\nimage {what} the original\n"
        )?;
        let want = format!(in rt.alloc(); "{line}\n{begins}{ends}")?;
        let ran = puts(rt.alloc(), &line, &mut desk, &want)?;
        assert_eq!(rt; ran, (status, true), "{line}");
    }
    let mut original = Vec::new(rt.alloc());
    original.extend_from_slice(desk.file("demo.iso").unwrap_or(&[]))?;
    assert!(rt; desk.cut("demo.iso", 39_936_000).is_ok());
    let want =
        "fixed demo.iso\nrestored 500: 19500-19999\nlost 0: none\nstrange layers 0\nsurplus bytes 0\n";
    let ran = puts(rt.alloc(), "fix demo.iso demo.ecc", &mut desk, want)?;
    assert_eq!(rt; ran, (0, true), "cut to 19500 sectors");
    assert!(rt;
        desk.file("demo.iso") == Some(original.as_slice()),
        "the image comes back"
    );
    Ok(())
}

#[test]
fn interrupted_demonstrations(rt: HostRuntime) -> Result<(), Fail> {
    let line = "demo 3 9 8 2";
    let whole =
        "demo 3 9 8 2\nimage md5 38a07c4d4020989c1de1c6f6548eedbd\nbody md5 43ad3193f21b19bbe1912ffc8f49892d\nrestored 2\nlost 0\nimage is the original\n";
    let mut reads = 0u64;
    let mut writes = 0u64;
    for call in 0..42u64 {
        let mut desk = MemoryDesk::new(rt.alloc());
        desk.put_file(rt.alloc(), "disc.iso", b"abc")?;
        desk.fail_call(call);
        desk.keep_prefix(Some(100));
        let (status, want) = match call {
            0..2 | 4..7 | 16..20 | 35..37 => (4, "rs01: writing a file failed\n"),
            2..4 | 7..16 | 20..35 | 37..40 => (4, "rs01: reading a file failed\n"),
            _ => (0, whole),
        };
        let ran = puts(rt.alloc(), line, &mut desk, want)?;
        assert_eq!(rt; ran, (status, true), "call {call}");
        reads = reads.saturating_add(desk.read_faults());
        writes = writes.saturating_add(desk.write_faults());
        assert_eq!(rt; size_of(&desk, "disc.iso"), Some(3), "call {call}");
        desk.fail_call(u64::MAX);
        let ran = puts(rt.alloc(), line, &mut desk, whole)?;
        assert_eq!(rt; ran, (0, true), "again after call {call}");
    }
    assert_eq!(rt; (reads, writes), (29, 11));
    Ok(())
}
