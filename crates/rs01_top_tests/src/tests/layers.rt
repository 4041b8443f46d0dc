//! Repairs of a layer beyond its bound beside one within, and of strange layers.
use super::{mark, protected, puts};
use md5::{Digest, Md5};
use rs01_fakes::MemoryDesk;
use rs01_outside::Desk;
use std::process::Abort;
use std::test::Fail;

// Marks the 33 even sectors from 0 to 64, which all lie in the first of two layers.
fn mark_the_even(desk: &mut MemoryDesk) -> bool {
    let mut marked = true;
    for half in 0u32..33 {
        marked &= mark(desk, 2 * half, 2 * half);
    }
    marked
}

#[test]
fn one_layer_of_two_beyond_its_bound(rt: HostRuntime) -> Result<(), Fail> {
    let alloc = rt.alloc();
    let mut kept = protected(alloc, 458_752, 32)?;
    assert!(rt; mark_the_even(&mut kept));
    let mut desk = protected(alloc, 458_752, 32)?;
    assert!(rt; mark_the_even(&mut desk));
    for sector in [1u32, 3, 5] {
        assert!(rt; mark(&mut desk, sector, sector));
    }
    let want =
        "fixed disc.iso\nrestored 3: 1,3,5\nlost 33: 0,2,4,6,8,10,12,14,16,18,20,22,24,26,28,30,32,34,36,38,40,42,44,46,48,50,52,54,56,58,60,62,64\nstrange layers 0\nsurplus bytes 0\n";
    let ran = puts(alloc, "fix disc.iso disc.ecc", &mut desk, want)?;
    assert_eq!(rt; ran, (1, true));
    assert!(rt; desk.file("disc.iso") == kept.file("disc.iso"));
    Ok(())
}

/// Puts a byte into the error correction file, and makes the digest of its body anew.
pub fn change(desk: &mut MemoryDesk, at: u64) -> bool {
    if desk.write_at("disc.ecc", at, b"?").is_err() {
        return false;
    }
    let file = desk.file("disc.ecc").unwrap_or(&[]);
    let sum = Md5::digest(file.get(4096..).unwrap_or(&[]));
    desk.write_at("disc.ecc", 52, &sum).is_ok()
}

#[test]
fn strange_layers_of_whole_images(rt: HostRuntime) -> Result<(), Fail> {
    // The first parity byte of codeword 5 behind 247 checksums, and a byte of the checksum of sector 3; what is put.
    let cases = [
        (
            4096 + 4 * 247 + 8 * 5,
            "fixed disc.iso\nrestored 0: none\nlost 0: none\nstrange layers 1\nlayer 0: codeword 5 disagrees\nsurplus bytes 0\n",
        ),
        (
            4096 + 4 * 3,
            "fixed disc.iso\nrestored 0: none\nlost 1: 3\nstrange layers 1\nlayer 0: sector 3 has another checksum\nsurplus bytes 0\n",
        ),
    ];
    for (at, want) in cases {
        let whole = protected(rt.alloc(), 505_856, 8)?;
        let mut desk = protected(rt.alloc(), 505_856, 8)?;
        assert!(rt; change(&mut desk, at));
        let ran = puts(rt.alloc(), "fix disc.iso disc.ecc", &mut desk, want)?;
        assert_eq!(rt; ran, (1, true), "{want}");
        assert!(rt; desk.file("disc.iso") == whole.file("disc.iso"), "{want}");
    }
    Ok(())
}
