//! Checksums and markers by their values.
use super::*;
use std::test::Fail;

#[test]
fn known_checksums(rt: HostRuntime) {
    assert_eq!(rt; crc32(b"123456789"), 0xcbf4_3926);
    assert_eq!(rt;
        crc32(b"The quick brown fox jumps over the lazy dog"),
        0x414f_a339
    );
    assert_eq!(rt; crc32(b"1234567"), 0x5003_699f);
    assert_eq!(rt; crc32(b""), 0);
}

// A block whose halves differ.
#[test]
fn checksum_of_a_block(rt: HostRuntime) {
    let mut block = [0u8; 2048];
    for (i, byte) in block.iter_mut().enumerate() {
        *byte = (i % 251) as u8;
    }
    assert_eq!(rt; crc32(&block), 0xdd34_ad61);
}

#[test]
fn marker_of_sector_7(rt: HostRuntime) {
    let mut block = [1u8; 2048];
    marker(7, &mut block);
    assert!(rt; block.starts_with(b"rs01 missing sector 0000000007\n"));
    assert_eq!(rt; block.iter().filter(|byte| **byte == 0).count(), 2017);
    assert!(rt; is_marker(7, &block));
    assert!(rt; !is_marker(8, &block));
    marker(4_294_967_295, &mut block);
    assert!(rt; block.starts_with(b"rs01 missing sector 4294967295\n"));
}

#[test]
fn recorded_checksums(rt: HostRuntime) -> Result<(), Fail> {
    let zeros = [0u8; 2048];
    let mut marked = [0u8; 2048];
    marker(1, &mut marked);
    let mut sums = Sums::new(rt.alloc(), 2)?;
    assert!(rt; sums.is_empty());
    sums.push_reserved(crc32(&zeros));
    sums.push_reserved(crc32(&marked));
    assert_eq!(rt; (sums.len(), sums.get(0)), (2, 0xf1e8_ba9e));
    for (sector, block, fits, may_stand) in [
        (0u32, &zeros, true, true),
        (1, &zeros, false, false),
        (0, &marked, false, false),
        (1, &marked, true, false),
    ] {
        assert!(rt; sector < sums.len());
        assert_eq!(rt; sums.matches(sector, block), fits);
        assert_eq!(rt; usable(Some(&sums), sector, block), may_stand);
    }
    assert!(rt; usable(None, 1, &zeros));
    assert!(rt; !usable(None, 1, &marked));
    Ok(())
}
