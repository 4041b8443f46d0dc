//! The worked image.
use super::*;
use std::test::Fail;

#[test]
fn a_lost_sector_comes_back(rt: HostRuntime) -> Result<(), Fail> {
    let mut desk = MemoryDesk::new(rt.alloc());
    desk.put_file(rt.alloc(), "disc.iso", &[7u8; 3000])?;
    assert_eq!(rt;
        protect_and_repair(rt.alloc(), &mut desk, &[7u8; 2000]),
        Some(69_640)
    );
    let Some(image) = desk.file("disc.iso") else {
        assert!(rt; false);
        return Ok(());
    };
    assert!(rt; image == [7u8; 3000].as_slice());
    Ok(())
}
