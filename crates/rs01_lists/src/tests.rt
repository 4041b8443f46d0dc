//! Lists and buffers on their happy path.
use super::*;
use std::process::Abort;
use std::test::Fail;

#[test]
fn items_and_zeros(rt: HostRuntime) -> Result<(), Fail> {
    let alloc = rt.alloc();
    let numbers: Listed<u32> = Listed::of(vec![in alloc; 4u32, 5, 6]?);
    assert_eq!(rt; numbers.len(), 3);
    if numbers.len() > 2 {
        assert_eq!(rt; *numbers.get(2), 6);
    }
    let flags: Listed<bool> = Listed::of(vec![in alloc; true, false]?);
    assert_eq!(rt; flags.items(), [true, false].as_slice());
    let mut buffer = zeroed(alloc, 4)?;
    assert_eq!(rt; buffer.as_slice(), [0u8, 0, 0, 0].as_slice());
    buffer[3] = 9;
    if buffer.len() > 1 {
        copy_padded(&[7, 8], &mut buffer);
    }
    assert_eq!(rt; buffer.as_slice(), [7u8, 8, 0, 0].as_slice());
    let mut out = vec![in alloc; 1u8]?;
    push_padded(&[2], 3, &mut out)?;
    push_zeros(0, &mut out)?;
    assert_eq!(rt; out.as_slice(), [1u8, 2, 0, 0].as_slice());
    Ok(())
}
