//! The programs of all numbers of parity bytes.
use rs01_columns::*;
use std::test::Fail;

// No clause says that a program passes its test: here each does.
#[test]
fn each_program_is_kept(rt: HostRuntime) -> Result<(), Fail> {
    for r in 8..101u32 {
        assert!(rt; LayerEncoder::new(rt.alloc(), r)?.is_some());
        assert!(rt; LayerSyndromes::new(rt.alloc(), r)?.is_some());
    }
    Ok(())
}
