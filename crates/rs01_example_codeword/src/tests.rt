//! The worked codeword.
use super::*;

#[test]
fn lost_bytes_come_back(rt: HostRuntime) {
    let data_ = [7u8; 223];
    let mut word = [0u8; 255];
    assert!(rt; lose_and_restore(&data_, b"\x00\x05\xde\xfe".as_slice(), &mut word));
    assert!(rt; word[..223] == [7u8; 223]);
    assert!(rt; !lose_and_restore(&data_, b"\x05\x00".as_slice(), &mut word));
}
