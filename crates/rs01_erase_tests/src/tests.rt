//! Restoring words, worked and random.

ghost use Rattle.std.specs.Prelude.{◌≡◌, ℕ, ◌+◌, ◌-◌, ◌≤◌, length};

use rs01_erase::*;
use rs01_gf256::Gf;
use rs01_poly::generator;
use std::process::Abort;
use std::test::Fail;

mod correcting;

// The bytes of a linear congruential generator.
fn next_byte(state: &mut u64) -> u8 {
    *state = state
        .wrapping_mul(6_364_136_223_846_793_005)
        .wrapping_add(1_442_695_040_888_963_407);
    (*state >> 56) as u8
}

// A multiple of the generator polynomial by random coefficients.
pub fn random_codeword(r: u32, state: &mut u64) -> [u8; 255]
    requires least { 8 ≤ r }
    requires most { r ≤ 100 }
{
    let mut coefficients = [0u8; 101];
    generator(r, &mut coefficients);
    let mut word = [0u8; 255];
    for i in 0..255 - r as usize {
        let factor = Gf(next_byte(state));
        for j in 0..r as usize + 1 {
            word[i + j] ^= factor.mul(Gf(coefficients[j])).0;
        }
    }
    word
}

// Overwrites a codeword at these places, and restores it.
fn check_restored(rt: &impl Abort, codeword: &[u8; 255], erased: &[u8], r: u32, state: &mut u64)
    requires least { 8 ≤ r }
    requires most { r ≤ 100 }
{
    assert!(rt; are_places(erased));
    let mut word = *codeword;
    for place in erased {
        word[*place as usize] = next_byte(state);
    }
    assert_eq!(rt; restore_codeword(&mut word, erased, r), Ok(()));
    for k in 0..255usize {
        assert_eq!(rt; word[k], codeword[k]);
    }
}

// Up to `most` random places.
fn random_places(most: usize, state: &mut u64, places: &mut [u8; 100]) -> usize
    requires { most ≤ 100 }
    ensures { result ≤ 100 }
{
    let mut count = 0;
    for place in 0..255u8 {
        if count < most && usize::from(next_byte(state)) < most {
            places[count] = place;
            count += 1;
        }
    }
    count
}

fn check_random(rt: &impl Abort, r: u32, state: &mut u64)
    requires least { 8 ≤ r }
    requires most { r ≤ 100 }
{
    let codeword = random_codeword(r, state);
    let mut places = [0u8; 100];
    let count = random_places(r as usize, state, &mut places);
    check_restored(rt, &codeword, &places[..count], r, state);
}

#[test]
fn random_words(rt: HostRuntime) {
    let mut state = 1;
    for _ in 0..50 {
        check_random(&rt, 8, &mut state);
        check_random(&rt, 32, &mut state);
        check_random(&rt, 64, &mut state);
        check_random(&rt, 100, &mut state);
    }
}

// The `count` places from `first` on, and from `second` on.
fn write_runs(places: &mut [u8], first: u8, second: u8, count: usize)
    requires first { first + count ≤ 255 }
    requires second { second + (length places.old - count) ≤ 255 }
    requires count { count ≤ length places.old }
{
    for k in 0..places.len() {
        places[k] = if k < count {
            first + k as u8
        } else {
            second + (k - count) as u8
        };
    }
}

// As many erasures as there are parity bytes: in the data, in the parity, and in both.
fn check_most(rt: &impl Abort, r: u32)
    requires least { 8 ≤ r }
    requires most { r ≤ 100 }
{
    let mut state = 7;
    let codeword = random_codeword(r, &mut state);
    let count = r as usize;
    let parity = (255 - r) as u8;
    for (first, second, split) in [(0u8, 0u8, count), (parity, 0, count), (3, parity, 4)] {
        let mut places = [0u8; 100];
        assert!(rt;
            usize::from(first) + split <= 255
                && split <= count
                && usize::from(second) + (count - split) <= 255
        );
        write_runs(&mut places[..count], first, second, split);
        check_restored(rt, &codeword, &places[..count], r, &mut state);
    }
}

#[test]
fn most_erasures(rt: HostRuntime) {
    check_most(&rt, 8);
    check_most(&rt, 32);
    check_most(&rt, 100);
}

// The zero word with garbage in its first 33 bytes, of which `named` are named as erased.
fn check_zero_word(rt: &impl Abort, garbage: u8, named: usize, answer: Result<(), EraseRefusal>)
    requires { named ≤ 100 }
{
    let mut word = [0u8; 255];
    for k in 0..named {
        word[k] = garbage;
    }
    let mut places = [0u8; 100];
    write_runs(&mut places[..named], 0, 0, named);
    assert!(rt; are_places(&places[..named]));
    assert_eq!(rt; restore_codeword(&mut word, &places[..named], 32), answer);
    for k in 0..named {
        assert_eq!(rt; word[k], if answer.is_ok() { 0 } else { garbage });
    }
}

#[test]
fn zero_word(rt: HostRuntime) {
    check_zero_word(&rt, 0xa5, 32, Ok(()));
    check_zero_word(&rt, 0xa5, 33, Err(EraseRefusal::Beyond(33)));
}

// A word that differs from a codeword in one byte, and nothing is erased.
#[test]
fn inconsistent_word(rt: HostRuntime) {
    let mut word = [0u8; 255];
    word[0] = 1;
    let erased: [u8; 0] = [];
    assert!(rt; are_places(&erased));
    assert_eq!(rt;
        restore_codeword(&mut word, &erased, 32),
        Err(EraseRefusal::Inconsistent)
    );
    assert_eq!(rt; word[0], 1);
    assert_eq!(rt; word[1], 0);
}

// One pattern of the first 32 places through the multiples of a codeword.
#[test]
fn one_pattern_for_many_words(rt: HostRuntime) -> Result<(), Fail> {
    let mut state = 11;
    let codeword = random_codeword(32, &mut state);
    let mut places = [0u8; 32];
    write_runs(&mut places, 0, 0, 32);
    assert!(rt; are_places(&places));
    let pattern = Pattern::new(rt.alloc(), &places, 32)?;
    for factor in 0..2048u32 {
        let mut word = codeword;
        for k in 0..255usize {
            word[k] = Gf(word[k]).mul(Gf((factor % 256) as u8)).0;
        }
        let expected = word;
        for place in places {
            word[place as usize] = next_byte(&mut state);
        }
        assert_eq!(rt; pattern.restore(&mut word), Ok(()));
        assert!(rt; word == expected);
    }
    Ok(())
}

#[test]
fn patterns_that_do_not_fit(rt: HostRuntime) -> Result<(), Fail> {
    let mut places = [0u8; 33];
    write_runs(&mut places, 0, 0, 33);
    assert!(rt; are_places(&places));
    assert_eq!(rt;
        Pattern::new(rt.alloc(), &places, 32).err(),
        Some(PatternRefusal::Beyond(33))
    );
    let none: [u8; 0] = [];
    assert!(rt; are_places(&none));
    let pattern = Pattern::new(rt.alloc(), &none, 32)?;
    let mut word = [0u8; 255];
    word[0] = 1;
    assert_eq!(rt; pattern.restore(&mut word), Err(Disagree));
    assert_eq!(rt; (word[0], word[1]), (1, 0));
    Ok(())
}

#[test]
fn lists_of_places(rt: HostRuntime) {
    for (places, wanted) in [
        (b"".as_slice(), true),
        (b"\x00".as_slice(), true),
        (b"\xfe".as_slice(), true),
        (b"\xff".as_slice(), false),
        (b"\x00\x01\xfe".as_slice(), true),
        (b"\x03\x03".as_slice(), false),
        (b"\x04\x03".as_slice(), false),
        (b"\x00\x05\x02".as_slice(), false),
        (b"\x00\xfe\xff".as_slice(), false),
    ] {
        assert_eq!(rt; are_places(places), wanted);
    }
}

// The flags of 255 places, of which these two are set, give the places that are wanted.
fn check_flagged(rt: &impl Abort, first: usize, second: usize, wanted: &[u8]) {
    let mut flags = [false; 255];
    if first < 255 {
        flags[first] = true;
    }
    if second < 255 {
        flags[second] = true;
    }
    let mut places = [0u8; 255];
    let count = places_of(&flags, &mut places);
    assert!(rt; &places[..count] == wanted);
}

#[test]
fn flagged_places(rt: HostRuntime) {
    check_flagged(&rt, 255, 255, b"");
    check_flagged(&rt, 0, 255, b"\x00");
    check_flagged(&rt, 254, 3, b"\x03\xfe");
    check_flagged(&rt, 7, 7, b"\x07");
    let mut places = [9u8; 255];
    assert_eq!(rt; places_of(&[true; 255], &mut places), 255);
    assert_eq!(rt; (places[0], places[100], places[254]), (0, 100, 254));
    assert_eq!(rt; places_of(&[], &mut places), 0);
    assert_eq!(rt; places_of(&[false, true], &mut places), 1);
    assert_eq!(rt; places[0], 1);
}
