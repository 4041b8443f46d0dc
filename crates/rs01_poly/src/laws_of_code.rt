//! The laws of the code. Each is a function without a body, whose contract is the law.
//!
//! Places are counted from 0, the coefficient of the highest power first, and rise in each list of
//! places.

ghost use Rattle.std.specs.Prelude.{◌≡◌, ◌+◌, ◌-◌, ◌<◌, ◌≤◌, ◌∷◌, ◌++◌, All, length};
ghost use Rattle.std.specs.List.Sorted.{IsStrictlyIncreasing};
ghost use Rattle.rs01_poly.specs.Code.{AgreeOutside, IsCodeword, IsZeroOutside, VanishesAtRoots};
ghost use Rattle.rs01_poly.specs.Code.{encode, generator, lower, root};
ghost use Rattle.rs01_poly.specs.Polynomial.{add_front, scale, value_at};

use rs01_gf256::Gf;

/// The generator polynomial of `r` roots has `r + 1` coefficients, and the leading one is 1.
pub fn generator_is_monic(r: u32)
    ensures count { length (generator r) ≡ r + 1 }
    ensures leading { generator r ≡ 1 ∷ lower (generator r) }
{}

/// The generator polynomial of `r` roots vanishes at each of them.
pub fn generator_vanishes(r: u32, j: u32)
    ensures { j < r → value_at (generator r) (root j) ≡ 0 }
{}

/// The difference law: a list of at most 255 bytes that vanishes at the first `n` roots, and is
/// zero outside at most `n` places, is zero.
pub fn difference_law(word: &[u8], places: &[u8], n: u32)
    ensures { length word.now ≤ 255 → VanishesAtRoots word.now n → IsZeroOutside word.now places.now
        → IsStrictlyIncreasing places.now → length places.now ≤ n → All (λ b. b ≡ 0) word.now }
{}

/// Two codewords with `r` parity bytes that agree outside at most `r` places are equal.
pub fn codewords_agree(one: &[u8], other: &[u8], places: &[u8], r: u32)
    ensures { IsCodeword one.now r → IsCodeword other.now r
        → IsStrictlyIncreasing places.now → length places.now ≤ r
        → AgreeOutside one.now other.now places.now → one.now ≡ other.now }
{}

/// The data followed by its encoding is a codeword.
pub fn encoding_is_codeword(data_: &[u8])
    ensures { length data_.now ≤ 255
        → IsCodeword (data_.now ++ encode data_.now) (255 - length data_.now) }
{}

/// No other bytes in the place of its encoding make the data a codeword.
pub fn encoding_is_unique(data_: &[u8], parity: &[u8])
    ensures { length data_.now + length parity.now ≡ 255
        → IsCodeword (data_.now ++ parity.now) (length parity.now) → parity.now ≡ encode data_.now }
{}

/// The encoding of the sum of two words of the same length is the sum of their encodings.
pub fn encoding_of_sum(one: &[u8], other: &[u8])
    ensures { length one.now ≡ length other.now
        → encode (add_front one.now other.now) ≡ add_front (encode one.now) (encode other.now) }
{}

/// The encoding of `c` times a word is `c` times its encoding.
pub fn encoding_of_multiple(c: Gf, data_: &[u8])
    ensures { encode (scale c.0 data_.now) ≡ scale c.0 (encode data_.now) }
{}
