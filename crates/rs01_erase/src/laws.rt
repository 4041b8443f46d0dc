//! What the completion of a word is. Each law is a function without a body, whose contract is the
//! law.
//!
//! The erased places count from 0, each is below 255, and they rise.

ghost use Rattle.std.specs.Prelude.{◌≡◌, ◌<◌, ◌≤◌, ◌↔◌, List, ℕ, All, Some, None, length};
ghost use Rattle.std.specs.List.Sorted.{IsStrictlyIncreasing};
ghost use Rattle.rs01_poly.specs.Code.{AgreeOutside, IsCodeword};
ghost use Rattle.rs01_erase.specs.Completion.{completion};

/// Where at most `r` places are erased, the completion is the one codeword that has the word's
/// bytes at all other places.
pub fn completion_is_the_codeword(word: &[u8; 255], erased: &[u8], codeword: &[u8], r: u32)
    ensures { IsStrictlyIncreasing erased.now → All (λ p. p < 255) erased.now
        → length erased.now ≤ r
        → ((completion word.now erased.now r ≡ Some codeword.now) ↔ (IsCodeword codeword.now r
        × AgreeOutside codeword.now word.now erased.now)) }
{}

/// There is no completion exactly where no codeword has the word's bytes at the other places.
pub fn no_completion_where_no_codeword_agrees(word: &[u8; 255], erased: &[u8], r: u32)
    ensures { All (λ p. p < 255) erased.now
        → ((completion word.now erased.now r ≡ None) ↔ ((c : List ℕ) → IsCodeword c r
        → AgreeOutside c word.now erased.now → ⊥)) }
{}

/// The completion does not depend on the bytes at the erased places.
pub fn completion_ignores_erased_bytes(word: &[u8; 255], other: &[u8; 255], erased: &[u8], r: u32)
    ensures { All (λ p. p < 255) erased.now → AgreeOutside word.now other.now erased.now
        → completion word.now erased.now r ≡ completion other.now erased.now r }
{}
