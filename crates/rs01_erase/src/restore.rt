//! Restoring one codeword.

ghost use Rattle.std.specs.Prelude.{◌≡◌, ℕ, ◌+◌, ◌-◌, ◌*◌, ◌^◌, ◌<◌, ◌≤◌, ◌↔◌, All, None, IsOk, IsErr, IsTrue, false, length, map, slice_index};
ghost use Rattle.rs01_poly.specs.Code.{AgreeOutside, root};
ghost use Rattle.rs01_poly.specs.Polynomial.{value_at};
ghost use Rattle.rs01_erase.specs.Completion.{ArePlaces, Many, Clash, IsRestored, completion};
ghost use Rattle.rs01_erase.specs.Pattern.{IsPattern};
ghost use Rattle.rs01_erase.specs.PowerSums.{locator, weighted};

use crate::power_sums::solve;
use rs01_gf256::{Gf, pow_root};
use rs01_poly::eval;
use thiserror::Error;

/// Why a word is not restored.
#[derive(Clone, Copy, PartialEq, Eq, Debug, Error)]
pub enum EraseRefusal {
    /// So many places are erased, which is more than the number of parity bytes.
    #[error("{0} places are erased, more than there are parity bytes")]
    Beyond(u32),
    /// No codeword has the word's bytes at the places that are not erased.
    #[error("no codeword has the bytes at the places that are not erased")]
    Inconsistent,
}

// Writes zeros at these places.
fn clear(word: &mut [u8], erased: &[u8])
    requires within { All (λ p. p < length word.old) erased.now }
    ensures cleared { All (λ p. slice_index word.new p ≡ 0) erased.now }
    ensures others { AgreeOutside word.new word.old erased.now }
    ensures bytes { All (λ b. b < 2 ^ 8) word.new }
{
    for place in erased {
        word[*place as usize] = 0;
    }
}

// Writes the values at the first roots.
fn values_at_roots(word: &[u8], values: &mut [u8])
    requires few { length values.old ≤ 100 }
    ensures { (j : ℕ) → j < length values.old → slice_index values.new j
        ≡ value_at word.now (root j) }
{
    for (j, value) in values.iter_mut().enumerate() {
        *value = eval(word, pow_root(112 + j as u32)).0;
    }
}

/// Writes the locators of these places.
pub fn locate(erased: &[u8], locators: &mut [u8])
    requires same { length locators.old ≡ length erased.now }
    requires below { All (λ p. p < 255) erased.now }
    ensures { locators.new ≡ map locator erased.now }
{
    for (k, place) in erased.iter().enumerate() {
        locators[k] = pow_root(254 - u32::from(*place)).0;
    }
}

// Writes at each of these places its value divided by the 112th power of its locator.
fn put(word: &mut [u8; 255], erased: &[u8], values: &[u8])
    requires same { length values.now ≡ length erased.now }
    requires places { ArePlaces erased.now }
    ensures values { weighted word.new erased.now ≡ values.now }
    ensures others { AgreeOutside word.new word.old erased.now }
    ensures bytes { All (λ b. b < 2 ^ 8) word.new }
{
    for (k, place) in erased.iter().enumerate() {
        let weight = pow_root((254 - u32::from(*place)) * 112);
        word[*place as usize] = Gf(values[k]).mul(weight.inv()).0;
    }
}

/// Restores the word, or gives false and leaves it, by the locators of the places and with room for
/// the power sums.
pub fn restore_with(word: &mut [u8; 255], erased: &[u8], locators: &[u8], sums: &mut [u8]) -> bool
    requires pattern { IsPattern erased.now (length sums.old) locators.now }
    ensures restored { IsTrue result → IsRestored word.old word.new erased.now (length sums.old) }
    ensures none { result ≡ false → completion word.old erased.now (length sums.old) ≡ None }
    ensures unchanged { result ≡ false → word.new ≡ word.old }
{
    let mut known = *word;
    clear(&mut known, erased);
    values_at_roots(&known, sums);
    if !solve(sums, locators) {
        return false;
    }
    put(&mut known, erased, &sums[..erased.len()]);
    *word = known;
    true
}

/// Restores the bytes of a word at the erased places: afterwards the word is the one codeword with
/// `r` parity bytes that has the same bytes at all other places.
///
/// The places count from 0 and rise. Two refusals leave the word as it was. The first that fits is
/// told: `Beyond` where more than `r` places are erased, and `Inconsistent` where no codeword has
/// the bytes at the other places.
pub fn restore_codeword(word: &mut [u8; 255], erased: &[u8], r: u32) -> Result<(), EraseRefusal>
    requires places { ArePlaces erased.now }
    requires least { 8 ≤ r }
    requires most { r ≤ 100 }
    ensures beyond { (n : ℕ) → (result ≡ Err (EraseRefusal.Beyond n)) ↔ Many erased.now r n }
    ensures inconsistent { (result ≡ Err EraseRefusal.Inconsistent) ↔ Clash word.old erased.now r }
    ensures restored { IsOk result → IsRestored word.old word.new erased.now r }
    ensures unchanged { IsErr result → word.new ≡ word.old }
{
    let count = erased.len();
    if count > r as usize {
        return Err(EraseRefusal::Beyond(count as u32));
    }
    let mut sums = [0u8; 100];
    let mut locators = [0u8; 100];
    locate(erased, &mut locators[..count]);
    if restore_with(word, erased, &locators[..count], &mut sums[..r as usize]) {
        Ok(())
    } else {
        Err(EraseRefusal::Inconsistent)
    }
}
