//! Restoring many codewords with the same erased places.

ghost use Rattle.std.specs.Prelude.{◌≡◌, ◌<◌, ◌≤◌, ◌↔◌, ℕ, All, Err, IfOk, IsErr, IsOk, None, length, map};
ghost use Rattle.rs01_erase.specs.Completion.{ArePlaces, Many};
ghost use Rattle.rs01_erase.specs.Pattern.{IsRestoredBy, PatternOf, completed_by};
ghost use Rattle.rs01_erase.specs.PowerSums.{locator};

use crate::restore::{locate, restore_with};
use rs01_lists::zeroed;
use std::alloc::{AllocError, Global};
use std::marker::Model;
use thiserror::Error;

/// Why a pattern is not made.
#[derive(Clone, Copy, PartialEq, Eq, Debug, Error)]
pub enum PatternRefusal {
    /// So many places are erased, which is more than the number of parity bytes.
    #[error("{0} places are erased, more than there are parity bytes")]
    Beyond(u32),
    /// Memory is wanting.
    #[error("out of memory")]
    OutOfMemory,
}

/// No codeword has the word's bytes at the places that are not erased.
#[derive(Clone, Copy, PartialEq, Eq, Debug, Error)]
#[error("no codeword has the bytes at the places that are not erased")]
pub struct Disagree;

/// The erased places of codewords with a number of parity bytes, as which a contract sees it. It
/// keeps the coefficients of the places, which many codewords then share.
#[derive(Drop)]
pub struct Pattern {
    parity_count: usize,
    places: Vec<u8>,
    locators: Vec<u8>,
}

impl Model for Pattern {
    ghost use Rattle.rs01_erase.specs.Pattern.{IsPattern, PatternOf};

    ghost Value = { PatternOf };

    ghost view = { λ p. record { places = p.places.items; parity_count = p.parity_count } };

    ghost invariant = { λ p. IsPattern p.places.items p.parity_count p.locators.items };
}

// The locators of these places.
fn locators_of(alloc: Global, erased: &[u8]) -> Result<Vec<u8>, AllocError>
    requires below { All (λ p. p < 255) erased.now }
    ensures { IfOk result (λ list. list.items ≡ map locator erased.now) }
{
    let mut locators = zeroed(alloc, erased.len())?;
    locate(erased, locators.as_mut_slice());
    Ok(locators)
}

// The pattern of places that are not too many.
fn pattern_of(alloc: Global, erased: &[u8], r: u32) -> Result<Pattern, AllocError>
    requires places { ArePlaces erased.now }
    requires most { r ≤ 100 }
    requires few { length erased.now ≤ r }
    ensures { IfOk result (λ pattern. pattern ≡ record { places = erased.now; parity_count = r }) }
{
    let places = erased.to_vec(alloc)?;
    let locators = locators_of(alloc, erased)?;
    Ok(Pattern {
        parity_count: r as usize,
        places,
        locators,
    })
}

impl Pattern {
    /// The pattern of these erased places, for codewords with `r` parity bytes.
    ///
    /// The places count from 0 and rise. The first refusal that fits is told: `Beyond` where more
    /// than `r` places are erased, and `OutOfMemory`.
    pub fn new(alloc: Global, erased: &[u8], r: u32) -> Result<Pattern, PatternRefusal>
        requires places { ArePlaces erased.now }
        requires least { 8 ≤ r }
        requires most { r ≤ 100 }
        ensures beyond { (n : ℕ) → (result ≡ Err (PatternRefusal.Beyond n)) ↔ Many erased.now r n }
        ensures made { IfOk result (λ p. p ≡ record { places = erased.now; parity_count = r }) }
    {
        let count = erased.len();
        if count > r as usize {
            return Err(PatternRefusal::Beyond(count as u32));
        }
        match pattern_of(alloc, erased, r) {
            Ok(pattern) => Ok(pattern),
            Err(_) => Err(PatternRefusal::OutOfMemory),
        }
    }

    /// Restores the bytes of a word at the erased places: afterwards the word is the one codeword
    /// that has the same bytes at all other places. Where there is none, the word stays as it was.
    pub fn restore(&self, word: &mut [u8; 255]) -> Result<(), Disagree>
        ensures disagree { IsErr result ↔ (completed_by self.now word.old ≡ None) }
        ensures restored { IsOk result → IsRestoredBy self.now word.old word.new }
        ensures unchanged { IsErr result → word.new ≡ word.old }
    {
        let mut sums = [0u8; 100];
        if restore_with(
            word,
            &self.places,
            &self.locators,
            &mut sums[..self.parity_count],
        ) {
            Ok(())
        } else {
            Err(Disagree)
        }
    }
}
