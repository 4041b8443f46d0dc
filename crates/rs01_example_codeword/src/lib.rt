//! An example: one codeword that loses bytes, and gets them back.
//!
//! The parity comes from `rs01_encode`, and the lost bytes are restored by `rs01_erase`. By a law of
//! that crate the word that is restored is the codeword that was made.
#![tactic(auto)]

ghost use Rattle.std.specs.Prelude.{◌≡◌, ◌<◌, ◌≤◌, ◌↔◌, ◌++◌, All, IsTrue, length};
ghost use Rattle.rs01_poly.specs.Code.{AgreeOutside, encode};
ghost use Rattle.rs01_erase.specs.Completion.{ArePlaces};

use rs01_encode::encode_codeword;
use rs01_erase::laws::completion_is_the_codeword;
use rs01_erase::{EraseRefusal, are_places, restore_codeword};

#[cfg(test)]
mod tests;

// Loses the bytes at these places.
fn lose(word: &mut [u8; 255], places: &[u8])
    requires { All (λ p. p < 255) places.now }
    ensures { AgreeOutside word.old word.new places.now }
{
    for place in places {
        word[*place as usize] = 0;
    }
}

/// Makes the codeword of 223 bytes of data, loses its bytes at these places, and restores them. False,
/// and nothing is said of the word, where they aren't at most 32 rising places.
pub fn lose_and_restore(data_: &[u8; 223], places: &[u8], word: &mut [u8; 255]) -> bool
    ensures restored { IsTrue result → word.new ≡ data_.now ++ encode data_.now }
    ensures done { IsTrue result ↔ ArePlaces places.now × (length places.now ≤ 32) }
{
    if !are_places(places) || places.len() > 32 {
        return false;
    }
    let (front, parity) = word.split_at_mut(223);
    front.copy_from_slice(data_);
    encode_codeword(data_, parity);
    let codeword = *word;
    lose(word, places);
    completion_is_the_codeword(word, places, &codeword, 32);
    match restore_codeword(word, places, 32) {
        Ok(()) => true,
        Err(EraseRefusal::Beyond(_)) => false,
        Err(EraseRefusal::Inconsistent) => false,
    }
}
