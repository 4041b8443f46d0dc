//! The plain words of a command, by their numbers.
ghost use Rattle.std.specs.Prelude.{◌≡◌, ◌<◌, length, IsTrue};
ghost use Rattle.rs01_words.specs.Line.{texts};
ghost use Rattle.rs01_words.specs.Value.{IsOf, is_sound};
ghost use Rattle.rs01_words.specs.Refusal.{plain_at, plain_number};

use crate::table::{Kind, Verb};
use crate::value::number_or;
use crate::walk::{plain_place, word_at};

/// The place of a plain word, by its number among the plain words; 0 where there is none.
pub fn plain_at(verb: Verb, words: &[String], number: usize) -> usize
    requires { 0 < length words.now }
    ensures value { result ≡ plain_at verb (texts words.now) number }
    ensures within { result < length words.now }
{
    match plain_place(verb, words, number) {
        Some(place) => place,
        None => 0,
    }
}

/// The number that a plain word stands for, by its number among the plain words; the least of its
/// range where it stands for none.
#[tactic(auto, unfolding(crate::specs::Refusal::plain_number))]
pub fn plain_number(verb: Verb, words: &[String], number: usize, kind: Kind) -> u64
    requires some { 0 < length words.now }
    requires sound { IsTrue (is_sound kind) }
    ensures value { result ≡ plain_number verb (texts words.now) number kind }
    ensures range { IsOf kind result }
{
    let low = match kind {
        Kind::Name | Kind::Drive => 0,
        Kind::Number { low, .. } | Kind::Parity { low, .. } => low,
    };
    number_or(kind, low, word_at(words, plain_at(verb, words, number)))
}
