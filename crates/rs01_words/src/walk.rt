//! A walk over the words after the command, from left to right.
//!
//! No memory is taken: what is asked of a place again is found by another walk. The walk ends at the
//! first fault, and words without one are a few dozen at most, so this costs little.
ghost use Rattle.std.specs.Prelude.{◌≡◌, ◌+◌, ◌<◌, ◌≤◌, length, false, IfSome, Some, option_map};
ghost use Rattle.std.specs.List.{slice_get};
ghost use Rattle.rs01_words.specs.Line.{IsKnown, given_places, is_given, is_option, is_plain};
ghost use Rattle.rs01_words.specs.Line.{is_value, kind_at, plain_places, texts, value_kind, word_at};

use crate::look_up::{option_of, plain_kind};
use crate::table::{Kind, Verb, rule_of};

/// What the words before a place say of it.
#[derive(Clone, Copy)]
pub struct Before {
    /// Whether the word there is the value of the option before it.
    pub is_value: bool,
    /// How many plain words stand before it.
    pub plain: usize,
}

/// The word at a place.
pub fn word_at(words: &[String], place: usize) -> &str
    requires { place < length words.now }
    ensures { result.now ≡ word_at (texts words.now) place }
{
    words[place].as_str()
}

/// The word at a place, where there is one.
pub fn word_if_any(words: &[String], place: usize) -> Option<&str>
    ensures word { option_map (λ x. x.now) result ≡ slice_get (texts words.now) place }
    ensures there { place < length words.now
        → option_map (λ x. x.now) result ≡ Some (word_at (texts words.now) place) }
{
    match words.get(place) {
        None => None,
        Some(word) => Some(word.as_str()),
    }
}

/// Whether a word begins with two dashes.
pub fn is_option(word: &str) -> bool
    ensures { result ≡ is_option word.now }
{
    let bytes = word.as_bytes();
    bytes.len() >= 2 && bytes[0] == b'-' && bytes[1] == b'-'
}

/// What the value of an option is, where the command has the option and it takes one.
pub fn value_kind(verb: Verb, word: &str) -> Option<Kind>
    ensures { result ≡ value_kind verb word.now }
{
    match option_of(verb, word) {
        Some(option) => rule_of(option).value,
        None => None,
    }
}

/// What is known of the first place after the command.
pub fn start() -> Before
    ensures { result ≡ record { is_value = false; plain = 0 } }
{
    Before {
        is_value: false,
        plain: 0,
    }
}

// Whether the word after a place is the value of an option there.
fn is_followed(verb: Verb, words: &[String], place: usize, before: Before) -> bool
    requires inside { place < length words.now }
    requires known { IsKnown verb (texts words.now) place before }
    ensures { result ≡ is_value verb (texts words.now) (place + 1) }
{
    !before.is_value && value_kind(verb, word_at(words, place)).is_some()
}

/// Whether a plain word stands at a place.
pub fn is_plain(verb: Verb, words: &[String], place: usize, before: Before) -> bool
    requires inside { place < length words.now }
    requires known { IsKnown verb (texts words.now) place before }
    ensures { result ≡ is_plain verb (texts words.now) place }
{
    !before.is_value && !is_option(word_at(words, place))
}

/// Whether the option is given at a place.
pub fn is_given(verb: Verb, words: &[String], option: &str, place: usize, before: Before) -> bool
    requires inside { place < length words.now }
    requires known { IsKnown verb (texts words.now) place before }
    ensures { result ≡ is_given verb (texts words.now) option.now place }
{
    !before.is_value && word_at(words, place) == option
}

/// What is known of the next place.
pub fn next(verb: Verb, words: &[String], place: usize, before: Before) -> Before
    requires inside { place < length words.now }
    requires known { IsKnown verb (texts words.now) place before }
    ensures { IsKnown verb (texts words.now) (place + 1) result }
{
    Before {
        is_value: is_followed(verb, words, place, before),
        plain: if is_plain(verb, words, place, before) {
            before.plain + 1
        } else {
            before.plain
        },
    }
}

/// What the word at a place stands for. An option stands for nothing, nor does a plain word too
/// many.
#[tactic(auto, unfolding(crate::specs::Line::kind_at))]
pub fn kind_at(verb: Verb, words: &[String], place: usize, before: Before) -> Option<Kind>
    requires inside { place < length words.now }
    requires known { IsKnown verb (texts words.now) place before }
    ensures { result ≡ kind_at verb (texts words.now) place }
{
    if before.is_value {
        value_kind(verb, word_at(words, place - 1))
    } else if is_option(word_at(words, place)) {
        None
    } else {
        plain_kind(verb, before.plain)
    }
}

/// The place below `end` at which an option is given for the time `count`, counted from 0.
pub fn given_place(
    verb: Verb,
    words: &[String],
    option: &str,
    end: usize,
    count: usize,
) -> Option<usize>
    requires { end ≤ length words.now }
    ensures value { result ≡ slice_get (given_places verb (texts words.now) option.now end) count }
    ensures within { IfSome result (λ place. place < end) }
{
    let mut seen: usize = 0;
    let mut before = start();
    for place in 1..end {
        if is_given(verb, words, option, place, before) {
            if seen == count {
                return Some(place);
            }
            seen += 1;
        }
        before = next(verb, words, place, before);
    }
    None
}

/// The place of the plain word with this number, counted from 0.
pub fn plain_place(verb: Verb, words: &[String], number: usize) -> Option<usize>
    ensures value { result
        ≡ slice_get (plain_places verb (texts words.now) (length words.now)) number }
    ensures within { IfSome result (λ place. place < length words.now) }
{
    let mut before = start();
    for place in 1..words.len() {
        if before.plain == number && is_plain(verb, words, place, before) {
            return Some(place);
        }
        before = next(verb, words, place, before);
    }
    None
}
