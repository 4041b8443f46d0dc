//! What is wrong with the words of a command.
ghost use Rattle.std.specs.Prelude.{◌≡◌, ◌<◌, ◌≤◌, ◌&&◌, length, nat_le, IfNone};
ghost use Rattle.std.specs.Str.{bytes_eq};
ghost use Rattle.rs01_words.specs.Grammar.{row_of};
ghost use Rattle.rs01_words.specs.Line.{IsKnown, given_places, kind_at, texts, word_at};
ghost use Rattle.rs01_words.specs.Refusal.{IsClear, IsComplete, IsFaultless, fault_at, fault_in, first_fault, missing_word, must_differ, option_fault_at, refusal_of, repeats_name, too_many_lost, value_fault};

use crate::fault::{WordFault, WordRefused};
use crate::look_up::{needed_of, option_of};
use crate::plain::{plain_at, plain_number};
use crate::table::{Kind, LOST_SECTORS, MADE_SECTORS, OptionWord, Verb, rule_of};
use crate::value::value_of;
use crate::walk::{Before, given_place, is_option, kind_at, next, plain_place, start, word_at};

/// The words are gone through twice.
#[derive(Clone, Copy)]
pub enum Pass {
    /// Each word by itself.
    Words,
    /// The names beside the earlier ones.
    Names,
}

// Whether the option is given before a place as often as it may be. `word` is how it is written.
fn is_used_up(verb: Verb, words: &[String], word: &str, place: usize, option: OptionWord) -> bool
    requires { place ≤ length words.now }
    ensures { let given = given_places verb (texts words.now) word.now place in
        result ≡ nat_le (row_of option).most (length given) }
{
    let most = rule_of(option).most;
    given_place(verb, words, word, place, most - 1).is_some()
}

// The fault of the option at a place.
fn option_fault(verb: Verb, words: &[String], place: usize) -> Option<WordFault>
    requires { place < length words.now }
    ensures { result ≡ option_fault_at verb (texts words.now) place }
{
    let word = word_at(words, place);
    match option_of(verb, word) {
        None => Some(WordFault::UnknownOption),
        Some(option) => {
            if is_used_up(verb, words, word, place, option) {
                Some(WordFault::Repeated)
            } else if rule_of(option).value.is_some() && place + 1 == words.len() {
                Some(WordFault::NoValue)
            } else {
                None
            }
        }
    }
}

// The fault of a word that is no option.
fn value_fault(kind: Option<Kind>, word: &str) -> Option<WordFault>
    ensures { result ≡ value_fault kind word.now }
{
    match kind {
        None => Some(WordFault::UnknownOption),
        Some(kind) => value_of(kind, word).err(),
    }
}

// The fault of the word at a place.
#[tactic(auto, unfolding(crate::specs::Refusal::fault_at))]
fn fault_at(verb: Verb, words: &[String], place: usize, before: Before) -> Option<WordFault>
    requires inside { place < length words.now }
    requires known { IsKnown verb (texts words.now) place before }
    ensures { result ≡ fault_at verb (texts words.now) place }
{
    if !before.is_value && is_option(word_at(words, place)) {
        option_fault(verb, words, place)
    } else {
        value_fault(kind_at(verb, words, place, before), word_at(words, place))
    }
}

// Whether names that stand for this may not be equal. Two drives may.
fn must_differ(one: Option<Kind>, other: Option<Kind>) -> bool
    ensures { result ≡ must_differ one other }
{
    match (one, other) {
        (Some(Kind::Name), Some(Kind::Name | Kind::Drive)) => true,
        (Some(Kind::Drive), Some(Kind::Name)) => true,
        _ => false,
    }
}

// Whether two words are equal names that must differ. `kind` and `other` say what they stand for.
fn clash(kind: Option<Kind>, word: &str, other: Option<Kind>, earlier: &str) -> bool
    ensures { result ≡ (must_differ kind other && bytes_eq word.now earlier.now) }
{
    must_differ(kind, other) && word == earlier
}

// Whether the name at a place equals an earlier one that it must differ from. `kind` says what the
// word there stands for.
fn repeats_name(verb: Verb, words: &[String], place: usize, kind: Option<Kind>) -> bool
    requires inside { place < length words.now }
    requires stands_for { kind ≡ kind_at verb (texts words.now) place }
    ensures { result ≡ repeats_name verb (texts words.now) place }
{
    let mut before = start();
    for earlier in 1..place {
        let other = kind_at(verb, words, earlier, before);
        if clash(kind, word_at(words, place), other, word_at(words, earlier)) {
            return true;
        }
        before = next(verb, words, earlier, before);
    }
    false
}

// The fault of the word at a place, in one of the two passes.
fn fault_in(
    pass: Pass,
    verb: Verb,
    words: &[String],
    place: usize,
    before: Before,
) -> Option<WordFault>
    requires inside { place < length words.now }
    requires known { IsKnown verb (texts words.now) place before }
    ensures { result ≡ fault_in pass verb (texts words.now) place }
{
    match pass {
        Pass::Words => fault_at(verb, words, place, before),
        Pass::Names => {
            if repeats_name(verb, words, place, kind_at(verb, words, place, before)) {
                Some(WordFault::SameName)
            } else {
                None
            }
        }
    }
}

// The first fault from left to right.
fn first_fault(pass: Pass, verb: Verb, words: &[String]) -> Option<WordRefused>
    ensures value { result ≡ first_fault pass verb (texts words.now) }
    ensures clear { IfNone result (IsFaultless pass verb (texts words.now)) }
{
    let mut before = start();
    for place in 1..words.len() {
        if let Some(fault) = fault_in(pass, verb, words, place, before) {
            return Some(WordRefused { fault, place });
        }
        before = next(verb, words, place, before);
    }
    None
}

// A plain word that the command needs isn't there.
fn missing_word(verb: Verb, words: &[String]) -> Option<WordRefused>
    ensures value { result ≡ missing_word verb (texts words.now) }
    ensures clear { IfNone result (IsComplete verb (texts words.now)) }
{
    let needed = needed_of(verb);
    if needed > 0 && plain_place(verb, words, needed - 1).is_none() {
        return Some(WordRefused {
            fault: WordFault::Missing,
            place: words.len(),
        });
    }
    None
}

// `demo` is to lose more sectors than it makes.
#[tactic(auto, unfolding(crate::specs::Refusal::too_many_lost))]
fn too_many_lost(verb: Verb, words: &[String]) -> Option<WordRefused>
    requires { 0 < length words.now }
    ensures { result ≡ too_many_lost verb (texts words.now) }
{
    match verb {
        Verb::Demo => {
            if plain_number(verb, words, 1, MADE_SECTORS)
                < plain_number(verb, words, 3, LOST_SECTORS)
            {
                Some(WordRefused {
                    fault: WordFault::OutOfRange,
                    place: plain_at(verb, words, 3),
                })
            } else {
                None
            }
        }
        Verb::Create | Verb::Fix | Verb::Verify | Verb::Scan | Verb::Read => None,
    }
}

/// What is wrong with the words of a command: the first fault from left to right, then a missing
/// word, then the comparison of `demo`, then equal names.
pub fn refusal_of(verb: Verb, words: &[String]) -> Option<WordRefused>
    requires { 0 < length words.now }
    ensures value { result ≡ refusal_of verb (texts words.now) }
    ensures clear { IfNone result (IsClear verb (texts words.now)) }
{
    if let Some(refused) = first_fault(Pass::Words, verb, words) {
        return Some(refused);
    }
    if let Some(refused) = missing_word(verb, words) {
        return Some(refused);
    }
    if let Some(refused) = too_many_lost(verb, words) {
        return Some(refused);
    }
    first_fault(Pass::Names, verb, words)
}
