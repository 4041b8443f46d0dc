//! What the words ask for, where nothing is wrong with them.
ghost use Rattle.std.specs.Prelude.{◌≡◌, ◌<◌, length, IfOk, option_map};
ghost use Rattle.rs01_words.specs.Line.{IsKnown, is_given, texts};
ghost use Rattle.rs01_words.specs.Grammar.{row_of};
ghost use Rattle.rs01_words.specs.Value.{IsOf, option_kind};
ghost use Rattle.rs01_words.specs.Refusal.{IsClear};
ghost use Rattle.rs01_words.specs.Command.{AreWithin, IsWithin, NamesDiffer, answer_by, command_of, drive_places, has_option, option_number, option_word, words_of};

use crate::command::Command;
use crate::fault::{WordFault, WordRefused};
use crate::places::Places;
use crate::plain::{plain_at, plain_number};
use crate::refusal::refusal_of;
use crate::table::{
    LOST_SECTORS, MADE_SECTORS, OptionWord, PARITY_BYTES, SEEDS, Verb, text_of, verb_of,
};
use crate::value::given_number;
use crate::walk::{given_place, is_given, next, plain_place, start, word_at};

// Whether an option is given.
fn has_option(verb: Verb, words: &[String], option: OptionWord) -> bool
    ensures { result ≡ has_option verb (texts words.now) option }
{
    given_place(verb, words, text_of(option), words.len(), 0).is_some()
}

// The word after the option, where it is given.
fn option_word<'a>(verb: Verb, words: &'a [String], option: OptionWord) -> Option<&'a str>
    ensures { option_map (λ x. x.now) result ≡ option_word verb (texts words.now) option }
{
    match given_place(verb, words, text_of(option), words.len(), 0) {
        None => None,
        Some(place) => match words.get(place + 1) {
            None => None,
            Some(word) => Some(word.as_str()),
        },
    }
}

// The number of an option: that of its value where it is given, else its default.
#[tactic(auto, unfolding(crate::specs::Command::option_number))]
fn option_number(verb: Verb, words: &[String], option: OptionWord) -> u64
    ensures value { result ≡ option_number verb (texts words.now) option }
    ensures range { IsOf (option_kind option) result }
{
    given_number(option, option_word(verb, words, option))
}

// The places of the drives' names, in order.
fn drives(verb: Verb, words: &[String]) -> Places
    requires some { 0 < length words.now }
    requires clear { IsClear verb (texts words.now) }
    ensures value { result ≡ drive_places verb (texts words.now) }
    ensures within { AreWithin (length words.now) result }
{
    let drive = text_of(OptionWord::Drive);
    let mut drives = Places::new();
    let mut before = start();
    for place in 1..words.len() {
        if is_given(verb, words, drive, place, before) {
            drives.push(place + 1);
        }
        before = next(verb, words, place, before);
    }
    drives
}

// What the words of a command ask for.
fn command_of(verb: Verb, words: &[String]) -> Command
    requires some { 0 < length words.now }
    requires clear { IsClear verb (texts words.now) }
    ensures value { result ≡ command_of verb (texts words.now) }
    ensures within { IsWithin (length words.now) result }
{
    match verb {
        Verb::Create => Command::Create {
            image: plain_at(Verb::Create, words, 0),
            ecc: plain_at(Verb::Create, words, 1),
            parity: option_number(Verb::Create, words, OptionWord::Parity) as u32,
            workers: option_number(Verb::Create, words, OptionWord::Workers) as u32,
        },
        Verb::Fix => Command::Fix {
            image: plain_at(Verb::Fix, words, 0),
            ecc: plain_at(Verb::Fix, words, 1),
            workers: option_number(Verb::Fix, words, OptionWord::Workers) as u32,
            cut: has_option(Verb::Fix, words, OptionWord::Cut),
        },
        Verb::Verify => Command::Verify {
            image: plain_at(Verb::Verify, words, 0),
            ecc: plain_at(Verb::Verify, words, 1),
        },
        Verb::Scan => Command::Scan {
            ecc: plain_place(Verb::Scan, words, 0),
            drives: drives(Verb::Scan, words),
        },
        Verb::Read => Command::Read {
            image: plain_at(Verb::Read, words, 0),
            ecc: plain_place(Verb::Read, words, 1),
            drives: drives(Verb::Read, words),
            adaptive: has_option(Verb::Read, words, OptionWord::Adaptive),
            jump: option_number(Verb::Read, words, OptionWord::Jump) as u32,
            tries: option_number(Verb::Read, words, OptionWord::Tries) as u32,
            workers: option_number(Verb::Read, words, OptionWord::Workers) as u32,
        },
        Verb::Demo => Command::Demo {
            number: plain_number(Verb::Demo, words, 0, SEEDS),
            sectors: plain_number(Verb::Demo, words, 1, MADE_SECTORS) as u32,
            parity: plain_number(Verb::Demo, words, 2, PARITY_BYTES) as u32,
            lost: plain_number(Verb::Demo, words, 3, LOST_SECTORS) as u32,
        },
    }
}

// The answer to the words of a command.
fn answer_of(verb: Verb, words: &[String]) -> Result<Command, WordRefused>
    requires { 0 < length words.now }
    ensures answer { result ≡ answer_by (Some verb) (texts words.now) }
    ensures within { IfOk result (IsWithin (length words.now)) }
    ensures names { IfOk result (NamesDiffer (texts words.now)) }
{
    match refusal_of(verb, words) {
        Some(refused) => Err(refused),
        None => Ok(command_of(verb, words)),
    }
}

/// What the words ask for, or what is wrong with them: the first fault from left to right, then a
/// plain word that is missing, then the comparison of `demo`, then equal names. The words are those
/// after the program's own name. A fault stands with the place of its word, counted from 0; a
/// missing word's place is the number of words.
///
/// `answer` says exactly which, by the grammar's definition. `within` says that each name is the
/// place of a word and each number is in its range, `names` that image and error correction file
/// have different names.
pub fn read_words(words: &[String]) -> Result<Command, WordRefused>
    ensures answer { result ≡ words_of (texts words.now) }
    ensures within { IfOk result (IsWithin (length words.now)) }
    ensures names { IfOk result (NamesDiffer (texts words.now)) }
{
    if words.is_empty() {
        return Err(WordRefused {
            fault: WordFault::NoCommand,
            place: 0,
        });
    }
    match verb_of(word_at(words, 0)) {
        None => Err(WordRefused {
            fault: WordFault::UnknownCommand,
            place: 0,
        }),
        Some(verb) => answer_of(verb, words),
    }
}
