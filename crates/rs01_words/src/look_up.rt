//! What the table says of a command's words.
ghost use Rattle.std.specs.Prelude.{◌≡◌};
ghost use Rattle.std.specs.Str.{bytes_eq};
ghost use Rattle.rs01_words.specs.Grammar.{needed_of, option_of, plain_kind, row_of};

use crate::table::{Kind, OptionWord, Verb, options_of, plain_words_of, text_of};

// Whether a word is the option's.
fn is_written(option: OptionWord, word: &str) -> bool
    ensures { result ≡ bytes_eq word.now (row_of option).text }
{
    word == text_of(option)
}

/// The option that a word names, where the command has it.
#[tactic(auto, unfolding(crate::specs::Grammar::option_of))]
pub fn option_of(verb: Verb, word: &str) -> Option<OptionWord>
    ensures { result ≡ option_of verb word.now }
{
    options_of(verb)
        .iter()
        .copied()
        .find(|option| is_written(*option, word))
}

/// What the plain word with this number stands for, counted from 0. None where the command takes
/// no such word.
#[tactic(auto, unfolding(crate::specs::Grammar::plain_kind))]
pub fn plain_kind(verb: Verb, number: usize) -> Option<Kind>
    ensures { result ≡ plain_kind verb number }
{
    match plain_words_of(verb).get(number) {
        Some(word) => Some(word.kind),
        None => None,
    }
}

/// How many plain words a command needs.
#[tactic(auto, unfolding(crate::specs::Grammar::needed_of))]
pub fn needed_of(verb: Verb) -> usize
    ensures { result ≡ needed_of verb }
{
    plain_words_of(verb)
        .iter()
        .filter(|word| word.needed)
        .count()
}
