//! What words ask to be told.
ghost use Rattle.std.specs.Prelude.{◌≡◌, option_map};
ghost use Rattle.std.specs.Option.{option_and_then};
ghost use Rattle.rs01_words.specs.Grammar.{verb_of};
ghost use Rattle.rs01_words.specs.Line.{texts};
ghost use Rattle.rs01_help.specs.Topics.{asks_help, asks_page, asks_version, page_asked, page_of, topic_by, topic_of};

use rs01_words::{Verb, verb_of, word_if_any};

/// What is told in place of a command's work.
#[derive(Clone, Copy, Debug, PartialEq, Eq)]
pub enum Topic {
    /// All commands.
    All,
    /// One command.
    Page(Verb),
    /// The version.
    Version,
}

fn asks_help(word: &str) -> bool
    ensures { result ≡ asks_help word.now }
{
    word == "--help" || word == "-h" || word == "help"
}

fn asks_version(word: &str) -> bool
    ensures { result ≡ asks_version word.now }
{
    word == "--version" || word == "-V"
}

fn page_of(verb: Option<Verb>) -> Topic
    ensures { result ≡ page_of verb }
{
    match verb {
        None => Topic::All,
        Some(verb) => Topic::Page(verb),
    }
}

// An option behind a command asks for its page.
fn asks_page(word: &str) -> bool
    ensures { result ≡ asks_page word.now }
{
    word == "--help" || word == "-h"
}

fn page_asked(verb: Option<Verb>, second: Option<&str>) -> Option<Topic>
    ensures { result ≡ page_asked verb (option_map (λ x. x.now) second.entry) }
{
    match (verb, second) {
        (Some(verb), Some(word)) => {
            if asks_page(word) {
                Some(Topic::Page(verb))
            } else {
                None
            }
        }
        _ => None,
    }
}

// The command that a word names.
fn named(word: Option<&str>) -> Option<Verb>
    ensures { result ≡ option_and_then verb_of (option_map (λ x. x.now) word.entry) }
{
    match word {
        Some(word) => verb_of(word),
        None => None,
    }
}

fn topic_by(first: Option<&str>, second: Option<&str>) -> Option<Topic>
    ensures { let now = option_map (λ x. x.now) in
        result ≡ topic_by (now first.entry) (now second.entry) }
{
    let Some(word) = first else {
        return Some(Topic::All);
    };
    if asks_help(word) {
        return Some(page_of(named(second)));
    }
    if asks_version(word) {
        return Some(Topic::Version);
    }
    page_asked(verb_of(word), second)
}

/// What the words ask to be told in place of a command's work, as by `--help`. No words ask for all. The grammar knows none
/// of them, so by themselves they are refused.
#[tactic(auto, unfolding(crate::specs::Topics::topic_of))]
pub fn topic_of(words: &[String]) -> Option<Topic>
    ensures { result ≡ topic_of (texts words.now) }
{
    topic_by(word_if_any(words, 0), word_if_any(words, 1))
}
