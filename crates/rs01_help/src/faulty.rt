//! What is told of a fault in the words.
ghost use Rattle.std.specs.Prelude.{◌≡◌, flat_map, option_map};
ghost use Rattle.rs01_report.specs.Lines.{Adds};
ghost use Rattle.rs01_words.specs.Line.{texts};
ghost use Rattle.rs01_help.specs.Faulty.{fault_lines, first_verb, more_part, name_part, usage_of, word_line};

use crate::usage::push_usage;
use rs01_words::{Verb, name_of, read_words, verb_of, verbs, word_if_any};
use std::alloc::AllocError;
use std::fmt::Write;

// The word at a place, or that there is none.
#[tactic(auto, unfolding(crate::specs::Faulty::word_line))]
fn push_word(text: &mut String, place: usize, word: Option<&str>) -> Result<(), AllocError>
    ensures { Adds text.old text.new
        (word_line place (option_map (λ x. x.now) word.entry)) result }
{
    match word {
        None => write!(text, "word {place} isn't there\n")?,
        Some(word) => write!(text, "word {place} is {word}\n")?,
    }
    Ok(())
}

#[tactic(auto, unfolding(crate::specs::Faulty::name_part))]
fn push_name(text: &mut String, verb: Verb) -> Result<(), AllocError>
    ensures { Adds text.old text.new (name_part verb) result }
{
    text.push_str(" ")?;
    text.push_str(name_of(verb))?;
    Ok(())
}

// The names of the commands, in their order.
fn push_names(text: &mut String, verbs: &[Verb]) -> Result<(), AllocError>
    ensures { Adds text.old text.new (flat_map name_part verbs.now) result }
{
    for verb in verbs {
        push_name(text, *verb)?;
    }
    Ok(())
}

// Where more is told.
#[tactic(auto, unfolding(crate::specs::Faulty::more_part))]
fn push_more(text: &mut String) -> Result<(), AllocError>
    ensures { Adds text.old text.new more_part result }
{
    text.push_str("; dvdisaster_rs01 --help tells them\n")?;
    Ok(())
}

// How a command is called, and which commands there are where none is named.
#[tactic(auto, unfolding(crate::specs::Faulty::usage_of))]
fn push_usage_of(text: &mut String, verb: Option<Verb>) -> Result<(), AllocError>
    ensures { Adds text.old text.new (usage_of verb) result }
{
    match verb {
        None => {
            text.push_str("commands:")?;
            push_names(text, verbs())?;
            push_more(text)?;
        }
        Some(verb) => push_usage(text, verb)?,
    }
    Ok(())
}

// The command that the first word names.
fn first_verb(words: &[String]) -> Option<Verb>
    ensures { result ≡ first_verb (texts words.now) }
{
    match word_if_any(words, 0) {
        None => None,
        Some(word) => verb_of(word),
    }
}

/// What is wrong with the words, and nothing where nothing is.
#[tactic(auto, unfolding(crate::specs::Faulty::fault_lines))]
pub(crate) fn push_fault_lines(text: &mut String, words: &[String]) -> Result<(), AllocError>
    ensures { Adds text.old text.new (fault_lines (texts words.now)) result }
{
    match read_words(words) {
        Ok(_) => {}
        Err(refused) => {
            push_word(text, refused.place, word_if_any(words, refused.place))?;
            push_usage_of(text, first_verb(words))?;
        }
    }
    Ok(())
}
