//! How a command is called.
ghost use Rattle.std.specs.Prelude.{flat_map};
ghost use Rattle.rs01_report.specs.Lines.{Adds};
ghost use Rattle.rs01_words.specs.Grammar.{options_of, plain_words_of, row_of};
ghost use Rattle.rs01_help.specs.Usage.{again_part, call_line, option_form, option_part, plain_part, program, usage_line, value_part};

use rs01_words::{
    OptionWord, PlainWord, Verb, name_of, options_of, plain_text, plain_words_of, rule_of, text_of,
    value_name,
};
use std::alloc::AllocError;
use std::fmt::Write;

// A plain word, in brackets where it may be left out.
#[tactic(auto, unfolding(crate::specs::Usage::plain_part))]
fn push_plain(text: &mut String, word: PlainWord) -> Result<(), AllocError>
    ensures { Adds text.old text.new (plain_part word) result }
{
    let name = plain_text(word.name);
    if word.needed {
        write!(text, " {name}")?;
    } else {
        write!(text, " [{name}]")?;
    }
    Ok(())
}

// The plain words, in their order.
fn push_plains(text: &mut String, words: &[PlainWord]) -> Result<(), AllocError>
    ensures { Adds text.old text.new (flat_map plain_part words.now) result }
{
    for word in words {
        push_plain(text, *word)?;
    }
    Ok(())
}

// What the value is called, where there is one.
#[tactic(auto, unfolding(crate::specs::Usage::value_part))]
fn push_value(text: &mut String, option: OptionWord) -> Result<(), AllocError>
    ensures { Adds text.old text.new (value_part option) result }
{
    let name = value_name(option);
    if rule_of(option).value.is_some() {
        write!(text, " {name}")?;
    }
    Ok(())
}

/// An option with its value.
#[tactic(auto, unfolding(crate::specs::Usage::option_form))]
pub(crate) fn push_form(text: &mut String, option: OptionWord) -> Result<(), AllocError>
    ensures { Adds text.old text.new (option_form option) result }
{
    text.push_str(text_of(option))?;
    push_value(text, option)?;
    Ok(())
}

// Points where an option may be given again.
#[tactic(auto, unfolding(crate::specs::Usage::again_part))]
fn push_again(text: &mut String, option: OptionWord) -> Result<(), AllocError>
    ensures { Adds text.old text.new (again_part option) result }
{
    if rule_of(option).most > 1 {
        text.push_str(" ..")?;
    }
    Ok(())
}

// An option in brackets.
#[tactic(auto, unfolding(crate::specs::Usage::option_part))]
fn push_option(text: &mut String, option: OptionWord) -> Result<(), AllocError>
    ensures { Adds text.old text.new (option_part option) result }
{
    text.push_str(" [")?;
    push_form(text, option)?;
    text.push_str("]")?;
    push_again(text, option)?;
    Ok(())
}

// The options, in their order.
fn push_options(text: &mut String, options: &[OptionWord]) -> Result<(), AllocError>
    ensures { Adds text.old text.new (flat_map option_part options.now) result }
{
    for option in options {
        push_option(text, *option)?;
    }
    Ok(())
}

/// A command with its plain words and its options.
#[tactic(auto, unfolding(crate::specs::Usage::call_line))]
pub(crate) fn push_call(text: &mut String, verb: Verb) -> Result<(), AllocError>
    ensures { Adds text.old text.new (call_line verb) result }
{
    text.push_str(name_of(verb))?;
    push_plains(text, plain_words_of(verb))?;
    push_options(text, options_of(verb))?;
    text.push_str("\n")?;
    Ok(())
}

/// The name of the program.
#[tactic(auto, unfolding(crate::specs::Usage::program))]
pub(crate) fn push_program(text: &mut String) -> Result<(), AllocError>
    ensures { Adds text.old text.new program result }
{
    text.push_str("usage: dvdisaster_rs01 ")?;
    Ok(())
}

/// The same behind the program's name.
#[tactic(auto, unfolding(crate::specs::Usage::usage_line))]
pub(crate) fn push_usage(text: &mut String, verb: Verb) -> Result<(), AllocError>
    ensures { Adds text.old text.new (usage_line verb) result }
{
    push_program(text)?;
    push_call(text, verb)?;
    Ok(())
}
