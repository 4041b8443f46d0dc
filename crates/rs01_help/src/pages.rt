//! What is told of each command.
ghost use Rattle.std.specs.Prelude.{flat_map};
ghost use Rattle.rs01_report.specs.Lines.{Adds};
ghost use Rattle.rs01_words.specs.Grammar.{options_of, plain_words_of, row_of};
ghost use Rattle.rs01_help.specs.Pages.{default_part, help, most_part, numbers_part, option_line, page, plain_line, preset_part, range_part, sense_line, span_part, usage_page};

use crate::senses::{option_sense, plain_sense, verb_sense};
use crate::usage::{push_call, push_form, push_program};
use rs01_words::{
    Kind, OptionWord, PlainWord, Preset, Verb, options_of, plain_text, plain_words_of,
    preset_bytes, preset_text, presets, rule_of, verbs,
};
use std::alloc::AllocError;
use std::fmt::Write;

// A preset, with its number.
#[tactic(auto, unfolding(crate::specs::Pages::preset_part))]
fn push_preset(text: &mut String, preset: Preset) -> Result<(), AllocError>
    ensures { Adds text.old text.new (preset_part preset) result }
{
    let (name, bytes) = (preset_text(preset), preset_bytes(preset));
    write!(text, ", {name} ({bytes})")?;
    Ok(())
}

// The presets, in their order.
fn push_presets(text: &mut String, presets: &[Preset]) -> Result<(), AllocError>
    ensures { Adds text.old text.new (flat_map preset_part presets.now) result }
{
    for preset in presets {
        push_preset(text, *preset)?;
    }
    Ok(())
}

// The least number and the greatest.
#[tactic(auto, unfolding(crate::specs::Pages::span_part))]
fn push_span(text: &mut String, low: u64, high: u64) -> Result<(), AllocError>
    ensures { Adds text.old text.new (span_part low high) result }
{
    write!(text, ", {low} to {high}")?;
    Ok(())
}

// Which numbers a word may be, where it is one.
#[tactic(auto, unfolding(crate::specs::Pages::range_part))]
fn push_range(text: &mut String, kind: Kind) -> Result<(), AllocError>
    ensures { Adds text.old text.new (range_part kind) result }
{
    match kind {
        Kind::Name => {}
        Kind::Drive => {}
        Kind::Number { low, high } => push_span(text, low, high)?,
        Kind::Parity { low, high } => {
            push_span(text, low, high)?;
            push_presets(text, presets())?;
        }
    }
    Ok(())
}

// The number that holds where an option isn't given.
#[tactic(auto, unfolding(crate::specs::Pages::default_part))]
fn push_default(text: &mut String, default: u64) -> Result<(), AllocError>
    ensures { Adds text.old text.new (default_part default) result }
{
    write!(text, "; {default} if it isn't given")?;
    Ok(())
}

// The numbers of an option, and the one that holds where it isn't given.
#[tactic(auto, unfolding(crate::specs::Pages::numbers_part))]
fn push_numbers(text: &mut String, value: Option<Kind>, default: u64) -> Result<(), AllocError>
    ensures { Adds text.old text.new (numbers_part value default) result }
{
    match value {
        None => {}
        Some(Kind::Name) => {}
        Some(Kind::Drive) => {}
        Some(Kind::Number { low, high }) => {
            push_range(text, Kind::Number { low, high })?;
            push_default(text, default)?;
        }
        Some(Kind::Parity { low, high }) => {
            push_range(text, Kind::Parity { low, high })?;
            push_default(text, default)?;
        }
    }
    Ok(())
}

// How often an option may be given, where that is more than once.
#[tactic(auto, unfolding(crate::specs::Pages::most_part))]
fn push_most(text: &mut String, most: usize) -> Result<(), AllocError>
    ensures { Adds text.old text.new (most_part most) result }
{
    if most > 1 {
        write!(text, ", at most {most} times")?;
    }
    Ok(())
}

// An option, what it is for, and its numbers.
#[tactic(auto, unfolding(crate::specs::Pages::option_line))]
fn push_option_line(text: &mut String, option: OptionWord) -> Result<(), AllocError>
    ensures { Adds text.old text.new (option_line option) result }
{
    let (sense, rule) = (option_sense(option), rule_of(option));
    text.push_str("    ")?;
    push_form(text, option)?;
    write!(text, ": {sense}")?;
    push_numbers(text, rule.value, rule.default)?;
    push_most(text, rule.most)?;
    text.push_str("\n")?;
    Ok(())
}

// The options, in their order.
fn push_option_lines(text: &mut String, options: &[OptionWord]) -> Result<(), AllocError>
    ensures { Adds text.old text.new (flat_map option_line options.now) result }
{
    for option in options {
        push_option_line(text, *option)?;
    }
    Ok(())
}

// A plain word, what it stands for, and its numbers.
#[tactic(auto, unfolding(crate::specs::Pages::plain_line))]
fn push_plain_line(text: &mut String, word: PlainWord) -> Result<(), AllocError>
    ensures { Adds text.old text.new (plain_line word) result }
{
    let (name, sense) = (plain_text(word.name), plain_sense(word.name));
    write!(text, "    {name}: {sense}")?;
    push_range(text, word.kind)?;
    text.push_str("\n")?;
    Ok(())
}

// The plain words, in their order.
fn push_plain_lines(text: &mut String, words: &[PlainWord]) -> Result<(), AllocError>
    ensures { Adds text.old text.new (flat_map plain_line words.now) result }
{
    for word in words {
        push_plain_line(text, *word)?;
    }
    Ok(())
}

// What a command does.
#[tactic(auto, unfolding(crate::specs::Pages::sense_line))]
fn push_sense(text: &mut String, verb: Verb) -> Result<(), AllocError>
    ensures { Adds text.old text.new (sense_line verb) result }
{
    let sense = verb_sense(verb);
    write!(text, "    {sense}\n")?;
    Ok(())
}

// A command: how it is called, what it does, and its words and options.
#[tactic(auto, unfolding(crate::specs::Pages::page))]
fn push_page(text: &mut String, verb: Verb) -> Result<(), AllocError>
    ensures { Adds text.old text.new (page verb) result }
{
    push_call(text, verb)?;
    push_sense(text, verb)?;
    push_plain_lines(text, plain_words_of(verb))?;
    push_option_lines(text, options_of(verb))?;
    Ok(())
}

/// The same behind the program's name.
#[tactic(auto, unfolding(crate::specs::Pages::usage_page))]
pub(crate) fn push_usage_page(text: &mut String, verb: Verb) -> Result<(), AllocError>
    ensures { Adds text.old text.new (usage_page verb) result }
{
    push_program(text)?;
    push_page(text, verb)?;
    Ok(())
}

// The commands, in their order.
fn push_pages(text: &mut String, verbs: &[Verb]) -> Result<(), AllocError>
    ensures { Adds text.old text.new (flat_map page verbs.now) result }
{
    for verb in verbs {
        push_page(text, *verb)?;
    }
    Ok(())
}

/// All commands, between what stands before them and behind them.
#[tactic(auto, unfolding(crate::specs::Pages::help))]
pub(crate) fn push_help(text: &mut String, head: &str, tail: &str) -> Result<(), AllocError>
    ensures { Adds text.old text.new (help head.now tail.now) result }
{
    text.push_str(head)?;
    push_pages(text, verbs())?;
    text.push_str(tail)?;
    Ok(())
}
