//! The words of the command line: what they ask for, or the first fault in them.
#![tactic(auto)]

mod command;
mod drives;
mod fault;
mod look_up;
mod places;
mod plain;
mod read;
mod refusal;
mod table;
mod value;
mod walk;

pub use command::Command;
pub use drives::drive_names;
pub use fault::{WordFault, WordRefused};
pub use places::Places;
pub use read::read_words;
pub use table::{
    Kind, OptionRule, OptionWord, PlainName, PlainWord, Preset, Verb, name_of, options_of,
    plain_text, plain_words_of, preset_bytes, preset_of, preset_text, presets, rule_of, text_of,
    value_name, verb_of, verbs,
};
pub use value::{is_digit, number_up_to};
pub use walk::{word_at, word_if_any};
