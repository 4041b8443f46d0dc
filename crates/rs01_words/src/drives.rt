//! The names of the drives.
ghost use Rattle.std.specs.Prelude.{◌≡◌, length, map, IfOk};
ghost use Rattle.rs01_words.specs.Line.{texts, word_at};
ghost use Rattle.rs01_words.specs.Command.{AreWithin, drive_names_of, parts_of};

use crate::command::Command;
use crate::places::Places;
use crate::read::read_words;
use crate::walk::word_at;
use std::alloc::{AllocError, Global};

// The words at these places, in order.
fn names_at(alloc: Global, words: &[String], places: &Places) -> Result<Vec<String>, AllocError>
    requires { AreWithin (length words.now) places.now }
    ensures { IfOk result (λ names.
        texts names.items ≡ map (word_at (texts words.now)) places.now) }
{
    let mut names = Vec::new(alloc);
    for i in 0..places.len() {
        if let Some(place) = places.get(i) {
            names.push(String::from_str(alloc, word_at(words, place))?)?;
        }
    }
    Ok(names)
}

// The places of the drives that a command takes.
fn drives_of(asked: Command) -> Places
    ensures { result ≡ (parts_of asked).drives }
{
    match asked {
        Command::Scan { drives, .. } => drives,
        Command::Read { drives, .. } => drives,
        _ => Places::new(),
    }
}

/// The names of the drives in the words, in order, where the words ask for something. Else none.
#[tactic(auto, unfolding(crate::specs::Command::drive_names_of))]
pub fn drive_names(alloc: Global, words: &[String]) -> Result<Vec<String>, AllocError>
    ensures { IfOk result (λ names.
        texts names.items ≡ drive_names_of (texts words.now)) }
{
    match read_words(words) {
        Ok(asked) => names_at(alloc, words, &drives_of(asked)),
        Err(_) => Ok(Vec::new(alloc)),
    }
}
