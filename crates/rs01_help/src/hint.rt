//! Which hint fits.
ghost use Rattle.std.specs.Prelude.{◌≡◌, ◌||◌, find};
ghost use Rattle.std.specs.Str.{bytes_eq};
ghost use Rattle.rs01_report.specs.Lines.{Adds};
ghost use Rattle.rs01_help.specs.Hints.{beyond, count_part, fits, hint_line, hint_lines, is_empty, restorable, verdict, verdict_of};

use crate::reading::{fullest_in, holds, number_after};
use std::alloc::AllocError;
use std::fmt::Write;

/// A hint, and when it fits. An empty text is no condition.
#[derive(Clone, Copy, Debug)]
pub struct Hint {
    /// The status of the run.
    pub status: u8,
    /// The command.
    pub command: &'static str,
    /// What stands in what the run put.
    pub holds: &'static str,
    /// What doesn't stand there.
    pub lacks: &'static str,
    /// What stands before a number that is told before the text.
    pub counts: &'static str,
    /// What a person is told.
    pub text: &'static str,
}

/// What a run was asked, and how it ended.
#[derive(Clone, Copy, Debug)]
pub struct Ran<'a> {
    /// Its status.
    pub status: u8,
    /// The first word.
    pub command: &'a str,
    /// The first bytes of each line that it put.
    pub heads: &'a [u8],
}

fn is_of(hint: &Hint, command: &str) -> bool
    ensures { let own = hint.now.command.now in
        result ≡ (is_empty own || bytes_eq own command.now) }
{
    hint.command.is_empty() || hint.command == command
}

// Whether a hint fits.
#[tactic(auto, unfolding(crate::specs::Hints::fits))]
fn fits(hint: &Hint, status: u8, command: &str, heads: &[u8]) -> bool
    ensures { result ≡ fits status command.now heads.now hint.now }
{
    hint.status == status
        && is_of(hint, command)
        && (hint.holds.is_empty() || holds(hint.holds.as_bytes(), heads))
        && (hint.lacks.is_empty() || !holds(hint.lacks.as_bytes(), heads))
}

// The first hint that fits.
fn first_hint(hints: &[Hint], status: u8, command: &str, heads: &[u8]) -> Option<Hint>
    ensures { result ≡ find (fits status command.now heads.now) hints.now }
{
    hints
        .iter()
        .copied()
        .find(|hint| fits(hint, status, command, heads))
}

#[tactic(auto, unfolding(crate::specs::Hints::restorable))]
fn push_restorable(text: &mut String, erased: u64, parity: u64) -> Result<(), AllocError>
    ensures { Adds text.old text.new (restorable erased parity) result }
{
    write!(
        text,
        "hint: the fullest layer has lost {erased} of at most {parity}: fix can restore every sector\n"
    )?;
    Ok(())
}

#[tactic(auto, unfolding(crate::specs::Hints::beyond))]
fn push_beyond(text: &mut String, erased: u64, parity: u64) -> Result<(), AllocError>
    ensures { Adds text.old text.new (beyond erased parity) result }
{
    write!(
        text,
        "hint: the fullest layer has lost {erased} of at most {parity}: read more of the disc first, also in another drive\n"
    )?;
    Ok(())
}

// Whether every sector can be restored, by the fullest layer.
fn push_verdict_of(text: &mut String, fullest: Option<(u64, u64)>) -> Result<(), AllocError>
    ensures { Adds text.old text.new (verdict_of fullest) result }
{
    let Some((erased, parity)) = fullest else {
        return Ok(());
    };
    if erased == 0 {
        return Ok(());
    }
    if erased <= parity {
        push_restorable(text, erased, parity)?;
    } else {
        push_beyond(text, erased, parity)?;
    }
    Ok(())
}

#[tactic(auto, unfolding(crate::specs::Hints::verdict))]
fn push_verdict(text: &mut String, heads: &[u8]) -> Result<(), AllocError>
    ensures { Adds text.old text.new (verdict heads.now) result }
{
    push_verdict_of(text, fullest_in(heads))?;
    Ok(())
}

// The number behind a label, where there is one.
#[tactic(auto, unfolding(crate::specs::Hints::count_part))]
fn push_count(text: &mut String, label: &str, heads: &[u8]) -> Result<(), AllocError>
    ensures { Adds text.old text.new (count_part label.now heads.now) result }
{
    if label.is_empty() {
        return Ok(());
    }
    match number_after(label.as_bytes(), heads) {
        None => {}
        Some(count) => write!(text, "{count} ")?,
    }
    Ok(())
}

// A hint, with what it counts.
#[tactic(auto, unfolding(crate::specs::Hints::hint_line))]
fn push_hint(text: &mut String, hint: Option<Hint>, heads: &[u8]) -> Result<(), AllocError>
    ensures { Adds text.old text.new (hint_line hint heads.now) result }
{
    match hint {
        None => {}
        Some(hint) => {
            text.push_str("hint: ")?;
            push_count(text, hint.counts, heads)?;
            text.push_str(hint.text)?;
            text.push_str("\n")?;
        }
    }
    Ok(())
}

/// Whether all can be restored, and the first hint that fits.
#[tactic(auto, unfolding(crate::specs::Hints::hint_lines))]
pub(crate) fn push_hints(text: &mut String, hints: &[Hint], ran: &Ran) -> Result<(), AllocError>
    ensures { let ran = ran.now in
        Adds text.old text.new
        (hint_lines hints.now ran.status ran.command.now ran.heads.now) result }
{
    push_verdict(text, ran.heads)?;
    let hint = first_hint(hints, ran.status, ran.command, ran.heads);
    push_hint(text, hint, ran.heads)?;
    Ok(())
}
