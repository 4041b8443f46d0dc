//! Rising lists of sectors, and how they are printed.

ghost use Rattle.std.specs.Prelude.{◌≡◌, ◌+◌, ◌↔◌, ◌++◌, ◌∷◌, [], if◌then◌else◌, IsTrue, OnOk};
ghost use Rattle.rs01_report.specs.Lines.{Adds};
ghost use Rattle.rs01_report.specs.Runs.{list_text, ranges_text, run_text};

use crate::reports::Strange;
use rs01_lists::Listed;
use std::alloc::AllocError;
use std::fmt::Write;

/// A list of sectors, by their numbers.
pub type SectorList = Listed<u32>;

/// A list of strange layers.
pub type StrangeList = Listed<Strange>;

/// Puts a sector behind others where it belongs there, and leaves them else.
pub fn push_if(list: &mut Vec<u32>, belongs: bool, sector: u32) -> Result<(), AllocError>
    ensures { OnOk result (list.new.items
        ≡ list.old.items ++ (if belongs then sector ∷ [] else [])) }
{
    if belongs {
        list.push(sector)?;
        Ok(())
    } else {
        Ok(())
    }
}

// Whether a sector is the next one.
fn follows(last: u32, sector: u32) -> bool
    ensures { IsTrue result ↔ (sector ≡ last + 1) }
{
    sector > last && sector - last == 1
}

// A run behind a text.
fn push_run(out: &mut String, first: u32, last: u32) -> Result<(), AllocError>
    ensures { Adds out.old out.new (run_text (first, last)) result }
{
    if first == last {
        write!(out, "{first}")?;
    } else {
        write!(out, "{first}-{last}")?;
    }
    Ok(())
}

// A run and a comma behind a text.
fn push_ended_run(out: &mut String, first: u32, last: u32) -> Result<(), AllocError>
    ensures { Adds out.old out.new (run_text (first, last) ++ 44 ∷ []) result }
{
    push_run(out, first, last)?;
    out.push_str(",")?;
    Ok(())
}

// The runs of a rising list behind a text, or `none`.
fn push_ranges(out: &mut String, sectors: &[u32]) -> Result<(), AllocError>
    ensures { Adds out.old out.new (ranges_text sectors.now) result }
{
    let Some((start, later)) = sectors.split_first() else {
        out.push_str("none")?;
        return Ok(());
    };
    let mut first = *start;
    let mut last = *start;
    for sector in later {
        if !follows(last, *sector) {
            push_ended_run(out, first, last)?;
            first = *sector;
        }
        last = *sector;
    }
    push_run(out, first, last)?;
    Ok(())
}

/// Writes a rising list of sectors behind a text: its count, a colon, and its maximal runs of
/// neighbours, as in `3: 3-4,9`, or `0: none`. After an error some of it may stand there.
pub fn push_list(out: &mut String, sectors: &[u32]) -> Result<(), AllocError>
    ensures { Adds out.old out.new (list_text sectors.now) result }
{
    let count = sectors.len();
    write!(out, "{count}: ")?;
    push_ranges(out, sectors)?;
    Ok(())
}
