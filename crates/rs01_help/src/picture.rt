//! A picture of the image: a line of cells, each of which stands for neighbouring sectors.
//!
//! It is drawn from the lines of a report. The clauses say for which reports nothing is put, and how a sink is left; none
//! says what the picture shows. Tests do.
ghost use Rattle.std.specs.Prelude.{◌≡◌, ◌<◌, [], IfOk, IsTrue, List, is_err, not, string_bytes, ℕ};
ghost use Rattle.rs01_outside.specs.SinkState.{Puts};
ghost use Rattle.rs01_report.specs.Puts.{PutsText};
ghost use Rattle.rs01_help.specs.Picture.{has_lists};

use rs01_outside::{Failed, Sink};
use rs01_report::PutRefusal;
use std::alloc::{AllocError, Global};

// How many cells there are.
const CELLS: usize = 60;

// What the signs mean.
const LEGEND: &str = "  . good   # missing or unreadable   x altered   + restored   ? not asked\n";

// The number that a text begins with.
fn number_in(text: &str) -> Option<u64> {
    text.split([',', ' ']).next()?.parse::<u64>().ok()
}

// How many sectors the image has.
fn sectors_in(report: &str) -> Option<u64> {
    for line in report.lines() {
        if let Some(rest) = line.strip_prefix("sectors ") {
            return number_in(rest);
        }
        if let Some(rest) = line.strip_prefix("scanned ") {
            return number_in(rest);
        }
    }
    None
}

// Marks each cell that a run of sectors touches.
fn mark(cells: &mut [bool; CELLS], width: u64, first: u64, last: u64) {
    for k in 0..cells.len() {
        let from = width.saturating_mul(k as u64);
        let end = from.saturating_add(width);
        if first < end && from <= last {
            cells[k] = true;
        }
    }
}

// Marks the cells of a list.
fn mark_list(cells: &mut [bool; CELLS], width: u64, list: &str) {
    for run in list.split(',') {
        let (first, last) = match run.split_once('-') {
            Some((first, last)) => (first.parse::<u64>(), last.parse::<u64>()),
            None => (run.parse::<u64>(), run.parse::<u64>()),
        };
        if let (Ok(first), Ok(last)) = (first, last) {
            mark(cells, width, first, last);
        }
    }
}

// The cells of the lists whose lines begin with one of two labels.
fn cells_of(report: &str, width: u64, label: &str, other: &str) -> [bool; CELLS] {
    let mut cells = [false; CELLS];
    for line in report.lines() {
        if line.starts_with(label) || line.starts_with(other) {
            if let Some((_, list)) = line.split_once(": ") {
                mark_list(&mut cells, width, list);
            }
        }
    }
    cells
}

// What a report says of the sectors of each cell.
#[derive(Drop)]
struct Cells {
    missing: [bool; CELLS],
    altered: [bool; CELLS],
    restored: [bool; CELLS],
    lost: [bool; CELLS],
}

impl Cells {
    // `read` says which sectors are lost at its end. `verify` and `scan` restore none, so there each
    // that is missing or altered is.
    fn of(report: &str, width: u64) -> Cells {
        let missing = cells_of(report, width, "missing ", "unreadable ");
        let altered = cells_of(report, width, "altered ", "altered ");
        let restored = cells_of(report, width, "restored ", "restored ");
        let mut lost = cells_of(report, width, "lost ", "lost ");
        if !report.starts_with("read ") {
            for k in 0..CELLS {
                lost[k] = missing[k] || altered[k];
            }
        }
        Cells {
            missing,
            altered,
            restored,
            lost,
        }
    }

    // The sign of a cell.
    fn sign(&self, k: usize) -> &'static str
        requires { k < 60 }
    {
        if !self.lost[k] {
            return if self.restored[k] { "+" } else { "." };
        }
        if self.missing[k] {
            return "#";
        }
        if self.altered[k] { "x" } else { "?" }
    }

    fn is_whole(&self) -> bool {
        !self.lost.iter().any(|lost| *lost) && !self.restored.iter().any(|restored| *restored)
    }
}

// Whether a report has lists of sectors by the whole image.
#[tactic(auto, unfolding(crate::specs::Picture::has_lists))]
fn has_lists(report: &str) -> bool
    ensures { result ≡ has_lists report.now }
{
    let bytes = report.as_bytes();
    bytes.starts_with(b"checked ") || bytes.starts_with(b"scanned ") || bytes.starts_with(b"read ")
}

// The picture of a report, and nothing where all is good or the report has no lists.
fn picture_of(alloc: Global, report: &str) -> Result<String, AllocError>
    ensures { IsTrue (not (has_lists report.now))
        → IfOk result (λ text. string_bytes text ≡ []) }
{
    let mut text = String::new(alloc);
    let Some(sectors) = sectors_in(report) else {
        return Ok(text);
    };
    let width = sectors.div_ceil(CELLS as u64).max(1);
    let cells = Cells::of(report, width);
    if !has_lists(report) || cells.is_whole() {
        return Ok(text);
    }
    let count = sectors.div_ceil(width).min(CELLS as u64) as usize;
    text.push_str("image: [")?;
    for k in 0..count {
        text.push_str(cells.sign(k))?;
    }
    text.push_str("]\n")?;
    text.push_str(LEGEND)?;
    Ok(text)
}

// Puts a text, and asks nothing of the sink where it has no bytes.
fn put_some<S: Sink>(text: &str, out: &mut S) -> Result<(), Failed>
    ensures { Puts (S.state out.old) (S.state out.new) text.now (is_err result) }
{
    if text.is_empty() {
        return Ok(());
    }
    out.put(text.as_bytes())
}

/// Puts a picture of the image by the report of `verify`, `scan` or `read`: a sign for each part of
/// it, and what the signs mean. Nothing where all is good.
///
/// A point stands where nothing is lost and nothing had to be restored, `+` where what was lost was
/// restored. Else something of the part is lost, and the sign is that of the first that fits: `#`
/// where a sector is missing or unreadable, `x` where one is altered, `?` where none was asked for.
pub fn put_picture<S: Sink>(alloc: Global, report: &str, out: &mut S) -> Result<(), PutRefusal>
    ensures text { (text : List ℕ) × PutsText (S.state out.old) (S.state out.new) text result }
    ensures none { IsTrue (not (has_lists report.now))
        → PutsText (S.state out.old) (S.state out.new) [] result }
{
    let text = picture_of(alloc, report)?;
    put_some(text.as_str(), out)?;
    Ok(())
}
