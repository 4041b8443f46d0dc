//! Lines that reports consist of, put behind a text. After an error some of a line may stand there.

ghost use Rattle.rs01_report.specs.Lines.{Adds, count_line, digest_line, fullest_line, fullness_lines, last_sector_line, left_line, list_line, mark_line, original_line, outcome_lines, scanned_line, shape_line, strange_line, strange_lines, surplus_line, text_line};

use crate::lists::{SectorList, StrangeList, push_list};
use crate::reports::{Fullest, Mark, Strange, Why};
use std::alloc::{AllocError, Global};
use std::fmt::Write;

// What is told, and a text.
#[tactic(auto, unfolding(crate::specs::Lines::text_line))]
pub(crate) fn push_text(text: &mut String, what: &str, more: &str) -> Result<(), AllocError>
    ensures { Adds text.old text.new (text_line what.now more.now) result }
{
    write!(text, "{what}{more}\n")?;
    Ok(())
}

// What is counted, and its number.
#[tactic(auto, unfolding(crate::specs::Lines::count_line))]
pub(crate) fn push_count(text: &mut String, what: &str, count: u64) -> Result<(), AllocError>
    ensures { Adds text.old text.new (count_line what.now count) result }
{
    write!(text, "{what}{count}\n")?;
    Ok(())
}

// Which sectors, their count and their runs.
#[tactic(auto, unfolding(crate::specs::Lines::list_line))]
pub(crate) fn push_sectors(
    text: &mut String,
    which: &str,
    sectors: &SectorList,
) -> Result<(), AllocError>
    ensures { Adds text.old text.new (list_line which.now sectors.now) result }
{
    text.push_str(which)?;
    push_list(text, sectors.items())?;
    text.push_str("\n")?;
    Ok(())
}

// Whose digest, and its 32 digits.
#[tactic(auto, unfolding(crate::specs::Lines::digest_line))]
pub(crate) fn push_digest(
    alloc: Global,
    text: &mut String,
    whose: &str,
    sum: [u8; 16],
) -> Result<(), AllocError>
    ensures { Adds text.old text.new (digest_line whose.now sum) result }
{
    let digits = hex::encode(alloc, sum)?;
    write!(text, "{whose}{digits}\n")?;
    Ok(())
}

// How a digest compares with the recorded one, with a word for the digest of what isn't there.
#[tactic(auto, unfolding(crate::specs::Lines::mark_line))]
pub(crate) fn push_mark(
    text: &mut String,
    whose: &str,
    mark: Mark,
    absent: &str,
) -> Result<(), AllocError>
    ensures { Adds text.old text.new (mark_line whose.now mark absent.now) result }
{
    match mark {
        Mark::Matches => push_text(text, whose, "matches")?,
        Mark::Differs => push_text(text, whose, "differs")?,
        Mark::Absent => push_text(text, whose, absent)?,
    }
    Ok(())
}

// The sectors, layers and parity bytes.
#[tactic(auto, unfolding(crate::specs::Lines::shape_line))]
pub(crate) fn push_shape(
    text: &mut String,
    sectors: u32,
    layers: u32,
    parity: u32,
) -> Result<(), AllocError>
    ensures { Adds text.old text.new (shape_line sectors layers parity) result }
{
    write!(
        text,
        "sectors {sectors}, layers {layers}, parity {parity}\n"
    )?;
    Ok(())
}

// The bytes of the last sector.
#[tactic(auto, unfolding(crate::specs::Lines::last_sector_line))]
pub(crate) fn push_last_sector(text: &mut String, bytes: u32) -> Result<(), AllocError>
    ensures { Adds text.old text.new (last_sector_line bytes) result }
{
    write!(text, "last sector {bytes} bytes\n")?;
    Ok(())
}

// How many sectors were looked at.
#[tactic(auto, unfolding(crate::specs::Lines::scanned_line))]
pub(crate) fn push_scanned(text: &mut String, sectors: u32) -> Result<(), AllocError>
    ensures { Adds text.old text.new (scanned_line sectors) result }
{
    write!(text, "scanned {sectors} sectors\n")?;
    Ok(())
}

// The fullest layer.
#[tactic(auto, unfolding(crate::specs::Lines::fullest_line))]
fn push_fullest(text: &mut String, fullest: Fullest) -> Result<(), AllocError>
    ensures { Adds text.old text.new (fullest_line fullest) result }
{
    let Fullest {
        layer,
        erased,
        parity,
        ..
    } = fullest;
    write!(text, "fullest layer {layer}: {erased} of {parity}\n")?;
    Ok(())
}

// The fullest layer, and how many layers are beyond their bound.
#[tactic(auto, unfolding(crate::specs::Lines::fullness_lines))]
pub(crate) fn push_fullness(text: &mut String, fullest: Fullest) -> Result<(), AllocError>
    ensures { Adds text.old text.new (fullness_lines fullest) result }
{
    push_fullest(text, fullest)?;
    push_count(text, "layers beyond ", u64::from(fullest.beyond))?;
    Ok(())
}

// A strange layer.
#[tactic(auto, unfolding(crate::specs::Lines::strange_line))]
fn push_strange(text: &mut String, strange: Strange) -> Result<(), AllocError>
    ensures { Adds text.old text.new (strange_line strange) result }
{
    let layer = strange.layer;
    match strange.why {
        Why::Codeword(codeword) => write!(text, "layer {layer}: codeword {codeword} disagrees\n")?,
        Why::Sum(sector) => write!(
            text,
            "layer {layer}: sector {sector} has another checksum\n"
        )?,
    }
    Ok(())
}

// The number of strange layers, and a line for each.
fn push_strange_layers(text: &mut String, layers: &[Strange]) -> Result<(), AllocError>
    ensures { Adds text.old text.new (strange_lines layers.now) result }
{
    push_count(text, "strange layers ", layers.len() as u64)?;
    for strange in layers {
        push_strange(text, *strange)?;
    }
    Ok(())
}

// The sectors that correction put in place, those that stay lost, and the strange layers.
#[tactic(auto, unfolding(crate::specs::Lines::outcome_lines))]
pub(crate) fn push_outcome(
    text: &mut String,
    restored: &SectorList,
    lost: &SectorList,
    strange: &StrangeList,
) -> Result<(), AllocError>
    ensures { Adds text.old text.new (outcome_lines restored.now lost.now strange.now) result }
{
    push_sectors(text, "restored ", restored)?;
    push_sectors(text, "lost ", lost)?;
    push_strange_layers(text, strange.items())?;
    Ok(())
}

// The surplus.
pub(crate) fn push_surplus(text: &mut String, bytes: u64) -> Result<(), AllocError>
    ensures { Adds text.old text.new (surplus_line bytes) result }
{
    push_count(text, "surplus bytes ", bytes)?;
    Ok(())
}

// The surplus, and whether one above 0 was cut.
#[tactic(auto, unfolding(crate::specs::Lines::left_line))]
pub(crate) fn push_left(text: &mut String, bytes: u64, cut: bool) -> Result<(), AllocError>
    ensures { Adds text.old text.new (left_line bytes cut) result }
{
    if cut && bytes > 0 {
        write!(text, "surplus bytes {bytes}, cut\n")?;
    } else {
        push_surplus(text, bytes)?;
    }
    Ok(())
}

// Whether the image is the original.
#[tactic(auto, unfolding(crate::specs::Lines::original_line))]
pub(crate) fn push_original(text: &mut String, original: bool) -> Result<(), AllocError>
    ensures { Adds text.old text.new (original_line original) result }
{
    if original {
        text.push_str("image is the original\n")?;
    } else {
        text.push_str("image isn't the original\n")?;
    }
    Ok(())
}
