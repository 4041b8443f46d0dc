//! The text of each report, and of each fault.

ghost use Rattle.std.specs.Prelude.{◌≡◌, IfOk, string_bytes};
ghost use Rattle.rs01_report.specs.Faults.{fault_line};
ghost use Rattle.rs01_report.specs.Lines.{Adds};
ghost use Rattle.rs01_report.specs.Texts.{compared_lines, create_lines, demo_line, demo_lines, fix_lines, found_lines, known_fullness, read_lines, reading_lines, repaired_lines, scan_lines, unread_lines, verify_lines};

use crate::faults::Fault;
use crate::lines::{
    push_count, push_digest, push_fullness, push_last_sector, push_left, push_mark, push_original,
    push_outcome, push_scanned, push_sectors, push_shape, push_surplus, push_text,
};
use crate::reports::{
    CreateReport, DemoReport, FixReport, Fullest, ReadReport, ScanReport, VerifyReport,
};
use std::alloc::{AllocError, Global};
use std::fmt::Write;

// The report of `create`.
#[tactic(auto, unfolding(crate::specs::Texts::create_lines))]
pub(crate) fn create_text(
    alloc: Global,
    report: &CreateReport,
    name: &str,
) -> Result<String, AllocError>
    ensures { IfOk result (λ text. string_bytes text ≡ create_lines report.now name.now) }
{
    let mut text = String::new(alloc);
    push_text(&mut text, "created ", name)?;
    push_shape(&mut text, report.sectors, report.layers, report.parity)?;
    push_last_sector(&mut text, report.last_bytes)?;
    push_digest(alloc, &mut text, "image md5 ", report.image_sum)?;
    Ok(text)
}

// The report of `fix`.
#[tactic(auto, unfolding(crate::specs::Texts::fix_lines))]
pub(crate) fn fix_text(alloc: Global, report: &FixReport, name: &str) -> Result<String, AllocError>
    ensures { IfOk result (λ text. string_bytes text ≡ fix_lines report.now name.now) }
{
    let mut text = String::new(alloc);
    push_text(&mut text, "fixed ", name)?;
    push_outcome(&mut text, &report.restored, &report.lost, &report.strange)?;
    push_left(&mut text, report.surplus, report.cut)?;
    Ok(text)
}

// The sectors of the image, and those that are missing or altered.
#[tactic(auto, unfolding(crate::specs::Texts::found_lines))]
fn push_found(text: &mut String, report: &VerifyReport) -> Result<(), AllocError>
    ensures { Adds text.old text.new (found_lines report.now) result }
{
    push_shape(text, report.sectors, report.layers, report.parity)?;
    push_sectors(text, "missing ", &report.missing)?;
    push_sectors(text, "altered ", &report.altered)?;
    Ok(())
}

// The surplus, and how the two digests compare.
fn push_compared(text: &mut String, report: &VerifyReport) -> Result<(), AllocError>
    ensures { Adds text.old text.new (compared_lines report.now) result }
{
    push_surplus(text, report.surplus)?;
    push_mark(text, "fingerprint ", report.fingerprint, "absent")?;
    push_mark(text, "image md5 ", report.image, "short")?;
    Ok(())
}

// The report of `verify`.
#[tactic(auto, unfolding(crate::specs::Texts::verify_lines))]
pub(crate) fn verify_text(
    alloc: Global,
    report: &VerifyReport,
    name: &str,
) -> Result<String, AllocError>
    ensures { IfOk result (λ text. string_bytes text ≡ verify_lines report.now name.now) }
{
    let mut text = String::new(alloc);
    push_text(&mut text, "checked ", name)?;
    push_found(&mut text, report)?;
    push_fullness(&mut text, report.fullest)?;
    push_compared(&mut text, report)?;
    Ok(text)
}

// How full the layers are, where there is an error correction file.
#[tactic(auto, unfolding(crate::specs::Texts::known_fullness))]
fn push_known_fullness(text: &mut String, fullest: Option<Fullest>) -> Result<(), AllocError>
    ensures { Adds text.old text.new (known_fullness fullest) result }
{
    match fullest {
        None => {}
        Some(fullest) => push_fullness(text, fullest)?,
    }
    Ok(())
}

// The report of `scan`.
pub(crate) fn scan_text(alloc: Global, report: &ScanReport) -> Result<String, AllocError>
    ensures { IfOk result (λ text. string_bytes text ≡ scan_lines report.now) }
{
    let mut text = String::new(alloc);
    push_scanned(&mut text, report.sectors)?;
    push_sectors(&mut text, "unreadable ", &report.unreadable)?;
    push_sectors(&mut text, "altered ", &report.altered)?;
    push_known_fullness(&mut text, report.fullest)?;
    Ok(text)
}

// The sectors of the disc, the asks, and the sectors that were good before and that became good.
#[tactic(auto, unfolding(crate::specs::Texts::reading_lines))]
fn push_reading(text: &mut String, report: &ReadReport) -> Result<(), AllocError>
    ensures { Adds text.old text.new (reading_lines report.now) result }
{
    push_count(text, "sectors ", u64::from(report.sectors))?;
    push_count(text, "asked ", report.asked)?;
    push_count(text, "kept ", u64::from(report.kept))?;
    push_count(text, "read ", u64::from(report.read))?;
    Ok(())
}

// The sectors that weren't had from the drives, by the reason.
fn push_unread(text: &mut String, report: &ReadReport) -> Result<(), AllocError>
    ensures { Adds text.old text.new (unread_lines report.now) result }
{
    push_sectors(text, "unreadable ", &report.unreadable)?;
    push_sectors(text, "altered ", &report.altered)?;
    push_sectors(text, "not asked ", &report.not_asked)?;
    Ok(())
}

// The report of `read`.
#[tactic(auto, unfolding(crate::specs::Texts::read_lines))]
pub(crate) fn read_text(
    alloc: Global,
    report: &ReadReport,
    name: &str,
) -> Result<String, AllocError>
    ensures { IfOk result (λ text. string_bytes text ≡ read_lines report.now name.now) }
{
    let mut text = String::new(alloc);
    push_text(&mut text, "read ", name)?;
    push_reading(&mut text, report)?;
    push_unread(&mut text, report)?;
    push_outcome(&mut text, &report.restored, &report.lost, &report.strange)?;
    push_surplus(&mut text, report.surplus)?;
    Ok(text)
}

// The numbers of the words.
#[tactic(auto, unfolding(crate::specs::Texts::demo_line))]
fn push_demo(text: &mut String, report: &DemoReport) -> Result<(), AllocError>
    ensures { Adds text.old text.new (demo_line report.now) result }
{
    let DemoReport {
        number,
        sectors,
        parity,
        lost_asked,
        ..
    } = *report;
    write!(text, "demo {number} {sectors} {parity} {lost_asked}\n")?;
    Ok(())
}

// The numbers of restored and of lost sectors, and whether the image is the original.
#[tactic(auto, unfolding(crate::specs::Texts::repaired_lines))]
fn push_repaired(text: &mut String, report: &DemoReport) -> Result<(), AllocError>
    ensures { Adds text.old text.new (repaired_lines report.now) result }
{
    push_count(text, "restored ", u64::from(report.restored))?;
    push_count(text, "lost ", u64::from(report.lost))?;
    push_original(text, report.original)?;
    Ok(())
}

// The report of `demo`.
#[tactic(auto, unfolding(crate::specs::Texts::demo_lines))]
pub(crate) fn demo_text(alloc: Global, report: &DemoReport) -> Result<String, AllocError>
    ensures { IfOk result (λ text. string_bytes text ≡ demo_lines report.now) }
{
    let mut text = String::new(alloc);
    push_demo(&mut text, report)?;
    push_digest(alloc, &mut text, "image md5 ", report.image_sum)?;
    push_digest(alloc, &mut text, "body md5 ", report.body_sum)?;
    push_repaired(&mut text, report)?;
    Ok(text)
}

// The line of a fault.
#[tactic(auto, unfolding(crate::specs::Faults::fault_line))]
pub(crate) fn fault_text(alloc: Global, fault: &Fault) -> Result<String, AllocError>
    ensures { IfOk result (λ text. string_bytes text ≡ fault_line fault.now) }
{
    match *fault {
        Fault::NoCommand => format!(in alloc; "rs01: word 0: no command\n"),
        Fault::UnknownCommand => format!(in alloc; "rs01: word 0: unknown command\n"),
        Fault::UnknownOption(place) => format!(in alloc; "rs01: word {place}: not known here\n"),
        Fault::Repeated(place) => format!(in alloc; "rs01: word {place}: given twice\n"),
        Fault::NoValue(place) => format!(in alloc; "rs01: word {place}: needs a value\n"),
        Fault::BadNumber(place) => format!(in alloc; "rs01: word {place}: not a number\n"),
        Fault::OutOfRange(place) => format!(in alloc; "rs01: word {place}: out of range\n"),
        Fault::Missing(place) => format!(in alloc; "rs01: word {place}: something is missing\n"),
        Fault::SameName(place) => format!(in alloc; "rs01: word {place}: the same name twice\n"),
        Fault::NoImage => format!(in alloc; "rs01: no image\n"),
        Fault::NoEcc => format!(in alloc; "rs01: no error correction file\n"),
        Fault::EmptyImage => format!(in alloc; "rs01: the image is empty\n"),
        Fault::TooManySectors(sectors) => format!(in alloc;
            "rs01: the image has {sectors} sectors, at most 16777215 are possible\n"
        ),
        Fault::Marker(sector) => format!(in alloc; "rs01: sector {sector} is marked as missing\n"),
        Fault::Cookie => format!(in alloc; "rs01: header: cookie\n"),
        Fault::Method => format!(in alloc; "rs01: header: method\n"),
        Fault::Version => format!(in alloc; "rs01: header: version\n"),
        Fault::Sectors => format!(in alloc; "rs01: header: sectors\n"),
        Fault::Parity => format!(in alloc; "rs01: header: parity\n"),
        Fault::LastBytes => format!(in alloc; "rs01: header: last bytes\n"),
        Fault::Size(have, want) => format!(in alloc;
            "rs01: the file has {have} bytes, {want} are expected\n"
        ),
        Fault::Body(have, want) => body_text(alloc, have, want),
        Fault::ReadFault => format!(in alloc; "rs01: reading a file failed\n"),
        Fault::WriteFault => format!(in alloc; "rs01: writing a file failed\n"),
        Fault::NoDrive => format!(in alloc; "rs01: no drive\n"),
        Fault::Failed(drive) => format!(in alloc; "rs01: drive {drive}: size failed\n"),
        Fault::Differ(first, other) => format!(in alloc;
            "rs01: drives differ: {first} and {other} sectors\n"
        ),
        Fault::DriveSize(sectors) => format!(in alloc; "rs01: the medium has {sectors} sectors\n"),
        Fault::OutOfMemory => format!(in alloc; "rs01: memory ran out\n"),
    }
}

// The line of a digest that isn't the recorded one.
#[tactic(auto, unfolding(crate::specs::Faults::fault_line))]
fn body_text(alloc: Global, have: [u8; 16], want: [u8; 16]) -> Result<String, AllocError>
    ensures { IfOk result (λ text. string_bytes text ≡ fault_line (Fault.Body have want)) }
{
    let have = hex::encode(alloc, have)?;
    let want = hex::encode(alloc, want)?;
    format!(in alloc; "rs01: body md5 {have}, recorded {want}\n")
}
