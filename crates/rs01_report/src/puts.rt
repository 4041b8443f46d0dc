//! Putting reports and fault lines.

ghost use Rattle.std.specs.Prelude.{◌≡◌, ℕ, IfOk, List, string_bytes};
ghost use Rattle.rs01_report.specs.Faults.{fault_line};
ghost use Rattle.rs01_report.specs.Puts.{PutsText};
ghost use Rattle.rs01_report.specs.Texts.{create_lines, demo_lines, fix_lines, read_lines, scan_lines, verify_lines};

use crate::faults::Fault;
use crate::reports::{CreateReport, DemoReport, FixReport, ReadReport, ScanReport, VerifyReport};
use crate::texts::{
    create_text, demo_text, fault_text, fix_text, read_text, scan_text, verify_text,
};
use rs01_outside::{Failed, Sink};
use std::alloc::{AllocError, Global};

/// Why a report wasn't put whole.
#[derive(Clone, Copy, PartialEq, Eq, Debug)]
pub enum PutRefusal {
    /// The sink failed. A prefix of the bytes was put.
    SinkFault,
    /// There was no memory. Nothing was put.
    OutOfMemory,
}

impl From<AllocError> for PutRefusal {
    ghost use Rattle.rs01_report.specs.declared.puts.PutRefusal.{PutRefusal};

    ghost from_gives = { λ _ made. made ≡ PutRefusal.OutOfMemory };

    fn from(_: AllocError) -> PutRefusal {
        PutRefusal::OutOfMemory
    }
}

impl From<Failed> for PutRefusal {
    ghost use Rattle.rs01_report.specs.declared.puts.PutRefusal.{PutRefusal};

    ghost from_gives = { λ _ made. made ≡ PutRefusal.SinkFault };

    fn from(_: Failed) -> PutRefusal {
        PutRefusal::SinkFault
    }
}

// Puts a text that could be made.
fn put_made<S: Sink>(made: Result<String, AllocError>, out: &mut S) -> Result<(), PutRefusal>
    ensures { (bytes : List ℕ) → IfOk made (λ text. string_bytes text ≡ bytes)
        → PutsText (S.state out.old) (S.state out.new) bytes result }
{
    let text = made?;
    out.put(text.as_bytes())?;
    Ok(())
}

/// Puts the report of `create`, of the error correction file under `name`.
///
/// After `SinkFault` a prefix of it was put, and after `OutOfMemory` nothing.
pub fn put_create<S: Sink>(
    alloc: Global,
    report: &CreateReport,
    name: &str,
    out: &mut S,
) -> Result<(), PutRefusal>
    ensures { PutsText (S.state out.old) (S.state out.new)
        (create_lines report.now name.now) result }
{
    put_made(create_text(alloc, report, name), out)
}

/// Puts the report of `fix`, of the image under `name`.
///
/// After `SinkFault` a prefix of it was put, and after `OutOfMemory` nothing.
pub fn put_fix<S: Sink>(
    alloc: Global,
    report: &FixReport,
    name: &str,
    out: &mut S,
) -> Result<(), PutRefusal>
    ensures { PutsText (S.state out.old) (S.state out.new) (fix_lines report.now name.now) result }
{
    put_made(fix_text(alloc, report, name), out)
}

/// Puts the report of `verify`, of the image under `name`.
///
/// After `SinkFault` a prefix of it was put, and after `OutOfMemory` nothing.
pub fn put_verify<S: Sink>(
    alloc: Global,
    report: &VerifyReport,
    name: &str,
    out: &mut S,
) -> Result<(), PutRefusal>
    ensures { PutsText (S.state out.old) (S.state out.new)
        (verify_lines report.now name.now) result }
{
    put_made(verify_text(alloc, report, name), out)
}

/// Puts the report of `scan`.
///
/// After `SinkFault` a prefix of it was put, and after `OutOfMemory` nothing.
pub fn put_scan<S: Sink>(alloc: Global, report: &ScanReport, out: &mut S) -> Result<(), PutRefusal>
    ensures { PutsText (S.state out.old) (S.state out.new) (scan_lines report.now) result }
{
    put_made(scan_text(alloc, report), out)
}

/// Puts the report of `read`, of the image under `name`.
///
/// After `SinkFault` a prefix of it was put, and after `OutOfMemory` nothing.
pub fn put_read<S: Sink>(
    alloc: Global,
    report: &ReadReport,
    name: &str,
    out: &mut S,
) -> Result<(), PutRefusal>
    ensures { PutsText (S.state out.old) (S.state out.new) (read_lines report.now name.now) result }
{
    put_made(read_text(alloc, report, name), out)
}

/// Puts the report of `demo`.
///
/// After `SinkFault` a prefix of it was put, and after `OutOfMemory` nothing.
pub fn put_demo<S: Sink>(alloc: Global, report: &DemoReport, out: &mut S) -> Result<(), PutRefusal>
    ensures { PutsText (S.state out.old) (S.state out.new) (demo_lines report.now) result }
{
    put_made(demo_text(alloc, report), out)
}

/// Puts the line of a fault.
///
/// After `SinkFault` a prefix of it was put, and after `OutOfMemory` nothing.
pub fn put_fault<S: Sink>(alloc: Global, fault: &Fault, out: &mut S) -> Result<(), PutRefusal>
    ensures { PutsText (S.state out.old) (S.state out.new) (fault_line fault.now) result }
{
    put_made(fault_text(alloc, fault), out)
}
