//! Putting what is told.
ghost use Rattle.std.specs.Prelude.{◌≡◌, ℕ, IfOk, List, string_bytes};
ghost use Rattle.rs01_report.specs.Puts.{PutsText};
ghost use Rattle.rs01_words.specs.Line.{texts};
ghost use Rattle.rs01_help.specs.Faulty.{fault_lines};
ghost use Rattle.rs01_help.specs.Hints.{hint_lines};
ghost use Rattle.rs01_help.specs.Pages.{help, usage_page};
ghost use Rattle.rs01_help.specs.Usage.{usage_line};

use crate::faulty::push_fault_lines;
use crate::hint::{Hint, Ran, push_hints};
use crate::pages::{push_help, push_usage_page};
use crate::usage::push_usage;
use rs01_outside::Sink;
use rs01_report::PutRefusal;
use rs01_words::Verb;
use std::alloc::{AllocError, Global};

// What stands before the commands.
const HEAD: &str = "\
dvdisaster_rs01: error correction files for the images of optical discs.
Its files are its own: they aren't dvdisaster's, and neither program can use
those of the other. Keep two copies of each, on other media than the disc.

dvdisaster_rs01 COMMAND WORD.. [--OPTION [VALUE]]..

";

// What stands behind them.
const TAIL: &str = "
IMAGE is a file such as disc.iso, ECC its error correction file, D a drive such
as /dev/sr0. A value is a word of its own, as in --parity 64, and a name that
begins with two dashes is written ./--name. A single dash isn't standard input,
and pipes aren't read. An image has less than 32 GiB, in sectors of 2048 bytes.
One that another program copied is as good: what it left where it could not
read is found by the recorded checksums. Without an ECC read keeps all that
stands in IMAGE, but for the marks of sectors that it couldn't read itself.

With 32 parity bytes ECC takes 15 % of IMAGE, which may then lose 14 % in one
row, or 5 % here and there; with high (64) it takes 34 %, for 33 % or 19 %. The
line 'fullest layer 96: 1 of 32' says that layer 96 has lost the most, 1 of the
32 sectors that it may lose: all of IMAGE can be restored. A layer that has lost
more waits for more to be read. fix that was broken off is simply run again.

At a terminal it is told how far the work has come, with a picture of IMAGE, and
what to do next; with RS01_QUIET set only the last. More stands in man dvdisaster_rs01, and in
docs/DISC.md beside the sources.

Status: 0 done, and nothing is lost or differs; 1 done, and it isn't so; 2 the
words aren't understood; 3 a file isn't there or can't be used; 4 reading or
writing a file failed; 5 no drive, or none that can be used; 6 the report could
not be put; 7 memory ran out; 8 a word isn't UTF-8.

While the disc is good:
    dvdisaster_rs01 read disc.iso --drive /dev/sr0
    dvdisaster_rs01 create disc.iso disc.ecc
Years later, from a disc with scratches:
    dvdisaster_rs01 read disc.iso disc.ecc --drive /dev/sr0
    dvdisaster_rs01 fix disc.iso disc.ecc
Whether an image is whole:
    dvdisaster_rs01 verify disc.iso disc.ecc
";

// What is told of the version.
const VERSION: &str = "dvdisaster_rs01 0.1\n";

// Puts a text that could be made.
fn put_made<S: Sink>(made: Result<String, AllocError>, out: &mut S) -> Result<(), PutRefusal>
    ensures { (bytes : List ℕ) → IfOk made (λ text. string_bytes text ≡ bytes)
        → PutsText (S.state out.old) (S.state out.new) bytes result }
{
    let text = made?;
    out.put(text.as_bytes())?;
    Ok(())
}

fn help_text(alloc: Global) -> Result<String, AllocError>
    ensures { IfOk result (λ text. string_bytes text ≡ help HEAD.now TAIL.now) }
{
    let mut text = String::new(alloc);
    push_help(&mut text, HEAD, TAIL)?;
    Ok(text)
}

/// Puts what the program is, all commands with their options, ranges and defaults, the statuses and
/// examples.
pub fn put_help<S: Sink>(alloc: Global, out: &mut S) -> Result<(), PutRefusal>
    ensures { PutsText (S.state out.old) (S.state out.new) (help HEAD.now TAIL.now) result }
{
    put_made(help_text(alloc), out)
}

fn page_text(alloc: Global, verb: Verb) -> Result<String, AllocError>
    ensures { IfOk result (λ text. string_bytes text ≡ usage_page verb) }
{
    let mut text = String::new(alloc);
    push_usage_page(&mut text, verb)?;
    Ok(text)
}

/// Puts how a command is called, what it does, and its words and options.
pub fn put_page<S: Sink>(alloc: Global, verb: Verb, out: &mut S) -> Result<(), PutRefusal>
    ensures { PutsText (S.state out.old) (S.state out.new) (usage_page verb) result }
{
    put_made(page_text(alloc, verb), out)
}

fn usage_text(alloc: Global, verb: Verb) -> Result<String, AllocError>
    ensures { IfOk result (λ text. string_bytes text ≡ usage_line verb) }
{
    let mut text = String::new(alloc);
    push_usage(&mut text, verb)?;
    Ok(text)
}

/// Puts how a command is called, in one line.
pub fn put_usage<S: Sink>(alloc: Global, verb: Verb, out: &mut S) -> Result<(), PutRefusal>
    ensures { PutsText (S.state out.old) (S.state out.new) (usage_line verb) result }
{
    put_made(usage_text(alloc, verb), out)
}

/// Puts the version.
pub fn put_version<S: Sink>(alloc: Global, out: &mut S) -> Result<(), PutRefusal>
    ensures { PutsText (S.state out.old) (S.state out.new) VERSION.now result }
{
    put_made(String::from_str(alloc, VERSION), out)
}

fn fault_text(alloc: Global, words: &[String]) -> Result<String, AllocError>
    ensures { IfOk result (λ text. string_bytes text ≡ fault_lines (texts words.now)) }
{
    let mut text = String::new(alloc);
    push_fault_lines(&mut text, words)?;
    Ok(text)
}

/// Puts the word that has a fault, as it was written, and how its command is called. Nothing where
/// the words have no fault.
pub fn put_fault_lines<S: Sink>(
    alloc: Global,
    words: &[String],
    out: &mut S,
) -> Result<(), PutRefusal>
    ensures { PutsText (S.state out.old) (S.state out.new) (fault_lines (texts words.now)) result }
{
    put_made(fault_text(alloc, words), out)
}

fn hint_text(alloc: Global, hints: &[Hint], ran: &Ran) -> Result<String, AllocError>
    ensures { let ran = ran.now in IfOk result (λ text. string_bytes text
        ≡ hint_lines hints.now ran.status ran.command.now ran.heads.now) }
{
    let mut text = String::new(alloc);
    push_hints(&mut text, hints, ran)?;
    Ok(text)
}

/// Puts whether every sector can be restored, where the run told how full the layers are, and the
/// first of these hints that fits.
pub fn put_hints<S: Sink>(
    alloc: Global,
    hints: &[Hint],
    ran: &Ran,
    out: &mut S,
) -> Result<(), PutRefusal>
    ensures { let ran = ran.now in PutsText (S.state out.old) (S.state out.new)
        (hint_lines hints.now ran.status ran.command.now ran.heads.now) result }
{
    put_made(hint_text(alloc, hints, ran), out)
}
