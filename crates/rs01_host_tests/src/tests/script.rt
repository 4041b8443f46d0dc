//! Calls of desks and changes of files by others, written as lines of text.
//!
//! A line has a call, what it should answer, a name and what else the call takes. The name `it` is
//! one that is handed in. A call answers `fault`, a number, or else `done`.
use rs01_host::FileDesk;
use rs01_outside::{Desk, Failed};
use std::io::{Error, ErrorKind};
use std::os::unix::fs::symlink;
use std::str::SplitWhitespace;
use std::{fs, io};

// What a call answers: the length of a file, how many bytes were read, or how often calls failed. The
// other calls give none, and so do one on a name that isn't there and a read that gave other bytes.
type Answer = Result<Option<u64>, Failed>;

#[derive(Drop)]
struct Line<'a> {
    call: &'a str,
    want: &'a str,
    name: &'a str,
    other: &'a str,
    bytes: &'a str,
}

// The next word, or an empty one.
fn next_word<'a>(words: &mut SplitWhitespace<'a>) -> &'a str {
    words.next().unwrap_or("")
}

fn parts<'a>(line: &'a str, it: &'a str) -> Line<'a> {
    let mut words = line.split_whitespace();
    let call = next_word(&mut words);
    let want = next_word(&mut words);
    let name = next_word(&mut words);
    let other = next_word(&mut words);
    let bytes = next_word(&mut words);
    Line {
        call,
        want,
        name: if name == "it" { it } else { name },
        other,
        bytes,
    }
}

// The number that a word is.
fn number(word: &str) -> Option<u64> {
    u64::from_str_radix(word, 10).ok()
}

// Whether a word stands for an answer.
fn is_wanted(want: &str, answer: Answer) -> bool {
    match answer {
        Err(Failed) => want == "fault",
        Ok(None) => want == "done",
        Ok(count) => number(want) == count,
    }
}

fn without_number(outcome: Result<(), Failed>) -> Answer {
    match outcome {
        Ok(()) => Ok(None),
        Err(Failed) => Err(Failed),
    }
}

// Reads up to four bytes, where dashes stand before.
fn read<D: Desk>(desk: &mut D, name: &str, at: u64, want: &[u8]) -> Answer {
    let mut buffer = [b'-'; 4];
    let count = desk.read_at(name, at, &mut buffer)?;
    if &buffer[..] == want {
        Ok(Some(count as u64))
    } else {
        Ok(None)
    }
}

// Asks a desk, where the line does that.
fn asked<D: Desk>(desk: &mut D, line: &Line) -> Option<Answer> {
    let at = number(line.other).unwrap_or(0);
    match line.call {
        "size" => Some(desk.size(line.name)),
        "read" => Some(read(desk, line.name, at, line.bytes.as_bytes())),
        "read_faults" => Some(Ok(Some(desk.read_faults()))),
        "write_faults" => Some(Ok(Some(desk.write_faults()))),
        _ => None,
    }
}

// Has a desk change a file, where the line does that.
fn changed<D: Desk>(desk: &mut D, line: &Line) -> Option<Answer> {
    let at = number(line.other).unwrap_or(0);
    let outcome = match line.call {
        "write" => desk.write_at(line.name, at, line.bytes.as_bytes()),
        "make" => desk.make(line.name),
        "cut" => desk.cut(line.name, at),
        _ => return None,
    };
    Some(without_number(outcome))
}

// An empty folder of this name, which may have been left by an earlier run.
fn fresh(rt: &HostRuntime, folder: &str) -> io::Result<()> {
    let _ = fs::remove_dir_all(rt, folder);
    fs::create_dir(rt, folder)
}

// An error where a file doesn't hold these bytes.
fn holds(rt: &HostRuntime, name: &str, want: &[u8]) -> io::Result<()> {
    if fs::read(rt, name)?.as_slice() == want {
        return Ok(());
    }
    Err(Error::from(ErrorKind::InvalidData))
}

// Changes files as others do, or looks what a file holds.
fn by_others(rt: &HostRuntime, line: &Line) -> io::Result<()> {
    match line.call {
        "fresh" => fresh(rt, line.name),
        "folder" => fs::create_dir(rt, line.name),
        "file" => fs::write(rt, line.name, line.other),
        "hard" => fs::hard_link(rt, line.name, line.other),
        "soft" => symlink(rt, line.name, line.other),
        "rename" => fs::rename(rt, line.name, line.other),
        "holds" => holds(rt, line.name, line.other.as_bytes()),
        _ => Err(Error::from(ErrorKind::Unsupported)),
    }
}

// Whether the call of a line answers as it should.
fn is_right<D: Desk>(rt: &HostRuntime, desk: &mut D, line: &Line) -> bool {
    if let Some(answer) = asked(desk, line) {
        return is_wanted(line.want, answer);
    }
    if let Some(answer) = changed(desk, line) {
        return is_wanted(line.want, answer);
    }
    by_others(rt, line).is_ok() && line.want == "done"
}

// Makes the calls of a text, up to the first that answers otherwise than it should, whose line is
// printed.
pub(crate) fn all_right<D: Desk>(rt: &HostRuntime, desk: &mut D, it: &str, text: &str) -> bool {
    for line in text.lines() {
        if !is_right(rt, desk, &parts(line, it)) {
            let _ = rt.println(line);
            return false;
        }
    }
    true
}

fn right_once(rt: &HostRuntime, it: &str, text: &str) -> bool {
    all_right(rt, &mut FileDesk::new(rt), it, text)
}

// The same for each of these names, one in a line, on a new desk each, which goes afterwards.
pub(crate) fn right_anew(rt: &HostRuntime, names: &str, text: &str) -> bool {
    for it in names.lines() {
        if !right_once(rt, it, text) {
            return false;
        }
    }
    true
}
