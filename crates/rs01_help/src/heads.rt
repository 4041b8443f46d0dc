//! A sink that keeps the first bytes of each line.
ghost use Rattle.std.specs.Prelude.{◌≡◌, ◌≤◌, [], is_err, length};
ghost use Rattle.rs01_outside.specs.SinkState.{Puts};
ghost use Rattle.rs01_help.specs.Heads.{is_kept, next_column, with_byte, with_bytes, with_kept};

use rs01_outside::{Failed, Sink};
use std::marker::Model;

// How many bytes are kept of all lines.
const WHOLE: usize = 2048;

// How many bytes are kept of a line, beside its end.
const LINE: usize = 96;

// Whether a byte is kept, by how many were kept of its line.
#[tactic(auto, unfolding(crate::specs::Heads::line_bound))]
fn is_kept(column: usize, byte: u8) -> bool
    ensures { result ≡ is_kept column byte }
{
    byte == b'\n' || column < LINE
}

#[tactic(auto, unfolding(crate::specs::Heads::line_bound))]
fn next_column(column: usize, byte: u8) -> usize
    ensures { result ≡ next_column column byte }
{
    if byte == b'\n' {
        0
    } else if column < LINE {
        column + 1
    } else {
        column
    }
}

// Bytes up to a bound, and how many stand behind the last newline. A contract sees both.
#[derive(Drop)]
struct Kept {
    bytes: [u8; WHOLE],
    used: usize,
    column: usize,
}

impl Model for Kept {
    ghost use Rattle.std.specs.Prelude.{◌≤◌, take};
    ghost use Rattle.rs01_help.specs.Heads.{Heads};

    ghost Value = { Heads };

    ghost view = { λ k. record { bytes = take k.used k.bytes; column = k.column } };

    ghost invariant = { λ k. k.used ≤ 2048 };
}

impl Kept {
    fn new() -> Kept
        ensures { result ≡ record { bytes = []; column = 0 } }
    {
        Kept {
            bytes: [0; WHOLE],
            used: 0,
            column: 0,
        }
    }

    // Adds a byte that is to be kept, where there is room.
    #[tactic(auto, unfolding(crate::specs::Heads::with_kept, crate::specs::Heads::whole_bound))]
    fn push(&mut self, kept: bool, byte: u8)
        ensures bytes { self.new.bytes ≡ with_kept kept byte self.old.bytes }
        ensures column { self.new.column ≡ self.old.column }
    {
        if kept && self.used < WHOLE {
            self.bytes[self.used] = byte;
            self.used += 1;
        }
    }

    #[tactic(auto, unfolding(crate::specs::Heads::with_byte))]
    fn note(&mut self, byte: u8)
        ensures { self.new ≡ with_byte self.old byte }
    {
        let column = self.column;
        self.push(is_kept(column, byte), byte);
        self.column = next_column(column, byte);
    }

    fn note_all(&mut self, bytes: &[u8])
        ensures { self.new ≡ with_bytes self.old bytes.now }
    {
        for byte in bytes {
            self.note(*byte);
        }
    }
}

/// A sink that hands all on to another, and keeps the first bytes of each line.
#[derive(Drop)]
pub struct Noted<S: Sink + Drop> {
    inner: S,
    kept: Kept,
}

impl<S: Sink + Drop> Noted<S> {
    /// A sink over this one, which has kept nothing yet.
    pub fn new(inner: S) -> Noted<S>
        ensures inner { result.inner ≡ inner }
        ensures kept { result.kept ≡ record { bytes = []; column = 0 } }
    {
        Noted {
            inner,
            kept: Kept::new(),
        }
    }

    /// The first bytes of the lines that were put: at most 96 of each line, and 2,048 in all.
    pub fn heads(&self) -> &[u8]
        ensures heads { result.now ≡ self.now.kept.bytes }
        ensures most { length result.now ≤ 2048 }
    {
        &self.kept.bytes[..self.kept.used]
    }
}

impl<S: Sink + Drop> Sink for Noted<S> {
    ghost state = { λ sink. S.state sink.inner };

    fn put(&mut self, bytes: &[u8]) -> Result<(), Failed>
        ensures puts { let state = S.state in
            Puts (state self.old.inner) (state self.new.inner) bytes.now (is_err result) }
        ensures kept { self.new.kept ≡ with_bytes self.old.kept bytes.now }
    {
        self.kept.note_all(bytes);
        self.inner.put(bytes)
    }

    fn faults(&self) -> u64 {
        self.inner.faults()
    }
}
