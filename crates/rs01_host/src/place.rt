//! An open file from a place on.
ghost use Rattle.std.specs.Prelude.{◌≡◌};

use std::fs::File;
use std::io::{self, Read, Write};
use std::os::unix::fs::FileExt;

// A place of an open file. What is read or written there moves it on, and each takes one call of
// the system.
#[derive(Drop)]
pub(crate) struct Place<'a> {
    file: &'a File,
    at: u64,
}

impl<'a> Place<'a> {
    pub(crate) fn new(file: &'a File, at: u64) -> Place<'a> {
        Place { file, at }
    }
}

// Moves a place on by what was read or written there, and hands on what the system answered.
fn moved(at: &mut u64, outcome: io::Result<usize>) -> io::Result<usize>
    ensures { result ≡ outcome }
{
    match outcome {
        Ok(count) => {
            *at = at.saturating_add(count as u64);
            Ok(count)
        }
        Err(error) => Err(error),
    }
}

impl Read for Place<'_> {
    fn read(&mut self, buf: &mut [u8]) -> io::Result<usize> {
        let outcome = self.file.read_at(buf, self.at);
        moved(&mut self.at, outcome)
    }
}

impl Write for Place<'_> {
    fn write(&mut self, buf: &[u8]) -> io::Result<usize> {
        let outcome = self.file.write_at(buf, self.at);
        moved(&mut self.at, outcome)
    }

    fn flush(&mut self) -> io::Result<()> {
        Ok(())
    }
}
