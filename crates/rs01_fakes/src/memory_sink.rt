//! Output in memory.
ghost use Rattle.std.specs.Prelude.{◌≡◌, ◌≤◌, [], is_err};
ghost use Rattle.rs01_outside.specs.SinkState.{Puts};
ghost use Rattle.rs01_fakes.specs.Marks.{mark_at, no_mark};

use crate::marks::{self, Mark};
use rs01_outside::{Failed, Sink};
use std::alloc::Global;

/// Output in memory, which tells what it took.
///
/// A `put` fails where it was marked to, and where it had to grow and found no memory. A failed
/// `put` takes none of its bytes.
#[derive(Drop)]
pub struct MemorySink {
    bytes: Vec<u8>,
    puts: Mark,
    faults: u64,
}

impl MemorySink {
    ghost use Rattle.rs01_fakes.specs.MemorySink.{puts_of, room_of, sink_state, taken_of};

    /// A sink that took nothing, with no mark. It keeps the allocator for later growths.
    pub fn new(alloc: Global) -> MemorySink
        ensures taken { taken_of result ≡ [] }
        ensures puts { puts_of result ≡ no_mark }
        ensures faults { (sink_state result).faults ≡ 0 }
    {
        MemorySink {
            bytes: Vec::new(alloc),
            puts: Mark::new(),
            faults: 0,
        }
    }

    /// All bytes that it took, first to last.
    pub fn bytes(&self) -> &[u8]
        ensures { result.now ≡ taken_of self.now }
    {
        self.bytes.as_slice()
    }

    /// Makes the `put` with this number fail, counted from 0. One number is marked at a time.
    pub fn fail_put(&mut self, call: u64)
        ensures puts { puts_of self.new ≡ mark_at (puts_of self.old) call }
        ensures state { sink_state self.new ≡ sink_state self.old }
        ensures room { room_of self.new ≡ room_of self.old }
    {
        self.puts.set(call);
    }
}

impl Sink for MemorySink {
    ghost use Rattle.rs01_fakes.specs.MemorySink.{PutsOrNot, room_of, sink_state};

    ghost state = { sink_state };

    fn put(&mut self, bytes: &[u8]) -> Result<(), Failed>
        ensures puts { Puts (sink_state self.old) (sink_state self.new) bytes.now (is_err result) }
        ensures all { PutsOrNot bytes.now self.old self.new (is_err result) }
        ensures room { room_of self.old ≤ room_of self.new }
    {
        if self.puts.next() {
            return Err(marks::fail(&mut self.faults));
        }
        match self.bytes.extend_from_slice(bytes) {
            Ok(()) => Ok(()),
            Err(_) => Err(marks::fail(&mut self.faults)),
        }
    }

    fn faults(&self) -> u64 {
        self.faults
    }
}
