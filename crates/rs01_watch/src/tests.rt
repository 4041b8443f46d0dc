//! Calls that are handed on and told of.
use super::*;
use rs01_fakes::{MemoryDesk, MemorySink};
use rs01_outside::{Desk, Gate, Sink};
use std::cell::Cell;
use std::process::Abort;
use std::rc::Rc;
use std::test::Fail;

// Counts what it is told.
#[derive(Drop)]
struct Counter {
    bytes: Rc<Cell<u64>>,
}

impl Observer for Counter {
    fn sized(&self, _name: &str, len: u64) {
        self.bytes.set(self.bytes.get().saturating_add(len));
    }

    fn read(&self, _name: &str, count: u64) {
        self.bytes
            .set(self.bytes.get().saturating_add(count.saturating_mul(100)));
    }

    fn wrote(&self, _name: &str, count: u64) {
        self.bytes.set(self.bytes.get().saturating_add(count.saturating_mul(10000)));
    }

    fn counted(&self, _sectors: u32) {}

    fn asked(&self, _sector: u32, _is_given: bool) {}

    fn putting(&self, bytes: &[u8]) {
        self.bytes.set(bytes.len() as u64);
    }
}

#[test]
fn told(rt: HostRuntime) -> Result<(), Fail> {
    let bytes = Rc::new(rt.alloc(), Cell::new(0u64))?;
    let counter = Counter {
        bytes: bytes.clone()?,
    };
    let mut desk = WatchedDesk::new(MemoryDesk::new(rt.alloc()), counter);
    assert!(rt; desk.write_at("a", 0, b"abc").is_ok());
    assert_eq!(rt; desk.size("a"), Ok(Some(3)));
    let mut into = [0u8; 2];
    assert_eq!(rt; desk.read_at("a", 2, &mut into), Ok(1));
    assert_eq!(rt; (into[0], bytes.get()), (b'c', 30103));
    assert_eq!(rt; (desk.read_faults(), desk.write_faults()), (0, 0));
    let counter = Counter {
        bytes: bytes.clone()?,
    };
    let mut out = WatchedSink::new(MemorySink::new(rt.alloc()), counter);
    assert!(rt; out.put(b"report").is_ok());
    assert_eq!(rt; (bytes.get(), out.faults()), (6, 0));
    Ok(())
}

#[test]
fn entries_are_counted(rt: HostRuntime) {
    let gate = CountingGate::new();
    assert_eq!(rt; gate.entered(), 0);
    for (worker, slot, entered) in [(0, 0, 1), (3, 63, 2), (0, 0, 3)] {
        gate.enter(worker, slot);
        assert_eq!(rt; gate.entered(), entered);
    }
}
