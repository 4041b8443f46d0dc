//! A gate at which two workers meet, and a drive that waits for a worker.
ghost use Rattle.std.specs.Prelude.{◌≡◌};

use crate::script_drive::ScriptDrive;
use rs01_outside::{Drive, Failed, Gate};
use std::sync::Arc;
use std::sync::atomic::{AtomicU64, Ordering};

// So many looks at a word end each wait.
const TURNS: u64 = 1_000_000_000;

/// A gate that holds the first worker until a worker of another number has entered, at most
/// 1,000,000,000 looks long. A worker counts as entered from the start of its call. So a test can
/// tell that two workers were at work at once.
///
/// No clause can say what threads did to it: its words may change at any time.
#[derive(Drop)]
pub struct MeetGate {
    // The number of the first worker, and one more, or 0 while nobody has entered.
    first: AtomicU64,
    // 1 once a worker of another number than the first one's has entered.
    second: AtomicU64,
    // 1 once a worker other than worker 0 has entered.
    beside: AtomicU64,
    // Whether the first worker was held until another one entered.
    met: AtomicU64,
    // How the first wait of a drive ended: 1 by an entry, and 2 by its limit.
    waited: AtomicU64,
}

impl MeetGate {
    /// A gate that nobody has entered.
    pub fn new() -> MeetGate {
        MeetGate {
            first: AtomicU64::new(0),
            second: AtomicU64::new(0),
            beside: AtomicU64::new(0),
            met: AtomicU64::new(0),
            waited: AtomicU64::new(0),
        }
    }

    /// Whether the first worker was held until a worker of another number entered, and not until the
    /// limit.
    pub fn met(&self) -> bool {
        self.met.load(Ordering::SeqCst) == 1
    }

    /// Whether the wait of a drive on this gate ended by the entry of a worker other than worker 0,
    /// and not by its limit. The first wait decides.
    pub fn waited(&self) -> bool {
        self.waited.load(Ordering::SeqCst) == 1
    }

    // Waits for a worker other than worker 0.
    fn wait_beside(&self) {
        let end = if becomes_one(&self.beside) { 1 } else { 2 };
        let _ = self
            .waited
            .compare_exchange(0, end, Ordering::SeqCst, Ordering::SeqCst);
    }
}

impl Gate for MeetGate {
    fn enter(&self, worker: u32, _slot: u32) {
        let name = worker as u64 + 1;
        if worker != 0 {
            self.beside.store(1, Ordering::SeqCst);
        }
        match self
            .first
            .compare_exchange(0, name, Ordering::SeqCst, Ordering::SeqCst)
        {
            Ok(_) => {
                if becomes_one(&self.second) {
                    self.met.store(1, Ordering::SeqCst);
                }
            }
            Err(first) => {
                if first != name {
                    self.second.store(1, Ordering::SeqCst);
                }
            }
        }
    }
}

// Looks at a word until it is 1. False where it isn't at the limit.
fn becomes_one(word: &AtomicU64) -> bool {
    for _ in 0..TURNS {
        if word.load(Ordering::SeqCst) == 1 {
            return true;
        }
    }
    false
}

/// A drive that answers as another one, but whose answer for one sector waits until a worker other
/// than worker 0 has entered a gate, at most 1,000,000,000 looks long.
#[derive(Drop)]
pub struct MeetDrive {
    inner: ScriptDrive,
    gate: Arc<MeetGate>,
    sector: u32,
}

impl MeetDrive {
    ghost use Rattle.rs01_fakes.specs.Meeting.{meeting_state, waits_at};
    ghost use Rattle.rs01_fakes.specs.ScriptDrive.{drive_state};

    /// The drive that answers as `inner`, and waits at this sector.
    pub fn new(inner: ScriptDrive, gate: Arc<MeetGate>, sector: u32) -> MeetDrive
        ensures state { meeting_state result ≡ drive_state inner }
        ensures sector { waits_at result ≡ sector }
    {
        MeetDrive {
            inner,
            gate,
            sector,
        }
    }
}

impl Drive for MeetDrive {
    ghost use Rattle.rs01_fakes.specs.Meeting.{meeting_state};

    ghost state = { meeting_state };

    fn sectors(&mut self) -> Result<u32, Failed> {
        self.inner.sectors()
    }

    fn read(&mut self, sector: u32, into: &mut [u8; 2048]) -> Result<(), Failed> {
        if sector == self.sector {
            self.gate.wait_beside();
        }
        self.inner.read(sector, into)
    }

    fn asked_at(&self, i: u64) -> Option<u32> {
        self.inner.asked_at(i)
    }

    fn faults(&self) -> u64 {
        self.inner.faults()
    }
}
