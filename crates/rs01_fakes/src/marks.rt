//! Which calls of an object in memory are marked to fail.
ghost use Rattle.std.specs.Prelude.{◌≡◌, ◌≤◌};
ghost use Rattle.rs01_fakes.specs.Marks.{is_at, one_more};

use rs01_outside::Failed;

// The number of the next call, and that of the call that is to fail. Numbers stand still at the
// last value of a u64.
#[derive(Clone, Copy)]
pub(crate) struct Mark {
    calls: u64,
    failing: Option<u64>,
}

// The marks of a desk: one over all calls, and one over the writes.
#[derive(Clone, Copy)]
pub(crate) struct Marks {
    pub(crate) calls: Mark,
    pub(crate) writes: Mark,
    // How many of its bytes a marked write puts in place.
    pub(crate) kept: Option<u64>,
}

// Counts a call that failed.
pub(crate) fn fail(faults: &mut u64) -> Failed
    ensures counted { faults.new ≡ one_more faults.old }
    ensures later { faults.old ≤ faults.new }
{
    *faults = faults.saturating_add(1);
    Failed
}

// Whether a mark is at this number.
fn is_at(mark: Option<u64>, number: u64) -> bool
    ensures { result ≡ is_at mark number }
{
    match mark {
        Some(mark) => mark == number,
        None => false,
    }
}

impl Mark {
    ghost use Rattle.rs01_fakes.specs.Marks.{after, is_marked, mark_at, no_mark};

    pub(crate) fn new() -> Mark
        ensures { result ≡ no_mark }
    {
        Mark {
            calls: 0,
            failing: None,
        }
    }

    pub(crate) fn set(&mut self, call: u64)
        ensures { self.new ≡ mark_at self.old call }
    {
        self.failing = Some(call);
    }

    // Counts a call, and says whether it is marked.
    pub(crate) fn next(&mut self) -> bool
        ensures marked { result ≡ is_marked self.old }
        ensures counted { self.new ≡ after self.old }
    {
        let marked = is_at(self.failing, self.calls);
        self.calls = self.calls.saturating_add(1);
        marked
    }
}

impl Marks {
    ghost use Rattle.rs01_fakes.specs.Marks.{after_call, after_write, call_is_marked, unmarked, write_is_marked};

    pub(crate) fn new() -> Marks
        ensures { result ≡ unmarked }
    {
        Marks {
            calls: Mark::new(),
            writes: Mark::new(),
            kept: None,
        }
    }

    // Counts a call that is no write, and says whether it is marked.
    pub(crate) fn call(&mut self) -> bool
        ensures marked { result ≡ call_is_marked self.old }
        ensures counted { self.new ≡ after_call self.old }
    {
        self.calls.next()
    }

    // Counts a write, and says whether it is marked.
    pub(crate) fn write(&mut self) -> bool
        ensures marked { result ≡ write_is_marked self.old }
        ensures counted { self.new ≡ after_write self.old }
    {
        let call = self.calls.next();
        let write = self.writes.next();
        call || write
    }
}
