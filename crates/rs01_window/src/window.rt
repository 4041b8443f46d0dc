//! The window.

ghost use Rattle.std.specs.Prelude.{
  ◌≡◌,
  ◌<◌,
  IfOk,
  IsSome,
  Some,
  replicate,
  slice_get,
  length,
};
ghost use Rattle.std.specs.Option.{option_copied};
ghost use Rattle.rs01_layers.specs.declared.input.LayerInput.{LayerInput};
ghost use Rattle.rs01_window.specs.Machine.{
  Machine,
  fresh,
  after,
  look,
  with_given,
  of_post,
  of_take,
  IsIdle,
  IsWaiting,
  IsHolding,
  IsOver,
  MayGive,
  KeepsToTask,
  IsValueIn,
  input_of,
  given_in,
  given_for,
};
ghost use Rattle.rs01_window.specs.declared.status.Status.TheVariants.{Idle, Waits, Holds};
ghost use Rattle.rs01_window.specs.declared.events.Event.TheVariants.{Post, Close, Draw, Take, Give};

use crate::events::{CoreGiven, Event, PostRefusal, PostRefused, Seen, StepRefused, TakeSeen};
use crate::status::Status;
use rs01_layers::{LayerInput, LayerTask};
use std::alloc::{AllocError, Global};
use std::marker::{Model, PhantomData};

/// A window of slots for inputs, and its workers. Slots and tickets are numbered from 0, the slots
/// in the order of posting. A worker that draws a ticket gets the input in the slot with the
/// ticket's number. Only `new` takes memory.
#[derive(Drop)]
pub struct Window<T: LayerTask> {
    slots: u32,
    // An input never leaves its slot: who holds its ticket is lent it.
    posted: Vec<LayerInput>,
    closed: bool,
    next: u64,
    workers: Vec<Status>,
    // What was given for each posted input, or none yet.
    results: Vec<Option<CoreGiven>>,
    task: PhantomData<T>,
}

impl<T: LayerTask> Model for Window<T> {
    ghost use Rattle.std.specs.Prelude.{vec_capacity};
    ghost use Rattle.rs01_window.specs.Machine.{Machine, machine_of};
    ghost use Rattle.rs01_window.specs.Soundness.{IsKept};

    ghost Value = { Machine };

    ghost view = { λ w.
        machine_of w.slots w.posted.items w.closed w.next w.workers.items w.results.items };

    ghost invariant = { λ w.
        IsKept T.value
        (machine_of w.slots w.posted.items w.closed w.next w.workers.items w.results.items)
        (vec_capacity w.posted) (vec_capacity w.results) };
}

impl<T: LayerTask> Window<T> {
    /// A window that is open, with nothing posted, and all workers idle. It has at least one slot
    /// and one worker. It may lack memory.
    pub fn new(alloc: Global, slots: u32, workers: u32) -> Result<Window<T>, AllocError>
        requires slots { 0 < slots }
        requires workers { 0 < workers }
        ensures { IfOk result (λ window. window ≡ fresh slots workers) }
    {
        let posted = Vec::with_capacity(alloc, slots as usize)?;
        let results = Vec::with_capacity(alloc, slots as usize)?;
        let workers = all_idle(alloc, workers)?;
        Ok(Window {
            slots,
            posted,
            closed: false,
            next: 0,
            workers,
            results,
            task: PhantomData,
        })
    }

    /// The slot of the input, which is posted where the window isn't closed and has a slot left.
    /// Else the input is handed back, and the window stays as it was.
    pub fn post(&mut self, input: LayerInput) -> Result<u32, PostRefused>
        ensures state { self.new ≡ (after self.old (Post input)).0 }
        ensures answer { of_post result ≡ (after self.old (Post input)).1 }
    {
        if self.closed {
            return Err(PostRefused {
                why: PostRefusal::Closed,
                input,
            });
        }
        if self.posted.len() >= self.slots as usize {
            return Err(PostRefused {
                why: PostRefusal::Full,
                input,
            });
        }
        let slot = self.posted.len() as u32;
        let Ok(()) = self.posted.push(input) else {
            unreachable!()
        };
        let Ok(()) = self.results.push(None) else {
            unreachable!()
        };
        Ok(slot)
    }

    /// No more is posted from now on. Closing twice changes nothing.
    pub fn close(&mut self)
        ensures { self.new ≡ (after self.old Close).0 }
    {
        self.closed = true;
    }

    /// The next ticket, for a worker that has none and didn't see the end.
    pub fn draw(&mut self, worker: u32) -> u64
        requires { IsIdle self.old worker }
        ensures state { self.new ≡ (after self.old (Draw worker)).0 }
        ensures ticket { result ≡ self.old.next }
    {
        let ticket = self.next;
        self.workers[worker as usize] = Status::Waits(ticket);
        self.next = ticket + 1;
        ticket
    }

    /// Whether the input of the worker's ticket is posted. If so the worker has it from now on, and
    /// `taken` lends it. The worker has a ticket and not its input.
    pub fn take(&mut self, worker: u32) -> TakeSeen
        requires { IsWaiting self.old worker }
        ensures state { self.new ≡ (after self.old (Take worker)).0 }
        ensures answer { of_take result ≡ (after self.old (Take worker)).1 }
    {
        let Some(Status::Waits(ticket)) = self.status(worker) else {
            unreachable!()
        };
        self.take_at(worker, ticket)
    }

    // The same for a worker with this ticket.
    fn take_at(&mut self, worker: u32, ticket: u64) -> TakeSeen
        requires { slice_get self.old.workers worker ≡ Some (Waits ticket) }
        ensures state { self.new ≡ (look self.old worker ticket).0 }
        ensures answer { of_take result ≡ (look self.old worker ticket).1 }
    {
        if ticket < self.posted.len() as u64 {
            self.workers[worker as usize] = Status::Holds(ticket);
            TakeSeen::Got
        } else if self.closed {
            self.workers[worker as usize] = Status::Over;
            TakeSeen::Over
        } else {
            TakeSeen::NotYet
        }
    }

    /// The input that the worker has, which is the one posted at its ticket, or `None` exactly
    /// where it has none.
    pub fn taken(&self, worker: u32) -> Option<&LayerInput>
        ensures taken { option_copied result ≡ input_of self.now worker }
        ensures some { IsHolding self.now worker → IsSome result }
    {
        match self.status(worker) {
            Some(Status::Holds(ticket)) => Some(&self.posted[ticket as usize]),
            _ => None,
        }
    }

    /// What the worker gives comes to its ticket's slot, and the worker is idle. It has an input,
    /// and what it gives is the task's value of it, or nothing.
    pub fn give(&mut self, worker: u32, given: CoreGiven)
        requires holds { IsHolding self.old worker }
        requires value { MayGive T.value self.old worker given }
        ensures { self.new ≡ (after self.old (Give worker given)).0 }
    {
        let Some(Status::Holds(ticket)) = self.status(worker) else {
            unreachable!()
        };
        self.give_at(worker, ticket, given);
    }

    // The same for a worker with the input of this ticket.
    fn give_at(&mut self, worker: u32, ticket: u64, given: CoreGiven)
        requires holds { slice_get self.old.workers worker ≡ Some (Holds ticket) }
        requires value { MayGive T.value self.old worker given }
        ensures { self.new ≡ with_given self.old worker given ticket }
    {
        self.workers[worker as usize] = Status::Idle;
        self.results[ticket as usize] = Some(given);
    }

    /// What was given for a slot, or `None` exactly where nothing was. It is the task's value of
    /// the slot's input, or `Left`. Where the window is closed and each worker saw its end,
    /// something was given for each slot that is posted.
    pub fn result(&self, slot: u32) -> Option<&CoreGiven>
        ensures given { option_copied result ≡ given_for self.now slot }
        ensures value { IsValueIn T.value self.now slot }
        ensures all { IsOver self.now → slot < length self.now.posted → IsSome result }
    {
        given_at(&self.results, slot as usize)
    }

    // What a worker is about, or `None` where there is no worker with that number.
    fn status(&self, worker: u32) -> Option<Status>
        ensures { result ≡ slice_get self.now.workers worker }
    {
        if (worker as usize) < self.workers.len() {
            Some(self.workers[worker as usize])
        } else {
            None
        }
    }

    /// Does an event where its condition holds, as far as a program can test it: an event of a
    /// worker that can't do it now is illegal. That what is given is the task's value of the input
    /// is a condition of this call. After a refusal the window is as it was.
    pub fn step(&mut self, event: Event) -> Result<Seen, StepRefused>
        requires { KeepsToTask T.value self.old event }
        ensures state { self.new ≡ (after self.old event).0 }
        ensures answer { result ≡ (after self.old event).1 }
    {
        match event {
            Event::Post(input) => match self.post(input) {
                Ok(slot) => Ok(Seen::Slot(slot)),
                Err(refused) => Err(StepRefused::Post(refused)),
            },
            Event::Close => {
                self.close();
                Ok(Seen::Closed)
            }
            Event::Draw(worker) => match self.status(worker) {
                Some(Status::Idle) => Ok(Seen::Ticket(self.draw(worker))),
                _ => Err(StepRefused::Illegal(Event::Draw(worker))),
            },
            Event::Take(worker) => match self.status(worker) {
                Some(Status::Waits(_)) => Ok(Seen::Took(self.take(worker))),
                _ => Err(StepRefused::Illegal(Event::Take(worker))),
            },
            Event::Give(worker, given) => match self.status(worker) {
                Some(Status::Holds(_)) => {
                    self.give(worker, given);
                    Ok(Seen::Given)
                }
                _ => Err(StepRefused::Illegal(Event::Give(worker, given))),
            },
        }
    }
}

// So many workers without a ticket.
fn all_idle(alloc: Global, workers: u32) -> Result<Vec<Status>, AllocError>
    ensures { IfOk result (λ all. all.items ≡ replicate workers Idle) }
{
    vec![in alloc; Status::Idle; workers as usize]
}

// What was given for a slot.
fn given_at(results: &[Option<CoreGiven>], slot: usize) -> Option<&CoreGiven>
    ensures { option_copied result ≡ given_in (slice_get results.now slot) }
{
    if slot < results.len() {
        results[slot].as_ref()
    } else {
        None
    }
}
