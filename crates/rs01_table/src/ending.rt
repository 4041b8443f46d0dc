//! How a window ends.

ghost use Rattle.std.specs.Prelude.{
  ◌≡◌,
  ◌+◌,
  ◌++◌,
  [],
  ℕ,
  ◌<◌,
  ◌≤◌,
  length,
  true,
  false,
  IfOk,
  slice_index_or,
};
ghost use Rattle.std.specs.Slots.{slots_items, slots_filled, slots_len, IsFull};
ghost use Rattle.std.specs.Slots.Ownership.{Filled};
ghost use Rattle.rs01_table.specs.Views.{both};
ghost use Rattle.rs01_table.specs.Seats.{
  IsPosterOf,
  HaveNone,
  posted_by,
  workers_of,
  gathered,
  id_of,
};
ghost use Rattle.rs01_table.specs.Ending.{EndedBy, AllLaid, AreCollected};

use crate::given::Given;
use crate::kinds::TakenOver;
use crate::seats::{Poster, WindowTable, Worker};
use crate::views::View;
use atomic_table::{Closed, Seat};
use rs01_layers::LayerTask;
use std::alloc::{AllocError, Global};

impl<T: LayerTask> WindowTable<T> {
    /// What comes back of each posted input, in posted order: the input with its value where a
    /// worker gave this, and else the input alone. All workers of the window are handed in, and none
    /// has an input. It may lack memory; then all that was handed in is dropped.
    ///
    /// Whether the window was closed, and whether a worker saw that, doesn't matter.
    pub fn end(
        self,
        alloc: Global,
        poster: Poster<T>,
        workers: Vec<Worker<T>>,
    ) -> Result<Vec<Given>, AllocError>
        requires mine { IsPosterOf self poster }
        requires all { length workers.items ≡ workers_of poster }
        requires none { HaveNone (id_of self) workers.items }
        ensures { IfOk result (λ all. EndedBy T.value (posted_by poster) workers.items all.items) }
    {
        let Poster {
            mut seat,
            posted,
            closed: _,
            task: _,
        } = poster;
        self.take_over_all(&mut seat, workers);
        let WindowTable { table } = self;
        let results = collect(alloc, table.close_with(seat), posted as usize)?;
        Ok(results)
    }

    fn take_over_all(&self, seat: &mut Seat<Option<Given>, View>, mut workers: Vec<Worker<T>>)
        requires mine { seat.old.table_id ≡ id_of self.now }
        requires posts { (seat.old.me.0.posts ≡ true) × (seat.old.me.0.got ≡ []) }
        requires none { HaveNone (id_of self.now) workers.items }
        ensures table { seat.new.table_id ≡ seat.old.table_id }
        ensures same { (seat.new.me.0.posts ≡ true) × (seat.new.me.0.got ≡ [])
            × (seat.new.me.0.posted ≡ seat.old.me.0.posted)
            × (seat.new.me.0.workers ≡ seat.old.me.0.workers) }
        ensures numbers { length seat.new.me.0.numbers
            ≡ length seat.old.me.0.numbers + length workers.items }
        ensures given { seat.new.me.0.given ≡ seat.old.me.0.given ++ gathered workers.items }
    {
        while let Some(worker) = workers.pop() {
            self.take_over(seat, worker);
        }
        workers.destroy_empty();
    }

    fn take_over(&self, seat: &mut Seat<Option<Given>, View>, worker: Worker<T>)
        requires mine { seat.old.table_id ≡ id_of self.now }
        requires same { worker.seat.table_id ≡ id_of self.now }
        requires posts { (seat.old.me.0.posts ≡ true) × (seat.old.me.0.got ≡ []) }
        requires free { worker.seat.me.0.got ≡ [] }
        ensures table { seat.new.table_id ≡ seat.old.table_id }
        ensures me { seat.new.me ≡ (both seat.old.me.0 worker.seat.me.0, seat.old.me.1) }
    {
        let Worker {
            seat: other,
            task: _,
        } = worker;
        self.table.shared.join_seat::<TakenOver>(seat, other);
    }
}

// What the first slots have.
fn collect(
    alloc: Global,
    mut closed: Closed<Option<Given>, Global>,
    count: usize,
) -> Result<Vec<Given>, AllocError>
    requires full { IsFull closed.slots }
    requires fits { count ≤ slots_len closed.slots }
    requires laid { AllLaid count (slots_items closed.slots) }
    ensures long { IfOk result (λ all. length all.items ≡ count) }
    ensures collected { IfOk result
        (λ all. AreCollected count (slots_items closed.slots) all.items) }
{
    let mut results = Vec::new(alloc);
    let mut i = 0;
    while i < count {
        let Some(given) = closed.take(i) else {
            unreachable!()
        };
        i += 1;
        if let Err(failed) = results.push(given) {
            drop(failed);
            discard(closed, i);
            return Err(AllocError);
        }
    }
    discard(closed, count);
    Ok(results)
}

// What is left in the slots goes too.
fn discard(mut closed: Closed<Option<Given>, Global>, from: usize)
    requires full { Filled (slots_filled closed.slots) from (slots_len closed.slots) }
    requires taken { (k : ℕ) → k < from
        → slice_index_or (slots_filled closed.slots) k false ≡ false }
{
    let mut i = from;
    while i < closed.slot_count() {
        drop(closed.take(i));
        i += 1;
    }
    closed.free();
}
