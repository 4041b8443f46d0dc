//! How a window begins.

ghost use Rattle.std.specs.Prelude.{◌≡◌, [], ℕ, ◌<◌, length, true, IfOk};
ghost use mathlib.Core.Option.{some};
ghost use lib.ListN.{get_elem?};
ghost use Rattle.rs01_table.specs.Seats.{id_of};
ghost use Rattle.rs01_table.specs.Opening.{IsNew};
ghost use Rattle.rs01_table.specs.Views.{hires, hired, poster_first, poster_with, worker_first};

use crate::given::Given;
use crate::kinds::Hired;
use crate::seats::{Poster, Seats, TaskMark, WindowTable, Worker};
use crate::views::View;
use atomic_table::{Seat, Table};
use rs01_layers::LayerTask;
use std::alloc::{AllocError, Global};
use std::marker::PhantomData;

impl<T: LayerTask> WindowTable<T> {
    /// A window that is open, with nothing posted, its poster and its workers. It has at least one
    /// slot and one worker. It may lack memory.
    pub fn new(alloc: Global, slots: u32, workers: u32) -> Result<Seats<T>, AllocError>
        requires slots { 0 < slots }
        requires workers { 0 < workers }
        ensures { IfOk result (IsNew slots workers) }
    {
        let (table, mut seat) = Table::vacant(alloc, &[0, 0, 0], slots as usize, &())?;
        let table = WindowTable { table };
        let workers = table.hire_all(alloc, &mut seat, workers)?;
        let poster = Poster {
            seat,
            posted: 0,
            closed: false,
            task: TaskMark {
                marker: PhantomData,
            },
        };
        Ok(Seats {
            table,
            poster,
            workers,
        })
    }

    // So many workers, which are split from the poster.
    fn hire_all(
        &self,
        alloc: Global,
        seat: &mut Seat<Option<Given>, View>,
        count: u32,
    ) -> Result<Vec<Worker<T>>, AllocError>
        requires mine { seat.old.table_id ≡ id_of self.now }
        requires first { seat.old.me ≡ (poster_first, []) }
        ensures table { seat.new.table_id ≡ seat.old.table_id }
        ensures poster { IfOk result (λ _. seat.new.me ≡ (poster_with count, [])) }
        ensures count { IfOk result (λ all. length all.items ≡ count) }
        ensures each { IfOk result (λ all. (k : ℕ) (w : _) → get_elem? all.items k ≡ some w
            → (w.seat.table_id ≡ seat.old.table_id) × (w.seat.me.0 ≡ worker_first k)) }
    {
        let mut workers = Vec::new(alloc);
        let mut i = 0;
        while i < count {
            let worker = self.hire(seat);
            workers.push(worker)?;
            i += 1;
        }
        Ok(workers)
    }

    fn hire(&self, seat: &mut Seat<Option<Given>, View>) -> Worker<T>
        requires mine { seat.old.table_id ≡ id_of self.now }
        requires posts { seat.old.me.0.posts ≡ true }
        requires few { seat.old.me.0.workers < 4294967295 }
        ensures table { seat.new.table_id ≡ seat.old.table_id }
        ensures same { result.seat.table_id ≡ seat.old.table_id }
        ensures poster { seat.new.me ≡ (hires seat.old.me.0, seat.old.me.1) }
        ensures worker { result.seat.me ≡ (hired seat.old.me.0, []) }
    {
        Worker {
            seat: self.table.shared.split_seat::<Hired>(seat),
            task: TaskMark {
                marker: PhantomData,
            },
        }
    }
}
