//! What a worker does.

ghost use Rattle.std.specs.Prelude.{◌≡◌, ◌++◌, ◌∷◌, [], IfSome, IfNone};
ghost use Rattle.rs01_table.specs.Views.{source, IsRight};
ghost use Rattle.rs01_table.specs.Seats.{
  IsWorkerOf,
  IsFree,
  HasTicket,
  HasInput,
  SawEnd,
  Found,
  given_by,
};

use crate::given::{Given, Taken, Ticket};
use crate::seats::{WindowTable, Worker};
use rs01_layers::{LayerInput, LayerTask};
use std::sync::Wait;

impl<T: LayerTask> WindowTable<T> {
    /// The next ticket, for a worker that has none and didn't see the end. It takes no memory, and
    /// doesn't wait.
    pub fn draw(&self, worker: &mut Worker<T>) -> Ticket
        requires mine { IsWorkerOf self.now worker.old }
        requires free { IsFree worker.old }
        ensures mine { IsWorkerOf self.now worker.new }
        ensures ticket { HasTicket worker.new result.number }
        ensures given { given_by worker.new ≡ given_by worker.old }
    {
        Ticket {
            number: self.number(&mut worker.seat),
        }
    }

    /// The input of the worker's ticket, where the word that this call reads says that it is
    /// posted, and else whether that word says that the window is closed. The worker has this ticket
    /// and not its input, and didn't see the end. It takes no memory, and doesn't wait.
    pub fn try_take(&self, worker: &mut Worker<T>, ticket: Ticket) -> Taken
        requires mine { IsWorkerOf self.now worker.old }
        requires ticket { HasTicket worker.old ticket.number }
        ensures mine { IsWorkerOf self.now worker.new }
        ensures found { Found T.fit worker.new ticket.number result }
        ensures given { given_by worker.new ≡ given_by worker.old }
    {
        let word = self.look(&mut worker.seat, ticket.number);
        if ticket.number < word / 2 {
            Taken::Got(self.lift(&mut worker.seat, ticket.number as usize))
        } else if word % 2 == 1 {
            Taken::Over
        } else {
            Taken::NotYet
        }
    }

    /// Waits for the input of the worker's ticket, under the condition of `try_take`. It is `None`
    /// exactly where the word that was read last says that the window is closed and the ticket
    /// isn't posted. Nothing is said of whether the call returns.
    pub fn take<R: Wait>(
        &self,
        rt: &R,
        worker: &mut Worker<T>,
        ticket: Ticket,
    ) -> Option<LayerInput>
        requires mine { IsWorkerOf self.now worker.old }
        requires ticket { HasTicket worker.old ticket.number }
        ensures mine { IsWorkerOf self.now worker.new }
        ensures got { IfSome result (λ i. T.fit i × HasInput worker.new ticket.number i) }
        ensures over { IfNone result (SawEnd worker.new ticket.number) }
        ensures given { given_by worker.new ≡ given_by worker.old }
    {
        for _ in rt.forever() {
            // A post or a closing after this look at the word wakes the worker at once.
            let before = (self.table.shared.peek(0) & 0xffff_ffff) as u32;
            match self.try_take(worker, ticket) {
                Taken::Got(input) => return Some(input),
                Taken::Over => return None,
                Taken::NotYet => self.table.shared.park(rt, 0, before),
            }
        }
        unreachable!()
    }

    /// What is given comes to the ticket's slot, and the worker has no ticket from now on. It has
    /// the input of this ticket, and gives it back with the task's value of it, or alone. It takes
    /// no memory, and doesn't wait.
    pub fn give(&self, worker: &mut Worker<T>, ticket: Ticket, given: Given)
        requires mine { IsWorkerOf self.now worker.old }
        requires has { HasInput worker.old ticket.number (source given) }
        requires right { IsRight T.value given }
        ensures mine { IsWorkerOf self.now worker.new }
        ensures free { IsFree worker.new }
        ensures given { given_by worker.new
            ≡ given_by worker.old ++ record { ticket = ticket.number; what = given } ∷ [] }
    {
        self.lay(&mut worker.seat, ticket.number as usize, given);
        self.back(&mut worker.seat);
    }
}
