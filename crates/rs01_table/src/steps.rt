//! The steps on the words, and the moves of slots under the rights that they give.

ghost use Rattle.std.specs.Prelude.{◌≡◌, ◌∷◌, [], ◌<◌, ◌≤◌, ◌/◌, length, true, false, Some, None};
ghost use Rattle.rs01_layers.specs.declared.input.LayerInput.{LayerInput};
ghost use Rattle.rs01_table.specs.declared.given.Given.{Given};
ghost use Rattle.rs01_table.specs.declared.given.Given.TheVariants.{Left};
ghost use Rattle.rs01_table.specs.declared.views.Hold.{Hold};
ghost use Rattle.rs01_table.specs.Seats.{id_of, slots_of};
ghost use Rattle.rs01_table.specs.Views.{
  after_claim,
  after_post,
  after_close,
  after_draw,
  after_got,
  after_not,
  after_give,
  laid_in,
  given_in,
  Answers,
};

use crate::given::Given;
use crate::kinds::{Claimed, Drawn, Looked, Posted, Returned, Shut};
use crate::seats::WindowTable;
use crate::views::View;
use atomic_table::Seat;
use rs01_layers::{LayerInput, LayerTask};

impl<T: LayerTask> WindowTable<T> {
    // The next slot comes to the poster's seat.
    pub(crate) fn claim(&self, seat: &mut Seat<Option<Given>, View>)
        requires mine { seat.old.table_id ≡ id_of self.now }
        requires posts { seat.old.me.0.posts ≡ true }
        requires unclaimed { seat.old.me.0.claimed ≡ false }
        requires room { length seat.old.me.0.posted < slots_of self.now }
        ensures table { seat.new.table_id ≡ seat.old.table_id }
        ensures me { seat.new.me
            ≡ (after_claim seat.old.me.0, (length seat.old.me.0.posted, None) ∷ seat.old.me.1) }
    {
        self.table.shared.load::<Claimed>(seat, 0);
    }

    // The slot that the seat holds gets this.
    pub(crate) fn lay(&self, seat: &mut Seat<Option<Given>, View>, slot: usize, what: Given)
        requires mine { seat.old.table_id ≡ id_of self.now }
        requires has { seat.old.me.1 ≡ (slot, None) ∷ [] }
        ensures table { seat.new.table_id ≡ seat.old.table_id }
        ensures me { seat.new.me ≡ (seat.old.me.0, (slot, Some what) ∷ []) }
    {
        self.table.shared.exchange(seat, slot, Some(what));
    }

    // The input that was laid in the claimed slot is posted.
    pub(crate) fn show(&self, seat: &mut Seat<Option<Given>, View>)
        requires mine { seat.old.table_id ≡ id_of self.now }
        requires posts { seat.old.me.0.posts ≡ true }
        requires is_open { seat.old.me.0.closed ≡ false }
        requires claimed { seat.old.me.0.claimed ≡ true }
        requires has { (i : LayerInput) × T.fit i
            × (seat.old.me.1 ≡ (length seat.old.me.0.posted, Some (Left i)) ∷ []) }
        ensures table { seat.new.table_id ≡ seat.old.table_id }
        ensures me { seat.new.me ≡ (after_post seat.old.me.0 (laid_in seat.old.me.1), []) }
    {
        self.table.shared.fetch_add::<Posted>(seat, 0, 2);
        self.table.shared.wake_all(0);
    }

    pub(crate) fn shut(&self, seat: &mut Seat<Option<Given>, View>)
        requires mine { seat.old.table_id ≡ id_of self.now }
        requires posts { seat.old.me.0.posts ≡ true }
        ensures table { seat.new.table_id ≡ seat.old.table_id }
        ensures me { seat.new.me ≡ (after_close seat.old.me.0, seat.old.me.1) }
    {
        self.table.shared.fetch_or::<Shut>(seat, 0, 1);
        self.table.shared.wake_all(0);
    }

    pub(crate) fn number(&self, seat: &mut Seat<Option<Given>, View>) -> u64
        requires mine { seat.old.table_id ≡ id_of self.now }
        requires works { (seat.old.me.0.posts ≡ false) × (length seat.old.me.0.numbers ≡ 1) }
        requires free { (seat.old.me.0.held ≡ []) × (seat.old.me.0.got ≡ []) }
        requires going { seat.old.me.0.over ≡ false }
        ensures table { seat.new.table_id ≡ seat.old.table_id }
        ensures me { seat.new.me ≡ (after_draw seat.old.me.0 result, seat.old.me.1) }
    {
        self.table.shared.fetch_add::<Drawn>(seat, 1, 1)
    }

    // The word of the posted inputs. Where the ticket is posted, its slot comes to the seat.
    pub(crate) fn look(&self, seat: &mut Seat<Option<Given>, View>, ticket: u64) -> u64
        requires mine { seat.old.table_id ≡ id_of self.now }
        requires works { (seat.old.me.0.posts ≡ false) × (length seat.old.me.0.numbers ≡ 1) }
        requires held { seat.old.me.0.held ≡ ticket ∷ [] }
        requires empty { seat.old.me.0.got ≡ [] }
        requires going { seat.old.me.0.over ≡ false }
        ensures table { seat.new.table_id ≡ seat.old.table_id }
        ensures came { ticket < result / 2 → (i : LayerInput) × T.fit i × (seat.new.me
            ≡ (
              after_got seat.old.me.0 result record { ticket = ticket; input = i },
              (ticket, Some (Left i)) ∷ seat.old.me.1,
            )) }
        ensures not { result / 2 ≤ ticket
            → seat.new.me ≡ (after_not seat.old.me.0 result, seat.old.me.1) }
    {
        self.table.shared.load::<Looked<T>>(seat, 0)
    }

    // The input in the slot that the seat holds.
    pub(crate) fn lift(&self, seat: &mut Seat<Option<Given>, View>, slot: usize) -> LayerInput
        requires mine { seat.old.table_id ≡ id_of self.now }
        requires has { (i : LayerInput) × (seat.old.me.1 ≡ (slot, Some (Left i)) ∷ []) }
        ensures table { seat.new.table_id ≡ seat.old.table_id }
        ensures input { seat.old.me.1 ≡ (slot, Some (Left result)) ∷ [] }
        ensures me { seat.new.me ≡ (seat.old.me.0, (slot, None) ∷ []) }
    {
        let Some(Given::Left(input)) = self.table.shared.exchange(seat, slot, None) else {
            unreachable!()
        };
        input
    }

    // The slot goes back with what was laid in it.
    pub(crate) fn back(&self, seat: &mut Seat<Option<Given>, View>)
        requires mine { seat.old.table_id ≡ id_of self.now }
        requires works { (seat.old.me.0.posts ≡ false) × (length seat.old.me.0.numbers ≡ 1) }
        requires has { (g : Hold) × (what : Given) × (seat.old.me.0.got ≡ g ∷ [])
            × (seat.old.me.1 ≡ (g.ticket, Some what) ∷ []) × Answers T.value g.input what }
        ensures table { seat.new.table_id ≡ seat.old.table_id }
        ensures me { seat.new.me ≡ (after_give seat.old.me.0 (given_in seat.old.me.1), []) }
    {
        self.table.shared.fetch_add::<Returned>(seat, 2, 1);
    }
}
