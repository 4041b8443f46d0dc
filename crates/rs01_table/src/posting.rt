//! What the poster does.

ghost use Rattle.std.specs.Prelude.{IfOk, IfErr};
ghost use Rattle.rs01_table.specs.Seats.{
  IsPosterOf,
  IsPosted,
  IsRefused,
  IsClosedBy,
  slots_of,
};

use crate::given::Given;
use crate::seats::{Poster, WindowTable};
use rs01_layers::{LayerInput, LayerTask};
use rs01_window::{PostRefusal, PostRefused};

impl<T: LayerTask> WindowTable<T> {
    /// The slot of the input, which is posted exactly where the poster hasn't closed the window and
    /// posted fewer inputs than it has slots. Else the input is handed back with the cause, and the
    /// poster stays as it was. The input fits the task. It takes no memory, and doesn't wait.
    pub fn post(&self, poster: &mut Poster<T>, input: LayerInput) -> Result<u32, PostRefused>
        requires mine { IsPosterOf self.now poster.old }
        requires fit { T.fit input }
        ensures mine { IsPosterOf self.now poster.new }
        ensures ok { IfOk result (IsPosted (slots_of self.now) poster.old poster.new input) }
        ensures err { IfErr result (IsRefused (slots_of self.now) poster.old poster.new input) }
    {
        if poster.closed {
            return Err(PostRefused {
                why: PostRefusal::Closed,
                input,
            });
        }
        if poster.posted as usize >= self.table.slot_count() {
            return Err(PostRefused {
                why: PostRefusal::Full,
                input,
            });
        }
        let number = poster.posted;
        self.claim(&mut poster.seat);
        self.lay(&mut poster.seat, number as usize, Given::Left(input));
        self.show(&mut poster.seat);
        poster.posted = number + 1;
        Ok(number)
    }

    /// No more is posted from now on. Closing twice changes nothing. It takes no memory, and
    /// doesn't wait.
    pub fn close(&self, poster: &mut Poster<T>)
        requires mine { IsPosterOf self.now poster.old }
        ensures mine { IsPosterOf self.now poster.new }
        ensures closed { IsClosedBy poster.old poster.new }
    {
        self.shut(&mut poster.seat);
        poster.closed = true;
    }
}
