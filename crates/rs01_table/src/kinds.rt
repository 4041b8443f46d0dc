//! The rule of the table, and the kinds of steps on its words.

use crate::given::Given;
use crate::views::View;
use atomic_table::{Join, Play, Split, TableRule};
use rs01_layers::LayerTask;
use std::marker::PhantomData;

/// The rule of the table.
pub struct WindowRule<T: LayerTask> {
    task: PhantomData<T>,
}

impl<T: LayerTask> TableRule<Option<Given>, View, ()> for WindowRule<T> {
    ghost use Rattle.rs01_table.specs.Rule.{Rule};
    ghost use Rattle.rs01_table.specs.Views.{poster_first};

    ghost holds = { λ _. Rule T.fit T.value };

    ghost first = { λ _. poster_first };
}

/// The poster claims the next slot.
pub struct Claimed;

impl Play<Option<Given>, View> for Claimed {
    ghost use Rattle.rs01_table.specs.Plays.{Claims};

    ghost then = { Claims };
}

/// The poster posts the input that it laid in the slot.
pub struct Posted;

impl Play<Option<Given>, View> for Posted {
    ghost use Rattle.rs01_table.specs.Plays.{Posts};

    ghost then = { Posts };
}

/// The poster closes the window.
pub struct Shut;

impl Play<Option<Given>, View> for Shut {
    ghost use Rattle.rs01_table.specs.Plays.{Closes};

    ghost then = { Closes };
}

/// A worker draws a ticket.
pub struct Drawn;

impl Play<Option<Given>, View> for Drawn {
    ghost use Rattle.rs01_table.specs.Plays.{Draws};

    ghost then = { Draws };
}

/// A worker looks whether its ticket is posted.
pub struct Looked<T: LayerTask> {
    task: PhantomData<T>,
}

impl<T: LayerTask> Play<Option<Given>, View> for Looked<T> {
    ghost use Rattle.rs01_table.specs.Plays.{Looks};

    ghost then = { Looks T.fit T.value };
}

/// A worker gives what it laid in the slot.
pub struct Returned;

impl Play<Option<Given>, View> for Returned {
    ghost use Rattle.rs01_table.specs.Plays.{Gives};

    ghost then = { Gives };
}

/// A worker is split from the poster.
pub struct Hired;

impl Split<View> for Hired {
    ghost use Rattle.rs01_table.specs.Views.{hires, hired};

    ghost left = { hires };

    ghost right = { hired };
}

/// The poster takes over a worker.
pub struct TakenOver;

impl Join<View> for TakenOver {
    ghost use Rattle.rs01_table.specs.Views.{both, spent};

    ghost both = { both };

    ghost spent = { spent };
}
