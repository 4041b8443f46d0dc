//! The table, and the seats at it.

ghost use Rattle.std.specs.Prelude.{◌≡◌, ◌<◌, [], length, true, false};
ghost use Rattle.rs01_table.specs.Views.{lifted};

use crate::given::Given;
use crate::kinds::WindowRule;
use crate::views::View;
use atomic_table::{Seat, Table};
use rs01_layers::LayerTask;
use std::alloc::Global;
use std::marker::PhantomData;

/// A window that a poster and workers share, each by a seat of its own.
#[derive(Drop)]
pub struct WindowTable<T: LayerTask> {
    pub(crate) table: Table<Option<Given>, View, (), WindowRule<T>, Global>,
    ghost words: { table.shared.table_id.words ≡ 3 },
    ghost narrow: { table.shared.table_id.slots < 4294967296 },
}

/// Ties a seat to the type of the tasks that its window is for. It has no bytes, and no task.
#[derive(Clone, Copy)]
pub struct TaskMark<T> {
    pub(crate) marker: PhantomData<*const T>,
}

// No value of `T` is in it, so it may cross threads whatever `T` is.
unsafe impl<T> Send for TaskMark<T> {}

/// The seat of the one who posts. It has no claim, and holds no slot.
#[derive(Drop)]
pub struct Poster<T> {
    pub(crate) seat: Seat<Option<Given>, View>,
    pub(crate) posted: u32,
    pub(crate) closed: bool,
    pub(crate) task: TaskMark<T>,
    ghost posts: { seat.me.0.posts ≡ true },
    ghost counts: { posted ≡ length seat.me.0.posted },
    ghost closes: { closed ≡ seat.me.0.closed },
    ghost unclaimed: { seat.me.0.claimed ≡ false },
    ghost empty: { seat.me.1 ≡ [] },
    ghost alone: { (seat.me.0.numbers ≡ []) × (seat.me.0.given ≡ []) × (seat.me.0.got ≡ []) },
}

/// The seat of a worker. It holds the slot of the input that the worker has, and no other.
#[derive(Drop)]
pub struct Worker<T> {
    pub(crate) seat: Seat<Option<Given>, View>,
    pub(crate) task: TaskMark<T>,
    ghost works: { (seat.me.0.posts ≡ false) × (length seat.me.0.numbers ≡ 1) },
    ghost idle: { seat.me.0.held ≡ [] → seat.me.0.got ≡ [] },
    ghost has: { seat.me.1 ≡ lifted seat.me.0.got },
}

/// A new window with all who use it.
#[derive(Drop)]
pub struct Seats<T: LayerTask> {
    pub table: WindowTable<T>,
    pub poster: Poster<T>,
    pub workers: Vec<Worker<T>>,
}
