//! A list that contracts see as the list of its items.
ghost use Rattle.std.specs.Prelude.{◌≡◌, ◌<◌, Some, length, slice_get};

use std::marker::Model;

/// A list. Contracts see the list of its items.
#[derive(Drop)]
pub struct Listed<T: Drop> {
    list: Vec<T>,
}

impl<T: Drop> Model for Listed<T> {
    ghost use Rattle.std.specs.Prelude.{List};

    ghost Value = { List T };

    ghost view = { λ l. l.list.items };
}

impl<T: Drop> Listed<T> {
    /// The list of these items. Takes no memory.
    pub fn of(items: Vec<T>) -> Listed<T>
        ensures { result ≡ items.items }
    {
        Listed { list: items }
    }

    /// How many items there are.
    pub fn len(&self) -> usize
        ensures { result ≡ length self.now }
    {
        self.list.len()
    }

    /// The item at a place, counted from 0.
    pub fn get(&self, i: usize) -> &T
        requires { i < length self.now }
        ensures { slice_get self.now i ≡ Some result.now }
    {
        &self.list[i]
    }

    /// All items, first to last.
    pub fn items(&self) -> &[T]
        ensures { result.now ≡ self.now }
    {
        self.list.as_slice()
    }
}
