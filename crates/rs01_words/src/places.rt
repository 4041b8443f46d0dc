//! A short list of places.
ghost use Rattle.std.specs.Prelude.{◌≡◌, ℕ, ◌<◌, ◌≤◌, ◌==◌, ◌++◌, List, [], ◌∷◌, length, take};
ghost use Rattle.std.specs.List.{slice_get};

use crate::table::MOST_DRIVES;
use std::marker::Model;

/// At most 16 places of words, in order. A contract sees the list of the places.
#[derive(Debug, Drop)]
pub struct Places {
    places: [usize; MOST_DRIVES],
    used: usize,
}

impl Model for Places {
    ghost Value = { List ℕ };

    ghost view = { λ p. take p.used p.places };

    ghost invariant = { λ p. p.used ≤ 16 };
}

impl Places {
    /// No places.
    pub(crate) fn new() -> Self
        ensures { result ≡ [] }
    {
        Places {
            places: [0; MOST_DRIVES],
            used: 0,
        }
    }

    /// Adds a place at the end.
    pub(crate) fn push(&mut self, place: usize)
        requires { length self.old < 16 }
        ensures { self.new ≡ self.old ++ place ∷ [] }
    {
        self.places[self.used] = place;
        self.used += 1;
    }

    /// How many places there are.
    pub fn len(&self) -> usize
        ensures value { result ≡ length self.now }
        ensures most { result ≤ 16 }
    {
        self.used
    }

    /// Whether there are none.
    pub fn is_empty(&self) -> bool
        ensures { result ≡ (length self.now == 0) }
    {
        self.used == 0
    }

    /// The place with this number, counted from 0. None exactly where the number isn't below
    /// `len`.
    pub fn get(&self, i: usize) -> Option<usize>
        ensures { result ≡ slice_get self.now i }
    {
        if i < self.used {
            Some(self.places[i])
        } else {
            None
        }
    }
}
