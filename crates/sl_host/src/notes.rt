//! What a pass goes by: numbers or places that are noted as it begins.

ghost use Rattle.sl_host.specs.Notes.{NotesState};
ghost use Rattle.std.specs.Prelude.{IsOk, OnErr, OnOk, Some, length, max, slice_get, [], ◌++◌, ◌<◌, ◌∷◌, ◌≡◌, ◌≤◌};

use std::alloc::{AllocError, Global};
use std::marker::Model;

/// A list with memory for `most` elements.
#[derive(Drop)]
pub struct Notes<T> {
    items: Vec<T>,
    most: usize,
}

impl<T> Model for Notes<T> {
    ghost use Rattle.sl_host.specs.Notes.{NotesState};
    ghost use Rattle.std.specs.Prelude.{vec_capacity, vec_len, ◌≤◌};

    ghost Value = { NotesState T };

    ghost view = { λ n. record { items = n.items.items; most = n.most } };

    ghost invariant = { λ n. (vec_len n.items ≤ n.most) × (n.most ≤ vec_capacity n.items) };
}

impl<T: Drop> Notes<T> {
    /// An empty list, without room. It takes no memory.
    pub fn new(alloc: Global) -> Notes<T>
        ensures { result ≡ record { items = []; most = 0 } }
    {
        Notes {
            items: Vec::new(alloc),
            most: 0,
        }
    }

    /// Sees that there is memory for so many. An `Err` is want of memory, and changes nothing; it comes only where there was less.
    pub fn reserve(&mut self, most: usize) -> Result<(), AllocError>
        ensures ok { OnOk result (self.new ≡ record self.old { most = max self.old.most most }) }
        ensures err { OnErr result (self.new ≡ self.old) }
        ensures spared { most ≤ self.old.most → IsOk result }
    {
        if self.most < most {
            self.items.reserve(most)?;
            self.most = most;
        }
        Ok(())
    }

    /// Forgets all notes; their memory stays.
    pub fn clear(&mut self)
        ensures { self.new ≡ record self.old { items = [] } }
    {
        self.items.clear();
    }

    /// One more is noted, for which there is memory.
    pub fn put(&mut self, item: T)
        requires { length self.old.items < self.old.most }
        ensures { self.new ≡ record self.old { items = self.old.items ++ item ∷ [] } }
    {
        self.items.push_reserved(item);
    }

    /// How many are noted.
    pub fn len(&self) -> usize
        ensures { result ≡ length self.now.items }
    {
        self.items.len()
    }

    /// What was noted at this place.
    pub fn nth(&self, place: usize) -> &T
        requires { place < length self.now.items }
        ensures { slice_get self.now.items place ≡ Some result.now }
    {
        &self.items[place]
    }
}
