//! Elements with memory for some more.

ghost use Rattle.std.specs.Prelude.{length, max, IfOk, OnErr, OnOk, [], ◌+◌, ◌++◌, ◌-◌, ◌<◌, ◌^◌, ◌≡◌, ◌∷◌};

use std::alloc::{AllocError, Global};
use std::marker::Model;

/// For more there is never room.
const MOST: usize = 0xffff_ffff;

/// A list with memory for `room` more elements: together fewer than 2^32.
#[derive(Drop)]
pub struct Room<T> {
    items: Vec<T>,
    room: usize,
}

impl<T> Model for Room<T> {
    ghost use Rattle.sl_words.specs.RoomyLists.{Roomy};
    ghost use Rattle.std.specs.Prelude.{vec_capacity, vec_len, ◌+◌, ◌<◌, ◌^◌, ◌≤◌};

    ghost Value = { Roomy T };

    ghost view = { λ r. record { items = r.items.items; room = r.room } };

    ghost invariant = { λ r. (vec_len r.items + r.room ≤ vec_capacity r.items) × (vec_len r.items + r.room < 2 ^ 32) };
}

impl<T: Drop> Room<T> {
    /// Nothing, with the memory of a list whose elements go.
    pub fn again(used: Vec<T>) -> Room<T>
        ensures { result.items ≡ [] }
    {
        let mut items = used;
        items.clear();
        let room = items.capacity().min(MOST);
        Room { items, room }
    }
}

impl<T> Room<T> {
    /// An empty list without room. It takes no memory.
    pub fn empty(alloc: Global) -> Room<T>
        ensures { result ≡ record { items = []; room = 0 } }
    {
        Room {
            items: Vec::new(alloc),
            room: 0,
        }
    }

    /// Nothing, with memory for so many. An `Err` is want of memory.
    pub fn new(alloc: Global, room: usize) -> Result<Room<T>, AllocError>
        requires { room < 2 ^ 32 }
        ensures { IfOk result (λ r. r ≡ record { items = []; room = room }) }
    {
        Ok(Room {
            items: Vec::with_capacity(alloc, room)?,
            room,
        })
    }

    /// Sees that there is memory for so many more. An `Err` is want of memory, and changes nothing.
    pub fn reserve(&mut self, room: usize) -> Result<(), AllocError>
        requires { length self.old.items + room < 2 ^ 32 }
        ensures ok { OnOk result (self.new ≡ record self.old { room = max self.old.room room }) }
        ensures err { OnErr result (self.new ≡ self.old) }
    {
        if self.room < room {
            self.items.reserve(room)?;
            self.room = room;
        }
        Ok(())
    }

    /// One more element, for which there is memory.
    pub fn put(&mut self, item: T)
        requires { 0 < self.old.room }
        ensures { self.new ≡ record { items = self.old.items ++ item ∷ []; room = self.old.room - 1 } }
    {
        self.items.push_reserved(item);
        self.room -= 1;
    }

    /// For how many more there is memory.
    pub fn room(&self) -> usize
        ensures { result ≡ self.now.room }
    {
        self.room
    }

    /// How many elements the list has, its room not counted.
    pub fn len(&self) -> usize
        ensures exact { result ≡ length self.now.items }
        ensures few { result + self.now.room < 2 ^ 32 }
    {
        self.items.len()
    }

    /// The elements, to be read.
    pub fn as_slice(&self) -> &[T]
        ensures { result.now ≡ self.now.items }
    {
        &self.items
    }

    /// The elements, with the memory that was left for more.
    pub fn into_vec(self) -> Vec<T>
        ensures { result.items ≡ self.items }
    {
        let Room { items, room: _ } = self;
        items
    }
}
