//! Copies that can't fail.
//!
//! A step can't be taken back, so there must be memory for what is written down of it before it is made. A copy takes memory of its own,
//! of just its size; where there is none, it goes into memory that was taken before, and that is big enough for all that may come.

ghost use Rattle.std.specs.Prelude.{length, vec_capacity, vec_len, OnOk, [], ◌≡◌, ◌≤◌};

use sl_text::Seq;
use std::alloc::{AllocError, Global};
use std::marker::Model;
use std::mem;

/// Memory for a copy of so many elements, seen as their number.
#[derive(Drop)]
pub(crate) struct Blank<T> {
    items: Vec<T>,
}

impl<T> Model for Blank<T> {
    ghost use Rattle.std.specs.Prelude.{vec_capacity, vec_len, [], ℕ, ◌≡◌};

    ghost Value = { ℕ };

    ghost view = { λ b. vec_capacity b.items };

    ghost invariant = { λ b. (b.items.items ≡ []) × (vec_len b.items ≡ 0) };
}

impl<T> Blank<T> {
    /// Room for a copy of no element. It takes no memory.
    pub(crate) fn new(alloc: Global) -> Blank<T> {
        Blank {
            items: Vec::new(alloc),
        }
    }

    /// Sees that it is for so many at least. An `Err` is want of memory.
    pub(crate) fn reserve(&mut self, room: usize) -> Result<(), AllocError>
        ensures { OnOk result (room ≤ self.new) }
    {
        self.items.reserve(room)
    }

    /// The memory, for elements: there is none left then.
    pub(crate) fn take(&mut self, alloc: Global) -> Vec<T>
        ensures items { result.items ≡ [] }
        ensures len { vec_len result ≡ 0 }
        ensures room { self.old ≤ vec_capacity result }
    {
        mem::replace(&mut self.items, Vec::new(alloc))
    }
}

impl<T: Copy> Blank<T> {
    /// A copy of these elements, in room that was taken for it before.
    pub(crate) fn copy(&mut self, alloc: Global, items: &[T]) -> Seq<T>
        requires { length items.now ≤ self.old }
        ensures copy { result ≡ items.now }
        ensures none { length items.now ≡ 0 → self.new ≡ self.old }
    {
        if items.is_empty() {
            return Seq::new(Vec::new(alloc));
        }
        match Vec::from_slice(alloc, items) {
            Ok(copy) => Seq::new(copy),
            Err(_) => Seq::new(copied(self.take(alloc), items)),
        }
    }
}

/// A copy of these, in this memory.
fn copied<T: Copy>(mut room: Vec<T>, items: &[T]) -> Vec<T>
    requires empty { room.items ≡ [] }
    requires len { vec_len room ≡ 0 }
    requires enough { length items.now ≤ vec_capacity room }
    ensures { result.items ≡ items.now }
{
    match room.extend_from_slice(items) {
        Ok(()) => room,
        Err(_) => unreachable!(),
    }
}
