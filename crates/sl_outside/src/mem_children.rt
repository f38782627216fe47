//! The children of a spawner in memory.
//!
//! The memory for as many as may run at once is taken when the list is made. A child has exited from a poll on whose number is told
//! when it starts, or from the next one on where a signal ends it.
ghost use Rattle.sl_outside.specs.Acts.{IsTold};
ghost use Rattle.sl_outside.specs.MemSpawners.{ended, ended_at, first_ended, has_ended, has_number, numbers, process_at, without};
ghost use Rattle.std.specs.List.{position};
ghost use Rattle.std.specs.Prelude.{IfOk, IfSome, length, [], ◌++◌, ◌-◌, ◌<◌, ◌≡◌, ◌∷◌};

use std::alloc::{AllocError, Global};
use std::marker::Model;

/// A child in memory: it runs no program, and exits as planned.
#[derive(Clone, Copy)]
pub struct MemChild {
    /// The machine's number of the child.
    pub process: u32,
    /// The number of the poll from which on it has exited; polls are numbered from 1.
    pub ends: u64,
}

/// Children in memory, in the order of their starts, and room for some more.
#[derive(Drop)]
pub struct MemChildren {
    items: Vec<MemChild>,
    room: usize,
}

impl Model for MemChildren {
    ghost use Rattle.sl_words.specs.RoomyLists.{Roomy};
    ghost use Rattle.sl_outside.specs.declared.mem_children.MemChild.{MemChild};
    ghost use Rattle.std.specs.Prelude.{vec_capacity, vec_len, ◌+◌, ◌≤◌};

    ghost Value = { Roomy MemChild };

    ghost view = { λ c. record { items = c.items.items; room = c.room } };

    ghost invariant = { λ c. vec_len c.items + c.room ≤ vec_capacity c.items };
}

impl MemChildren {
    /// No child, and room for so many at once. The only error is want of memory.
    pub(crate) fn new(alloc: Global, room: u32) -> Result<MemChildren, AllocError>
        ensures { IfOk result (λ c. c ≡ record { items = []; room = room }) }
    {
        let room = room as usize;
        Ok(MemChildren {
            items: Vec::with_capacity(alloc, room)?,
            room,
        })
    }

    /// No child, and no room for one. It takes no memory.
    pub(crate) fn none(alloc: Global) -> MemChildren
        ensures { result ≡ record { items = []; room = 0 } }
    {
        MemChildren {
            items: Vec::new(alloc),
            room: 0,
        }
    }

    /// For how many more there is room.
    pub(crate) fn room(&self) -> usize
        ensures { result ≡ self.now.room }
    {
        self.room
    }

    /// How many have not exited by the poll of this number.
    pub(crate) fn alive(&self, poll: u64) -> usize {
        self.items.iter().filter(|child| child.ends > poll).count()
    }

    /// One more child, for which there is room.
    pub(crate) fn put(&mut self, child: MemChild)
        requires { 0 < self.old.room }
        ensures exact { self.new ≡ record { items = self.old.items ++ child ∷ []; room = self.old.room - 1 } }
        ensures numbers { numbers self.new ≡ numbers self.old ++ child.process ∷ [] }
    {
        self.items.push_reserved(child);
        self.room -= 1;
    }

    /// Takes out the first child that has exited by the poll of this number, and gives back its room.
    pub(crate) fn take_ended(&mut self, poll: u64) -> Option<u32>
        ensures first { result ≡ process_at (first_ended poll self.old) self.old }
        ensures exact { self.new ≡ without (first_ended poll self.old) self.old }
        ensures told { IsTold result (numbers self.old) (numbers self.new) }
    {
        let at = first_at(&self.items, poll);
        self.take(at)
    }

    /// Takes out the child at a place, and gives back its room.
    fn take(&mut self, at: Option<usize>) -> Option<u32>
        requires { IfSome at (λ i. i < length self.old.items) }
        ensures first { result ≡ process_at at self.old }
        ensures exact { self.new ≡ without at self.old }
        ensures told { IsTold result (numbers self.old) (numbers self.new) }
    {
        let child = self.items.remove(at?);
        self.room += 1;
        Some(child.process)
    }

    /// Sees that the first child of this number has exited by the next poll, if there is one.
    pub(crate) fn end(&mut self, process: u32)
        ensures exact { self.new ≡ ended process self.old }
        ensures numbers { numbers self.new ≡ numbers self.old }
    {
        let at = place_of(&self.items, process);
        self.end_at(at);
    }

    /// Sees that the child at a place has exited by the next poll.
    fn end_at(&mut self, at: Option<usize>)
        requires { IfSome at (λ i. i < length self.old.items) }
        ensures exact { self.new ≡ ended_at at self.old }
        ensures numbers { numbers self.new ≡ numbers self.old }
    {
        if let Some(at) = at {
            self.items[at].ends = 0;
        }
    }
}

/// Where the first child stands that has exited by the poll of this number.
fn first_at(children: &[MemChild], poll: u64) -> Option<usize>
    ensures exact { result ≡ position (has_ended poll) children.now }
    ensures within { IfSome result (λ at. at < length children.now) }
{
    children.iter().position(|child| child.ends <= poll)
}

/// Where the first child of this number stands.
fn place_of(children: &[MemChild], process: u32) -> Option<usize>
    ensures exact { result ≡ position (has_number process) children.now }
    ensures within { IfSome result (λ at. at < length children.now) }
{
    children.iter().position(|child| child.process == process)
}
