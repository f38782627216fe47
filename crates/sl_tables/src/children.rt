//! Children of a host, by number: those whose start is unanswered, and those that run.

ghost use Rattle.sl_host_state.specs.HostStands.{is_there};
ghost use Rattle.sl_tables.specs.Children.{IsLeft, child_of, children_left};
ghost use Rattle.sl_trace.specs.declared.input.Input.TheVariants.{Exit as ExitOf, Spawned as SpawnedOf};
ghost use Rattle.std.specs.Prelude.{OnErr, OnOk, find, true, length, max, option_map, [], ◌+◌, ◌++◌, ◌-◌, ◌<◌, ◌==◌, ◌∷◌, ◌≡◌, ◌≤◌};

use crate::rising::Rising;
use std::alloc::{AllocError, Global};
use std::marker::Model;

/// A child: the job that waits for it, the process whose kill program it is, whether its start was answered ok, and whether it has exited, which
/// may be told before that answer.
#[derive(Clone, Copy)]
pub struct ChildState {
    pub process: u32,
    pub job: Option<u64>,
    pub stands_for: Option<u32>,
    pub started: bool,
    pub exited: bool,
}

impl ChildState {
    /// What is kept of it once its start is answered; a second answer changes nothing.
    fn answered(self, ok: bool) -> Option<ChildState>
        requires { is_there (child_of self) ≡ true }
        ensures { IsLeft (SpawnedOf self.process ok) self result }
    {
        if self.started {
            Some(self)
        } else if ok && !self.exited {
            Some(ChildState {
                started: true,
                ..self
            })
        } else {
            None
        }
    }

    /// What is kept of it once it has exited.
    fn exits(self) -> Option<ChildState>
        ensures { IsLeft (ExitOf self.process) self result }
    {
        if self.started {
            None
        } else {
            Some(ChildState {
                exited: true,
                ..self
            })
        }
    }
}

/// Those that are kept, the oldest first, with memory for some more.
#[derive(Drop)]
pub struct Children {
    children: Rising<ChildState>,
}

impl Model for Children {
    ghost use Rattle.sl_tables.specs.Children.{AreChildren, ChildrenState, child_of};
    ghost use Rattle.std.specs.Map.{values_of};
    ghost use Rattle.std.specs.Prelude.{map};

    ghost Value = { ChildrenState };

    ghost view = { λ c. record { children = map child_of (values_of c.children.items); next = c.children.next; room = c.children.room; gaps = c.children.gaps } };

    ghost invariant = { λ c. AreChildren c.children.items };
}

impl Children {
    /// An empty table, without room. It takes no memory.
    pub fn new(alloc: Global) -> Children
        ensures { result ≡ record { children = []; next = 0; room = 0; gaps = 0 } }
    {
        Children {
            children: Rising::new(alloc),
        }
    }

    /// Sees that there is memory for so many more. An `Err` is want of memory, and changes nothing but gaps.
    pub fn reserve(&mut self, room: usize) -> Result<(), AllocError>
        ensures children { (self.new.children ≡ self.old.children) × (self.new.next ≡ self.old.next) }
        ensures ok { OnOk result (self.new.room ≡ max self.old.room room) }
        ensures err { OnErr result (self.new.room ≡ self.old.room) }
    {
        self.children.reserve(room)
    }

    /// One more child, with a number above all others.
    pub fn put(&mut self, child: ChildState)
        requires room { 0 < self.old.room }
        requires there { is_there (child_of child) ≡ true }
        requires rises { self.old.next ≤ child.process }
        ensures { self.new ≡ record self.old { children = self.old.children ++ child_of child ∷ []; next = child.process + 1; room = self.old.room - 1 } }
    {
        self.children.put(child.process as u64, child);
    }

    /// The child of this number, if it is there.
    pub fn get(&self, process: u32) -> Option<&ChildState>
        ensures { option_map (λ c. child_of c.now) result ≡ find (λ k. k.process == process) self.now.children }
    {
        self.children.get(process as u64)
    }

    /// How many are there.
    pub fn len(&self) -> usize
        ensures { result ≡ length self.now.children }
    {
        self.children.len()
    }

    /// The start of a child is answered: from here on it runs, or it is there no more.
    pub fn answered(&mut self, process: u32, ok: bool)
        ensures children { self.new.children ≡ children_left (SpawnedOf process ok) self.old.children }
        ensures kept { (self.new.next ≡ self.old.next) × (self.new.room ≡ self.old.room) }
    {
        match self.children.get(process as u64).copied() {
            Some(child) => match child.answered(ok) {
                Some(next) => self.children.set(process as u64, next),
                None => self.children.forget(process as u64),
            },
            None => {}
        }
    }

    /// A process has exited: a child of this number that runs is there no more.
    pub fn exited(&mut self, process: u32)
        ensures children { self.new.children ≡ children_left (ExitOf process) self.old.children }
        ensures kept { (self.new.next ≡ self.old.next) × (self.new.room ≡ self.old.room) }
    {
        match self.children.get(process as u64).copied() {
            Some(child) => match child.exits() {
                Some(next) => self.children.set(process as u64, next),
                None => self.children.forget(process as u64),
            },
            None => {}
        }
    }
}
