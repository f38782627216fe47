//! What is kept of a history beside the daemon. Its memory does not grow with the history.

ghost use Rattle.sl_cell.specs.Cells.{GoesOf, HasPlaces, queue_of};
ghost use Rattle.sl_cell.specs.Parts.{is_of};
ghost use Rattle.sl_cell.specs.declared.part.Part.TheVariants.{Delta, Resource};
ghost use Rattle.sl_trace.specs.WatchdogConnections.{after_move, test_holds};
ghost use Rattle.sl_world_state.specs.declared.daemon.Most.{Most};
ghost use Rattle.std.specs.Prelude.{OnOk, filter, fold, length, [], ◌++◌, ◌+◌, ◌<◌, ◌^◌, ◌∷◌, ◌≡◌, ◌≤◌};

use crate::part::Part;
use crate::queue::Queue;
use sl_trace::{Call, Effects, Entry};
use sl_wdmd::Wdmd;
use sl_world_state::Most;
use std::alloc::{AllocError, Global};
use std::mem;

/// The connections to the watchdog daemon, of each part the calls that nobody took, and the entries that were not handed out.
#[derive(Drop)]
pub(crate) struct Rest {
    connections: Wdmd,
    delta: Queue,
    resource: Queue,
    waiting: Vec<Entry>,
}

impl Rest {
    /// What is left over of no entry: no call, no entry to hand out, and these connections.
    pub(crate) fn new(alloc: Global, connections: Wdmd) -> Rest
        ensures connections { result.connections.connections ≡ connections.connections }
        ensures delta { (result.delta.calls.items ≡ []) × (result.delta.taken ≡ 0) }
        ensures resource { (result.resource.calls.items ≡ []) × (result.resource.taken ≡ 0) }
        ensures waits { result.waiting.items ≡ [] }
    {
        Rest {
            connections,
            delta: Queue::new(alloc),
            resource: Queue::new(alloc),
            waiting: Vec::new(alloc),
        }
    }

    /// Sees that there is memory for a step of so much. An `Err` is want of memory.
    pub(crate) fn reserve(&mut self, most: &Most) -> Result<(), AllocError>
        ensures connections { self.new.connections.connections ≡ self.old.connections.connections }
        ensures delta { (self.new.delta.calls.items ≡ self.old.delta.calls.items) × (self.new.delta.taken ≡ self.old.delta.taken) }
        ensures resource { (self.new.resource.calls.items ≡ self.old.resource.calls.items) × (self.new.resource.taken ≡ self.old.resource.taken) }
        ensures waits { self.new.waiting.items ≡ self.old.waiting.items }
        ensures places { OnOk result (HasPlaces self.new most.now) }
    {
        self.waiting.reserve(1)?;
        self.connections.reserve(most.moves)?;
        self.delta.reserve(most.calls)?;
        self.resource.reserve(most.calls)
    }

    /// What a step leaves: its entry waits. It takes no memory.
    pub(crate) fn note(&mut self, entry: Entry, effects: &Effects)
        requires { (most : Most) × HasPlaces self.old most × (length effects.now.moves ≤ most.moves) × (length effects.now.calls ≤ most.calls) }
        ensures connections { self.new.connections.connections ≡ fold after_move self.old.connections.connections effects.now.moves }
        ensures delta { (self.new.delta.calls.items ≡ self.old.delta.calls.items ++ filter (is_of Delta) effects.now.calls) × (self.new.delta.taken ≡ self.old.delta.taken) }
        ensures resource { (self.new.resource.calls.items ≡ self.old.resource.calls.items ++ filter (is_of Resource) effects.now.calls)
            × (self.new.resource.taken ≡ self.old.resource.taken) }
        ensures waits { self.new.waiting.items ≡ self.old.waiting.items ++ entry ∷ [] }
    {
        self.connections.make_moves(effects.moves.as_slice());
        let calls = effects.calls.as_slice();
        self.delta.put(Part::Delta, calls);
        self.resource.put(Part::Resource, calls);
        self.waiting.push_reserved(entry);
    }

    /// The entries that wait go out: none waits then. It takes no memory.
    pub(crate) fn take_waiting(&mut self) -> Vec<Entry>
        ensures waits { result.items ≡ self.old.waiting.items }
        ensures none { self.new.waiting.items ≡ [] }
        ensures connections { self.new.connections ≡ self.old.connections }
        ensures delta { self.new.delta ≡ self.old.delta }
        ensures resource { self.new.resource ≡ self.old.resource }
    {
        let alloc = *self.waiting.allocator();
        mem::replace(&mut self.waiting, Vec::new(alloc))
    }

    /// How many calls of the part were taken.
    pub(crate) fn taken(&self, part: Part) -> u64
        ensures { result ≡ (queue_of part self.now).taken }
    {
        match part {
            Part::Delta => self.delta.taken(),
            Part::Resource => self.resource.taken(),
        }
    }

    /// The first call of the part that nobody took goes.
    pub(crate) fn next(&mut self, part: Part) -> Option<Call>
        requires { (queue_of part self.old).taken + length (queue_of part self.old).calls.items < 2 ^ 64 }
        ensures { GoesOf part self.old self.new result }
    {
        match part {
            Part::Delta => self.delta.next(),
            Part::Resource => self.resource.next(),
        }
    }

    /// The watchdog daemon's test of the connections.
    pub(crate) fn test(&self, now: u64) -> bool
        ensures { result ≡ test_holds self.now.connections.connections now }
    {
        self.connections.test(now)
    }
}
