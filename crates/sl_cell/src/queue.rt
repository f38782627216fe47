//! The calls of a part that nobody took.

ghost use Rattle.sl_cell.specs.Cells.{Goes};
ghost use Rattle.sl_cell.specs.Parts.{is_of};
ghost use Rattle.std.specs.Prelude.{OnOk, filter, length, [], ◌++◌, ◌+◌, ◌<◌, ◌^◌, ◌≡◌, ◌≤◌};
ghost use Rattle.std.specs.VecDeque.{deque_capacity, deque_len};

use crate::part::{Part, is_of};
use sl_trace::Call;
use std::alloc::{AllocError, Global};
use std::collections::VecDeque;

/// Calls in the order in which they were made, and how many were taken before them.
#[derive(Drop)]
pub(crate) struct Queue {
    calls: VecDeque<Call>,
    taken: u64,
}

impl Queue {
    /// An empty queue, from which no call was taken yet. It takes no memory.
    pub(crate) fn new(alloc: Global) -> Queue
        ensures calls { result.calls.items ≡ [] }
        ensures taken { result.taken ≡ 0 }
    {
        Queue {
            calls: VecDeque::new(alloc),
            taken: 0,
        }
    }

    /// How many calls were taken since the beginning.
    pub(crate) fn taken(&self) -> u64
        ensures { result ≡ self.now.taken }
    {
        self.taken
    }

    /// Sees that there is room for so many more. An `Err` is want of memory.
    pub(crate) fn reserve(&mut self, more: usize) -> Result<(), AllocError>
        ensures calls { self.new.calls.items ≡ self.old.calls.items }
        ensures taken { self.new.taken ≡ self.old.taken }
        ensures room { OnOk result (deque_len self.new.calls + more ≤ deque_capacity self.new.calls) }
    {
        self.calls.reserve(more)
    }

    /// The calls of the part among these come behind those that are there. It takes no memory.
    pub(crate) fn put(&mut self, part: Part, made: &[Call])
        requires { deque_len self.old.calls + length made.now ≤ deque_capacity self.old.calls }
        ensures calls { self.new.calls.items ≡ self.old.calls.items ++ filter (is_of part) made.now }
        ensures taken { self.new.taken ≡ self.old.taken }
    {
        put_each(&mut self.calls, part, made);
    }

    /// Takes the call that has waited longest, if one waits.
    pub(crate) fn next(&mut self) -> Option<Call>
        requires { self.old.taken + length self.old.calls.items < 2 ^ 64 }
        ensures { Goes self.old self.new result }
    {
        let call = self.calls.pop_front()?;
        self.taken += 1;
        Some(call)
    }
}

/// Puts the calls of a part behind these. It takes no memory.
fn put_each(calls: &mut VecDeque<Call>, part: Part, made: &[Call])
    requires { deque_len calls.old + length made.now ≤ deque_capacity calls.old }
    ensures { calls.new.items ≡ calls.old.items ++ filter (is_of part) made.now }
{
    for call in made {
        if is_of(part, call) {
            calls.push_back_reserved(*call);
        }
    }
}
