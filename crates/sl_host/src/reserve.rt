//! What a step needs of memory and numbers is taken before it.
//!
//! A step makes no more effects than was said before it: `left` of each class but calls, and `calls` calls. For so many there is room in each table
//! from here on, and numbers for them last, so that no method of the step has an answer for want of either. A table asks for memory only where it
//! has less, so this costs no more where it holds much.

ghost use Rattle.sl_trace.specs.Traces.{no_effects};
ghost use Rattle.sl_host.specs.NumbersLast.{NumbersLast};
ghost use Rattle.std.specs.Prelude.{OnErr, OnOk, true, ◌+◌, ◌<◌, ◌^◌, ◌≡◌, ◌≤◌};

use crate::books::Books;
use crate::host::Host;
use std::alloc::AllocError;

/// No more effects of one class are made in a step.
const MOST_EFFECTS: u64 = 2_147_483_647;

/// As many children may be started.
const MOST_CHILDREN: u64 = 2_147_483_647;

/// As many steps may be taken.
const MOST_ENTRIES: u64 = 9_223_372_036_854_775_808;

/// The numbers that a host has come to: of its next call, job, session, grant, child and step.
#[derive(Clone, Copy)]
struct Reached {
    call: u64,
    job: u64,
    session: u64,
    grant: u64,
    child: u32,
    entry: u64,
}

/// Whether so many more numbers, from this one on, are no more than `most`.
fn lasts(number: u64, more: usize, most: u64) -> bool
    ensures { result ≡ true → number + more ≤ most }
{
    number <= most && more as u64 <= most - number
}

/// Whether numbers last for so many more effects of each class but calls, and for so many calls.
fn last(reached: Reached, left: usize, calls: usize) -> bool
    ensures { result ≡ true → NumbersLast reached left calls }
{
    let few = lasts(0, left, MOST_EFFECTS) && lasts(0, calls, MOST_EFFECTS);
    let of_calls = lasts(reached.call, calls, u64::MAX) && lasts(reached.session, calls, u64::MAX);
    let of_others = lasts(reached.job, left, u64::MAX)
        && lasts(reached.grant, left, u64::MAX)
        && lasts(reached.child as u64, left, MOST_CHILDREN)
        && lasts(reached.entry, 1, MOST_ENTRIES);
    few && of_calls && of_others
}

impl Books {
    /// Takes what a step needs that makes no more effects of a class than `left`, but calls, and no more calls than `calls`. An `Err` is want of
    /// memory or of numbers, and changes nothing.
    pub fn reserve(&mut self, left: usize, calls: usize) -> Result<(), AllocError>
        requires { self.old.made ≡ no_effects }
        ensures ok { OnOk result (self.new ≡ record self.old { left = left; calls = calls; most = left; most_calls = calls }) }
        ensures err { OnErr result (self.new ≡ self.old) }
        ensures few { OnOk result ((left < 2 ^ 31) × (calls < 2 ^ 31)) }
        ensures entries { OnOk result (self.old.entries < 2 ^ 63) }
    {
        let reached = Reached {
            call: self.first_call,
            job: self.next_job,
            session: self.born,
            grant: self.granted,
            child: self.started,
            entry: self.entries,
        };
        if !last(reached, left, calls) {
            return Err(AllocError);
        }
        self.connected.reserve(left)?;
        self.holdings.reserve(left)?;
        self.children.reserve(left)?;
        self.jobs.reserve(left)?;
        self.programs.reserve(left)?;
        self.unanswered.reserve(calls)?;
        self.made.reserve(left, calls)
    }
}

impl Host {
    /// Takes what the next step needs, between two steps: it makes no more effects of each class but calls than `left`, and no more calls than
    /// `calls`. An `Err` is want of memory or of numbers, and changes nothing.
    pub fn reserve(&mut self, left: usize, calls: usize) -> Result<(), AllocError>
        requires { self.old.kept.made ≡ no_effects }
        ensures ok { OnOk result (self.new ≡ record self.old { left = left; calls = calls; most = left; most_calls = calls }) }
        ensures err { OnErr result (self.new ≡ self.old) }
        ensures few { OnOk result ((left < 2 ^ 31) × (calls < 2 ^ 31)) }
        ensures entries { OnOk result (self.old.kept.entries < 2 ^ 63) }
    {
        self.members.reserve(0, calls)?;
        self.books.reserve(left, calls)
    }
}
