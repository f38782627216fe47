//! The effects of a step in progress, class by class, with memory for some more. A step seldom makes some of each class, so the lists of the others
//! keep their memory for the next step.

ghost use Rattle.sl_trace.specs.Traces.{no_effects};
ghost use Rattle.sl_host.specs.Books.{AreFew, BuffersState, no_buffers};
ghost use Rattle.std.specs.List.{list_any};
ghost use Rattle.std.specs.Prelude.{OnErr, OnOk, length, [], ◌+◌, ◌++◌, ◌-◌, ◌<◌, ◌==◌, ◌^◌, ◌∷◌, ◌≡◌, ◌≤◌};

use sl_sector::{Block, DeltaRec, DeltaState, Leader, PairBlock, Rec, Request, ValueRec};
use sl_text::{Data, FilePath, Name, Seq};
use sl_trace::{
    Call, Effects, End, Grant, JobReply, JoinStep, LeaseRead, LeaseStep, Move, Op, Purpose, Sent,
    Start, Work,
};
use sl_words::Room;
use std::alloc::{AllocError, Global};
use std::marker::Model;
use std::mem;

/// The types within a call. A body that carries a call over another one names them all (`_within`, which is nothing): the borrow check
/// refuses it where one is not named there, with a message that calls itself a fault.
type WithinCall = (
    (Op, Purpose, Work, LeaseStep, LeaseRead, JoinStep),
    (
        Rec,
        Leader,
        Block,
        PairBlock,
        DeltaRec,
        DeltaState,
        Request,
        ValueRec,
    ),
    (Name, Data, FilePath),
);

/// Lists of effects: that of calls has memory for at least `more_calls` more, each other one for at least `left` more. With as many more, that
/// of calls has at most `most_calls`, each other one at most `most`.
#[derive(Drop)]
pub struct Buffers {
    ends: Room<End>,
    signals: Room<Sent>,
    moves: Room<Move>,
    grants: Room<Grant>,
    starts: Room<Start>,
    replies: Room<JobReply>,
    calls: Room<Call>,
    left: usize,
    more_calls: usize,
    most: usize,
    most_calls: usize,
}

impl Model for Buffers {
    ghost use Rattle.sl_host.specs.Books.{BuffersState};
    ghost use Rattle.std.specs.Prelude.{length, ◌+◌, ◌≤◌};

    ghost Value = { BuffersState };

    ghost view = { λ b. record {
      made = record {
        ends = b.ends.items;
        signals = b.signals.items;
        moves = b.moves.items;
        grants = b.grants.items;
        starts = b.starts.items;
        replies = b.replies.items;
        calls = b.calls.items;
      };
      left = b.left;
      calls = b.more_calls;
      most = b.most;
      most_calls = b.most_calls;
    } };

    ghost invariant = { λ b. (b.left ≤ b.ends.room) × (b.left ≤ b.signals.room) × (b.left ≤ b.moves.room) × (b.left ≤ b.grants.room) × (b.left ≤ b.starts.room)
        × (b.left ≤ b.replies.room) × (b.more_calls ≤ b.calls.room)
        × (length b.ends.items + b.left ≤ b.most) × (length b.signals.items + b.left ≤ b.most) × (length b.moves.items + b.left ≤ b.most)
        × (length b.grants.items + b.left ≤ b.most) × (length b.starts.items + b.left ≤ b.most) × (length b.replies.items + b.left ≤ b.most)
        × (length b.calls.items + b.more_calls ≤ b.most_calls) };
}

/// Whether a start is of a child of this number.
fn is_of(start: &Start, process: u32) -> bool
    ensures { result ≡ (start.now.process == process) }
{
    start.process == process
}

/// The elements of a list, which then has none: its memory stays where there were none, else it has that of `spare` from here on.
fn taken<T>(alloc: Global, list: &mut Room<T>, spare: &mut Room<T>) -> Vec<T>
    requires { spare.old.items ≡ [] }
    ensures all { result.items ≡ list.old.items }
    ensures left { list.new.items ≡ [] }
    ensures spare { spare.new.items ≡ [] }
{
    if list.as_slice().is_empty() {
        return Vec::new(alloc);
    }
    mem::swap(list, spare);
    mem::replace(spare, Room::empty(alloc)).into_vec()
}

/// Of a list of nothing and one whose elements go, the memory of that with more.
fn keep<T: Drop>(list: &mut Room<T>, used: &mut Seq<T>)
    requires { list.old.items ≡ [] }
    ensures { list.new.items ≡ [] }
{
    if used.capacity() > list.room() {
        *list = Room::again(used.take());
    }
}

/// Sees that each of three lists has memory for so many more. An `Err` is want of memory; then too each has what it had, and no less room.
fn reserve_three<A, B, C>(
    first: &mut Room<A>,
    second: &mut Room<B>,
    third: &mut Room<C>,
    room: usize,
) -> Result<(), AllocError>
    requires { (length first.old.items + room < 2 ^ 32) × (length second.old.items + room < 2 ^ 32)
        × (length third.old.items + room < 2 ^ 32) }
    ensures first { (first.new.items ≡ first.old.items) × (first.old.room ≤ first.new.room) }
    ensures second { (second.new.items ≡ second.old.items) × (second.old.room ≤ second.new.room) }
    ensures third { (third.new.items ≡ third.old.items) × (third.old.room ≤ third.new.room) }
    ensures ok { OnOk result ((room ≤ first.new.room) × (room ≤ second.new.room) × (room ≤ third.new.room)) }
{
    first.reserve(room)?;
    second.reserve(room)?;
    third.reserve(room)
}

impl Buffers {
    /// No effects, and no room for any. It takes no memory.
    pub fn none(alloc: Global) -> Buffers
        ensures { result ≡ no_buffers }
    {
        Buffers {
            ends: Room::empty(alloc),
            signals: Room::empty(alloc),
            moves: Room::empty(alloc),
            grants: Room::empty(alloc),
            starts: Room::empty(alloc),
            replies: Room::empty(alloc),
            calls: Room::empty(alloc),
            left: 0,
            more_calls: 0,
            most: 0,
            most_calls: 0,
        }
    }

    /// For how many more effects there is memory that are no calls.
    pub fn left(&self) -> usize
        ensures { result ≡ self.now.left }
    {
        self.left
    }

    /// For how many more calls there is memory.
    pub fn more_calls(&self) -> usize
        ensures exact { result ≡ self.now.calls }
        ensures few { result ≤ self.now.most_calls }
    {
        self.more_calls
    }

    /// One place is given up, for what makes no effect.
    pub fn spend(&mut self)
        requires { 0 < self.old.left }
        ensures { self.new ≡ record self.old { left = self.old.left - 1 } }
    {
        self.left -= 1;
    }

    /// Whether a child of this number is started by the step.
    pub fn has_start(&self, process: u32) -> bool
        ensures { result ≡ list_any (λ s. s.process == process) self.now.made.starts }
    {
        self.starts
            .as_slice()
            .iter()
            .any(|start| is_of(start, process))
    }

    /// How many calls the step has made so far.
    pub fn calls(&self) -> u64
        ensures { result ≡ length self.now.made.calls }
    {
        self.calls.len() as u64
    }

    /// Adds an end, for which there is room.
    pub fn end(&mut self, end: End)
        requires { 0 < self.old.left }
        ensures made { self.new.made ≡ record self.old.made { ends = self.old.made.ends ++ end ∷ [] } }
        ensures left { (self.new.left ≡ self.old.left - 1) × (self.new.calls ≡ self.old.calls) }
        ensures most { (self.new.most ≡ self.old.most) × (self.new.most_calls ≡ self.old.most_calls) }
    {
        self.ends.put(end);
        self.left -= 1;
    }

    /// Adds a signal, for which there is room.
    pub fn signal(&mut self, sent: Sent)
        requires { 0 < self.old.left }
        ensures made { self.new.made ≡ record self.old.made { signals = self.old.made.signals ++ sent ∷ [] } }
        ensures left { (self.new.left ≡ self.old.left - 1) × (self.new.calls ≡ self.old.calls) }
        ensures most { (self.new.most ≡ self.old.most) × (self.new.most_calls ≡ self.old.most_calls) }
    {
        self.signals.put(sent);
        self.left -= 1;
    }

    /// Adds a move of a connection, for which there is room.
    pub fn move_on(&mut self, step: Move)
        requires { 0 < self.old.left }
        ensures made { self.new.made ≡ record self.old.made { moves = self.old.made.moves ++ step ∷ [] } }
        ensures left { (self.new.left ≡ self.old.left - 1) × (self.new.calls ≡ self.old.calls) }
        ensures most { (self.new.most ≡ self.old.most) × (self.new.most_calls ≡ self.old.most_calls) }
    {
        self.moves.put(step);
        self.left -= 1;
    }

    /// Adds a grant, for which there is room.
    pub fn grant(&mut self, grant: Grant)
        requires { 0 < self.old.left }
        ensures made { self.new.made ≡ record self.old.made { grants = self.old.made.grants ++ grant ∷ [] } }
        ensures left { (self.new.left ≡ self.old.left - 1) × (self.new.calls ≡ self.old.calls) }
        ensures most { (self.new.most ≡ self.old.most) × (self.new.most_calls ≡ self.old.most_calls) }
    {
        self.grants.put(grant);
        self.left -= 1;
    }

    /// Adds a start, for which there is room.
    pub fn start(&mut self, start: Start)
        requires { 0 < self.old.left }
        ensures made { self.new.made ≡ record self.old.made { starts = self.old.made.starts ++ start ∷ [] } }
        ensures left { (self.new.left ≡ self.old.left - 1) × (self.new.calls ≡ self.old.calls) }
        ensures most { (self.new.most ≡ self.old.most) × (self.new.most_calls ≡ self.old.most_calls) }
    {
        self.starts.put(start);
        self.left -= 1;
    }

    /// Adds a reply, for which there is room.
    pub fn reply(&mut self, reply: JobReply)
        requires { 0 < self.old.left }
        ensures made { self.new.made ≡ record self.old.made { replies = self.old.made.replies ++ reply ∷ [] } }
        ensures left { (self.new.left ≡ self.old.left - 1) × (self.new.calls ≡ self.old.calls) }
        ensures most { (self.new.most ≡ self.old.most) × (self.new.most_calls ≡ self.old.most_calls) }
    {
        self.replies.put(reply);
        self.left -= 1;
    }

    /// Adds a call, for which there is room; calls have a count of their own.
    pub fn call(&mut self, call: Call)
        requires { 0 < self.old.calls }
        ensures made { self.new.made ≡ record self.old.made { calls = self.old.made.calls ++ call ∷ [] } }
        ensures left { (self.new.left ≡ self.old.left) × (self.new.calls ≡ self.old.calls - 1) }
        ensures most { (self.new.most ≡ self.old.most) × (self.new.most_calls ≡ self.old.most_calls) }
    {
        let _within: Option<WithinCall> = None;
        self.calls.put(call);
        self.more_calls -= 1;
    }

    /// Sees that there is memory for so many calls, and so many of each other class. An `Err` is want of memory, and changes nothing.
    pub fn reserve(&mut self, room: usize, more_calls: usize) -> Result<(), AllocError>
        requires made { self.old.made ≡ no_effects }
        requires few { (room < 2 ^ 32) × (more_calls < 2 ^ 32) }
        ensures ok { OnOk result (self.new ≡ record { made = no_effects; left = room; calls = more_calls; most = room; most_calls = more_calls }) }
        ensures err { OnErr result (self.new ≡ self.old) }
    {
        reserve_three(&mut self.ends, &mut self.signals, &mut self.moves, room)?;
        reserve_three(&mut self.grants, &mut self.starts, &mut self.replies, room)?;
        self.calls.reserve(more_calls)?;
        self.left = room;
        self.more_calls = more_calls;
        self.most = room;
        self.most_calls = more_calls;
        Ok(())
    }

    /// The memory of effects that were told may serve a later step, and is then taken out of them.
    pub fn give_back(&mut self, told: &mut Effects)
        requires { self.old ≡ no_buffers }
        ensures { self.new ≡ self.old }
    {
        keep(&mut self.ends, &mut told.ends);
        keep(&mut self.signals, &mut told.signals);
        keep(&mut self.moves, &mut told.moves);
        keep(&mut self.grants, &mut told.grants);
        keep(&mut self.starts, &mut told.starts);
        keep(&mut self.replies, &mut told.replies);
        keep(&mut self.calls, &mut told.calls);
    }

    /// The effects are taken out, and nothing is left to be made until memory is taken anew. A class of which none was made keeps its memory; the
    /// other lists have that of `spare`.
    pub fn take(&mut self, alloc: Global, spare: &mut Buffers) -> Effects
        requires { spare.old ≡ no_buffers }
        ensures exact { result ≡ self.old.made }
        ensures few { AreFew self.old.most self.old.most_calls result }
        ensures left { self.new ≡ no_buffers }
        ensures spare { spare.new ≡ spare.old }
    {
        let made = Effects {
            ends: Seq::new(taken(alloc, &mut self.ends, &mut spare.ends)),
            signals: Seq::new(taken(alloc, &mut self.signals, &mut spare.signals)),
            moves: Seq::new(taken(alloc, &mut self.moves, &mut spare.moves)),
            grants: Seq::new(taken(alloc, &mut self.grants, &mut spare.grants)),
            starts: Seq::new(taken(alloc, &mut self.starts, &mut spare.starts)),
            replies: Seq::new(taken(alloc, &mut self.replies, &mut spare.replies)),
            calls: Seq::new(taken(alloc, &mut self.calls, &mut spare.calls)),
        };
        self.left = 0;
        self.more_calls = 0;
        self.most = 0;
        self.most_calls = 0;
        made
    }
}
