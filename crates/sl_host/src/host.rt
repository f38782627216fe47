//! A host: its members and its books.

ghost use Rattle.sl_host_state.specs.MadeEffects.{is_ended_by_move, with_call, with_end, with_grant, with_move, with_signal, with_start};
ghost use Rattle.sl_member.specs.Members.{IsOwnCall};
ghost use Rattle.sl_trace.specs.Traces.{first_child, new_call};
ghost use Rattle.sl_host.specs.Host.{Becomes, SameRun};
ghost use Rattle.sl_words.specs.Bounds.{moments};
ghost use Rattle.std.specs.Prelude.{filter, not, ℕ, ◌+◌, ◌-◌, ◌<◌, ◌≡◌};

use crate::books::Books;
use sl_host_state::{ValuePair, WaitingCall};
use sl_member::Members;
use sl_sector::{Block, DeltaRec, DeltaState, Leader, PairBlock, Rec, Request, ValueRec};
use sl_text::{Data, FilePath, Name};
use sl_trace::{
    Call, End, Grant, JoinStep, LeaseRead, LeaseStep, Move, Op, Purpose, Sent, Start, Work,
};
use std::marker::Model;

/// A host. Its members have memory for as many leases each as it may make calls, and there is memory for as many members as may join.
#[derive(Drop)]
pub struct Host {
    pub(crate) members: Members,
    pub(crate) books: Books,
}

impl Model for Host {
    ghost use Rattle.sl_trace.specs.CountLimits.{most_lockspaces};
    ghost use Rattle.sl_host.specs.Books.{kept_of};
    ghost use Rattle.sl_host.specs.Host.{HostView};
    ghost use Rattle.std.specs.Prelude.{◌≡◌, ◌≤◌};

    ghost Value = { HostView };

    ghost view = { λ h. record { kept = kept_of h.members.members h.books; left = h.books.left; calls = h.books.calls; most = h.books.most; most_calls = h.books.most_calls; seats = h.members.most } };

    ghost invariant = { λ h. (h.members.run ≡ record { timing = h.books.config.timing; sizes = h.books.config.sizes; host = h.books.config.name }) × (h.books.calls ≤ h.members.room)
        × (most_lockspaces ≤ h.members.most) };
}

/// The types within a call. A body that carries a call over another one names them all (`_within`, which is nothing): the borrow check
/// refuses it where one is not named there, with a message that calls itself a fault.
pub(crate) type WithinCall = (
    (
        Op,
        Purpose,
        Work,
        LeaseStep,
        LeaseRead,
        JoinStep,
        ValuePair,
        WaitingCall,
    ),
    (
        Rec,
        Leader,
        Block,
        PairBlock,
        DeltaRec,
        DeltaState,
        Request,
        ValueRec,
    ),
    (Name, Data, FilePath),
);

/// The joined sessions whose connection goes by a move are over.
#[tactic(auto, using(crate::proofs::HostStands::none_ended))]
fn part_with(members: &mut Members, step: &Move)
    ensures members { members.new.members ≡ filter (λ m. not (is_ended_by_move step.now m)) members.old.members }
    ensures run { (members.new.run ≡ members.old.run) × (members.new.room ≡ members.old.room) × (members.new.most ≡ members.old.most) }
{
    match step {
        Move::Register { .. } => {}
        Move::Renew { .. } => {}
        Move::Unregister { lockspace } => members.remove_joined(lockspace),
    }
}

impl Host {
    /// The step has one more end, and what it ends is held no more. It uses one of the room.
    pub fn end(&mut self, end: End)
        requires { 0 < self.old.left }
        ensures state { Becomes self.old self.new (with_end end) }
        ensures left { (self.new.left ≡ self.old.left - 1) × (self.new.calls ≡ self.old.calls) }
        ensures run { SameRun self.old self.new }
    {
        self.books.end(end);
    }

    /// The step has one more grant, which is held from here on. It uses one of the room.
    pub fn grant(&mut self, grant: Grant)
        requires { 0 < self.old.left }
        ensures state { Becomes self.old self.new (with_grant grant) }
        ensures left { (self.new.left ≡ self.old.left - 1) × (self.new.calls ≡ self.old.calls) }
        ensures run { SameRun self.old self.new }
    {
        self.books.grant(grant);
    }

    /// The step has one more signal. It uses one of the room.
    pub fn signal(&mut self, sent: Sent)
        requires { 0 < self.old.left }
        ensures state { Becomes self.old self.new (with_signal sent.process sent.signal) }
        ensures left { (self.new.left ≡ self.old.left - 1) × (self.new.calls ≡ self.old.calls) }
        ensures run { SameRun self.old self.new }
    {
        self.books.signal(sent);
    }

    /// One more start, with the next child's number.
    pub fn start(&mut self, start: Start)
        requires left { 0 < self.old.left }
        requires next { start.process ≡ first_child + self.old.kept.started }
        ensures state { Becomes self.old self.new (with_start start) }
        ensures left { (self.new.left ≡ self.old.left - 1) × (self.new.calls ≡ self.old.calls) }
        ensures run { SameRun self.old self.new }
    {
        self.books.start(start);
    }

    /// One more move of a connection. A joined session whose connection goes is over.
    pub fn move_on(&mut self, step: Move)
        requires { 0 < self.old.left }
        ensures state { Becomes self.old self.new (with_move step) }
        ensures left { (self.new.left ≡ self.old.left - 1) × (self.new.calls ≡ self.old.calls) }
        ensures run { SameRun self.old self.new }
    {
        part_with(&mut self.members, &step);
        self.books.move_on(step);
    }

    /// One more call of a session, with the next number.
    pub fn call(&mut self, session: u64, path: FilePath, purpose: Purpose, offset: u64, op: Op)
        requires left { 0 < self.old.calls }
        requires moment { self.old.kept.reading < moments }
        requires own { (n : ℕ) → IsOwnCall (new_call 0 self.old.kept.reading (record { number = n; session = session; purpose = purpose; path = path; offset = offset; op = op })) }
        ensures state { Becomes self.old self.new (with_call session path purpose offset op) }
        ensures left { (self.new.left ≡ self.old.left) × (self.new.calls ≡ self.old.calls - 1) }
        ensures run { SameRun self.old self.new }
    {
        let _within: Option<WithinCall> = None;
        let call = Call {
            number: self.books.next_call(),
            session,
            purpose,
            path,
            offset,
            op,
        };
        let now = self.books.reading();
        self.members.calling(now, &call);
        self.books.call(call);
    }
}
