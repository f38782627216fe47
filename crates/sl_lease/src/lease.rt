//! What a session keeps of its work on one resource's lease.
//!
//! Everything that is asked of a lease is a function of the calls that worked on it and of their answers. A lease keeps what these
//! questions come to in place of the calls. It stands for each list of calls that led to it (`LeaseStands`), each part being the answer to
//! one question:
//!
//! - own: the block submitted last, answered or not, since a call that failed may still have been done.
//! - top: the greatest number that the blocks read last showed in the own block's instance. A ballot that is run again must go above it.
//! - name: the resource's name, once a leader has shown it. Before, a lease could write over the area of another resource.
//! - freed: the greatest instance of which a free was submitted. The session never holds again under one of these.
//! - ballot: the instance of the open ballot: its phase 2 was submitted and nothing has concluded it. Another host may end it.
//! - shown: whether the shared mode may stand in the own block. It counts as gone only once its clearing is answered.
//! - won: the instance won last whose free isn't known to be done. Unless it is held, it keeps everybody away.
//! - waiting: the newest call, while it has no answer; no other has none. Two writes of the own block could land in the other order.
//! - value: version and seq of the value submitted last on the area.
//! - turn, first, again: with pairs, the turn of the own pair that was shown last, by a read's answer or by a write that was done: the next
//!   block has the next one. What the answer of a first read gave, while the second may be made or asks for it. Whether the newest call is
//!   a second one.
ghost use Rattle.sl_host_state.specs.KeptState.{LeaseState};
ghost use Rattle.sl_host_state.specs.MadeEffects.{new_lease, pair_calling};
ghost use Rattle.sl_host_state.specs.HostStands.{turn_kept};
ghost use Rattle.sl_lease.specs.Bounds.{IsBegun};
ghost use Rattle.sl_lease.specs.Changes.{after_block, after_leader, after_reading, after_value};
ghost use Rattle.sl_sector.specs.Records.{Fits};
ghost use Rattle.sl_trace.specs.Leases.{is_second};
ghost use Rattle.std.specs.Prelude.{IfSome, None, cond, option_map, unwrap_or, [], ◌+◌, ◌^◌, ◌≡◌, ◌≤◌};

use crate::kept_changes::{ballot_over, freed_by, is_phase2_write, is_second};
use crate::pairs::Pairs;
use sl_host_state::{LeaseCall, TopNumber, ValuePair};
use sl_sector::{Block, Leader};
use sl_text::Name;
use sl_trace::{LeaseStep, Spot, Work};
use std::marker::Model;

/// A session's work on one resource's lease.
#[derive(Drop)]
pub struct Lease {
    pub(crate) spot: Spot,
    pub(crate) own: Option<Block>,
    pub(crate) top: Option<TopNumber>,
    pub(crate) name: Option<Name>,
    pub(crate) freed: u64,
    pub(crate) ballot: Option<u64>,
    pub(crate) shown: bool,
    pub(crate) won: Option<u64>,
    pub(crate) waiting: Option<LeaseCall>,
    pub(crate) value: Option<ValuePair>,
    pub(crate) turn: Option<u64>,
    pub(crate) first: Option<Pairs>,
    pub(crate) again: bool,
}

impl Model for Lease {
    ghost use Rattle.sl_host_state.specs.KeptState.{LeaseState};
    ghost use Rattle.sl_lease.specs.Bounds.{IsWithinBounds};
    ghost use Rattle.sl_sector.specs.Records.{Fits};
    ghost use Rattle.std.specs.Prelude.{IfSome, unwrap_or, [], ◌≤◌};

    ghost Value = { LeaseState };

    ghost view = { λ l. record {
      spot = l.spot;
      own = l.own;
      top = l.top;
      name = unwrap_or l.name [];
      freed = l.freed;
      ballot = l.ballot;
      shown = l.shown;
      won = l.won;
      waiting = l.waiting;
      value = l.value;
      pair = record { turn = l.turn; first = l.first; again = l.again };
    } };

    ghost invariant = { λ l. IsWithinBounds l.own l.freed l.ballot l.won l.turn × IfSome l.waiting (λ w. IfSome w.turn (λ t. (1 ≤ t) × Fits t)) };
}

impl Lease {
    /// The lease on an area, before its first call.
    pub fn new(spot: Spot) -> Lease
        ensures { result ≡ new_lease spot }
    {
        Lease {
            spot,
            own: None,
            top: None,
            name: None,
            freed: 0,
            ballot: None,
            shown: false,
            won: None,
            waiting: None,
            value: None,
            turn: None,
            first: None,
            again: false,
        }
    }

    /// The resource's area on which the lease works.
    pub fn spot(&self) -> Spot
        ensures { result ≡ self.now.spot }
    {
        self.spot
    }

    /// Version and seq of the value that was submitted last on the area.
    pub fn value(&self) -> Option<ValuePair>
        ensures { result ≡ self.now.value }
    {
        self.value
    }

    /// The resource's name that it has verified, if it has.
    pub fn name(&self) -> Option<Name>
        ensures { unwrap_or result [] ≡ self.now.name }
    {
        self.name
    }

    /// The turn of its next block, where blocks have one: 1 to 2^63.
    pub fn next_turn(&self) -> u64
        ensures exact { result ≡ turn_kept self.now.pair + 1 }
        ensures bound { result ≤ 2 ^ 63 }
    {
        match self.turn {
            Some(turn) => turn + 1,
            None => 1,
        }
    }

    /// What is kept of the first read, for a read at this step that is the second one.
    pub fn first_for(&self, step: &LeaseStep) -> Option<&Pairs>
        ensures { option_map (λ p. p.now) result ≡ cond (is_second step.now) self.now.pair.first None }
    {
        if is_second(step) {
            self.first.as_ref()
        } else {
            None
        }
    }

    /// A call at this step is submitted: only a second read asks for what the first one gave.
    fn goes_on(&mut self, step: &LeaseStep)
        ensures { self.new ≡ record self.old { pair = pair_calling (is_second step.now) self.old.pair } }
    {
        self.again = is_second(step);
        if !self.again {
            self.first = None;
        }
    }

    /// A read at this step is submitted, as the call of this number.
    pub fn reads(&mut self, number: u64, work: Work, step: LeaseStep)
        ensures { self.new ≡ after_reading number work step self.old }
    {
        self.goes_on(&step);
        self.waiting = Some(LeaseCall {
            number,
            work,
            step,
            frees: None,
            clears: false,
            turn: None,
        });
    }

    /// A write of this block is submitted, with this turn where it is one of a pair, at a step that writes the own block. From here on it is
    /// the own block, whatever comes of the write.
    pub fn writes_block(
        &mut self,
        number: u64,
        work: Work,
        step: LeaseStep,
        turn: Option<u64>,
        block: Block,
    )
        requires begun { IsBegun block }
        requires turn { IfSome turn (λ t. (1 ≤ t) × Fits t) }
        ensures { self.new ≡ after_block number work step turn block self.old }
    {
        self.goes_on(&step);
        let shared = block.shared;
        self.ballot = ballot_over(is_phase2_write(&step), block.lver, self.ballot);
        self.shown = shared || self.shown;
        self.waiting = Some(LeaseCall {
            number,
            work,
            step,
            frees: None,
            clears: !shared,
            turn,
        });
        self.own = Some(block);
    }

    /// A write of this leader is submitted, at a step that writes the leader. A free counts as such from here on, whatever comes of the
    /// write.
    pub fn writes_leader(&mut self, number: u64, work: Work, step: LeaseStep, leader: &Leader)
        requires { Fits leader.now.lver }
        ensures { self.new ≡ after_leader number work step leader.now self.old }
    {
        self.goes_on(&step);
        self.freed = freed_by(leader).max(self.freed);
        self.waiting = Some(LeaseCall {
            number,
            work,
            step,
            frees: if leader.held { None } else { Some(leader.lver) },
            clears: false,
            turn: None,
        });
    }

    /// A value of this version is submitted on the area.
    pub fn sets_value(&mut self, value: ValuePair)
        ensures { self.new ≡ after_value value self.old }
    {
        self.value = Some(value);
    }
}
