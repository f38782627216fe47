//! What a lease does next: at most one call, one reply, one grant, or the conversion of a holding with the call that it then owes.
//!
//! An exclusive acquire reads the area, runs a ballot, takes the leader and is granted. A shared one takes the leader too, but then writes
//! its mode and frees the leader, in this order: were the leader free before the mode stood in the block, an exclusive acquire could begin
//! the next instance, read no mode and be granted beside it. The own mode is cleared in one write, after which the release is done.
//!
//! A conversion to shared writes its mode while the leader stands, and frees the leader once it is done; one to exclusive goes the way of an
//! acquire while its mode stands, and clears the mode once it is done. So what is held covers the process at each moment of either.
ghost use Rattle.sl_host_state.specs.HostStands.{LeaseStands};
ghost use Rattle.sl_lease.specs.LeaseQuestions.{IsLastRead, TopStands, again_asked, exclusive_with, free_with, mode_with, phase1_ended, phase2_ended, read_asked, shared_with};
ghost use Rattle.sl_lease.specs.Bounds.{IsInstance, IsRead, IsSession};
ghost use Rattle.sl_lease.specs.Side.{is_named, known_with, layout_in, place_of};
ghost use Rattle.sl_lease.specs.Steps.{IsFitNext, is_first_step};
ghost use Rattle.sl_lease.specs.declared.outer_facts.Held.{Held};
ghost use Rattle.sl_trace.specs.LeaseDecisions.{LeasePlace, after_clearing, after_freeing, after_moding, after_take, after_write, asked_again, lease_next, refuses, refuses_block, settle_begin, within_turn};
ghost use Rattle.sl_trace.specs.Releases.{release_next};
ghost use Rattle.sl_trace.specs.declared.effects.LeaseRead.{LeaseRead as LeaseReadOf};
ghost use Rattle.sl_trace.specs.declared.lease.Aim.TheVariants.{Converts, Releases, Settles};
ghost use Rattle.sl_trace.specs.declared.lease.Aim.{Aim as AimOf};
ghost use Rattle.sl_trace.specs.Leases.{LeaseKnown, known_of};
ghost use Rattle.sl_sector.specs.Records.{IsLeader};
ghost use Rattle.sl_sector.specs.declared.sector.Block.{Block};
ghost use Rattle.sl_trace.specs.Traces.{Submitted};
ghost use Rattle.sl_trace.specs.declared.input.Answer.TheVariants.{Read, Written};
ghost use Rattle.sl_trace.specs.declared.reply.Reply.TheVariants.{IoFault};
ghost use Rattle.std.specs.Prelude.{Bool, IfSome, IsTrue, List, Option, Some, ℕ, ◌||◌, ◌≡◌};

use crate::ballots::leader_for;
use crate::kept_changes::read_of_step;
use crate::lease::Lease;
use crate::outer_facts::{Evidence, Held};
use crate::owed::refuses;
use crate::side::Side;
use sl_ballot::{moded_block, stop_of};
use sl_sector::{Block, Leader};
use sl_trace::{Aim, LeaseNext, LeaseRead, LeaseStep, Limited, Mode, Reply};

impl Lease {
    /// The free that is owed is written.
    fn free_next(&self, side: &Side, held: Held) -> LeaseNext
        requires { IsSession side.now.geometry side.now.me }
        ensures exact { IsTrue (is_named self.now) → result ≡ free_with side.now self.now held }
        ensures fit { IsFitNext result }
    {
        match self.owed_free(held) {
            Some(n) => self.write_leader(side, LeaseStep::FreeLeader, false, n),
            None => LeaseNext::Nothing,
        }
    }

    /// After the read of phase 1.
    fn phase1_done<E: Evidence>(
        &self,
        side: &Side,
        held: Held,
        evidence: &E,
        aim: Aim,
        read: &[Option<Block>],
    ) -> LeaseNext
        requires { IsRead side.now.geometry side.now.me read.now }
        ensures exact { TopStands self.now read.now
            → result ≡ phase1_ended (place_of side.now) (known_with side.now self.now held (E.over evidence.now) read.now) aim read.now }
        ensures fit { IsFitNext result }
    {
        match &self.own {
            Some(own) => {
                let stop = stop_of(own, read);
                self.after_phase1(side, held, evidence, aim, own, read, stop)
            }
            None => LeaseNext::Nothing,
        }
    }

    /// After the read of phase 2.
    fn phase2_done<E: Evidence>(
        &self,
        side: &Side,
        held: Held,
        evidence: &E,
        aim: Aim,
        read: &[Option<Block>],
    ) -> LeaseNext
        requires { IsRead side.now.geometry side.now.me read.now }
        ensures exact { IsTrue (is_named self.now) → TopStands self.now read.now
            → result ≡ phase2_ended (place_of side.now) (known_with side.now self.now held (E.over evidence.now) read.now) aim read.now }
        ensures fit { IsFitNext result }
    {
        match &self.own {
            Some(own) => {
                let stop = stop_of(own, read);
                self.after_phase2(side, held, evidence, aim, own, read, stop)
            }
            None => LeaseNext::Nothing,
        }
    }

    /// What was decided, unless it writes a block whose turn would pass its limit. Only blocks of pairs have a turn.
    #[tactic(auto, unfolding(sl_trace::specs::LeaseDecisions::within_turn))]
    pub(crate) fn within_turn(&self, side: &Side, aim: Aim, next: LeaseNext) -> LeaseNext
        requires { IsSession side.now.geometry side.now.me }
        ensures exact { (h : Held) (over : ℕ → ℕ → Bool) (read : List (Option Block)) → result ≡ within_turn (place_of side.now) (known_with side.now self.now h over read) aim next }
        ensures fit { IsFitNext next → IsFitNext result }
    {
        if side.geometry.is_paired() && self.next_turn() >= 1 << 63 {
            refuses_block(aim, next)
        } else {
            next
        }
    }

    /// What comes next after a read at this step, which gave this leader, if it reads one, and these blocks, those of hosts 1, 2 .. in order,
    /// none where one is torn. The answer was told by `read_answered` before.
    pub fn after_read<E: Evidence>(
        &self,
        side: &Side,
        held: Held,
        evidence: &E,
        aim: Aim,
        step: LeaseStep,
        leader: &Option<Leader>,
        read: &[Option<Block>],
    ) -> LeaseNext
        requires leader { IfSome leader.now IsLeader }
        requires read { IsRead side.now.geometry side.now.me read.now }
        ensures exact { IsTrue (is_first_step step || is_named self.now) → TopStands self.now read.now
            → result ≡ within_turn (place_of side.now) (known_with side.now self.now held (E.over evidence.now) read.now) aim
            (read_asked (place_of side.now) (known_with side.now self.now held (E.over evidence.now) read.now) aim leader.now read.now step) }
        ensures decides { (call n : ℕ) (bytes : List ℕ) (ms : List Submitted) → IsTrue (is_first_step step || is_named self.now)
            → LeaseStands (layout_in side.now) side.now.lockspace side.now.me self.now ms → IsLastRead (layout_in side.now) step bytes leader.now read.now ms
            → result ≡ within_turn (place_of side.now) (known_of (layout_in side.now) side.now.lockspace side.now.me held.shared held.exclusive (E.over evidence.now) ms) aim
            (lease_next (place_of side.now) (known_of (layout_in side.now) side.now.lockspace side.now.me held.shared held.exclusive (E.over evidence.now) ms)
            aim call n step (Read bytes)) }
        ensures fit { IsFitNext result }
    {
        let next = self.read_next(side, held, evidence, aim, step, leader, read);
        self.within_turn(side, aim, next)
    }

    /// The same, by what is kept of the lease.
    fn read_next<E: Evidence>(
        &self,
        side: &Side,
        held: Held,
        evidence: &E,
        aim: Aim,
        step: LeaseStep,
        leader: &Option<Leader>,
        read: &[Option<Block>],
    ) -> LeaseNext
        requires leader { IfSome leader.now IsLeader }
        requires read { IsRead side.now.geometry side.now.me read.now }
        ensures exact { IsTrue (is_first_step step || is_named self.now) → TopStands self.now read.now
            → result ≡ read_asked (place_of side.now) (known_with side.now self.now held (E.over evidence.now) read.now) aim leader.now read.now step }
        ensures fit { IsFitNext result }
    {
        match step {
            LeaseStep::ReadArea { resource } => {
                self.after_area(side, held, evidence, aim, &resource, leader, read)
            }
            LeaseStep::ReadBeforeFree => self.free_next(side, held),
            LeaseStep::ReadBeforeBlock => self.settle_known(side, held),
            LeaseStep::ReadAgain { read: first } => match first {
                LeaseRead::OfArea { resource } => {
                    self.after_area(side, held, evidence, aim, &resource, leader, read)
                }
                LeaseRead::OfFree => self.free_next(side, held),
                LeaseRead::OfBlock => self.settle_known(side, held),
                LeaseRead::OfPhase1 => self.phase1_done(side, held, evidence, aim, read),
                LeaseRead::OfPhase2 => self.phase2_done(side, held, evidence, aim, read),
            },
            LeaseStep::Phase1Write => LeaseNext::Nothing,
            LeaseStep::Phase1Read => self.phase1_done(side, held, evidence, aim, read),
            LeaseStep::Phase2Write => LeaseNext::Nothing,
            LeaseStep::Phase2Read => self.phase2_done(side, held, evidence, aim, read),
            LeaseStep::TakeLeader => LeaseNext::Nothing,
            LeaseStep::SetMode => LeaseNext::Nothing,
            LeaseStep::FreeLeader => LeaseNext::Nothing,
            LeaseStep::ClearMode => LeaseNext::Nothing,
        }
    }

    /// The leader of `n` is taken: exclusive is granted, or the shared holding converted and its mode cleared; shared goes on with the own
    /// block's mode.
    fn after_take(&self, side: &Side, aim: Aim, n: u64) -> LeaseNext
        requires { IsSession side.now.geometry side.now.me }
        ensures exact { (h : Held) (over : ℕ → ℕ → Bool) (read : List (Option Block)) → result ≡ after_take (known_with side.now self.now h over read) aim n }
        ensures fit { IsInstance n → IsFitNext result }
    {
        match aim {
            Aim::Acquires(Mode::Exclusive) => LeaseNext::GrantJob {
                mode: Mode::Exclusive,
                lver: n,
            },
            Aim::Acquires(Mode::Shared) => self.set_mode(side),
            Aim::Converts(Mode::Exclusive) => self.become_exclusive(n),
            Aim::Converts(Mode::Shared) => LeaseNext::Nothing,
            Aim::Releases => LeaseNext::Nothing,
            Aim::Settles => LeaseNext::Nothing,
        }
    }

    /// The shared holding becomes an exclusive one of `n`, and the own block is written without the mode.
    fn become_exclusive(&self, n: u64) -> LeaseNext
        ensures exact { result ≡ exclusive_with self.now n }
        ensures fit { IsInstance n → IsFitNext result }
    {
        match &self.own {
            Some(own) => LeaseNext::BecomeExclusive {
                lver: n,
                block: moded_block(own, false, 0),
            },
            None => LeaseNext::Nothing,
        }
    }

    /// The exclusive holding becomes a shared one of the same instance, whose leader is written free.
    fn become_shared(&self, side: &Side, held: Held) -> LeaseNext
        requires { IsSession side.now.geometry side.now.me }
        ensures exact { IsTrue (is_named self.now) → result ≡ shared_with side.now self.now held }
        ensures fit { IsFitNext result }
    {
        match (&self.name, held.exclusive) {
            (Some(resource), Some(lver)) => LeaseNext::BecomeShared {
                lver,
                leader: leader_for(side, *resource, false, lver),
            },
            _ => LeaseNext::Nothing,
        }
    }

    /// The mode stands: an acquire frees the leader of `n` before it is granted; a conversion is done, and the leader of the instance that
    /// was held is freed after it.
    fn after_moding(&self, side: &Side, held: Held, aim: Aim, n: u64) -> LeaseNext
        requires { IsSession side.now.geometry side.now.me }
        ensures exact { IsTrue (is_named self.now) → (over : ℕ → ℕ → Bool) (read : List (Option Block))
            → result ≡ after_moding (place_of side.now) (known_with side.now self.now held over read) aim n }
        ensures fit { IsInstance n → IsFitNext result }
    {
        match aim {
            Aim::Acquires(_) => self.write_leader(side, LeaseStep::FreeLeader, false, n),
            Aim::Converts(_) => self.become_shared(side, held),
            Aim::Releases => LeaseNext::Nothing,
            Aim::Settles => LeaseNext::Nothing,
        }
    }

    /// The own block with the shared mode is written.
    pub(crate) fn set_mode(&self, side: &Side) -> LeaseNext
        requires { IsSession side.now.geometry side.now.me }
        ensures exact { result ≡ mode_with side.now self.now }
        ensures fit { IsFitNext result }
    {
        match &self.own {
            Some(own) => LeaseNext::WriteBlock {
                step: LeaseStep::SetMode,
                block: moded_block(own, true, side.me.generation),
            },
            None => LeaseNext::Nothing,
        }
    }

    /// The leader of `n` is freed: a shared acquire is granted, a release is done, a settling goes on.
    fn after_freeing(&self, side: &Side, held: Held, aim: Aim, n: u64) -> LeaseNext
        requires { IsSession side.now.geometry side.now.me }
        ensures exact { (over : ℕ → ℕ → Bool) (read : List (Option Block)) → TopStands self.now read
            → result ≡ after_freeing (place_of side.now) (known_with side.now self.now held over read) aim n }
        ensures fit { IsInstance n → IsFitNext result }
    {
        match aim {
            Aim::Acquires(_) => LeaseNext::GrantJob {
                mode: Mode::Shared,
                lver: n,
            },
            Aim::Converts(_) => LeaseNext::Nothing,
            Aim::Releases => LeaseNext::AnswerJob(Reply::Done),
            Aim::Settles => self.settle_known(side, held),
        }
    }

    /// The mode is cleared: a release is done, a settling goes on.
    fn after_clearing(&self, side: &Side, held: Held, aim: Aim) -> LeaseNext
        requires { IsSession side.now.geometry side.now.me }
        ensures exact { (over : ℕ → ℕ → Bool) (read : List (Option Block)) → TopStands self.now read
            → result ≡ after_clearing (place_of side.now) (known_with side.now self.now held over read) aim }
        ensures fit { IsFitNext result }
    {
        match aim {
            Aim::Acquires(_) => LeaseNext::Nothing,
            Aim::Converts(_) => LeaseNext::Nothing,
            Aim::Releases => LeaseNext::AnswerJob(Reply::Done),
            Aim::Settles => self.settle_known(side, held),
        }
    }

    /// What comes next after a write at this step that is done, of a block or leader of instance `n`. The answer was told by
    /// `write_answered` before.
    pub fn after_write(
        &self,
        side: &Side,
        held: Held,
        aim: Aim,
        n: u64,
        step: LeaseStep,
    ) -> LeaseNext
        requires { IsSession side.now.geometry side.now.me }
        ensures exact { IsTrue (is_first_step step || is_named self.now) → (over : ℕ → ℕ → Bool) (read : List (Option Block)) → TopStands self.now read
            → result ≡ within_turn (place_of side.now) (known_with side.now self.now held over read) aim
            (after_write (place_of side.now) (known_with side.now self.now held over read) aim n step) }
        ensures decides { (call : ℕ) (over : ℕ → ℕ → Bool) (ms : List Submitted) → IsTrue (is_first_step step || is_named self.now)
            → LeaseStands (layout_in side.now) side.now.lockspace side.now.me self.now ms
            → result ≡ within_turn (place_of side.now) (known_of (layout_in side.now) side.now.lockspace side.now.me held.shared held.exclusive over ms) aim
            (lease_next (place_of side.now) (known_of (layout_in side.now) side.now.lockspace side.now.me held.shared held.exclusive over ms)
            aim call n step Written) }
        ensures fit { IsInstance n → IsFitNext result }
    {
        let next = self.write_next(side, held, aim, n, step);
        self.within_turn(side, aim, next)
    }

    /// The same, by what is kept of the lease.
    fn write_next(&self, side: &Side, held: Held, aim: Aim, n: u64, step: LeaseStep) -> LeaseNext
        requires { IsSession side.now.geometry side.now.me }
        ensures exact { IsTrue (is_first_step step || is_named self.now) → (over : ℕ → ℕ → Bool) (read : List (Option Block)) → TopStands self.now read
            → result ≡ after_write (place_of side.now) (known_with side.now self.now held over read) aim n step }
        ensures fit { IsInstance n → IsFitNext result }
    {
        match step {
            LeaseStep::ReadArea { resource: _ } => LeaseNext::Nothing,
            LeaseStep::ReadBeforeFree => LeaseNext::Nothing,
            LeaseStep::ReadBeforeBlock => LeaseNext::Nothing,
            LeaseStep::ReadAgain { read: _ } => LeaseNext::Nothing,
            LeaseStep::Phase1Write => LeaseNext::ReadFor(LeaseStep::Phase1Read),
            LeaseStep::Phase1Read => LeaseNext::Nothing,
            LeaseStep::Phase2Write => LeaseNext::ReadFor(LeaseStep::Phase2Read),
            LeaseStep::Phase2Read => LeaseNext::Nothing,
            LeaseStep::TakeLeader => self.after_take(side, aim, n),
            LeaseStep::SetMode => self.after_moding(side, held, aim, n),
            LeaseStep::FreeLeader => self.after_freeing(side, held, aim, n),
            LeaseStep::ClearMode => self.after_clearing(side, held, aim),
        }
    }

    /// What a settling does next, where no call waits: an open ballot is run to its end, else a mode that is left over is cleared, else a
    /// free that is owed is looked after. Nothing where nothing is owed.
    pub fn settle(&self, side: &Side, held: Held) -> LeaseNext
        requires { IsSession side.now.geometry side.now.me }
        ensures exact { (over : ℕ → ℕ → Bool) (read : List (Option Block)) → TopStands self.now read
            → result ≡ within_turn (place_of side.now) (known_with side.now self.now held over read) Settles
            (settle_begin (place_of side.now) (known_with side.now self.now held over read)) }
        ensures decides { (over : ℕ → ℕ → Bool) (ms : List Submitted) → LeaseStands (layout_in side.now) side.now.lockspace side.now.me self.now ms
            → result ≡ within_turn (place_of side.now) (known_of (layout_in side.now) side.now.lockspace side.now.me held.shared held.exclusive over ms) Settles
            (settle_begin (place_of side.now) (known_of (layout_in side.now) side.now.lockspace side.now.me held.shared held.exclusive over ms)) }
        ensures fit { IsFitNext result }
    {
        let next = self.settle_first(side, held);
        self.within_turn(side, Aim::Settles, next)
    }

    /// A settling begins: with pairs, one that writes a block reads the blocks first, once, for the turn and the next number alone.
    #[tactic(auto, unfolding(sl_trace::specs::LeaseDecisions::settle_begin))]
    fn settle_first(&self, side: &Side, held: Held) -> LeaseNext
        requires { IsSession side.now.geometry side.now.me }
        ensures exact { (over : ℕ → ℕ → Bool) (read : List (Option Block)) → TopStands self.now read
            → result ≡ settle_begin (place_of side.now) (known_with side.now self.now held over read) }
        ensures fit { IsFitNext result }
    {
        if side.geometry.is_paired() && self.owes_block(held) {
            LeaseNext::ReadFor(LeaseStep::ReadBeforeBlock)
        } else {
            self.settle_known(side, held)
        }
    }

    /// What a release does first, once the last holding under the lease has ended: an exclusive lease of instance `lver` frees the leader,
    /// a shared one clears its mode.
    pub fn release(&self, side: &Side, mode: Mode, lver: u64) -> LeaseNext
        requires { IsSession side.now.geometry side.now.me }
        ensures exact { IsTrue (is_named self.now) → (held : Held) (over : ℕ → ℕ → Bool) (read : List (Option Block))
            → result ≡ within_turn (place_of side.now) (known_with side.now self.now held over read) Releases
            (release_next (place_of side.now) (known_with side.now self.now held over read) mode lver) }
        ensures decides { IsTrue (is_named self.now) → (held : Held) (over : ℕ → ℕ → Bool) (ms : List Submitted)
            → LeaseStands (layout_in side.now) side.now.lockspace side.now.me self.now ms
            → result ≡ within_turn (place_of side.now) (known_of (layout_in side.now) side.now.lockspace side.now.me held.shared held.exclusive over ms) Releases
            (release_next (place_of side.now) (known_of (layout_in side.now) side.now.lockspace side.now.me held.shared held.exclusive over ms) mode lver) }
        ensures fit { IsInstance lver → IsFitNext result }
    {
        let next = self.release_known(side, mode, lver);
        self.within_turn(side, Aim::Releases, next)
    }

    /// The same, by what is kept of the lease.
    fn release_known(&self, side: &Side, mode: Mode, lver: u64) -> LeaseNext
        requires { IsSession side.now.geometry side.now.me }
        ensures exact { IsTrue (is_named self.now) → (held : Held) (over : ℕ → ℕ → Bool) (read : List (Option Block))
            → result ≡ release_next (place_of side.now) (known_with side.now self.now held over read) mode lver }
        ensures fit { IsInstance lver → IsFitNext result }
    {
        match mode {
            Mode::Exclusive => self.write_leader(side, LeaseStep::FreeLeader, false, lver),
            Mode::Shared => self.clear_mode(),
        }
    }
}

/// Refused where it writes a block.
fn refuses_block(aim: Aim, next: LeaseNext) -> LeaseNext
    ensures exact { result ≡ refuses_block aim next }
    ensures fit { IsFitNext next → IsFitNext result }
{
    let limit = Reply::Limit {
        which: Limited::Turn,
    };
    match next {
        LeaseNext::WriteBlock { step: _, block: _ } => refuses(aim, limit),
        LeaseNext::BecomeExclusive { lver: _, block: _ } => refuses(aim, limit),
        next => next,
    }
}

/// What comes next after the answer of a first read at this step, which is to be made once more.
pub fn after_first(step: LeaseStep) -> LeaseNext
    ensures exact { result ≡ again_asked step }
    ensures decides { (p : LeasePlace) (k : LeaseKnown) (aim : AimOf) (call n : ℕ) (bytes : List ℕ) (read : LeaseReadOf) → asked_again p.layout bytes step ≡ Some read
        → result ≡ within_turn p k aim (lease_next p k aim call n step (Read bytes)) }
    ensures fit { IsFitNext result }
{
    match read_of_step(&step) {
        Some(read) => LeaseNext::ReadFor(LeaseStep::ReadAgain { read }),
        None => LeaseNext::Nothing,
    }
}

/// What comes next after the call of this number has failed.
pub fn after_failure(aim: Aim, call: u64) -> LeaseNext
    ensures exact { result ≡ refuses aim (IoFault call) }
    ensures within { (p : LeasePlace) (k : LeaseKnown) → within_turn p k aim result ≡ result }
    ensures fit { IsFitNext result }
{
    refuses(aim, Reply::IoFault { call })
}
