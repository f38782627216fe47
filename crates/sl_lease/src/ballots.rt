//! What a lease does after the reads of a ballot.
//!
//! A stop comes first: what another block shows of a later instance or a greater number, or may hide by being torn, ends the try. Then an
//! exclusive acquire looks for others' shared modes. It has to do so in phase 1, after its own number stands on the disk and before its
//! value does: whoever gains the shared mode later must pass a ballot of its own, and meets this one. A shared acquire doesn't look, since
//! shared leases stand beside each other.
ghost use Rattle.sl_lease.specs.LeaseQuestions.{TopStands, held_by_other, is_shared_beside, leader_named, phase2_with};
ghost use Rattle.sl_lease.specs.Bounds.{IsBegun, IsGranted, IsInstance, IsRead, IsSession};
ghost use Rattle.sl_lease.specs.Side.{is_named, known_with, place_of};
ghost use Rattle.sl_lease.specs.Steps.{IsFitNext, is_leader_step};
ghost use Rattle.sl_lease.specs.declared.outer_facts.Held.{Held};
ghost use Rattle.sl_trace.specs.LeaseDecisions.{after_phase1, after_phase2, ended_next, looks_for_shared, lost_next, stop_reply, stopped_next, unstopped_next, won_next};
ghost use Rattle.sl_trace.specs.Leases.{shared_elsewhere};
ghost use Rattle.sl_trace.specs.declared.lease.LeaseNext.TheVariants.{WriteLeader};
ghost use Rattle.sl_sector.specs.declared.sector.Block.{Block};
ghost use Rattle.sl_words.specs.Words.{present, some_is};
ghost use Rattle.std.specs.Prelude.{Bool, IsTrue, List, Option, find, ℕ, ◌<◌, ◌≡◌};

use crate::kept_changes::is_ahead;
use crate::lease::Lease;
use crate::outer_facts::{Evidence, Held};
use crate::owed::mode_gen;
use crate::side::Side;
use sl_ballot::{moded_block, phase2_after_read, same_owner, value_of};
use sl_sector::{Block, Leader, Owner};
use sl_text::Name;
use sl_trace::{Aim, LeaseNext, LeaseStep, Mode, Reply, Stop};

/// The refusal by what a read of the blocks shows.
fn stop_reply(stop: Stop) -> Reply
    ensures { result ≡ stop_reply stop }
{
    match stop {
        Stop::BlockTorn { host } => Reply::TornBlock { host },
        Stop::BlockAhead { host, lver } => Reply::Ahead { host, lver },
        Stop::BlockRival { host, mbal } => Reply::Rival { host, mbal },
    }
}

/// Whether another's shared mode stands in the way: of an exclusive acquire and of a conversion to exclusive alone.
fn looks_for_shared(aim: Aim) -> bool
    ensures { result ≡ looks_for_shared aim }
{
    match aim {
        Aim::Acquires(Mode::Exclusive) => true,
        Aim::Acquires(Mode::Shared) => false,
        Aim::Converts(Mode::Exclusive) => true,
        Aim::Converts(Mode::Shared) => false,
        Aim::Releases => false,
        Aim::Settles => false,
    }
}

/// Whether the block shows the shared mode of another host than `id` that doesn't count as over.
fn is_shared_by_other<E: Evidence>(id: u32, evidence: &E, block: &Block) -> bool
    ensures { result ≡ is_shared_beside id (E.over evidence.now) block.now }
{
    block.host != id && block.shared && !evidence.is_over(block.host, block.mode_gen)
}

/// Whether a block was read and shows it.
fn shows_shared<E: Evidence>(id: u32, evidence: &E, block: &Option<Block>) -> bool
    ensures { result ≡ some_is (is_shared_beside id (E.over evidence.now)) block.now }
{
    match block {
        Some(block) => is_shared_by_other(id, evidence, block),
        None => false,
    }
}

/// The first block read that shows another's shared mode.
fn shared_elsewhere<E: Evidence>(id: u32, evidence: &E, read: &[Option<Block>]) -> Option<Block>
    ensures { result ≡ find (is_shared_beside id (E.over evidence.now)) (present read.now) }
{
    for block in read {
        if shows_shared(id, evidence, block) {
            return *block;
        }
    }
    None
}

/// The leader that a session writes for the resource of this name.
pub(crate) fn leader_for(side: &Side, resource: Name, held: bool, n: u64) -> Leader
    requires { IsSession side.now.geometry side.now.me }
    ensures exact { result ≡ leader_named side.now resource held n }
    ensures granted { IsInstance n → IsGranted result }
{
    Leader {
        held,
        num_hosts: side.geometry.hosts(),
        lver: n,
        generation: side.me.generation,
        owner: side.me.id,
        lockspace: side.lockspace,
        resource,
    }
}

/// The block of phase 2, with the mode that the session has now.
fn phase2(side: &Side, held: Held, own: &Block, read: &[Option<Block>]) -> LeaseNext
    requires { IsRead side.now.geometry side.now.me read.now }
    ensures exact { result ≡ phase2_with side.now held own.now read.now }
    ensures fit { IsBegun own.now → IsFitNext result }
{
    let _hosts = side.geometry.hosts();
    let block = phase2_after_read(side.me, own, read);
    LeaseNext::WriteBlock {
        step: LeaseStep::Phase2Write,
        block: moded_block(&block, held.shared, mode_gen(side, held)),
    }
}

impl Lease {
    /// The leader is written, once the resource's name is known.
    pub(crate) fn write_leader(&self, side: &Side, step: LeaseStep, held: bool, n: u64) -> LeaseNext
        requires { IsSession side.now.geometry side.now.me }
        ensures exact { IsTrue (is_named self.now) → result ≡ WriteLeader step (leader_named side.now self.now.name held n) }
        ensures fit { IsInstance n → IsTrue (is_leader_step step) → IsFitNext result }
    {
        match &self.name {
            Some(resource) => LeaseNext::WriteLeader {
                step,
                leader: leader_for(side, *resource, held, n),
            },
            None => LeaseNext::Nothing,
        }
    }

    /// After a stop: a job is refused; a block above the instance concludes the ballot, so a settling goes on; after any other it waits
    /// for a wake.
    fn stopped(&self, side: &Side, held: Held, aim: Aim, stop: Stop) -> LeaseNext
        requires { IsSession side.now.geometry side.now.me }
        ensures exact { (over : ℕ → ℕ → Bool) (read : List (Option Block)) → TopStands self.now read
            → result ≡ stopped_next (place_of side.now) (known_with side.now self.now held over read) aim stop }
        ensures fit { IsFitNext result }
    {
        match aim {
            Aim::Acquires(_) => LeaseNext::AnswerJob(stop_reply(stop)),
            Aim::Converts(_) => LeaseNext::AnswerJob(stop_reply(stop)),
            Aim::Releases => LeaseNext::AnswerJob(stop_reply(stop)),
            Aim::Settles => {
                if is_ahead(stop) {
                    self.settle_known(side, held)
                } else {
                    LeaseNext::Nothing
                }
            }
        }
    }

    /// After the read of phase 1, where nothing stops the ballot.
    fn unstopped<E: Evidence>(
        &self,
        side: &Side,
        held: Held,
        evidence: &E,
        aim: Aim,
        own: &Block,
        read: &[Option<Block>],
    ) -> LeaseNext
        requires { IsRead side.now.geometry side.now.me read.now }
        ensures exact { result ≡ unstopped_next (known_with side.now self.now held (E.over evidence.now) read.now) aim own.now read.now }
        ensures fit { IsBegun own.now → IsFitNext result }
    {
        if !looks_for_shared(aim) {
            return phase2(side, held, own, read);
        }
        match shared_elsewhere(side.me.id, evidence, read) {
            Some(block) => LeaseNext::AnswerJob(Reply::Shared {
                owner: Owner {
                    id: block.host,
                    generation: block.mode_gen,
                },
            }),
            None => phase2(side, held, own, read),
        }
    }

    /// What is decided where the read of phase 1 is answered, by these blocks and what stops the ballot in them, if anything.
    pub(crate) fn after_phase1<E: Evidence>(
        &self,
        side: &Side,
        held: Held,
        evidence: &E,
        aim: Aim,
        own: &Block,
        read: &[Option<Block>],
        stop: Option<Stop>,
    ) -> LeaseNext
        requires { IsRead side.now.geometry side.now.me read.now }
        ensures exact { TopStands self.now read.now
            → result ≡ after_phase1 (place_of side.now) (known_with side.now self.now held (E.over evidence.now) read.now) aim own.now read.now stop }
        ensures fit { IsBegun own.now → IsFitNext result }
    {
        match stop {
            None => self.unstopped(side, held, evidence, aim, own, read),
            Some(stop) => self.stopped(side, held, aim, stop),
        }
    }

    /// A won ballot takes the leader; a settling writes it free.
    fn won_next(&self, side: &Side, aim: Aim, n: u64) -> LeaseNext
        requires { IsSession side.now.geometry side.now.me }
        ensures exact { IsTrue (is_named self.now) → (held : Held) (over : ℕ → ℕ → Bool) (read : List (Option Block))
            → result ≡ won_next (place_of side.now) (known_with side.now self.now held over read) aim n }
        ensures fit { IsInstance n → IsFitNext result }
    {
        match aim {
            Aim::Acquires(_) => self.write_leader(side, LeaseStep::TakeLeader, true, n),
            Aim::Converts(_) => self.write_leader(side, LeaseStep::TakeLeader, true, n),
            Aim::Releases => LeaseNext::Nothing,
            Aim::Settles => self.write_leader(side, LeaseStep::FreeLeader, false, n),
        }
    }

    /// An instance that another was granted: the next one where that session is over, else a refusal.
    fn held_next<E: Evidence>(
        &self,
        side: &Side,
        held: Held,
        evidence: &E,
        aim: Aim,
        n: u64,
        owner: Owner,
        read: &[Option<Block>],
    ) -> LeaseNext
        requires instance { IsInstance n }
        requires read { IsRead side.now.geometry side.now.me read.now }
        ensures exact { result ≡ held_by_other (place_of side.now) (known_with side.now self.now held (E.over evidence.now) read.now) aim n owner }
        ensures fit { IsFitNext result }
    {
        if evidence.is_over(owner.id, owner.generation) {
            self.begin(side, held, aim, n + 1, read)
        } else {
            LeaseNext::AnswerJob(Reply::Held { lver: n, owner })
        }
    }

    /// A ballot that ended with another: the next instance where that one is over, else a refusal; a settling goes on.
    fn lost_next<E: Evidence>(
        &self,
        side: &Side,
        held: Held,
        evidence: &E,
        aim: Aim,
        n: u64,
        owner: Owner,
        read: &[Option<Block>],
    ) -> LeaseNext
        requires instance { IsInstance n }
        requires read { IsRead side.now.geometry side.now.me read.now }
        ensures exact { TopStands self.now read.now
            → result ≡ lost_next (place_of side.now) (known_with side.now self.now held (E.over evidence.now) read.now) aim n owner }
        ensures fit { IsFitNext result }
    {
        match aim {
            Aim::Acquires(_) => self.held_next(side, held, evidence, aim, n, owner, read),
            Aim::Converts(_) => self.held_next(side, held, evidence, aim, n, owner, read),
            Aim::Releases => LeaseNext::Nothing,
            Aim::Settles => self.settle_known(side, held),
        }
    }

    /// After the read of phase 2, where nothing stops the ballot: it ended with the own block's value.
    fn ended_next<E: Evidence>(
        &self,
        side: &Side,
        held: Held,
        evidence: &E,
        aim: Aim,
        own: &Block,
        read: &[Option<Block>],
    ) -> LeaseNext
        requires begun { IsBegun own.now }
        requires read { IsRead side.now.geometry side.now.me read.now }
        ensures exact { IsTrue (is_named self.now) → TopStands self.now read.now
            → result ≡ ended_next (place_of side.now) (known_with side.now self.now held (E.over evidence.now) read.now) aim own.now }
        ensures fit { IsFitNext result }
    {
        let value = value_of(own);
        if same_owner(value, side.me) {
            self.won_next(side, aim, own.lver)
        } else {
            self.lost_next(side, held, evidence, aim, own.lver, value, read)
        }
    }

    /// What is decided where the read of phase 2 is answered, by these blocks and what stops the ballot in them, if anything.
    pub(crate) fn after_phase2<E: Evidence>(
        &self,
        side: &Side,
        held: Held,
        evidence: &E,
        aim: Aim,
        own: &Block,
        read: &[Option<Block>],
        stop: Option<Stop>,
    ) -> LeaseNext
        requires begun { IsBegun own.now }
        requires read { IsRead side.now.geometry side.now.me read.now }
        ensures exact { IsTrue (is_named self.now) → TopStands self.now read.now
            → result ≡ after_phase2 (place_of side.now) (known_with side.now self.now held (E.over evidence.now) read.now) aim own.now stop }
        ensures fit { IsFitNext result }
    {
        match stop {
            None => self.ended_next(side, held, evidence, aim, own, read),
            Some(stop) => self.stopped(side, held, aim, stop),
        }
    }
}
