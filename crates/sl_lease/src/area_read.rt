//! What an acquire does after its read of the area.
//!
//! The leader, then its names, then the blocks are looked at, and the first that isn't right refuses. A torn block may hide a later
//! instance, so an acquire begins none beside it. Where all is right, the leader and the blocks tell which instance begins, or who holds
//! the resource.
ghost use Rattle.sl_lease.specs.LeaseQuestions.{area_asked, owner_over, top_beside};
ghost use Rattle.sl_lease.specs.Bounds.{IsRead};
ghost use Rattle.sl_lease.specs.Side.{known_with, place_of};
ghost use Rattle.sl_lease.specs.Steps.{IsFitNext};
ghost use Rattle.sl_trace.specs.LeaseDecisions.{named_area_next, whole_area_next};
ghost use Rattle.sl_trace.specs.Leases.{instance_for, top_lver};
ghost use Rattle.sl_trace.specs.declared.lease.Instance.TheVariants.{Begins};
ghost use Rattle.sl_sector.specs.Records.{IsLeader};
ghost use Rattle.std.specs.Prelude.{IfSome, is_none, length, option_map, position, ◌+◌, ◌<◌, ◌^◌, ◌≡◌, ◌≤◌, ℕ};

use crate::kept_changes::is_leader_of;
use crate::lease::Lease;
use crate::outer_facts::{Evidence, Held};
use crate::side::Side;
use sl_ballot::instance_of;
use sl_sector::{Block, Leader};
use sl_text::Name;
use sl_trace::{Aim, Instance, LeaseNext, Reply};

/// The greater of a number and the lver of a block of another host than the own one.
fn top_beside(own: &Block, top: u64, block: &Option<Block>) -> u64
    ensures { result ≡ top_beside own.now top block.now }
{
    match block {
        Some(block) if block.host != own.host => top.max(block.lver),
        _ => top,
    }
}

/// The greatest lver of the own block and of the other blocks read.
fn top_lver(own: &Block, read: &[Option<Block>]) -> u64
    ensures { result ≡ top_lver own.now read.now }
{
    let mut top = own.lver;
    for block in read {
        top = top_beside(own, top, block);
    }
    top
}

/// Whether the leader's owner counts as over.
fn is_over_owner<E: Evidence>(evidence: &E, leader: &Leader) -> bool
    ensures { result ≡ owner_over (E.over evidence.now) leader.now }
{
    leader.held && evidence.is_over(leader.owner, leader.generation)
}

/// How many hosts are before the first whose block is torn.
fn torn_place(read: &[Option<Block>]) -> Option<usize>
    ensures place { result ≡ position is_none read.now }
    ensures within { IfSome result (λ i. i < length read.now) }
{
    read.iter().position(|block| block.is_none())
}

/// The least host whose block is torn.
fn torn_host(read: &[Option<Block>]) -> Option<u32>
    requires { length read.now < 2 ^ 32 }
    ensures { result ≡ option_map (λ i. i + 1) (position is_none read.now) }
{
    torn_place(read).map(|before| before as u32 + 1)
}

impl Lease {
    /// The instance that an acquire begins after its read of the area, or who holds it.
    fn instance_for<E: Evidence>(
        &self,
        side: &Side,
        held: Held,
        evidence: &E,
        leader: &Leader,
        own: &Block,
        read: &[Option<Block>],
    ) -> Instance
        requires { IsLeader leader.now }
        ensures exact { result ≡ instance_for (known_with side.now self.now held (E.over evidence.now) read.now) leader.now own.now read.now }
        ensures least { (n : ℕ) → result ≡ Begins n → 1 ≤ n }
    {
        let is_over = is_over_owner(evidence, leader);
        instance_of(is_over, side.me, leader, self.freed, top_lver(own, read))
    }

    /// Where all spells and the names are right: the ballot begins, or the holder is named.
    fn whole_area<E: Evidence>(
        &self,
        side: &Side,
        held: Held,
        evidence: &E,
        aim: Aim,
        leader: &Leader,
        read: &[Option<Block>],
    ) -> LeaseNext
        requires leader { IsLeader leader.now }
        requires read { IsRead side.now.geometry side.now.me read.now }
        ensures exact { result ≡ whole_area_next (place_of side.now) (known_with side.now self.now held (E.over evidence.now) read.now) aim leader.now read.now }
        ensures fit { IsFitNext result }
    {
        match self.own_known(side, read) {
            None => LeaseNext::Nothing,
            Some(own) => match self.instance_for(side, held, evidence, leader, &own, read) {
                Instance::Begins { instance } => self.begin(side, held, aim, instance, read),
                Instance::HeldAlready { lver, owner } => LeaseNext::AnswerJob(Reply::Held {
                    lver,
                    owner,
                }),
            },
        }
    }

    /// Where the names are right: a torn block, the own one too, refuses.
    fn named_area<E: Evidence>(
        &self,
        side: &Side,
        held: Held,
        evidence: &E,
        aim: Aim,
        leader: &Leader,
        read: &[Option<Block>],
    ) -> LeaseNext
        requires leader { IsLeader leader.now }
        requires read { IsRead side.now.geometry side.now.me read.now }
        ensures exact { result ≡ named_area_next (place_of side.now) (known_with side.now self.now held (E.over evidence.now) read.now) aim leader.now read.now }
        ensures fit { IsFitNext result }
    {
        match torn_host(read) {
            Some(host) => LeaseNext::AnswerJob(Reply::TornBlock { host }),
            None => self.whole_area(side, held, evidence, aim, leader, read),
        }
    }

    /// After the read of the area for a job that names this resource: a torn leader, other names, a torn block refuse in this order.
    pub(crate) fn after_area<E: Evidence>(
        &self,
        side: &Side,
        held: Held,
        evidence: &E,
        aim: Aim,
        resource: &Name,
        leader: &Option<Leader>,
        read: &[Option<Block>],
    ) -> LeaseNext
        requires leader { IfSome leader.now IsLeader }
        requires read { IsRead side.now.geometry side.now.me read.now }
        ensures exact { result ≡ area_asked (place_of side.now) (known_with side.now self.now held (E.over evidence.now) read.now) aim resource.now leader.now read.now }
        ensures fit { IsFitNext result }
    {
        match leader {
            None => LeaseNext::AnswerJob(Reply::TornLeader),
            Some(leader) => {
                if is_leader_of(&side.geometry, &side.lockspace, resource, leader) {
                    self.named_area(side, held, evidence, aim, leader, read)
                } else {
                    LeaseNext::AnswerJob(Reply::WrongArea {
                        lockspace: leader.lockspace,
                        resource: leader.resource,
                        hosts: leader.num_hosts,
                    })
                }
            }
        }
    }
}
