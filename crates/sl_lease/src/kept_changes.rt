//! How each part of what is kept of a lease changes, by a call and by its answer.
ghost use Rattle.sl_area.specs.AreaSizes.{layout_of};
ghost use Rattle.sl_host_state.specs.HeardInputs.{concludes_at, is_last_phase, is_phase_step, won_at, won_hearing};
ghost use Rattle.sl_host_state.specs.HostStands.{top_mbal};
ghost use Rattle.sl_lease.specs.Bounds.{IsBegun, IsInstance};
ghost use Rattle.sl_lease.specs.Changes.{ballot_over, is_phase2_write, is_settled_by, name_found, name_told, settles_read, shows_blocks, stop_told, top_told, top_within};
ghost use Rattle.sl_trace.specs.Ballots.{is_ahead};
ghost use Rattle.sl_trace.specs.LeaseDecisions.{read_of_step};
ghost use Rattle.sl_trace.specs.Leases.{is_free_of, is_leader_of, is_second};
ghost use Rattle.sl_words.specs.Words.{choose, present, some_is};
ghost use Rattle.std.specs.List.{list_any};
ghost use Rattle.std.specs.Option.{option_or};
ghost use Rattle.std.specs.Prelude.{IfSome, None, cond, if◌then◌else◌, length, nat_lt, not, option_and_then, unwrap_or, [], ◌&&◌, ◌<◌, ◌==◌, ◌^◌, ◌||◌, ◌≡◌, ◌⊎◌};

use crate::side::Side;
use sl_area::Geometry;
use sl_ballot::{owner_of, same_owner, stop_of, value_of};
use sl_host_state::TopNumber;
use sl_sector::{Block, Leader, Owner};
use sl_text::Name;
use sl_trace::{LeaseRead, LeaseStep, Stop};

/// Whether the step writes the block of phase 2.
pub(crate) fn is_phase2_write(step: &LeaseStep) -> bool
    ensures { result ≡ is_phase2_write step.now }
{
    matches!(step, LeaseStep::Phase2Write)
}

/// Whether the step is a read that is made once more.
pub(crate) fn is_second(step: &LeaseStep) -> bool
    ensures { result ≡ is_second step.now }
{
    matches!(step, LeaseStep::ReadAgain { .. })
}

/// Which read a step is, if it is a first one of blocks.
pub(crate) fn read_of_step(step: &LeaseStep) -> Option<LeaseRead>
    ensures { result ≡ read_of_step step.now }
{
    match step {
        LeaseStep::ReadArea { resource } => Some(LeaseRead::OfArea {
            resource: *resource,
        }),
        LeaseStep::ReadBeforeFree => Some(LeaseRead::OfFree),
        LeaseStep::ReadBeforeBlock => Some(LeaseRead::OfBlock),
        LeaseStep::Phase1Read => Some(LeaseRead::OfPhase1),
        LeaseStep::Phase2Read => Some(LeaseRead::OfPhase2),
        _ => None,
    }
}

/// The turn that was shown last, after one more was shown.
pub(crate) fn turn_after(turn: Option<u64>, before: Option<u64>) -> Option<u64>
    ensures { result ≡ option_or turn before }
{
    match turn {
        Some(turn) => Some(turn),
        None => before,
    }
}

/// The open ballot after a block of this instance is submitted: phase 2 opens one, a block of another instance ends it.
pub(crate) fn ballot_over(opens: bool, lver: u64, before: Option<u64>) -> Option<u64>
    ensures { result ≡ ballot_over opens lver before }
{
    if opens {
        Some(lver)
    } else {
        before.filter(|n| lver == *n)
    }
}

/// The instance that a leader frees; 0 where it is held.
pub(crate) fn freed_by(leader: &Leader) -> u64
    ensures { result ≡ (if leader.now.held then 0 else leader.now.lver) }
{
    if leader.held { 0 } else { leader.lver }
}

/// Whether a leader has these names and the run's number of hosts.
pub(crate) fn is_leader_of(
    geometry: &Geometry,
    lockspace: &Name,
    resource: &Name,
    leader: &Leader,
) -> bool
    ensures { result ≡ is_leader_of (layout_of geometry.now) lockspace.now resource.now leader.now }
{
    leader.lockspace.as_slice() == lockspace.as_slice()
        && leader.resource.as_slice() == resource.as_slice()
        && leader.num_hosts == geometry.hosts()
}

/// Whether the leader shows that the free of instance `n` isn't needed: it is above, or that free itself.
fn leader_settles(me: Owner, n: u64, leader: &Leader) -> bool
    ensures { result ≡ (nat_lt n leader.now.lver || is_free_of n me leader.now) }
{
    n < leader.lver || leader.lver == n && !leader.held && same_owner(owner_of(leader), me)
}

/// Whether a leader that was read shows it; a torn one doesn't.
fn read_leader_settles(me: Owner, n: u64, leader: &Option<Leader>) -> bool
    ensures { result ≡ some_is (λ l. nat_lt n l.lver || is_free_of n me l) leader.now }
{
    match leader {
        Some(leader) => leader_settles(me, n, leader),
        None => false,
    }
}

/// Whether a block, if it was read, is of a later instance than `n`.
fn is_above(n: u64, block: &Option<Block>) -> bool
    ensures { result ≡ some_is (λ b. nat_lt n b.lver) block.now }
{
    match block {
        Some(block) => n < block.lver,
        None => false,
    }
}

/// Whether a block that was read is of a later instance than `n`.
fn is_any_above(n: u64, blocks: &[Option<Block>]) -> bool
    ensures { result ≡ list_any (λ b. nat_lt n b.lver) (present blocks.now) }
{
    for block in blocks {
        if is_above(n, block) {
            return true;
        }
    }
    false
}

/// Whether leader and blocks show that the free of instance `n` isn't needed.
fn is_settled(me: Owner, n: u64, leader: &Option<Leader>, blocks: &[Option<Block>]) -> bool
    ensures { result ≡ is_settled_by me leader.now blocks.now n }
{
    read_leader_settles(me, n, leader) || is_any_above(n, blocks)
}

/// Whether a block above the instance stopped the ballot.
pub(crate) fn is_ahead(stop: Stop) -> bool
    ensures { result ≡ is_ahead stop }
{
    match stop {
        Stop::BlockTorn { host: _ } => false,
        Stop::BlockAhead { host: _, lver: _ } => true,
        Stop::BlockRival { host: _, mbal: _ } => false,
    }
}

/// Whether a read at this step shows blocks.
pub(crate) fn shows_blocks(step: &LeaseStep) -> bool
    ensures { result ≡ shows_blocks step.now }
{
    match step {
        LeaseStep::ReadArea { resource: _ } => true,
        LeaseStep::ReadBeforeFree => true,
        LeaseStep::ReadBeforeBlock => true,
        LeaseStep::ReadAgain { read: _ } => true,
        LeaseStep::Phase1Write => false,
        LeaseStep::Phase1Read => true,
        LeaseStep::Phase2Write => false,
        LeaseStep::Phase2Read => true,
        LeaseStep::TakeLeader => false,
        LeaseStep::SetMode => false,
        LeaseStep::FreeLeader => false,
        LeaseStep::ClearMode => false,
    }
}

/// Whether the step is a read of a ballot's phase.
fn is_phase_step(step: &LeaseStep) -> bool
    ensures { result ≡ is_phase_step step.now }
{
    match step {
        LeaseStep::Phase1Read => true,
        LeaseStep::Phase2Read => true,
        LeaseStep::ReadAgain { read } => matches!(read, LeaseRead::OfPhase1 | LeaseRead::OfPhase2),
        _ => false,
    }
}

/// Whether it is that of the second.
fn is_last_phase(step: &LeaseStep) -> bool
    ensures { result ≡ is_last_phase step.now }
{
    match step {
        LeaseStep::Phase2Read => true,
        LeaseStep::ReadAgain { read } => matches!(read, LeaseRead::OfPhase2),
        _ => false,
    }
}

/// What stops the own block's ballot in the blocks that a read at this step shows.
pub(crate) fn stop_told(
    own: &Option<Block>,
    step: &LeaseStep,
    read: &[Option<Block>],
) -> Option<Option<Stop>>
    requires { length read.now < 2 ^ 32 }
    ensures { result ≡ stop_told own.now step.now read.now }
{
    if !shows_blocks(step) {
        return None;
    }
    match own {
        Some(own) => Some(stop_of(own, read)),
        None => None,
    }
}

/// Whether it concludes the open ballot.
fn concludes(step: &LeaseStep, stop: &Option<Option<Stop>>) -> bool
    ensures { result ≡ concludes_at step.now stop.now }
{
    match stop {
        None => false,
        Some(None) => is_phase_step(step) && is_last_phase(step),
        Some(Some(why)) => is_phase_step(step) && is_ahead(*why),
    }
}

/// The open ballot after a read; only one that is heeded concludes it.
pub(crate) fn ballot_told(
    heeded: bool,
    step: &LeaseStep,
    stop: &Option<Option<Stop>>,
    before: Option<u64>,
) -> Option<u64>
    ensures exact { result ≡ cond (heeded && concludes_at step.now stop.now) None before }
    ensures bounds { (result ≡ before) ⊎ (result ≡ None) }
{
    if heeded && concludes(step, stop) {
        None
    } else {
        before
    }
}

/// The instance that a read wins: its ballot ended with the session itself.
fn won_at(
    me: Owner,
    step: &LeaseStep,
    own: &Option<Block>,
    stop: &Option<Option<Stop>>,
) -> Option<u64>
    ensures exact { result ≡ won_at me step.now own.now stop.now }
    ensures bounds { IfSome own.now IsBegun → IfSome result IsInstance }
{
    match (own, stop) {
        (Some(own), Some(None)) => {
            if is_last_phase(step) && same_owner(value_of(own), me) {
                Some(own.lver)
            } else {
                None
            }
        }
        (Some(_), Some(Some(_))) => None,
        (Some(_), None) => None,
        (None, _) => None,
    }
}

/// The free that is left after a look at leader and blocks.
fn won_looked(
    me: Owner,
    leader: &Option<Leader>,
    blocks: &[Option<Block>],
    before: Option<u64>,
) -> Option<u64>
    ensures exact { result ≡ option_and_then (λ n. choose (not (is_settled_by me leader.now blocks.now n)) n) before }
    ensures bounds { IfSome before IsInstance → IfSome result IsInstance }
{
    match before {
        Some(n) => {
            if is_settled(me, n, leader, blocks) {
                None
            } else {
                Some(n)
            }
        }
        None => None,
    }
}

/// The same after a read at this step.
fn won_left(
    me: Owner,
    step: &LeaseStep,
    leader: &Option<Leader>,
    blocks: &[Option<Block>],
    before: Option<u64>,
) -> Option<u64>
    ensures exact { result ≡ option_and_then (λ n. choose (not (settles_read me step.now leader.now blocks.now n)) n) before }
    ensures bounds { IfSome before IsInstance → IfSome result IsInstance }
{
    match step {
        LeaseStep::ReadArea { resource: _ } => before,
        LeaseStep::ReadBeforeFree => won_looked(me, leader, blocks, before),
        LeaseStep::ReadBeforeBlock => before,
        LeaseStep::ReadAgain { read } => match read {
            LeaseRead::OfArea { resource: _ } => before,
            LeaseRead::OfFree => won_looked(me, leader, blocks, before),
            LeaseRead::OfBlock => before,
            LeaseRead::OfPhase1 => before,
            LeaseRead::OfPhase2 => before,
        },
        LeaseStep::Phase1Write => before,
        LeaseStep::Phase1Read => before,
        LeaseStep::Phase2Write => before,
        LeaseStep::Phase2Read => before,
        LeaseStep::TakeLeader => before,
        LeaseStep::SetMode => before,
        LeaseStep::FreeLeader => before,
        LeaseStep::ClearMode => before,
    }
}

/// The instance that is won, or the free that is left, after a read.
pub(crate) fn won_told(
    me: Owner,
    heeded: bool,
    step: &LeaseStep,
    own: &Option<Block>,
    stop: &Option<Option<Stop>>,
    leader: &Option<Leader>,
    blocks: &[Option<Block>],
    before: Option<u64>,
) -> Option<u64>
    ensures exact { result ≡ won_hearing (cond heeded (won_at me step.now own.now stop.now) None) (λ n. settles_read me step.now leader.now blocks.now n) before }
    ensures bounds { IfSome own.now IsBegun → IfSome before IsInstance → IfSome result IsInstance }
{
    if !heeded {
        return won_left(me, step, leader, blocks, before);
    }
    match won_at(me, step, own, stop) {
        Some(n) => Some(n),
        None => won_left(me, step, leader, blocks, before),
    }
}

/// The greater of a number and that of a block in an instance.
fn top_within(n: u64, top: u64, block: &Option<Block>) -> u64
    ensures { result ≡ top_within n top block.now }
{
    match block {
        Some(block) if block.lver == n => top.max(block.mbal),
        _ => top,
    }
}

/// The greatest number that the blocks show in an instance.
fn top_mbal(n: u64, read: &[Option<Block>]) -> u64
    ensures { result ≡ top_mbal n read.now }
{
    let mut top = 0;
    for block in read {
        top = top_within(n, top, block);
    }
    top
}

/// The greatest number of the own block's instance after a read at this step.
pub(crate) fn top_told(
    step: &LeaseStep,
    own: &Option<Block>,
    read: &[Option<Block>],
    before: Option<TopNumber>,
) -> Option<TopNumber>
    ensures { result ≡ top_told step.now own.now read.now before }
{
    if !shows_blocks(step) {
        return before;
    }
    match own {
        Some(own) => Some(TopNumber {
            instance: own.lver,
            mbal: top_mbal(own.lver, read),
        }),
        None => None,
    }
}

/// The name that is verified, where a leader of the area has it.
fn name_found(
    side: &Side,
    resource: Name,
    leader: &Option<Leader>,
    before: Option<Name>,
) -> Option<Name>
    ensures { unwrap_or result [] ≡ name_found side.now resource leader.now (unwrap_or before []) }
{
    match leader {
        Some(leader) => {
            if is_leader_of(&side.geometry, &side.lockspace, &resource, leader) {
                Some(resource)
            } else {
                before
            }
        }
        None => before,
    }
}

/// The name that is verified after a read at this step.
pub(crate) fn name_told(
    side: &Side,
    step: &LeaseStep,
    leader: &Option<Leader>,
    before: Option<Name>,
) -> Option<Name>
    ensures { unwrap_or result [] ≡ name_told side.now step.now leader.now (unwrap_or before []) }
{
    match step {
        LeaseStep::ReadArea { resource } => name_found(side, *resource, leader, before),
        LeaseStep::ReadBeforeFree => before,
        LeaseStep::ReadBeforeBlock => before,
        LeaseStep::ReadAgain { read } => match read {
            LeaseRead::OfArea { resource } => name_found(side, *resource, leader, before),
            LeaseRead::OfFree => before,
            LeaseRead::OfBlock => before,
            LeaseRead::OfPhase1 => before,
            LeaseRead::OfPhase2 => before,
        },
        LeaseStep::Phase1Write => before,
        LeaseStep::Phase1Read => before,
        LeaseStep::Phase2Write => before,
        LeaseStep::Phase2Read => before,
        LeaseStep::TakeLeader => before,
        LeaseStep::SetMode => before,
        LeaseStep::FreeLeader => before,
        LeaseStep::ClearMode => before,
    }
}

/// The free that is left after a write that may have been it.
pub(crate) fn won_written(frees: Option<u64>, before: Option<u64>) -> Option<u64>
    ensures exact { result ≡ option_and_then (λ n. choose (not (some_is (λ f. f == n) frees)) n) before }
    ensures bounds { IfSome before IsInstance → IfSome result IsInstance }
{
    match (before, frees) {
        (Some(n), Some(freed)) => { if freed == n { None } else { Some(n) } }
        (Some(n), None) => Some(n),
        (None, _) => None,
    }
}
