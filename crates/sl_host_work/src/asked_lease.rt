//! What a lease does next: after an answer, by a settling, by a release, by a conversion.
//!
//! The lease decides by what it keeps, what is held under it, and whom its session counts as over.

ghost use Rattle.sl_host_law.specs.Steps.Leases.{answered_next, converting_next, kept_blocks, lease_at, releasing_next, settling_next};
ghost use Rattle.sl_host_state.specs.KeptState.{HostState, MemberState};
ghost use Rattle.sl_host_state.specs.declared.kept_parts.OpenCall.{OpenCall};
ghost use Rattle.sl_host_work.specs.LeaseQuestions.{IsNamedFor, IsShown, MayAsk, MayTurn, asked_next, blocks_told};
ghost use Rattle.sl_host.specs.declared.told_answers.Told.TheVariants.{Gave};
ghost use Rattle.sl_sector.specs.declared.sector.Leader.{Leader as LeaderOf};
ghost use Rattle.sl_host_work.specs.LeaseWork.{held_with};
ghost use Rattle.sl_host_work.specs.NextDecisions.{IsFit, writes_own_block};
ghost use Rattle.sl_lease.specs.Bounds.{IsInstance};
ghost use Rattle.sl_lease.specs.Side.{is_named};
ghost use Rattle.sl_lease.specs.Steps.{IsFitNext};
ghost use Rattle.sl_host_state.specs.MadeEffects.{new_lease};
ghost use Rattle.sl_sector.specs.Records.{IsBlock, IsLeader};
ghost use Rattle.sl_tables.specs.Holdings.{fits};
ghost use Rattle.sl_tables.specs.declared.holdings.Holder.TheVariants.{Anyone};
ghost use Rattle.sl_trace.specs.declared.effects.LeaseStep.{LeaseStep};
ghost use Rattle.sl_trace.specs.declared.effects.Spot.{Spot};
ghost use Rattle.sl_trace.specs.declared.input.Answer.TheVariants.{Failed, Read, Written};
ghost use Rattle.sl_host.specs.BookQuestions.{sought_on, state_in};
ghost use Rattle.std.specs.Prelude.{All, IfSome, IsTrue, List, Option, Some, false, find, length, option_map, true, ℕ, ◌<◌, ◌^◌, ◌≡◌};

use sl_host::{Host, Told};
use sl_host_state::OpenCall;
use sl_lease::{Held, Lease, after_failure, after_first};
use sl_member::Member;
use sl_sector::{Block, Leader};
use sl_tables::Holder;
use sl_text::Name;
use sl_trace::{Aim, Grant, LeaseNext, LeaseStep, Mode, Spot};

/// The first holding under the session of this number on an area, in this mode.
fn held_in(host: &Host, session: u64, at: &Spot, mode: Mode) -> Option<Grant>
    ensures { result ≡ find (fits (sought_on Anyone session at.now (Some mode))) host.now.kept.holdings }
{
    match host.held(session, at, Holder::Anyone, Some(mode)) {
        Some(held) => Some(*held),
        None => None,
    }
}

/// The instance of a holding, if there is one.
fn lver_of(held: Option<Grant>) -> Option<u64>
    ensures { result ≡ option_map (λ g. g.lver) held }
{
    match held {
        Some(grant) => Some(grant.lver),
        None => None,
    }
}

/// What is held under the session of this number on an area.
#[tactic(auto, using(crate::proofs::HeldStands::held_found))]
fn held_under(host: &Host, session: u64, at: &Spot) -> Held
    ensures { result ≡ held_with session at.now host.now.kept.holdings }
{
    let shared = held_in(host, session, at, Mode::Shared);
    let exclusive = held_in(host, session, at, Mode::Exclusive);
    Held {
        shared: shared.is_some(),
        exclusive: lver_of(exclusive),
    }
}

/// A member's lease on an area; this blank one, where it has none.
fn lease_on<'a>(member: &'a Member, at: &Spot, blank: &'a Lease) -> &'a Lease
    requires { blank.now ≡ new_lease at.now }
    ensures { result.now ≡ lease_at member.now.state at.now }
{
    match member.lease(at) {
        Some(lease) => lease,
        None => blank,
    }
}

/// What a settling of the member's lease on this area does first, by what the lease owes.
pub fn settling_next(host: &Host, member: &Member, at: &Spot) -> LeaseNext
    requires run { member.now.run.sizes ≡ host.now.kept.config.sizes }
    requires may { MayAsk (state_in host.now.kept) member.now.state at.now (kept_blocks (lease_at member.now.state at.now)) }
    ensures exact { result ≡ settling_next (state_in host.now.kept) member.now.state at.now }
    ensures fit { IsFit result }
    ensures turned { writes_own_block result ≡ true → MayTurn host.now.kept.config.sizes member.now.state at.now }
{
    let held = held_under(host, member.who().number, at);
    let side = member.side();
    let blank = Lease::new(*at);
    lease_on(member, at, &blank).settle(&side, held)
}

/// What a release does first, once the last holding under the lease has ended: it was in this mode, under this instance.
pub fn releasing_next(host: &Host, member: &Member, at: &Spot, ended: &Grant) -> LeaseNext
    requires run { member.now.run.sizes ≡ host.now.kept.config.sizes }
    requires may { MayAsk (state_in host.now.kept) member.now.state at.now (kept_blocks (lease_at member.now.state at.now)) }
    requires named { IsTrue (is_named (lease_at member.now.state at.now)) }
    requires instance { IsInstance ended.now.lver }
    ensures exact { result ≡ releasing_next (state_in host.now.kept) member.now.state at.now ended.now }
    ensures fit { IsFit result }
    ensures turned { writes_own_block result ≡ true → MayTurn host.now.kept.config.sizes member.now.state at.now }
{
    let side = member.side();
    let blank = Lease::new(*at);
    lease_on(member, at, &blank).release(&side, ended.mode, ended.lver)
}

/// What a conversion to this mode does first, of a resource of this name.
pub fn converting_next(host: &Host, member: &Member, at: &Spot, mode: Mode, name: Name) -> LeaseNext
    requires run { member.now.run.sizes ≡ host.now.kept.config.sizes }
    requires may { MayAsk (state_in host.now.kept) member.now.state at.now (kept_blocks (lease_at member.now.state at.now)) }
    ensures exact { result ≡ converting_next (state_in host.now.kept) member.now.state at.now mode name }
    ensures fit { IsFit result }
    ensures turned { writes_own_block result ≡ true → MayTurn host.now.kept.config.sizes member.now.state at.now }
{
    let side = member.side();
    let blank = Lease::new(*at);
    lease_on(member, at, &blank).convert(&side, mode, name)
}

/// What comes next after a read for this step that gave this, and these blocks. The member has heard the answer.
pub fn next_after_read(
    host: &Host,
    member: &Member,
    at: &Spot,
    aim: Aim,
    step: LeaseStep,
    told: &Told,
    blocks: &[Option<Block>],
) -> LeaseNext
    requires run { member.now.run.sizes ≡ host.now.kept.config.sizes }
    requires may { MayAsk (state_in host.now.kept) member.now.state at.now (blocks_told told.now blocks.now (lease_at member.now.state at.now)) }
    requires named { IsNamedFor member.now.state at.now step }
    requires shown { (bytes : List ℕ) × IsShown host.now.kept.config.sizes member.now.state at.now step bytes told.now blocks.now }
    requires rules { (leader : Option LeaderOf) → told.now ≡ Gave leader → IfSome leader IsLeader }
    requires blocks { All (λ o. IfSome o IsBlock) blocks.now × (length blocks.now < 2 ^ 32) }
    ensures exact { (c : OpenCall) (bytes : List ℕ) → IsShown host.now.kept.config.sizes member.now.state at.now step bytes told.now blocks.now
        → result ≡ answered_next (state_in host.now.kept) member.now.state at.now c aim step (Read bytes) }
    ensures fit { IsFit result }
    ensures turned { writes_own_block result ≡ true → MayTurn host.now.kept.config.sizes member.now.state at.now }
{
    match told {
        Told::Again => after_first(step),
        Told::Gave { leader } => next_after_blocks(host, member, at, aim, step, leader, blocks),
    }
}

/// The same where it gave this leader, if it reads one, and these blocks.
fn next_after_blocks(
    host: &Host,
    member: &Member,
    at: &Spot,
    aim: Aim,
    step: LeaseStep,
    leader: &Option<Leader>,
    blocks: &[Option<Block>],
) -> LeaseNext
    requires run { member.now.run.sizes ≡ host.now.kept.config.sizes }
    requires may { MayAsk (state_in host.now.kept) member.now.state at.now blocks.now }
    requires named { IsNamedFor member.now.state at.now step }
    requires leader { IfSome leader.now IsLeader }
    requires blocks { All (λ o. IfSome o IsBlock) blocks.now × (length blocks.now < 2 ^ 32) }
    ensures exact { result ≡ asked_next (state_in host.now.kept) member.now.state at.now aim step leader.now blocks.now }
    ensures fit { IsFitNext result }
{
    let held = held_under(host, member.who().number, at);
    let side = member.side();
    let seen = member.seen();
    let blank = Lease::new(*at);
    lease_on(member, at, &blank).after_read(&side, held, &seen, aim, step, leader, blocks)
}

/// What comes next after the write of this call is done, at this step. The member has heard the answer.
pub fn next_after_write(
    host: &Host,
    member: &Member,
    at: &Spot,
    aim: Aim,
    step: LeaseStep,
    call: &OpenCall,
) -> LeaseNext
    requires run { member.now.run.sizes ≡ host.now.kept.config.sizes }
    requires may { MayAsk (state_in host.now.kept) member.now.state at.now (kept_blocks (lease_at member.now.state at.now)) }
    requires named { IsNamedFor member.now.state at.now step }
    requires instance { IsInstance call.now.lver }
    ensures exact { result ≡ answered_next (state_in host.now.kept) member.now.state at.now call.now aim step Written }
    ensures fit { IsFit result }
    ensures turned { writes_own_block result ≡ true → MayTurn host.now.kept.config.sizes member.now.state at.now }
{
    let held = held_under(host, member.who().number, at);
    let side = member.side();
    let blank = Lease::new(*at);
    lease_on(member, at, &blank).after_write(&side, held, aim, call.lver, step)
}

/// What comes next after this call has failed.
pub fn next_after_failure(aim: Aim, call: &OpenCall) -> LeaseNext
    ensures exact { (h : HostState) (m : MemberState) (at : Spot) (step : LeaseStep) → result ≡ answered_next h m at call.now aim step Failed }
    ensures fit { IsFit result }
    ensures unwritten { writes_own_block result ≡ false }
{
    after_failure(aim, call.number)
}
