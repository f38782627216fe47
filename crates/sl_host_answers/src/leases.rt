//! Work on a lease goes on after the answer to its call: its job's while that runs, a settling while its session is active. What comes next is
//! decided by what is kept of the lease and, after a read, by the leader and the blocks that it gave.

ghost use Rattle.sl_area.specs.AreaSizes.{layout_of};
ghost use Rattle.sl_host_answers.specs.Facts.{LeaseKnown, LeaseTold, ToldKnown, WorkKnown};
ghost use Rattle.sl_host_answers.specs.Leases.{aim_on, mode_wanted, next_on};
ghost use Rattle.sl_host_law.specs.Questions.Answers.{spot_in};
ghost use Rattle.sl_host_law.specs.Questions.Jobs.{aim_in, goes_on_in};
ghost use Rattle.sl_host_law.specs.Steps.Answers.{working_on};
ghost use Rattle.sl_host_law.specs.Steps.Leases.{kept_blocks, lease_at};
ghost use Rattle.sl_host_law.specs.Steps.Passes.{at_member, member_numbered};
ghost use Rattle.sl_host_work.specs.LeaseQuestions.{IsTurned, MayTurn};
ghost use Rattle.sl_host.specs.declared.told_answers.Told.TheVariants.{Gave};
ghost use Rattle.sl_sector.specs.declared.sector.Leader.{Leader as LeaderOf};
ghost use Rattle.sl_host_work.specs.NextDecisions.{IsFit, writes_own_block};
ghost use Rattle.sl_host_work.specs.SectorPlaces.{IsArea, IsPlaced};
ghost use Rattle.sl_lease.specs.Bounds.{IsInstance};
ghost use Rattle.sl_trace.specs.Jobs.{aim_of_command};
ghost use Rattle.sl_sector.specs.Records.{IsBlock, IsLeader};
ghost use Rattle.sl_trace.specs.declared.input.Answer.TheVariants.{Failed, Read, Written};
ghost use Rattle.sl_host.specs.BookQuestions.{state_in};
ghost use Rattle.sl_host.specs.Host.{Becomes, SameRun, Spends};
ghost use Rattle.sl_words.specs.Bounds.{moments};
ghost use Rattle.std.specs.Prelude.{All, IfSome, List, Option, Some, is_some, length, true, ℕ, ◌<◌, ◌^◌, ◌≡◌, ◌≤◌};

use crate::answer_owners::area_of;
use sl_host::{Host, Told};
use sl_host_state::OpenCall;
use sl_host_work::{carry_lease, next_after_failure, next_after_read, next_after_write};
use sl_member::Member;
use sl_sector::Block;
use sl_trace::{Aim, Command, LeaseNext, LeaseStep, Mode, Session, Spot, Work};

// ---- where the work goes on

/// Whether work on a member's lease goes on.
fn goes_on(host: &Host, member: &Member, work: &Work) -> bool
    ensures { result ≡ goes_on_in (state_in host.now.kept) member.now.state work.now }
{
    match work {
        Work::ForJob { job } => host.runs(*job),
        Work::Settling => member.is_active(),
    }
}

/// The mode that a command asks for.
fn mode_wanted(shared: bool) -> Mode
    ensures { result ≡ mode_wanted shared }
{
    if shared {
        Mode::Shared
    } else {
        Mode::Exclusive
    }
}

/// To what end a job with this command works on a lease.
fn aim_of_command(command: &Command) -> Option<Aim>
    ensures { result ≡ aim_of_command command.now }
{
    match command {
        Command::Acquire { shared, .. } | Command::RunProgram { shared, .. } => {
            Some(Aim::Acquires(mode_wanted(*shared)))
        }
        Command::Convert { shared, .. } => Some(Aim::Converts(mode_wanted(*shared))),
        Command::Release { .. } | Command::ReleaseOrphan(_) => Some(Aim::Releases),
        _ => None,
    }
}

/// To what end work is done.
fn aim_of(host: &Host, work: &Work) -> Option<Aim>
    ensures { result ≡ aim_in (state_in host.now.kept) work.now }
{
    match work {
        Work::ForJob { job } => match host.command_of(*job) {
            Some(command) => aim_of_command(&command),
            None => None,
        },
        Work::Settling => Some(Aim::Settles),
    }
}

/// To what end a member's work goes on, if it does.
fn aim_on(host: &Host, member: &Member, work: &Work) -> Option<Aim>
    ensures exact { result ≡ aim_on (state_in host.now.kept) work.now member.now.state }
    ensures goes { is_some result ≡ true → goes_on_in (state_in host.now.kept) member.now.state work.now ≡ true }
{
    if goes_on(host, member, work) {
        aim_of(host, work)
    } else {
        None
    }
}

// ---- what comes next

/// What a member's work does next after a read for this step that gave this, and these blocks; with its session.
fn member_next_read(
    host: &Host,
    member: &Member,
    at: &Spot,
    call: &OpenCall,
    work: &Work,
    step: LeaseStep,
    told: &Told,
    blocks: &[Option<Block>],
) -> Option<(Session, LeaseNext)>
    requires run { member.now.run.sizes ≡ host.now.kept.config.sizes }
    requires known { (bytes : List ℕ) × (goes_on_in (state_in host.now.kept) member.now.state work.now ≡ true → LeaseTold host.now.kept at.now step bytes told.now blocks.now member.now.state) }
    requires rules { (leader : Option LeaderOf) → told.now ≡ Gave leader → IfSome leader IsLeader }
    requires blocks { All (λ o. IfSome o IsBlock) blocks.now × (length blocks.now < 2 ^ 32) }
    ensures exact { (bytes : List ℕ) → (goes_on_in (state_in host.now.kept) member.now.state work.now ≡ true → LeaseTold host.now.kept at.now step bytes told.now blocks.now member.now.state)
        → result ≡ next_on (state_in host.now.kept) at.now call.now work.now step (Read bytes) (Some member.now.state) }
    ensures turned { IfSome result (λ r. (r.0 ≡ member.now.state.who) × (writes_own_block r.1 ≡ true → MayTurn host.now.kept.config.sizes member.now.state at.now)) }
    ensures fit { IfSome result (λ r. IsFit r.1 × IsPlaced host.now.kept.config.sizes r.0 × IsArea host.now.kept.config.sizes at.now.base) }
{
    match aim_on(host, member, work) {
        Some(aim) => Some((
            *member.who(),
            next_after_read(host, member, at, aim, step, told, blocks),
        )),
        None => None,
    }
}

/// The same after the write of this call.
fn member_next_write(
    host: &Host,
    member: &Member,
    at: &Spot,
    call: &OpenCall,
    work: &Work,
    step: LeaseStep,
) -> Option<(Session, LeaseNext)>
    requires run { member.now.run.sizes ≡ host.now.kept.config.sizes }
    requires known { goes_on_in (state_in host.now.kept) member.now.state work.now ≡ true
        → LeaseKnown host.now.kept at.now step (kept_blocks (lease_at member.now.state at.now)) member.now.state }
    requires instance { IsInstance call.now.lver }
    ensures exact { result ≡ next_on (state_in host.now.kept) at.now call.now work.now step Written (Some member.now.state) }
    ensures turned { IfSome result (λ r. (r.0 ≡ member.now.state.who) × (writes_own_block r.1 ≡ true → MayTurn host.now.kept.config.sizes member.now.state at.now)) }
    ensures fit { IfSome result (λ r. IsFit r.1 × IsPlaced host.now.kept.config.sizes r.0 × IsArea host.now.kept.config.sizes at.now.base) }
{
    match aim_on(host, member, work) {
        Some(aim) => Some((
            *member.who(),
            next_after_write(host, member, at, aim, step, call),
        )),
        None => None,
    }
}

/// The same after this call has failed.
fn member_next_failure(
    host: &Host,
    member: &Member,
    at: &Spot,
    call: &OpenCall,
    work: &Work,
    step: LeaseStep,
) -> Option<(Session, LeaseNext)>
    requires known { goes_on_in (state_in host.now.kept) member.now.state work.now ≡ true
        → LeaseKnown host.now.kept at.now step (kept_blocks (lease_at member.now.state at.now)) member.now.state }
    ensures exact { result ≡ next_on (state_in host.now.kept) at.now call.now work.now step Failed (Some member.now.state) }
    ensures turned { IfSome result (λ r. (r.0 ≡ member.now.state.who) × (writes_own_block r.1 ≡ true → MayTurn host.now.kept.config.sizes member.now.state at.now)) }
    ensures fit { IfSome result (λ r. IsFit r.1 × IsPlaced host.now.kept.config.sizes r.0 × IsArea host.now.kept.config.sizes at.now.base) }
{
    match aim_on(host, member, work) {
        Some(aim) => Some((*member.who(), next_after_failure(aim, call))),
        None => None,
    }
}

// ---- of the member that made the call

/// What the work does next after a read, of the session of the call.
fn next_read(
    host: &Host,
    at: &Spot,
    call: &OpenCall,
    work: &Work,
    step: LeaseStep,
    told: &Told,
    blocks: &[Option<Block>],
) -> Option<(Session, LeaseNext)>
    requires known { (bytes : List ℕ) × ToldKnown host.now.kept at.now call.now.session work.now step bytes told.now blocks.now }
    requires rules { (leader : Option LeaderOf) → told.now ≡ Gave leader → IfSome leader IsLeader }
    requires blocks { All (λ o. IfSome o IsBlock) blocks.now × (length blocks.now < 2 ^ 32) }
    ensures exact { (bytes : List ℕ) → ToldKnown host.now.kept at.now call.now.session work.now step bytes told.now blocks.now
        → result ≡ next_on (state_in host.now.kept) at.now call.now work.now step (Read bytes) (member_numbered (state_in host.now.kept) call.now.session) }
    ensures turned { IfSome result (λ r. writes_own_block r.1 ≡ true → IsTurned host.now.kept r.0 at.now) }
    ensures fit { IfSome result (λ r. IsFit r.1 × IsPlaced host.now.kept.config.sizes r.0 × IsArea host.now.kept.config.sizes at.now.base) }
{
    match host.members().numbered(call.session) {
        Some(member) => member_next_read(host, member, at, call, work, step, told, blocks),
        None => None,
    }
}

/// What comes next for the lease where this write of it was answered ok, if its work goes on.
fn next_write(
    host: &Host,
    at: &Spot,
    call: &OpenCall,
    work: &Work,
    step: LeaseStep,
) -> Option<(Session, LeaseNext)>
    requires known { WorkKnown host.now.kept at.now call.now.session work.now step }
    requires instance { IsInstance call.now.lver }
    ensures exact { result ≡ next_on (state_in host.now.kept) at.now call.now work.now step Written (member_numbered (state_in host.now.kept) call.now.session) }
    ensures turned { IfSome result (λ r. writes_own_block r.1 ≡ true → IsTurned host.now.kept r.0 at.now) }
    ensures fit { IfSome result (λ r. IsFit r.1 × IsPlaced host.now.kept.config.sizes r.0 × IsArea host.now.kept.config.sizes at.now.base) }
{
    match host.members().numbered(call.session) {
        Some(member) => member_next_write(host, member, at, call, work, step),
        None => None,
    }
}

/// What comes next for the lease where this call of it was answered failed, if its work goes on.
fn next_failure(
    host: &Host,
    at: &Spot,
    call: &OpenCall,
    work: &Work,
    step: LeaseStep,
) -> Option<(Session, LeaseNext)>
    requires known { WorkKnown host.now.kept at.now call.now.session work.now step }
    ensures exact { result ≡ next_on (state_in host.now.kept) at.now call.now work.now step Failed (member_numbered (state_in host.now.kept) call.now.session) }
    ensures turned { IfSome result (λ r. writes_own_block r.1 ≡ true → IsTurned host.now.kept r.0 at.now) }
    ensures fit { IfSome result (λ r. IsFit r.1 × IsPlaced host.now.kept.config.sizes r.0 × IsArea host.now.kept.config.sizes at.now.base) }
{
    match host.members().numbered(call.session) {
        Some(member) => member_next_failure(host, member, at, call, work, step),
        None => None,
    }
}

// ---- what is done

/// A call for work on a lease is answered, a read for this step, that gave this, and these blocks: the work goes on.
pub fn answer_lease_read(
    host: &mut Host,
    call: &OpenCall,
    work: Work,
    step: LeaseStep,
    told: &Told,
    blocks: &[Option<Block>],
)
    requires left { 3 ≤ host.old.left }
    requires calls { 1 ≤ host.old.calls }
    requires moment { host.old.kept.reading < moments }
    requires known { (bytes : List ℕ) × ToldKnown host.old.kept (spot_in (layout_of host.old.kept.config.sizes) call.now) call.now.session work step bytes told.now blocks.now }
    requires rules { (leader : Option LeaderOf) → told.now ≡ Gave leader → IfSome leader IsLeader }
    requires blocks { All (λ o. IfSome o IsBlock) blocks.now × (length blocks.now < 2 ^ 32) }
    ensures state { (bytes : List ℕ) → ToldKnown host.old.kept (spot_in (layout_of host.old.kept.config.sizes) call.now) call.now.session work step bytes told.now blocks.now
        → Becomes host.old host.new (at_member call.now.session (λ m. working_on m call.now work step (Read bytes))) }
    ensures left { Spends host.old host.new 3 1 }
    ensures run { SameRun host.old host.new }
{
    let at = area_of(host, call);
    match next_read(host, &at, call, &work, step, told, blocks) {
        Some((who, next)) => carry_lease(host, &who, &at, work, next),
        None => {}
    }
}

/// A write for work on a lease is done: the work goes on.
pub fn answer_lease_written(host: &mut Host, call: &OpenCall, work: Work, step: LeaseStep)
    requires left { 3 ≤ host.old.left }
    requires calls { 1 ≤ host.old.calls }
    requires moment { host.old.kept.reading < moments }
    requires known { WorkKnown host.old.kept (spot_in (layout_of host.old.kept.config.sizes) call.now) call.now.session work step }
    requires instance { IsInstance call.now.lver }
    ensures state { Becomes host.old host.new (at_member call.now.session (λ m. working_on m call.now work step Written)) }
    ensures left { Spends host.old host.new 3 1 }
    ensures run { SameRun host.old host.new }
{
    let at = area_of(host, call);
    match next_write(host, &at, call, &work, step) {
        Some((who, next)) => carry_lease(host, &who, &at, work, next),
        None => {}
    }
}

/// A call for work on a lease has failed: a job is answered so.
pub fn answer_lease_failed(host: &mut Host, call: &OpenCall, work: Work, step: LeaseStep)
    requires left { 3 ≤ host.old.left }
    requires calls { 1 ≤ host.old.calls }
    requires moment { host.old.kept.reading < moments }
    requires known { WorkKnown host.old.kept (spot_in (layout_of host.old.kept.config.sizes) call.now) call.now.session work step }
    ensures state { Becomes host.old host.new (at_member call.now.session (λ m. working_on m call.now work step Failed)) }
    ensures left { Spends host.old host.new 3 1 }
    ensures run { SameRun host.old host.new }
{
    let at = area_of(host, call);
    match next_failure(host, &at, call, &work, step) {
        Some((who, next)) => carry_lease(host, &who, &at, work, next),
        None => {}
    }
}
