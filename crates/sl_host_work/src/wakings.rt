//! What is due to a session by time.

ghost use Rattle.sl_delta.specs.OwnSector.{IsOwnRecord};
ghost use Rattle.sl_host_law.specs.StepParts.Ends.{renewing_in};
ghost use Rattle.sl_host_law.specs.Steps.Passes.{at_member, member_numbered};
ghost use Rattle.sl_host_law.specs.Answers.WakingsFollow.{joining_by_time};
ghost use Rattle.sl_host_law.specs.StepParts.Wakes.{is_free_at};
ghost use Rattle.sl_host_law.specs.Steps.WakePasses.{settling_here};
ghost use Rattle.sl_host_state.specs.KeptState.{MemberState};
ghost use Rattle.sl_host_work.specs.LeaseQuestions.{IsTurned, MayTurn};
ghost use Rattle.sl_host_work.specs.NextDecisions.{IsFit, IsPlain, writes_own_block};
ghost use Rattle.sl_host_work.specs.SectorPlaces.{IsArea, IsPlaced};
ghost use Rattle.sl_member.specs.HostMembers.{member_with};
ghost use Rattle.sl_host_work.specs.TimedWork.{ArePlaced, MaySettle, joining_of, renewal_of, renewal_written, settling_of, written_in};
ghost use Rattle.sl_host.specs.BookQuestions.{state_in};
ghost use Rattle.sl_host.specs.Host.{Becomes, SameRun, Spends};
ghost use Rattle.sl_words.specs.Bounds.{moments};
ghost use Rattle.sl_delta.specs.DeltaDecisions.{IsFitNext};
ghost use Rattle.std.specs.Prelude.{IfSome, Some, true, ◌<◌, ◌≡◌, ◌≤◌};

use crate::asked_lease::settling_next;
use crate::delta::{carry, write_own};
use crate::lease_work::carry_lease;
use sl_host::Host;
use sl_member::Member;
use sl_sector::DeltaRec;
use sl_trace::{DeltaNext, LeaseNext, Purpose, Session, Spot, Work};

/// What a renewal writes.
fn renewal_written(next: &DeltaNext) -> Option<DeltaRec>
    requires { IsFitNext next.now }
    ensures exact { result ≡ renewal_written next.now }
    ensures fit { IfSome result IsOwnRecord }
{
    match next {
        DeltaNext::WriteRenewal(written) => Some(*written),
        _ => None,
    }
}

/// What the renewal of a member writes, where it is due.
fn written_by(host: &Host, member: &Member) -> Option<DeltaRec>
    requires run { member.now.run ≡ record { timing = host.now.kept.config.timing; sizes = host.now.kept.config.sizes; host = host.now.kept.config.name } }
    requires moment { host.now.kept.reading < moments }
    requires joined { member.now.state.joined ≡ true }
    ensures exact { result ≡ written_in (state_in host.now.kept) member.now.state }
    ensures fit { IfSome result IsOwnRecord }
{
    let next = member.renewal(host.reading());
    renewal_written(&next)
}

/// The renewal of a member, with its session, where it is due.
fn member_renewal(host: &Host, member: &Member) -> Option<(Session, DeltaRec)>
    requires run { member.now.run ≡ record { timing = host.now.kept.config.timing; sizes = host.now.kept.config.sizes; host = host.now.kept.config.name } }
    requires moment { host.now.kept.reading < moments }
    ensures exact { result ≡ renewal_of (state_in host.now.kept) (Some member.now.state) }
    ensures fit { IfSome result (λ r. IsOwnRecord r.1) }
    ensures who { IfSome result (λ r. r.0 ≡ member.now.state.who) }
{
    if !member.is_joined() {
        return None;
    }
    match written_by(host, member) {
        Some(written) => Some((*member.who(), written)),
        None => None,
    }
}

/// That of the member of this number, if it is there.
fn renewal_of(host: &Host, number: u64) -> Option<(Session, DeltaRec)>
    requires placed { ArePlaced host.now.kept }
    requires moment { host.now.kept.reading < moments }
    ensures exact { result ≡ renewal_of (state_in host.now.kept) (member_numbered (state_in host.now.kept) number) }
    ensures fit { IfSome result (λ r. IsOwnRecord r.1 × IsPlaced host.now.kept.config.sizes r.0) }
{
    match host.members().numbered(number) {
        Some(member) => member_renewal(host, member),
        None => None,
    }
}

/// The session of this number renews, where that is due.
#[tactic(auto, using(crate::proofs::WakingStands::renewed))]
pub fn renew(host: &mut Host, number: u64)
    requires calls { 1 ≤ host.old.calls }
    requires placed { ArePlaced host.old.kept }
    requires moment { host.old.kept.reading < moments }
    ensures state { Becomes host.old host.new (at_member number renewing_in) }
    ensures run { SameRun host.old host.new }
    ensures left { Spends host.old host.new 0 1 }
{
    if let Some((who, written)) = renewal_of(host, number) {
        write_own(host, &who, Purpose::Renewal, written);
    }
}

/// What a member's joining does next by time, with its session, while its job runs.
fn member_joining(host: &Host, member: &Member) -> Option<(Session, DeltaNext)>
    requires run { member.now.run ≡ record { timing = host.now.kept.config.timing; sizes = host.now.kept.config.sizes; host = host.now.kept.config.name } }
    ensures exact { result ≡ joining_of (state_in host.now.kept) (Some member.now.state) }
    ensures fit { IfSome result (λ r. IsFitNext r.1 × IsPlain r.1) }
    ensures who { IfSome result (λ r. r.0 ≡ member.now.state.who) }
{
    let who = *member.who();
    match who.job {
        Some(job) if host.runs(job) => Some((who, member.on_wake(host.reading()))),
        _ => None,
    }
}

/// That of the member of this number, if it is there.
fn joining_of(host: &Host, number: u64) -> Option<(Session, DeltaNext)>
    requires placed { ArePlaced host.now.kept }
    ensures exact { result ≡ joining_of (state_in host.now.kept) (member_numbered (state_in host.now.kept) number) }
    ensures fit { IfSome result (λ r. IsFitNext r.1 × IsPlain r.1 × IsPlaced host.now.kept.config.sizes r.0) }
{
    match host.members().numbered(number) {
        Some(member) => member_joining(host, member),
        None => None,
    }
}

/// The joining of the session of this number goes on, where its time has come.
pub fn join_by_time(host: &mut Host, number: u64)
    requires left { 2 ≤ host.old.left }
    requires calls { 1 ≤ host.old.calls }
    requires placed { ArePlaced host.old.kept }
    requires moment { host.old.kept.reading < moments }
    ensures state { Becomes host.old host.new (at_member number joining_by_time) }
    ensures run { SameRun host.old host.new }
    ensures left { Spends host.old host.new 2 1 }
{
    if let Some((who, next)) = joining_of(host, number) {
        carry(host, &who, next);
    }
}

/// What the settling of a member's lease on an area does next, with its session, where no call on the area is open.
fn member_settling(host: &Host, member: &Member, at: &Spot) -> Option<(Session, LeaseNext)>
    requires run { member.now.run.sizes ≡ host.now.kept.config.sizes }
    requires area { IsArea host.now.kept.config.sizes at.now.base }
    requires may { MaySettle host.now.kept at.now member.now.state }
    ensures exact { result ≡ settling_of (state_in host.now.kept) at.now (Some member.now.state) }
    ensures turned { IfSome result (λ r. (r.0 ≡ member.now.state.who) × (writes_own_block r.1 ≡ true → MayTurn host.now.kept.config.sizes member.now.state at.now)) }
    ensures fit { IfSome result (λ r. IsFit r.1 × IsPlaced host.now.kept.config.sizes r.0) }
{
    if !is_free(host, at) {
        return None;
    }
    Some((*member.who(), settling_next(host, member, at)))
}

/// Whether no open call is on the area.
fn is_free(host: &Host, at: &Spot) -> bool
    requires { IsArea host.now.kept.config.sizes at.now.base }
    ensures { result ≡ is_free_at (state_in host.now.kept) at.now }
{
    match host.books().pending_refused(at) {
        Some(_refused) => false,
        None => true,
    }
}

/// That of the member of this number, if it is there.
fn settling_of(host: &Host, number: u64, at: &Spot) -> Option<(Session, LeaseNext)>
    requires area { IsArea host.now.kept.config.sizes at.now.base }
    requires may { (m : MemberState) → member_with number host.now.kept.members ≡ Some m → MaySettle host.now.kept at.now m }
    ensures exact { result ≡ settling_of (state_in host.now.kept) at.now (member_numbered (state_in host.now.kept) number) }
    ensures turned { IfSome result (λ r. writes_own_block r.1 ≡ true → IsTurned host.now.kept r.0 at.now) }
    ensures fit { IfSome result (λ r. IsFit r.1 × IsPlaced host.now.kept.config.sizes r.0) }
{
    match host.members().numbered(number) {
        Some(member) => member_settling(host, member, at),
        None => None,
    }
}

/// The lease on an area of the session of this number is settled, where something is owed and no call on the area is open.
pub fn settle(host: &mut Host, number: u64, at: &Spot)
    requires left { 3 ≤ host.old.left }
    requires calls { 1 ≤ host.old.calls }
    requires moment { host.old.kept.reading < moments }
    requires area { IsArea host.old.kept.config.sizes at.now.base }
    requires may { (m : MemberState) → member_with number host.old.kept.members ≡ Some m → MaySettle host.old.kept at.now m }
    ensures state { Becomes host.old host.new (at_member number (settling_here at.now)) }
    ensures run { SameRun host.old host.new }
    ensures left { Spends host.old host.new 3 1 }
{
    if let Some((who, next)) = settling_of(host, number, at) {
        carry_lease(host, &who, at, Work::Settling, next);
    }
}
