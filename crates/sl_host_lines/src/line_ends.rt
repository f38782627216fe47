//! Lines that end a holding, or turn it: a release, also of an orphan, and a conversion.
//!
//! A holding that is given up ends at once. While others are left under its lease the job is answered; the last one's end is work of the lease.

ghost use Rattle.sl_due.specs.declared.decision.Decision.TheVariants.{ConvertsTo, GivesUp};
ghost use Rattle.sl_host_law.specs.Decisions.CommandDecisions.{held_on};
ghost use Rattle.sl_host_law.specs.Steps.Leases.{converting_next};
ghost use Rattle.sl_host_law.specs.Steps.LineSteps.{deciding};
ghost use Rattle.sl_host_law.specs.Steps.Passes.{at_member};
ghost use Rattle.sl_host_lines.specs.HoldingEnds.{freed_next, freed_of, giving, gone_on, turning, turning_of};
ghost use Rattle.sl_host_lines.specs.LineFacts.{IsTimely, MayConvert, MayConvertAt, MayRelease, MayReleaseAt};
ghost use Rattle.sl_host_work.specs.LeaseQuestions.{IsTurned, MayTurn};
ghost use Rattle.sl_host_work.specs.NextDecisions.{IsFit, writes_own_block};
ghost use Rattle.sl_host_work.specs.SectorPlaces.{IsArea, IsPlaced};
ghost use Rattle.sl_trace.specs.Leases.{spot_of};
ghost use Rattle.sl_member.specs.HostMembers.{member_with};
ghost use Rattle.sl_trace.specs.Traces.{spot_of_grant};
ghost use Rattle.sl_host.specs.BookQuestions.{state_in};
ghost use Rattle.sl_host.specs.Host.{Becomes, SameRun, Spends};
ghost use Rattle.sl_words.specs.Bounds.{moments};
ghost use Rattle.sl_words.specs.Words.{is_empty};
ghost use Rattle.std.specs.Prelude.{IfSome, is_some, true, ◌<◌, ◌≡◌, ◌≤◌};

use crate::line_answers::begin;
use sl_host::Host;
use sl_host_work::{carry_lease, converting_next, releasing_next};
use sl_member::Member;
use sl_tables::Holder;
use sl_text::Name;
use sl_trace::{Command, Grant, LeaseNext, Mode, Reply, ResourceArg, Session, Spot, Work, end_of};

/// The area of a holding.
fn spot_of_grant(grant: &Grant) -> Spot
    ensures { result ≡ spot_of_grant grant.now }
{
    Spot {
        path: grant.path,
        base: grant.offset,
    }
}

/// The area of a resource.
fn spot_of(resource: &ResourceArg) -> Spot
    ensures { result ≡ spot_of resource.now }
{
    Spot {
        path: resource.path,
        base: resource.offset,
    }
}

/// Whether nothing is held under a member's lease on an area.
fn is_bare(host: &Host, member: &Member, at: &Spot) -> bool
    ensures { result ≡ is_empty (held_on (state_in host.now.kept) member.now.state at.now) }
{
    host.held(member.who().number, at, Holder::Anyone, None)
        .is_none()
}

/// What the lease of a member does next after a holding under it has ended, unless others are left.
fn freed_next(host: &Host, member: &Member, ended: &Grant) -> Option<LeaseNext>
    requires run { member.now.run.sizes ≡ host.now.kept.config.sizes }
    requires may { MayRelease host.now.kept ended.now member.now.state }
    ensures exact { result ≡ freed_next (state_in host.now.kept) ended.now member.now.state }
    ensures turned { IfSome result (λ n. writes_own_block n ≡ true → MayTurn host.now.kept.config.sizes member.now.state (spot_of_grant ended.now)) }
    ensures fit { IfSome result IsFit }
{
    let at = spot_of_grant(ended);
    if is_bare(host, member, &at) {
        Some(releasing_next(host, member, &at, ended))
    } else {
        None
    }
}

/// That of the member of this number, with its session, if it is there.
fn freed_of(host: &Host, number: u64, ended: &Grant) -> Option<(Session, Option<LeaseNext>)>
    requires may { MayReleaseAt host.now.kept number ended.now }
    ensures exact { result ≡ freed_of (state_in host.now.kept) ended.now (member_with number host.now.kept.members) }
    ensures turned { IfSome result (λ r. IfSome r.1 (λ n. writes_own_block n ≡ true → IsTurned host.now.kept r.0 (spot_of_grant ended.now))) }
    ensures fit { IfSome result (λ r. IfSome r.1 IsFit × IsPlaced host.now.kept.config.sizes r.0 × IsArea host.now.kept.config.sizes ended.now.offset) }
{
    match host.members().numbered(number) {
        Some(member) => Some((*member.who(), freed_next(host, member, ended))),
        None => None,
    }
}

/// What follows the end of a holding of the member of this number is done, for this job.
fn go_on(host: &mut Host, number: u64, job: u64, ended: &Grant)
    requires left { 3 ≤ host.old.left }
    requires calls { 1 ≤ host.old.calls }
    requires moment { host.old.kept.reading < moments }
    requires may { MayReleaseAt host.old.kept number ended.now }
    ensures state { Becomes host.old host.new (at_member number (gone_on job ended.now)) }
    ensures left { Spends host.old host.new 3 1 }
    ensures run { SameRun host.old host.new }
{
    let at = spot_of_grant(ended);
    if let Some((who, next)) = freed_of(host, number, ended) {
        match next {
            Some(next) => carry_lease(host, &who, &at, Work::ForJob { job }, next),
            None => host.reply(job, Reply::Done),
        }
    }
}

/// Whether there is a member of this number.
fn is_there(host: &Host, number: u64) -> bool
    ensures { result ≡ is_some (member_with number host.now.kept.members) }
{
    host.members().numbered(number).is_some()
}

/// A holding of the member of this number ends, for this job, and what follows is done.
fn give(host: &mut Host, number: u64, job: u64, holding: &Grant)
    requires left { 4 ≤ host.old.left }
    requires calls { 1 ≤ host.old.calls }
    requires moment { host.old.kept.reading < moments }
    requires may { MayReleaseAt host.old.kept number holding.now }
    ensures state { Becomes host.old host.new (at_member number (giving job holding.now)) }
    ensures left { Spends host.old host.new 4 1 }
    ensures run { SameRun host.old host.new }
{
    if is_there(host, number) {
        host.end(end_of(holding));
        go_on(host, number, job, holding);
    }
}

/// The line is a job; the holding ends, and where it was the last under its lease the area is written, else the job is answered.
pub(crate) fn give_up(host: &mut Host, command: &Command, session: &Session, holding: &Grant)
    requires left { 5 ≤ host.old.left }
    requires calls { 1 ≤ host.old.calls }
    requires timely { IsTimely host.old.kept }
    requires may { MayReleaseAt host.old.kept session.now.number holding.now }
    ensures state { Becomes host.old host.new (deciding command.now (GivesUp session.now holding.now)) }
    ensures left { Spends host.old host.new 5 1 }
    ensures run { SameRun host.old host.new }
{
    let job = begin(host, command);
    give(host, session.number, job, holding);
}

// ---- conversions

/// What a conversion at a member does next.
fn turning_next(host: &Host, member: &Member, at: &Spot, mode: Mode, name: Name) -> LeaseNext
    requires run { member.now.run.sizes ≡ host.now.kept.config.sizes }
    requires may { MayConvert host.now.kept at.now member.now.state }
    ensures exact { result ≡ converting_next (state_in host.now.kept) member.now.state at.now mode name }
    ensures turned { writes_own_block result ≡ true → MayTurn host.now.kept.config.sizes member.now.state at.now }
    ensures fit { IsFit result }
{
    converting_next(host, member, at, mode, name)
}

/// That of the member of this number, with its session, if it is there.
fn turning_of(
    host: &Host,
    number: u64,
    at: &Spot,
    mode: Mode,
    name: Name,
) -> Option<(Session, LeaseNext)>
    requires may { MayConvertAt host.now.kept number at.now }
    ensures exact { result ≡ turning_of (state_in host.now.kept) at.now mode name (member_with number host.now.kept.members) }
    ensures turned { IfSome result (λ r. writes_own_block r.1 ≡ true → IsTurned host.now.kept r.0 at.now) }
    ensures fit { IfSome result (λ r. IsFit r.1 × IsPlaced host.now.kept.config.sizes r.0 × IsArea host.now.kept.config.sizes at.now.base) }
{
    match host.members().numbered(number) {
        Some(member) => Some((*member.who(), turning_next(host, member, at, mode, name))),
        None => None,
    }
}

/// It is done, for this job.
fn turn(host: &mut Host, number: u64, job: u64, at: &Spot, mode: Mode, name: Name)
    requires left { 3 ≤ host.old.left }
    requires calls { 1 ≤ host.old.calls }
    requires moment { host.old.kept.reading < moments }
    requires may { MayConvertAt host.old.kept number at.now }
    ensures state { Becomes host.old host.new (at_member number (turning job at.now mode name)) }
    ensures left { Spends host.old host.new 3 1 }
    ensures run { SameRun host.old host.new }
{
    if let Some((who, next)) = turning_of(host, number, at, mode, name) {
        carry_lease(host, &who, at, Work::ForJob { job }, next);
    }
}

/// A holding of the session is converted to this mode.
pub(crate) fn convert(
    host: &mut Host,
    command: &Command,
    session: &Session,
    resource: &ResourceArg,
    mode: Mode,
)
    requires left { 4 ≤ host.old.left }
    requires calls { 1 ≤ host.old.calls }
    requires timely { IsTimely host.old.kept }
    requires may { MayConvertAt host.old.kept session.now.number (spot_of resource.now) }
    ensures state { Becomes host.old host.new (deciding command.now (ConvertsTo session.now resource.now mode)) }
    ensures left { Spends host.old host.new 4 1 }
    ensures run { SameRun host.old host.new }
{
    let at = spot_of(resource);
    let job = begin(host, command);
    turn(host, session.number, job, &at, mode, resource.name);
}
