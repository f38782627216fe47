//! Recoveries, calls that are overdue, and kills, which are due to whoever holds then.

ghost use Rattle.sl_host_law.specs.StepParts.Recoveries.{killing};
ghost use Rattle.sl_host_law.specs.StepParts.Signals.{over};
ghost use Rattle.sl_host_law.specs.Questions.Jobs.{is_overdue_in};
ghost use Rattle.sl_host_state.specs.StepQuestions.{begins_in, is_kill_due_in};
ghost use Rattle.sl_host_work.specs.Holders.{SameButSignals};
ghost use Rattle.sl_host_work.specs.KilledMembers.{holders_at, holders_of_all, is_killed, killed_of, killing_at, unread};
ghost use Rattle.sl_host_work.specs.Stops.{overdue_of, recovering_of};
ghost use Rattle.sl_member.specs.HostMembers.{member_with};
ghost use Rattle.sl_host.specs.Host.{Becomes, SameRun, Spends};
ghost use Rattle.std.specs.Prelude.{Some, find, length, nat_le, slice_get, ◌+◌, ◌<◌, ◌==◌, ◌≡◌, ◌≤◌};

use crate::signals::signal_holders;
use sl_host::Host;
use sl_host_state::WaitingCall;
use sl_member::Member;
use sl_text::Name;
use sl_trace::{Begun, Signal};

/// Whether so much time has passed since a reading.
fn has_passed(since: u64, time: u64, now: u64) -> bool
    ensures { result ≡ nat_le (since + time) now }
{
    since <= now && time <= now - since
}

/// Of whom a recovery or a leaving tells holders and jobs: a session, its lockspace, the last renewal of it that counts.
#[derive(Clone, Copy)]
pub struct Stopped {
    pub session: u64,
    pub lockspace: Name,
    pub renewed: u64,
}

/// Whether a recovery or a leaving began in the step.
fn begins(host: &Host, begun: Option<Begun>) -> bool
    ensures { result ≡ begins_in (unread host.now.kept) begun }
{
    match begun {
        Some(begun) => begun.at < host.entries() && host.entries() - begun.at == 1,
        None => false,
    }
}

/// What of a member is stopped, where its recovery begins in the step.
fn recovering(host: &Host, member: &Member) -> Option<Stopped>
    ensures { result ≡ recovering_of (unread host.now.kept) (Some member.now.state) }
{
    let renewing = member.renewing();
    if begins(host, renewing.recovery) {
        let who = member.who();
        Some(Stopped {
            session: who.number,
            lockspace: who.lockspace,
            renewed: renewing.last,
        })
    } else {
        None
    }
}

/// The same of the member of this number.
#[tactic(auto, using(crate::proofs::RefusalsStand::recovering_some, crate::proofs::RefusalsStand::recovering_none))]
pub fn recovering_numbered(host: &Host, number: u64) -> Option<Stopped>
    ensures { result ≡ recovering_of (unread host.now.kept) (member_with number host.now.kept.members) }
{
    match host.members().numbered(number) {
        Some(member) => recovering(host, member),
        None => None,
    }
}

/// Whether a call has been unanswered for `io` or longer.
fn is_overdue(host: &Host, call: &WaitingCall) -> bool
    ensures { result ≡ is_overdue_in (unread host.now.kept) call.now }
{
    has_passed(call.reading, host.config().timing.io(), host.reading())
}

/// The call of the job of this number that is overdue.
#[tactic(auto, using(crate::proofs::RefusalsStand::overdue_some, crate::proofs::RefusalsStand::overdue_none))]
pub fn overdue(host: &Host, number: u64) -> Option<WaitingCall>
    ensures { result ≡ overdue_of (unread host.now.kept) (find (λ j. j.number == number) host.now.kept.jobs) }
{
    match host.job(number) {
        Some(job) => match job.waits {
            Some(call) if is_overdue(host, &call) => Some(call),
            _ => None,
        },
        None => None,
    }
}

/// Whether the kills of a recovery or a leaving are due in the step: it is the first, of those from which on they may come, that has reached
/// their moment.
fn is_kill_due(host: &Host, begun: Option<Begun>) -> bool
    ensures { result ≡ is_kill_due_in (unread host.now.kept) begun }
{
    match begun {
        Some(begun) => {
            let step = host.entries().saturating_sub(1);
            let grace = host.config().grace;
            let reached = has_passed(begun.reading, grace, host.reading());
            let before = has_passed(begun.reading, grace, host.before());
            begun.kills_from <= step && reached && !(begun.kills_from < step && before)
        }
        None => false,
    }
}

/// Whether kills are due to the holders of the member.
fn is_killed(host: &Host, member: &Member) -> bool
    ensures { result ≡ is_killed (unread host.now.kept) member.now.state }
{
    member.is_joined()
        && (is_kill_due(host, member.renewing().recovery) || is_kill_due(host, member.leaving()))
}

/// The session of the member at this place, where kills are due to its holders.
#[tactic(auto, using(crate::proofs::KillsStand::killed_there))]
fn killed_at(host: &Host, place: usize) -> Option<u64>
    requires { place < length host.now.kept.members }
    ensures { result ≡ killed_of (unread host.now.kept) (slice_get host.now.kept.members place) }
{
    let member = host.members().nth(place);
    if is_killed(host, member) {
        Some(member.who().number)
    } else {
        None
    }
}

/// Its holders are killed, where it is due.
fn kill_at(host: &mut Host, place: usize)
    requires place { place < length host.old.kept.members }
    requires left { holders_at place host.old.kept ≤ host.old.left }
    ensures state { Becomes host.old host.new (killing_at place) }
    ensures left { Spends host.old host.new (holders_at place host.old.kept) 0 }
    ensures run { SameRun host.old host.new }
    ensures stays { SameButSignals host.old host.new }
{
    match killed_at(host, place) {
        Some(session) => signal_holders(host, session, Signal::Kill),
        None => {}
    }
}

/// The holders of each member are killed, where it is due.
pub fn kill_all(host: &mut Host)
    requires { holders_of_all host.old.kept.members host.old.kept.holdings ≤ host.old.left }
    ensures state { Becomes host.old host.new (λ h. over h.members killing h) }
    ensures left { Spends host.old host.new (holders_of_all host.old.kept.members host.old.kept.holdings) 0 }
    ensures run { SameRun host.old host.new }
    ensures stays { SameButSignals host.old host.new }
{
    for place in 0..host.members().len() {
        kill_at(host, place);
    }
}
