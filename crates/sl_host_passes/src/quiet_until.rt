//! How long a host is quiet: the next moment at which something is due before an input.

ghost use Rattle.sl_host_passes.specs.NextMoment.{found_moments, least_by, next_moment};
ghost use Rattle.sl_host_passes.specs.PassPremises.{JobsApart};
ghost use Rattle.sl_host_state.specs.HeardInputs.{quiet_to};
ghost use Rattle.sl_host_state.specs.HostStands.{IsQuiet, job_moments, kill_moment, member_moments, recovery_moment};
ghost use Rattle.sl_host_work.specs.KilledMembers.{unread};
ghost use Rattle.sl_host.specs.BookQuestions.{state_in};
ghost use Rattle.sl_host.specs.Host.{Becomes, SameRun, Spends};
ghost use Rattle.std.specs.Prelude.{find, flat_map, length, min, nat_le, ◌+◌, ◌-◌, ◌==◌, ◌^◌, ◌≡◌, ◌≤◌};

use sl_host::{Chosen, Host, Notes};
use sl_host_state::JobState;
use sl_member::Member;
use sl_trace::Begun;

/// The earlier of a moment and one so much after a reading.
fn sooner(next: u64, since: u64, time: u64) -> u64
    ensures { result ≡ min next (since + time) }
{
    next.min(since.saturating_add(time))
}

/// Whether so much time has passed since a reading.
fn has_passed(since: u64, time: u64, now: u64) -> bool
    ensures { result ≡ nat_le (since + time) now }
{
    since <= now && time <= now - since
}

/// The earlier of a moment and that of these kills, unless they have come.
fn before_kills(host: &Host, begun: Option<Begun>, next: u64) -> u64
    ensures { result ≡ least_by next (kill_moment (unread host.now.kept) begun) }
{
    match begun {
        Some(begun) => {
            let grace = host.config().grace;
            if begun.kills_from < host.entries()
                && has_passed(begun.reading, grace, host.reading())
            {
                next
            } else {
                sooner(next, begun.reading, grace)
            }
        }
        None => next,
    }
}

/// The earlier of a moment and that of the member's recovery, while none has begun.
fn before_recovery(host: &Host, member: &Member, next: u64) -> u64
    ensures { result ≡ least_by next (recovery_moment (unread host.now.kept) member.now.state) }
{
    let renewing = member.renewing();
    match renewing.recovery {
        Some(_) => next,
        None => sooner(next, renewing.last, host.config().timing.fail()),
    }
}

/// The earliest of a moment and those of a member.
fn before_member(host: &Host, member: &Member, next: u64) -> u64
    ensures { result ≡ least_by next (member_moments (unread host.now.kept) member.now.state) }
{
    if !member.is_joined() {
        return next;
    }
    let recovery = before_recovery(host, member, next);
    let kills = before_kills(host, member.renewing().recovery, recovery);
    before_kills(host, member.leaving(), kills)
}

/// The earliest of those of all members.
fn before_members(host: &Host) -> u64
    ensures { result ≡ least_by (2 ^ 64 - 1) (flat_map (member_moments (unread host.now.kept)) host.now.kept.members) }
{
    let mut next = u64::MAX;
    for place in 0..host.members().len() {
        next = before_member(host, host.members().nth(place), next);
    }
    next
}

/// The earlier of a moment and that from which on a job's call is overdue.
fn before_job(host: &Host, job: &JobState, next: u64) -> u64
    ensures { result ≡ least_by next (job_moments (unread host.now.kept) job.now) }
{
    match job.waits {
        Some(call) => sooner(next, call.reading, host.config().timing.io()),
        None => next,
    }
}

/// The same of the job of this number, if it runs.
fn before_numbered(host: &Host, number: u64, next: u64) -> u64
    ensures { result ≡ least_by next (found_moments (unread host.now.kept) (find (λ j. j.number == number) host.now.kept.jobs)) }
{
    match host.job(number) {
        Some(job) => before_job(host, job, next),
        None => next,
    }
}

/// The earliest of a moment and those of the jobs of these numbers.
fn before_jobs(host: &Host, numbers: &Notes<u64>, first: u64) -> u64
    ensures { result ≡ least_by first (flat_map (λ n. found_moments (unread host.now.kept) (find (λ j. j.number == n) host.now.kept.jobs)) numbers.now.items) }
{
    let mut next = first;
    for place in 0..numbers.len() {
        next = before_numbered(host, *numbers.nth(place), next);
    }
    next
}

/// From here on nothing is due before an input below the next moment at which something is.
pub fn calm(host: &mut Host, numbers: &mut Notes<u64>)
    requires room { length host.old.kept.jobs ≤ numbers.old.most }
    requires apart { JobsApart host.old.kept }
    ensures state { Becomes host.old host.new (quiet_to (next_moment (unread host.old.kept))) }
    ensures quiet { IsQuiet (state_in host.new.kept) }
    ensures left { Spends host.old host.new 0 0 }
    ensures run { SameRun host.old host.new }
    ensures notes { numbers.new.most ≡ numbers.old.most }
{
    host.note_jobs(&Chosen::All, numbers);
    let next = before_members(host);
    let next = before_jobs(host, numbers, next);
    host.quiet_to(next);
}
