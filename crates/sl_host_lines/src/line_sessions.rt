//! Lines on a lockspace: it is left, or joined.

ghost use Rattle.sl_area.specs.AreaSizes.{layout_of};
ghost use Rattle.sl_area.specs.AreaLayout.{delta_offset};
ghost use Rattle.sl_due.specs.declared.decision.Decision.TheVariants.{Joins, Leaves};
ghost use Rattle.sl_host_law.specs.Steps.LineSteps.{deciding};
ghost use Rattle.sl_host_law.specs.Steps.Passes.{at_member};
ghost use Rattle.sl_host_lines.specs.LeavingsBegin.{leaving_cost, leaving_for};
ghost use Rattle.sl_host_lines.specs.LineFacts.{IsTimely};
ghost use Rattle.sl_host_lines.specs.Seats.{HasSeat, IsSeat};
ghost use Rattle.sl_host_work.specs.Stops.{stopped_of};
ghost use Rattle.sl_member.specs.HostMembers.{member_with};
ghost use Rattle.sl_trace.specs.CommandForms.{IsLockspaceArg};
ghost use Rattle.sl_trace.specs.CountLimits.{most_lockspaces};
ghost use Rattle.sl_trace.specs.declared.command.Command.TheVariants.{AddLockspace};
ghost use Rattle.sl_host.specs.Host.{Becomes, SameRun, Spends};
ghost use Rattle.std.specs.Prelude.{None, length, option_map, ℕ, ◌+◌, ◌<◌, ◌≡◌, ◌≤◌};

use crate::line_answers::begin;
use sl_host::{Host, Notes};
use sl_host_work::{Stopped, stop};
use sl_member::Member;
use sl_trace::{Command, LockspaceArg, Op, Session};

/// What of a member is stopped.
fn stopped(member: &Member) -> Stopped
    ensures { result ≡ stopped_of member.now.state }
{
    let who = member.who();
    Stopped {
        session: who.number,
        lockspace: who.lockspace,
        renewed: member.renewing().last,
    }
}

/// What of the member of this number is stopped, if it is there.
fn stopped_at(host: &Host, number: u64) -> Option<Stopped>
    ensures { result ≡ option_map stopped_of (member_with number host.now.kept.members) }
{
    match host.members().numbered(number) {
        Some(member) => Some(stopped(member)),
        None => None,
    }
}

/// The holders of the member of this number are told to stop, and its jobs are refused, but that for which it leaves.
fn stop_at(host: &mut Host, numbers: &mut Notes<u64>, number: u64, job: u64)
    requires room { length host.old.kept.jobs ≤ numbers.old.most }
    requires left { leaving_cost host.old.kept ≤ host.old.left }
    ensures state { Becomes host.old host.new (at_member number (leaving_for job)) }
    ensures left { Spends host.old host.new (leaving_cost host.old.kept) 0 }
    ensures run { SameRun host.old host.new }
    ensures notes { numbers.new.most ≡ numbers.old.most }
{
    match stopped_at(host, number) {
        Some(stopped) => stop(host, numbers, stopped, Some(job)),
        None => {}
    }
}

/// The session is left: its holders are told to stop, and its other jobs are refused.
pub(crate) fn leave(host: &mut Host, numbers: &mut Notes<u64>, command: &Command, session: &Session)
    requires room { length host.old.kept.jobs < numbers.old.most }
    requires left { 2 + leaving_cost host.old.kept ≤ host.old.left }
    requires timely { IsTimely host.old.kept }
    ensures state { Becomes host.old host.new (deciding command.now (Leaves session.now)) }
    ensures left { Spends host.old host.new (2 + leaving_cost host.old.kept) 0 }
    ensures run { SameRun host.old host.new }
    ensures notes { numbers.new.most ≡ numbers.old.most }
{
    let job = begin(host, command);
    stop_at(host, numbers, session.number, job);
}

// ---- joinings

/// Where the sector of the id stands that a lockspace names.
fn id_sector(host: &Host, lockspace: &LockspaceArg) -> u64
    requires { IsLockspaceArg (layout_of host.now.kept.config.sizes) lockspace.now }
    ensures { result ≡ delta_offset (layout_of host.now.kept.config.sizes) lockspace.now.offset lockspace.now.id }
{
    let config = host.config();
    config
        .geometry
        .delta_place(lockspace.offset, lockspace.id)
        .offset()
}

/// The lockspace is joined: a session begins with this member, by the read of its id's sector.
fn join(host: &mut Host, command: &Command, lockspace: &LockspaceArg, seat: Member)
    requires left { 1 ≤ host.old.left }
    requires calls { 1 ≤ host.old.calls }
    requires timely { IsTimely host.old.kept }
    requires named { IsLockspaceArg (layout_of host.old.kept.config.sizes) lockspace.now }
    requires new { member_with host.old.kept.born host.old.kept.members ≡ None }
    requires few { length host.old.kept.members < most_lockspaces }
    requires seat { IsSeat host.old host.old.kept.next_job lockspace.now seat }
    ensures state { (n : ℕ) → Becomes host.old host.new (deciding command.now (Joins n lockspace.now)) }
    ensures left { Spends host.old host.new 1 1 }
    ensures run { SameRun host.old host.new }
{
    let offset = id_sector(host, lockspace);
    let job = begin(host, command);
    host.join(seat, lockspace, job, offset, Op::ReadSectors { sectors: 1 });
}

/// The same, with the member that was made for it, which is taken out of its place.
pub(crate) fn join_with(
    host: &mut Host,
    command: &Command,
    lockspace: &LockspaceArg,
    seat: &mut Option<Member>,
)
    requires left { 1 ≤ host.old.left }
    requires calls { 1 ≤ host.old.calls }
    requires timely { IsTimely host.old.kept }
    requires named { IsLockspaceArg (layout_of host.old.kept.config.sizes) lockspace.now }
    requires new { member_with host.old.kept.born host.old.kept.members ≡ None }
    requires few { length host.old.kept.members < most_lockspaces }
    requires seat { HasSeat host.old (AddLockspace lockspace.now) seat.old }
    ensures state { (n : ℕ) → Becomes host.old host.new (deciding command.now (Joins n lockspace.now)) }
    ensures left { Spends host.old host.new 1 1 }
    ensures run { SameRun host.old host.new }
{
    match seat.take() {
        Some(member) => join(host, command, lockspace, member),
        None => {}
    }
}
