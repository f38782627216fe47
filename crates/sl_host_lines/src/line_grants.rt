//! Lines that grant at once: a shared holding beside another, and an orphan that is taken over.

ghost use Rattle.sl_due.specs.declared.decision.Decision.TheVariants.{Shares, TakesOver};
ghost use Rattle.sl_host_law.specs.Steps.LineSteps.{deciding};
ghost use Rattle.sl_host_lines.specs.LineFacts.{IsTimely};
ghost use Rattle.sl_trace.specs.Traces.{end_of};
ghost use Rattle.sl_host.specs.Host.{Becomes, SameRun, Spends};
ghost use Rattle.std.specs.Prelude.{◌≤◌};

use crate::line_answers::begin;
use sl_host::Host;
use sl_host_work::grant_for;
use sl_trace::{Command, Grant, Mode, Session, end_of};

/// A shared holding is granted beside another, under its instance.
pub(crate) fn share(host: &mut Host, command: &Command, session: &Session, lver: u64)
    requires left { 3 ≤ host.old.left }
    requires timely { IsTimely host.old.kept }
    ensures state { Becomes host.old host.new (deciding command.now (Shares session.now lver)) }
    ensures left { Spends host.old host.new 3 0 }
    ensures run { SameRun host.old host.new }
{
    let job = begin(host, command);
    grant_for(host, session, job, command, Mode::Shared, lver);
}

/// An orphan ends, and its place is the asking process's, in its mode and under its instance.
pub(crate) fn take_over(host: &mut Host, command: &Command, session: &Session, orphan: &Grant)
    requires left { 4 ≤ host.old.left }
    requires timely { IsTimely host.old.kept }
    ensures state { Becomes host.old host.new (deciding command.now (TakesOver session.now orphan.now)) }
    ensures left { Spends host.old host.new 4 0 }
    ensures run { SameRun host.old host.new }
{
    let job = begin(host, command);
    host.end(end_of(orphan));
    grant_for(host, session, job, command, orphan.mode, orphan.lver);
}
