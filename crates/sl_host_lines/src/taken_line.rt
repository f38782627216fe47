//! A line: what it says is decided on the host as it has come to its input, then it is heard and carried out.

ghost use Rattle.sl_area.specs.AreaSizes.{layout_of};
ghost use Rattle.sl_host_lines.specs.ListMemory.{FitsLists};
ghost use Rattle.sl_due.specs.declared.decision.Decision.TheVariants.{Joins};
ghost use Rattle.sl_host_law.specs.Decisions.CommandDecisions.{decision_of};
ghost use Rattle.sl_host_law.specs.Steps.LineSteps.{deciding, lining};
ghost use Rattle.sl_host_lines.specs.LeavingsBegin.{line_cost};
ghost use Rattle.sl_host_lines.specs.LineFacts.{DecisionKnown, IsTimely, LineKnown};
ghost use Rattle.sl_host_lines.specs.Seats.{HasSeat};
ghost use Rattle.sl_trace.specs.CommandForms.{IsCommand};
ghost use Rattle.sl_trace.specs.declared.command.LockspaceArg.{LockspaceArg};
ghost use Rattle.sl_host.specs.BookQuestions.{state_in};
ghost use Rattle.sl_host.specs.Host.{Becomes, SameRun, Spends};
ghost use Rattle.std.specs.Prelude.{Ok, length, ℕ, ◌<◌, ◌≡◌, ◌≤◌};

use crate::line_answers::{answer, get_value, read_area, request, set_value};
use crate::line_ends::{convert, give_up};
use crate::line_grants::{share, take_over};
use crate::line_sessions::{join_with, leave};
use crate::{Lists, decide};
use sl_due::Decision;
use sl_host::{Host, Notes};
use sl_member::Member;
use sl_trace::Command;

/// What a command came to is done, if it joins no lockspace.
fn carry_on(host: &mut Host, numbers: &mut Notes<u64>, command: &Command, decision: Decision)
    requires room { length host.old.kept.jobs < numbers.old.most }
    requires left { line_cost host.old.kept (Ok command.now) ≤ host.old.left }
    requires calls { 1 ≤ host.old.calls }
    requires timely { IsTimely host.old.kept }
    requires known { DecisionKnown host.old.kept command.now decision }
    requires other { (n : ℕ) (a : LockspaceArg) → decision ≡ Joins n a → ⊥ }
    ensures state { Becomes host.old host.new (deciding command.now decision) }
    ensures left { Spends host.old host.new (line_cost host.old.kept (Ok command.now)) 1 }
    ensures run { SameRun host.old host.new }
    ensures notes { numbers.new.most ≡ numbers.old.most }
{
    match decision {
        Decision::Replies(reply) => answer(host, command, reply),
        Decision::Joins { .. } => unreachable!(),
        Decision::Leaves(session) => leave(host, numbers, command, &session),
        Decision::ReadsArea { session, resource } => read_area(host, command, &session, &resource),
        Decision::Shares { session, lver } => share(host, command, &session, lver),
        Decision::GivesUp { session, holding } => give_up(host, command, &session, &holding),
        Decision::TakesOver { session, orphan } => take_over(host, command, &session, &orphan),
        Decision::ConvertsTo {
            session,
            resource,
            mode,
        } => convert(host, command, &session, &resource, mode),
        Decision::Requests { session, resource } => request(host, command, &session, &resource),
        Decision::SetsValue {
            session,
            spot,
            value,
        } => set_value(host, command, &session, &spot, value),
        Decision::GetsValue { session, spot } => get_value(host, command, &session, &spot),
    }
}

/// What a command came to is done: only a joining takes the seat, so all else goes on without it.
fn carry_out(
    host: &mut Host,
    numbers: &mut Notes<u64>,
    seat: &mut Option<Member>,
    command: &Command,
    decision: Decision,
)
    requires room { length host.old.kept.jobs < numbers.old.most }
    requires left { line_cost host.old.kept (Ok command.now) ≤ host.old.left }
    requires calls { 1 ≤ host.old.calls }
    requires timely { IsTimely host.old.kept }
    requires command { IsCommand (layout_of host.old.kept.config.sizes) command.now }
    requires decided { decision ≡ decision_of (state_in host.old.kept) command.now }
    requires known { DecisionKnown host.old.kept command.now decision }
    requires seat { HasSeat host.old command.now seat.old }
    ensures state { Becomes host.old host.new (deciding command.now decision) }
    ensures left { Spends host.old host.new (line_cost host.old.kept (Ok command.now)) 1 }
    ensures run { SameRun host.old host.new }
    ensures notes { numbers.new.most ≡ numbers.old.most }
{
    match decision {
        Decision::Joins { lockspace, .. } => join_with(host, command, &lockspace, seat),
        other => carry_on(host, numbers, command, other),
    }
}

/// A command that was read is taken: it is decided, then answered at once, or it is a job from here on, and what it asks for begins or is done. There is
/// memory for the list that it is answered by, if it is, for the member that it joins with, and for the numbers of all jobs. What is left in the
/// member's place is nobody's.
pub fn take_line(
    host: &mut Host,
    numbers: &mut Notes<u64>,
    seat: &mut Option<Member>,
    lists: Lists,
    command: &Command,
)
    requires room { length host.old.kept.jobs < numbers.old.most }
    requires left { line_cost host.old.kept (Ok command.now) ≤ host.old.left }
    requires calls { 1 ≤ host.old.calls }
    requires known { LineKnown host.old.kept command.now }
    requires lists { FitsLists host.old.kept.config.sizes host.old.seats command.now lists }
    requires seat { HasSeat host.old command.now seat.old }
    ensures state { Becomes host.old host.new (lining (Ok command.now)) }
    ensures left { Spends host.old host.new (line_cost host.old.kept (Ok command.now)) 1 }
    ensures run { SameRun host.old host.new }
    ensures notes { numbers.new.most ≡ numbers.old.most }
{
    let decision = decide(host, command, lists);
    carry_out(host, numbers, seat, command, decision);
}
