//! What a command on a lockspace comes to: it is joined, left, or told of.

ghost use Rattle.sl_host_lines.specs.CommandRefusals.{add_in, first_refusal, leave_in, report_in};
ghost use Rattle.sl_host_law.specs.Decisions.CommandDecisions.{held_of, joined_refused, member_named, member_of, member_refusal, with_member};
ghost use Rattle.sl_trace.specs.Traces.{is_orphan, no_process};
ghost use Rattle.sl_trace.specs.declared.reply.Limited.TheVariants.{Seq as SeqLimit};
ghost use Rattle.sl_trace.specs.declared.reply.Reply.TheVariants.{Busy, Generation, Limit as LimitReached};
ghost use Rattle.sl_host.specs.BookQuestions.{state_in};
ghost use Rattle.sl_words.specs.Bounds.{is_number};
ghost use Rattle.sl_words.specs.Words.{choose};
ghost use Rattle.std.specs.List.{list_any};
ghost use Rattle.std.specs.Prelude.{IfSome, Some, [], not, option_map, ◌+◌, ◌∷◌, ◌≡◌};

use crate::command_refusals::{member_named, member_refusal};
use sl_due::Decision;
use sl_host::Host;
use sl_member::{Member, is_session_arg};
use sl_trace::{Limited, LockspaceArg, Reply};

/// Lockspaces of a machine.
const MOST_LOCKSPACES: usize = 8;

/// What an `add_lockspace` of a member's name is refused for.
fn joined_refusal(member: &Member) -> Reply
    ensures { Some result ≡ joined_refused (Some member.now.state) }
{
    match member_refusal(member) {
        Some(reply) => reply,
        None => Reply::Joined {
            generation: member.known().generation,
        },
    }
}

/// What an `add_lockspace` is refused for by the member of that name.
fn joined_refused(host: &Host, lockspace: &LockspaceArg) -> Option<Reply>
    ensures { result ≡ joined_refused (member_named (state_in host.now.kept) lockspace.now.name) }
{
    match member_named(host, &lockspace.name) {
        Some(member) => Some(joined_refusal(member)),
        None => None,
    }
}

/// What an `add_lockspace` comes to: a new session, unless its lockspace is in use, or one more would pass the limit.
pub(crate) fn decide_add(host: &Host, lockspace: &LockspaceArg) -> Decision
    ensures { result ≡ add_in (state_in host.now.kept) lockspace.now }
{
    if let Some(reply) = joined_refused(host, lockspace) {
        return Decision::Replies(reply);
    }
    if host.members().len() >= MOST_LOCKSPACES {
        return Decision::Replies(Reply::Limit {
            which: Limited::Lockspaces,
        });
    }
    Decision::Joins {
        session: host.born(),
        lockspace: *lockspace,
    }
}

/// The member of a lockspace, if id and area are right too.
pub(crate) fn member_of<'a>(host: &'a Host, lockspace: &LockspaceArg) -> Option<&'a Member>
    ensures exact { option_map (λ m. m.now.state) result ≡ member_of (state_in host.entry.now.kept) lockspace.now }
    ensures run { IfSome result (λ m. m.now.run.sizes ≡ host.entry.now.kept.config.sizes) }
{
    match member_named(host, &lockspace.name) {
        Some(member) => {
            if is_session_arg(member.who(), lockspace) {
                Some(member)
            } else {
                None
            }
        }
        None => None,
    }
}

/// What refuses a leaving: the member's state, an orphan, no seq for the free.
fn leave_refused(host: &Host, member: &Member) -> Option<Reply>
    ensures { result ≡ first_refusal (member_refusal member.now.state ∷ choose (list_any is_orphan (held_of (state_in host.now.kept) member.now.state)) (Busy no_process) ∷ choose (not (is_number (member.now.state.known.seq + 1))) (LimitReached SeqLimit) ∷ []) }
{
    if let Some(reply) = member_refusal(member) {
        return Some(reply);
    }
    if host.has_orphan(member.who().number) {
        return Some(Reply::Busy { process: 0 });
    }
    if member.known().seq + 1 < 1 << 63 {
        None
    } else {
        Some(Reply::Limit {
            which: Limited::Seq,
        })
    }
}

/// A leaving by a member.
fn leaves(host: &Host, member: &Member) -> Decision
    ensures { result ≡ leave_in (state_in host.now.kept) member.now.state }
{
    if let Some(reply) = leave_refused(host, member) {
        return Decision::Replies(reply);
    }
    Decision::Leaves(*member.who())
}

/// What a `rem_lockspace` comes to: the session leaves, unless it is not active, has an orphan, or no seq is left for its free.
pub(crate) fn decide_leave(host: &Host, lockspace: &LockspaceArg) -> Decision
    ensures { result ≡ with_member (member_of (state_in host.now.kept) lockspace.now) (λ m. leave_in (state_in host.now.kept) m) }
{
    match member_of(host, lockspace) {
        Some(member) => leaves(host, member),
        None => Decision::Replies(Reply::NoSession),
    }
}

/// The generation of a member is told.
fn tells_generation(member: &Member) -> Decision
    ensures { result ≡ report_in member.now.state (Generation member.now.state.known.generation) }
{
    if let Some(reply) = member_refusal(member) {
        return Decision::Replies(reply);
    }
    Decision::Replies(Reply::Generation {
        generation: member.known().generation,
    })
}

/// What an `inq_lockspace` comes to: the generation of an active session.
pub(crate) fn decide_inquiry(host: &Host, lockspace: &LockspaceArg) -> Decision
    ensures { result ≡ with_member (member_of (state_in host.now.kept) lockspace.now) (λ m. report_in m (Generation m.known.generation)) }
{
    match member_of(host, lockspace) {
        Some(member) => tells_generation(member),
        None => Decision::Replies(Reply::NoSession),
    }
}
