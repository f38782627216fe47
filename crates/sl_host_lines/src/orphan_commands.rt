//! What a command on an orphan comes to, a holding that no process has: it is taken over, or given up.

ghost use Rattle.sl_host_lines.specs.CommandRefusals.{first_refusal, release_orphan_in, releasing_orphan, take_over_in, taking_over};
ghost use Rattle.sl_host_law.specs.Decisions.CommandDecisions.{holds_there, member_named, member_refusal, orphan_at, pending_refused, process_refused, with_member};
ghost use Rattle.sl_trace.specs.Traces.{is_shared};
ghost use Rattle.sl_trace.specs.declared.reply.Reply.TheVariants.{Busy, NoOrphan};
ghost use Rattle.sl_host.specs.BookQuestions.{state_in};
ghost use Rattle.sl_words.specs.Words.{choose, same_truth};
ghost use Rattle.std.specs.Prelude.{[], not, option_and_then, option_map, ◌%◌, ◌∷◌, ◌≡◌};

use crate::command_refusals::{member_named, member_refusal, spot_of};
use crate::held_on_area::orphan;
use sl_due::Decision;
use sl_host::Host;
use sl_member::Member;
use sl_trace::{Grant, Mode, Reply, ResourceArg, Spot};

/// Whether a mode is the one that is meant.
fn is_meant(shared: bool, mode: Mode) -> bool
    ensures { result ≡ same_truth shared (is_shared mode) }
{
    match mode {
        Mode::Shared => shared,
        Mode::Exclusive => !shared,
    }
}

/// The holding, where its mode is the one that is meant.
fn in_mode(shared: bool, held: Option<Grant>) -> Option<Grant>
    ensures { result ≡ option_and_then (λ g. choose (same_truth shared (is_shared g.mode)) g) held }
{
    match held {
        Some(grant) => {
            if is_meant(shared, grant.mode) {
                Some(grant)
            } else {
                None
            }
        }
        None => None,
    }
}

/// The orphan of an area, where its mode is the one that is meant.
fn orphan_in_mode(host: &Host, member: &Member, at: &Spot, shared: bool) -> Option<Grant>
    ensures { result ≡ orphan_at (state_in host.now.kept) member.now.state at.now (λ g. same_truth shared (is_shared g.mode)) }
{
    in_mode(shared, orphan(host, member, at))
}

/// The process refuses that holds on the area itself.
fn holder_refused(host: &Host, at: &Spot, process: u32) -> Option<Reply>
    ensures { result ≡ option_map (λ q. Busy q) (holds_there (state_in host.now.kept) at.now process) }
{
    match host.holds_there(at, process) {
        Some(process) => Some(Reply::Busy { process }),
        None => None,
    }
}

/// What refuses a take-over: the member's state, the process's number, that there is no such orphan, a holding of the process itself, an open
/// call.
fn take_over_refused(
    host: &Host,
    member: &Member,
    at: &Spot,
    process: u32,
    is_there: bool,
) -> Option<Reply>
    requires { at.now.base % host.now.kept.config.sizes.area ≡ 0 }
    ensures { result ≡ first_refusal (member_refusal member.now.state ∷ process_refused (state_in host.now.kept) process ∷ choose (not is_there) NoOrphan ∷ option_map (λ q. Busy q) (holds_there (state_in host.now.kept) at.now process) ∷ pending_refused (state_in host.now.kept) at.now ∷ []) }
{
    if let Some(reply) = member_refusal(member) {
        return Some(reply);
    }
    if let Some(reply) = host.process_refused(process) {
        return Some(reply);
    }
    if !is_there {
        return Some(Reply::NoOrphan);
    }
    if let Some(reply) = holder_refused(host, at, process) {
        return Some(reply);
    }
    host.pending_refused(at)
}

/// The end of the orphan, and its place for the process, if there is one.
fn passes_on(member: &Member, held: Option<Grant>) -> Decision
    ensures { result ≡ taking_over member.now.state held }
{
    match held {
        Some(orphan) => Decision::TakesOver {
            session: *member.who(),
            orphan,
        },
        None => Decision::Replies(Reply::NoOrphan),
    }
}

/// What a take-over of the orphan by this process comes to; it makes no call, and meets no limit.
pub(crate) fn decide_take_over(
    host: &Host,
    resource: &ResourceArg,
    process: u32,
    shared: bool,
) -> Decision
    requires { resource.now.offset % host.now.kept.config.sizes.area ≡ 0 }
    ensures { result ≡ with_member (member_named (state_in host.now.kept) resource.now.lockspace) (λ m. take_over_in (state_in host.now.kept) m resource.now process shared) }
{
    let Some(member) = member_named(host, &resource.lockspace) else {
        return Decision::Replies(Reply::NoSession);
    };
    let at = spot_of(resource);
    let held = orphan_in_mode(host, member, &at, shared);
    if let Some(reply) = take_over_refused(host, member, &at, process, held.is_some()) {
        return Decision::Replies(reply);
    }
    passes_on(member, held)
}

/// What refuses the release of an orphan: the member's state, that there is none, an open call.
fn release_refused(host: &Host, member: &Member, at: &Spot, is_there: bool) -> Option<Reply>
    requires { at.now.base % host.now.kept.config.sizes.area ≡ 0 }
    ensures { result ≡ first_refusal (member_refusal member.now.state ∷ choose (not is_there) NoOrphan ∷ pending_refused (state_in host.now.kept) at.now ∷ []) }
{
    if let Some(reply) = member_refusal(member) {
        return Some(reply);
    }
    if !is_there {
        return Some(Reply::NoOrphan);
    }
    host.pending_refused(at)
}

/// The end of the orphan, if there is one.
fn gives_up(member: &Member, held: Option<Grant>) -> Decision
    ensures { result ≡ releasing_orphan member.now.state held }
{
    match held {
        Some(holding) => Decision::GivesUp {
            session: *member.who(),
            holding,
        },
        None => Decision::Replies(Reply::NoOrphan),
    }
}

/// What the release of an orphan comes to.
pub(crate) fn decide_release_orphan(host: &Host, resource: &ResourceArg) -> Decision
    requires { resource.now.offset % host.now.kept.config.sizes.area ≡ 0 }
    ensures { result ≡ with_member (member_named (state_in host.now.kept) resource.now.lockspace) (λ m. release_orphan_in (state_in host.now.kept) m resource.now) }
{
    let Some(member) = member_named(host, &resource.lockspace) else {
        return Decision::Replies(Reply::NoSession);
    };
    let at = spot_of(resource);
    let held = orphan(host, member, &at);
    if let Some(reply) = release_refused(host, member, &at, held.is_some()) {
        return Decision::Replies(reply);
    }
    gives_up(member, held)
}
