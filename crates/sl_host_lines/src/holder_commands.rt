//! What a command of a holder comes to: a release, a conversion; and a request, which nobody need hold for.

ghost use Rattle.sl_host_lines.specs.CommandRefusals.{convert_in, converting, first_refusal, giving_up, release_in, request_in};
ghost use Rattle.sl_host_law.specs.Decisions.CommandDecisions.{member_named, member_refusal, other_at, pending_refused, process_refused, with_member};
ghost use Rattle.sl_trace.specs.Traces.{is_shared};
ghost use Rattle.sl_trace.specs.declared.reply.Reply.TheVariants.{Busy, NotHeld};
ghost use Rattle.sl_host.specs.BookQuestions.{state_in};
ghost use Rattle.sl_words.specs.Words.{choose};
ghost use Rattle.std.specs.Prelude.{[], not, option_and_then, ◌%◌, ◌∷◌, ◌≡◌};

use crate::command_refusals::{holder_refused, member_named, member_refusal, spot_of};
use crate::held_on_area::holding;
use sl_due::Decision;
use sl_host::Host;
use sl_member::Member;
use sl_trace::{Grant, Mode, Reply, ResourceArg, Spot};

/// The end of a holding, if there is one.
fn gives_up(member: &Member, held: Option<Grant>) -> Decision
    ensures { result ≡ giving_up member.now.state held }
{
    match held {
        Some(holding) => Decision::GivesUp {
            session: *member.who(),
            holding,
        },
        None => Decision::Replies(Reply::NotHeld),
    }
}

/// What a release comes to, of what the process holds.
pub(crate) fn decide_release(host: &Host, resource: &ResourceArg, process: u32) -> Decision
    requires { resource.now.offset % host.now.kept.config.sizes.area ≡ 0 }
    ensures { result ≡ with_member (member_named (state_in host.now.kept) resource.now.lockspace) (λ m. release_in (state_in host.now.kept) m resource.now process) }
{
    let Some(member) = member_named(host, &resource.lockspace) else {
        return Decision::Replies(Reply::NoSession);
    };
    let at = spot_of(resource);
    let held = holding(host, member, &at, process);
    if let Some(reply) = holder_refused(host, member, &at, process, held.is_some()) {
        return Decision::Replies(reply);
    }
    gives_up(member, held)
}

/// A holding that has the mode already is answered at once.
fn converts_to(member: &Member, resource: &ResourceArg, mode: Mode, held: Option<Grant>) -> Decision
    ensures { result ≡ converting member.now.state resource.now mode held }
{
    match held {
        Some(grant) => match (mode, grant.mode) {
            (Mode::Shared, Mode::Shared) | (Mode::Exclusive, Mode::Exclusive) => {
                Decision::Replies(Reply::Granted { lver: grant.lver })
            }
            _ => Decision::ConvertsTo {
                session: *member.who(),
                resource: *resource,
                mode,
            },
        },
        None => Decision::Replies(Reply::NotHeld),
    }
}

/// Another process on the area refuses a conversion to exclusive.
fn other_refused(host: &Host, at: &Spot, process: u32, mode: Mode) -> Option<Reply>
    ensures { result ≡ option_and_then (λ q. choose (not (is_shared mode)) (Busy q)) (other_at (state_in host.now.kept) at.now process) }
{
    match (host.other_at(at, process), mode) {
        (Some(process), Mode::Exclusive) => Some(Reply::Busy { process }),
        _ => None,
    }
}

/// What refuses a conversion: what refuses a holder, and another process, where no other may hold.
fn convert_refused(
    host: &Host,
    member: &Member,
    at: &Spot,
    process: u32,
    mode: Mode,
    holds: bool,
) -> Option<Reply>
    requires { at.now.base % host.now.kept.config.sizes.area ≡ 0 }
    ensures { result ≡ first_refusal (member_refusal member.now.state ∷ process_refused (state_in host.now.kept) process ∷ choose (not holds) NotHeld ∷ option_and_then (λ q. choose (not (is_shared mode)) (Busy q)) (other_at (state_in host.now.kept) at.now process) ∷ pending_refused (state_in host.now.kept) at.now ∷ []) }
{
    if let Some(reply) = member_refusal(member) {
        return Some(reply);
    }
    if let Some(reply) = host.process_refused(process) {
        return Some(reply);
    }
    if !holds {
        return Some(Reply::NotHeld);
    }
    if let Some(reply) = other_refused(host, at, process, mode) {
        return Some(reply);
    }
    host.pending_refused(at)
}

/// What a conversion comes to, of what the process holds.
pub(crate) fn decide_convert(
    host: &Host,
    resource: &ResourceArg,
    process: u32,
    mode: Mode,
) -> Decision
    requires { resource.now.offset % host.now.kept.config.sizes.area ≡ 0 }
    ensures { result ≡ with_member (member_named (state_in host.now.kept) resource.now.lockspace) (λ m. convert_in (state_in host.now.kept) m resource.now process mode) }
{
    let Some(member) = member_named(host, &resource.lockspace) else {
        return Decision::Replies(Reply::NoSession);
    };
    let at = spot_of(resource);
    let held = holding(host, member, &at, process);
    if let Some(reply) = convert_refused(host, member, &at, process, mode, held.is_some()) {
        return Decision::Replies(reply);
    }
    converts_to(member, resource, mode, held)
}

/// What refuses a request: the member's state, an open call.
fn request_refused(host: &Host, member: &Member, at: &Spot) -> Option<Reply>
    requires { at.now.base % host.now.kept.config.sizes.area ≡ 0 }
    ensures { result ≡ first_refusal (member_refusal member.now.state ∷ pending_refused (state_in host.now.kept) at.now ∷ []) }
{
    if let Some(reply) = member_refusal(member) {
        return Some(reply);
    }
    host.pending_refused(at)
}

/// What a `request` comes to: it needs an active session, and no unanswered call on the area.
pub(crate) fn decide_request(host: &Host, resource: &ResourceArg) -> Decision
    requires { resource.now.offset % host.now.kept.config.sizes.area ≡ 0 }
    ensures { result ≡ with_member (member_named (state_in host.now.kept) resource.now.lockspace) (λ m. request_in (state_in host.now.kept) m resource.now) }
{
    let Some(member) = member_named(host, &resource.lockspace) else {
        return Decision::Replies(Reply::NoSession);
    };
    if let Some(reply) = request_refused(host, member, &spot_of(resource)) {
        return Decision::Replies(reply);
    }
    Decision::Requests {
        session: *member.who(),
        resource: *resource,
    }
}
