//! What several commands are refused for, and the member that a command names.

ghost use Rattle.sl_host_law.specs.Decisions.CommandDecisions.{member_named, member_refusal, pending_refused, process_refused};
ghost use Rattle.sl_host_lines.specs.CommandRefusals.{first_refusal};
ghost use Rattle.sl_trace.specs.Leases.{spot_of};
ghost use Rattle.sl_trace.specs.declared.reply.Reply.TheVariants.{NotHeld};
ghost use Rattle.sl_host.specs.BookQuestions.{state_in};
ghost use Rattle.sl_words.specs.Words.{choose};
ghost use Rattle.std.specs.Prelude.{IfSome, [], not, option_and_then, option_map, ◌%◌, ◌∷◌, ◌≡◌};

use sl_host::Host;
use sl_member::Member;
use sl_text::Name;
use sl_trace::{Reply, ResourceArg, Spot};

/// The area that a resource's words name.
pub(crate) fn spot_of(resource: &ResourceArg) -> Spot
    ensures { result ≡ spot_of resource.now }
{
    Spot {
        path: resource.path,
        base: resource.offset,
    }
}

/// The member of a lockspace, if there is one.
pub(crate) fn member_named<'a>(host: &'a Host, lockspace: &Name) -> Option<&'a Member>
    ensures exact { option_map (λ m. m.now.state) result ≡ member_named (state_in host.entry.now.kept) lockspace.now }
    ensures run { IfSome result (λ m. m.now.run.sizes ≡ host.entry.now.kept.config.sizes) }
{
    host.members().named(lockspace)
}

/// What the state of a member refuses: still joining, in recovery or leaving.
pub(crate) fn member_refusal(member: &Member) -> Option<Reply>
    ensures { result ≡ member_refusal member.now.state }
{
    if !member.is_joined() {
        Some(Reply::Joining)
    } else if member.is_active() {
        None
    } else {
        Some(Reply::Recovering {
            renewed: member.renewing().last,
        })
    }
}

/// The asking process refuses by its number, where one asks.
pub(crate) fn asker_refused(host: &Host, asking: Option<u32>) -> Option<Reply>
    ensures { result ≡ option_and_then (process_refused (state_in host.now.kept)) asking }
{
    match asking {
        Some(process) => host.process_refused(process),
        None => None,
    }
}

/// What refuses a command of a holder: the member's state, his number, that he holds nothing there in a mode that serves, an open call.
pub(crate) fn holder_refused(
    host: &Host,
    member: &Member,
    at: &Spot,
    process: u32,
    holds: bool,
) -> Option<Reply>
    requires { at.now.base % host.now.kept.config.sizes.area ≡ 0 }
    ensures { result ≡ first_refusal (member_refusal member.now.state ∷ process_refused (state_in host.now.kept) process ∷ choose (not holds) NotHeld ∷ pending_refused (state_in host.now.kept) at.now ∷ []) }
{
    if let Some(reply) = member_refusal(member) {
        return Some(reply);
    }
    if let Some(reply) = host.process_refused(process) {
        return Some(reply);
    }
    if !holds {
        return Some(Reply::NotHeld);
    }
    host.pending_refused(at)
}
