//! What an acquire comes to, of a process or for a program that is to be run: work on the lease begins, or the grant is given at once.

ghost use Rattle.sl_host_lines.specs.CommandRefusals.{acquire_in, first_refusal, leases_in, shared_beside};
ghost use Rattle.sl_host_law.specs.Decisions.CommandDecisions.{busy_refused, held_on, limit_reached, limit_refused, member_acquires, member_named, member_refusal, pending_refused, process_refused, with_member};
ghost use Rattle.sl_host_state.specs.MadeEffects.{is_lease_on};
ghost use Rattle.sl_trace.specs.CountLimits.{most_resources};
ghost use Rattle.sl_host.specs.BookQuestions.{state_in};
ghost use Rattle.std.specs.List.{list_any};
ghost use Rattle.std.specs.Prelude.{[], cond, is_none, length, nat_le, option_and_then, ◌%◌, ◌-◌, ◌∷◌, ◌≡◌};

use crate::command_refusals::{asker_refused, member_named, member_refusal, spot_of};
use crate::held_on_area::shared_holding;
use sl_due::Decision;
use sl_host::Host;
use sl_member::{Member, Members};
use sl_trace::{Limited, Reply, ResourceArg, Spot};

/// Leases of a machine.
const MOST_RESOURCES: usize = 256;

/// The leases of a joined member.
fn leases_of(member: &Member) -> usize
    ensures { result ≡ cond member.now.state.joined (length member.now.state.leases) 0 }
{
    if member.is_joined() {
        member.leases().len()
    } else {
        0
    }
}

/// How many more leases the joined members may have.
fn leases_left(members: &Members) -> usize
    ensures { result ≡ most_resources - leases_in members.now.members }
{
    let mut left = MOST_RESOURCES;
    for place in 0..members.len() {
        left = left.saturating_sub(leases_of(members.nth(place)));
    }
    left
}

/// Whether the member has a lease on an area.
#[tactic(auto, using(crate::proofs::LeasesAreCounted::lease_there, crate::proofs::LeasesAreCounted::no_lease))]
fn has_lease(member: &Member, at: &Spot) -> bool
    ensures { result ≡ list_any (is_lease_on at.now) member.now.state.leases }
{
    match member.lease(at) {
        Some(_) => true,
        None => false,
    }
}

/// Whether the machine's leases are at their limit.
#[tactic(auto, using(crate::proofs::LeasesAreCounted::none_left))]
fn is_full_of_leases(members: &Members) -> bool
    ensures { result ≡ nat_le most_resources (leases_in members.now.members) }
{
    leases_left(members) == 0
}

/// The first count that one more holder, or child, would pass: of leases, where this is the member's first call on the area, of holders, of
/// children.
fn limit_reached(host: &Host, member: &Member, at: &Spot, program: bool) -> Option<Limited>
    ensures { result ≡ limit_reached (state_in host.now.kept) member.now.state at.now program }
{
    if !has_lease(member, at) && is_full_of_leases(host.members()) {
        return Some(Limited::Resources);
    }
    if host.is_full_of_holders() {
        return Some(Limited::Holders);
    }
    if program && host.is_full_of_children() {
        return Some(Limited::Children);
    }
    None
}

/// The refusal by a limit: a count of resources, holders or children that one more would pass.
fn limit_refused(host: &Host, member: &Member, at: &Spot, program: bool) -> Option<Reply>
    ensures { result ≡ limit_refused (state_in host.now.kept) member.now.state at.now program }
{
    match limit_reached(host, member, at, program) {
        Some(which) => Some(Reply::Limit { which }),
        None => None,
    }
}

/// What refuses an acquire, of a process or, where none asks, of a program that is to be run: the member's state, the process's number, a
/// holding in the way, an open call, a limit.
fn acquire_refused(
    host: &Host,
    member: &Member,
    at: &Spot,
    asking: Option<u32>,
    shared: bool,
) -> Option<Reply>
    requires { at.now.base % host.now.kept.config.sizes.area ≡ 0 }
    ensures { result ≡ first_refusal (member_refusal member.now.state ∷ option_and_then (process_refused (state_in host.now.kept)) asking ∷ busy_refused (state_in host.now.kept) at.now asking shared ∷ pending_refused (state_in host.now.kept) at.now ∷ limit_refused (state_in host.now.kept) member.now.state at.now (is_none asking) ∷ []) }
{
    if let Some(reply) = member_refusal(member) {
        return Some(reply);
    }
    if let Some(reply) = asker_refused(host, asking) {
        return Some(reply);
    }
    if let Some(reply) = host.busy_refused(at, asking, shared) {
        return Some(reply);
    }
    if let Some(reply) = host.pending_refused(at) {
        return Some(reply);
    }
    limit_refused(host, member, at, asking.is_none())
}

/// The instance of the member's shared holding on an area, where a shared grant is asked for.
fn shared_beside(host: &Host, member: &Member, at: &Spot, shared: bool) -> Option<u64>
    ensures { result ≡ shared_beside (held_on (state_in host.now.kept) member.now.state at.now) shared }
{
    if !shared {
        return None;
    }
    match shared_holding(host, member, at) {
        Some(grant) => Some(grant.lver),
        None => None,
    }
}

/// Work on the lease begins, or the grant is given at once where the member has a shared holding.
#[tactic(auto, using(crate::proofs::HoldingsAreFound::shares))]
fn begins(host: &Host, member: &Member, resource: &ResourceArg, shared: bool) -> Decision
    ensures { result ≡ member_acquires (state_in host.now.kept) member.now.state resource.now shared }
{
    let session = *member.who();
    match shared_beside(host, member, &spot_of(resource), shared) {
        Some(lver) => Decision::Shares { session, lver },
        None => Decision::ReadsArea {
            session,
            resource: *resource,
        },
    }
}

/// What an acquire comes to: of the asking process, or, where there is none, for a program that is to be run.
pub(crate) fn decide_acquire(
    host: &Host,
    resource: &ResourceArg,
    asking: Option<u32>,
    shared: bool,
) -> Decision
    requires { resource.now.offset % host.now.kept.config.sizes.area ≡ 0 }
    ensures { result ≡ with_member (member_named (state_in host.now.kept) resource.now.lockspace) (λ m. acquire_in (state_in host.now.kept) m resource.now asking shared) }
{
    let Some(member) = member_named(host, &resource.lockspace) else {
        return Decision::Replies(Reply::NoSession);
    };
    if let Some(reply) = acquire_refused(host, member, &spot_of(resource), asking, shared) {
        return Decision::Replies(reply);
    }
    begins(host, member, resource, shared)
}
