//! What a command on a value comes to: a holder reads it, or sets it.

ghost use Rattle.sl_host_lines.specs.CommandRefusals.{get_in, getting, set_in, setting};
ghost use Rattle.sl_host_law.specs.Decisions.CommandDecisions.{member_named, member_sets, value_seq, with_member};
ghost use Rattle.sl_host_state.specs.MadeEffects.{is_lease_on};
ghost use Rattle.sl_host_lines.specs.LastVersions.{last_version};
ghost use Rattle.sl_host.specs.BookQuestions.{state_in};
ghost use Rattle.std.specs.Prelude.{find, option_and_then, ◌%◌, ◌≡◌};

use crate::command_refusals::{holder_refused, member_named, spot_of};
use crate::held_on_area::{exclusive_holding, holding};
use sl_due::Decision;
use sl_host::Host;
use sl_member::Member;
use sl_sector::ValueRec;
use sl_text::Data;
use sl_trace::{Grant, Limited, Reply, ResourceArg, Spot};
use sl_value::{Version, next_seq};

/// The read of a value, if there is a holding.
fn gets_value(member: &Member, spot: Spot, held: Option<Grant>) -> Decision
    ensures { result ≡ getting member.now.state spot held }
{
    match held {
        Some(_) => Decision::GetsValue {
            session: *member.who(),
            spot,
        },
        None => Decision::Replies(Reply::NotHeld),
    }
}

/// What the read of a value by a holder comes to.
pub(crate) fn decide_get(host: &Host, resource: &ResourceArg, process: u32) -> Decision
    requires { resource.now.offset % host.now.kept.config.sizes.area ≡ 0 }
    ensures { result ≡ with_member (member_named (state_in host.now.kept) resource.now.lockspace) (λ m. get_in (state_in host.now.kept) m resource.now process) }
{
    let Some(member) = member_named(host, &resource.lockspace) else {
        return Decision::Replies(Reply::NoSession);
    };
    let at = spot_of(resource);
    let held = holding(host, member, &at, process);
    if let Some(reply) = holder_refused(host, member, &at, process, held.is_some()) {
        return Decision::Replies(reply);
    }
    gets_value(member, at, held)
}

/// The version of the value that the member submitted last on an area.
fn last_version(member: &Member, at: &Spot) -> Option<Version>
    ensures { result ≡ last_version (option_and_then (λ l. l.value) (find (is_lease_on at.now) member.now.state.leases)) }
{
    let value = match member.lease(at) {
        Some(lease) => lease.value()?,
        None => return None,
    };
    Some(Version {
        lver: value.lver,
        seq: value.seq,
    })
}

/// The value is written under a holding, with the next seq, unless that would pass its limit.
#[tactic(auto, using(crate::proofs::ValueSeqs::next_is, crate::proofs::ValueSeqs::is_set, crate::proofs::ValueSeqs::is_refused))]
fn writes(member: &Member, at: &Spot, held: &Grant, bytes: Data) -> Decision
    ensures { result ≡ member_sets member.now.state at.now held.now (value_seq member.now.state at.now held.now.lver) bytes }
{
    let Some(seq) = next_seq(last_version(member, at), held.lver) else {
        return Decision::Replies(Reply::Limit {
            which: Limited::Seq,
        });
    };
    let who = member.who();
    Decision::SetsValue {
        session: *who,
        spot: *at,
        value: ValueRec {
            host: who.id,
            lver: held.lver,
            seq,
            bytes,
        },
    }
}

/// The write of a value, if there is a holding.
fn sets_value(member: &Member, at: &Spot, held: Option<Grant>, bytes: Data) -> Decision
    ensures { result ≡ setting member.now.state at.now held bytes }
{
    match held {
        Some(grant) => writes(member, at, &grant, bytes),
        None => Decision::Replies(Reply::NotHeld),
    }
}

/// What the write of a value by a holder comes to.
pub(crate) fn decide_set(host: &Host, resource: &ResourceArg, process: u32, bytes: Data) -> Decision
    requires { resource.now.offset % host.now.kept.config.sizes.area ≡ 0 }
    ensures { result ≡ with_member (member_named (state_in host.now.kept) resource.now.lockspace) (λ m. set_in (state_in host.now.kept) m resource.now process bytes) }
{
    let Some(member) = member_named(host, &resource.lockspace) else {
        return Decision::Replies(Reply::NoSession);
    };
    let at = spot_of(resource);
    let held = exclusive_holding(host, member, &at, process);
    if let Some(reply) = holder_refused(host, member, &at, process, held.is_some()) {
        return Decision::Replies(reply);
    }
    sets_value(member, &at, held, bytes)
}
