//! What is held on a machine.

ghost use Rattle.sl_trace.specs.Traces as traces;
ghost use Rattle.std.specs.Prelude.{filter, length, not, ◌&&◌, ◌++◌, ◌+◌, ◌==◌, ◌≡◌, ◌≤◌};
ghost use Rattle.std.specs.Vec.{vec_capacity, vec_len};

use crate::room::push_within;
use sl_trace::{Effects, End, Grant};

/// Whether this is the end of the holding: its process and its place.
fn ends_holding(end: &End, grant: &Grant) -> bool
    ensures { result ≡ (end.now.process == grant.now.process && traces.same_place end.now.path end.now.offset grant.now.path grant.now.offset) }
{
    end.process == grant.process && end.offset == grant.offset && end.path == grant.path
}

/// Whether one of these ends is that of the holding.
fn is_ended_by(ends: &[End], grant: &Grant) -> bool
    ensures { result ≡ traces.is_ended_by ends.now grant.now }
{
    ends.iter().any(|end| ends_holding(end, grant))
}

/// Holdings end. Where none does, what is held is not looked at, so that a step costs the same however much it is; where one does, as mostly, each
/// holding is compared with that one.
fn end_holdings(held: &mut Vec<Grant>, ends: &[End])
    ensures items { held.new.items ≡ filter (λ g. not (traces.is_ended_by ends.now g)) held.old.items }
    ensures len { vec_len held.new ≤ vec_len held.old }
    ensures room { vec_capacity held.new ≡ vec_capacity held.old }
{
    match ends {
        [] => {}
        [end] => held.retain(|grant| !ends_holding(end, grant)),
        _ => held.retain(|grant| !is_ended_by(ends, grant)),
    }
}

/// Holdings begin. They take no memory.
fn add_grants(held: &mut Vec<Grant>, grants: &[Grant])
    requires { vec_len held.old + length grants.now ≤ vec_capacity held.old }
    ensures { held.new.items ≡ held.old.items ++ grants.now }
{
    for grant in grants {
        push_within(held, *grant);
    }
}

/// What is held after a step. It takes no memory.
pub fn take_effects(held: &mut Vec<Grant>, effects: &Effects)
    requires { vec_len held.old + length effects.now.grants ≤ vec_capacity held.old }
    ensures { held.new.items ≡ traces.held_after effects.now held.old.items }
{
    end_holdings(held, effects.ends.as_slice());
    add_grants(held, effects.grants.as_slice());
}
