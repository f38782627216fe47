//! Which instance an acquire begins.
//!
//! A resource's instances are granted one after another, and the leader tells of the last one whose winner wrote it. Where a block shows
//! a later instance, that one is still being decided, and the acquire joins it. Else a new one begins only where the last is over: it was
//! freed, or its owner is. A session that began the next instance beside a holder that lives would share the resource with it.
ghost use Rattle.sl_trace.specs.Ballots.{counted_lver, instance_of, is_counted_free, owner_of};
ghost use Rattle.std.specs.Prelude.{◌+◌, ◌<◌, ◌^◌, ◌≡◌};

use crate::blocks::same_owner;
use sl_sector::{Leader, Owner};
use sl_trace::Instance;

/// The session that a leader names as its owner.
pub fn owner_of(leader: &Leader) -> Owner
    ensures { result ≡ owner_of leader.now }
{
    Owner {
        id: leader.owner,
        generation: leader.generation,
    }
}

/// The last instance known to be granted: that of the leader, or of a free which the session submitted itself.
fn counted_lver(leader: &Leader, freed: u64) -> u64
    ensures { result ≡ counted_lver leader.now freed }
{
    leader.lver.max(freed)
}

/// Whether that instance counts as free: the leader is, or the session has submitted a free at or above it.
fn is_counted_free(leader: &Leader, freed: u64) -> bool
    ensures { result ≡ is_counted_free leader.now freed }
{
    !leader.held || 0 < freed && leader.lver <= freed
}

/// The instance that a session's acquire begins, or who holds the resource. `is_over` says whether the leader's owner counts as over;
/// `freed` is the greatest instance of which the session submitted a free, 0 if of none; `top` is the greatest lver of a block.
#[tactic(auto, unfolding(sl_trace::specs::Ballots::instance_of))]
pub fn instance_of(is_over: bool, me: Owner, leader: &Leader, freed: u64, top: u64) -> Instance
    requires { counted_lver leader.now freed + 1 < 2 ^ 64 }
    ensures { result ≡ instance_of is_over me leader.now freed top }
{
    let instance = counted_lver(leader, freed);
    if instance < top {
        return Instance::Begins { instance: top };
    }
    if is_counted_free(leader, freed) || is_over {
        return Instance::Begins {
            instance: instance + 1,
        };
    }
    let owner = owner_of(leader);
    if same_owner(owner, me) {
        Instance::Begins { instance }
    } else {
        Instance::HeldAlready {
            lver: leader.lver,
            owner,
        }
    }
}
