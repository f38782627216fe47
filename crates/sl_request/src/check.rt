//! Whether a request is taken.
//!
//! A request asks, with a force, that the holder of a resource give it up for a later instance (`lver`), as in sanlock(8). So it must
//! ask for more than is held, else it would end a holder that was granted what was asked for; and for no less than the request that
//! stands, else it would take that one back. The cleared record has lver and force 0: writing it asks nothing of anybody, so it is
//! always taken.

ghost use Rattle.std.specs.Prelude.{IfErr, IsErr, IsOk, IsTrue, ◌<◌, ◌≡◌, ◌≤◌, ◌⊎◌, ◌↔◌};
ghost use Rattle.sl_request.specs.Requests as requests;

use thiserror::Error;

/// What a request that is taken does to the record.
#[derive(Clone, Copy, Debug, PartialEq, Eq)]
pub enum Act {
    /// It asks the holder for the resource.
    Set,
    /// It takes back what was asked; it is always taken.
    Clear,
}

/// A request that asks for no more than is held, or for less than the request that stands.
#[derive(Clone, Copy, Debug, PartialEq, Eq, Error)]
#[error("the request is not above the held lver {held}, or below the stored lver {stored}")]
pub struct RequestOld {
    /// The instance of the leader, which the holder has.
    pub held: u64,
    /// The lver of the request that stands.
    pub stored: u64,
}

/// What a request for the instance `asked` does, where the leader has the instance `held` and the request that stands asks for
/// `stored`. A request with force 0 asks for nothing and clears; any other sets what it asks for.
///
/// `RequestOld`, with both numbers, where it does not clear, and asks for no more than is held or for less than is stored.
pub fn check_request(held: u64, stored: u64, asked: u64, force: u32) -> Result<Act, RequestOld>
    requires { force ≡ 0 → asked ≡ 0 }
    ensures exact { result ≡ requests.check_of held stored asked force }
    ensures taken { IsOk result ↔ IsTrue (requests.check_request held stored asked force) }
    ensures set { result ≡ Ok Act.Set ↔ ((held < asked) × (stored ≤ asked)) }
    ensures clear { result ≡ Ok Act.Clear ↔ (force ≡ 0) }
    ensures old { IsErr result ↔ ((0 < force) × ((asked ≤ held) ⊎ (asked < stored))) }
    ensures numbers { IfErr result (λ old. (old.held ≡ held) × (old.stored ≡ stored)) }
{
    if asked == 0 && force == 0 {
        Ok(Act::Clear)
    } else if asked > held && asked >= stored {
        Ok(Act::Set)
    } else {
        Err(RequestOld { held, stored })
    }
}
