//! Numbers of ballots.
//!
//! Of N hosts the one with an id has the numbers id, id + N, id + 2N .. for its own, as each processor of *Disk Paxos* has (Gafni and
//! Lamport). A ballot takes the least of them that is above every number its host knows in the instance. Two hosts that shared a number
//! could accept two values under it, and a later ballot could not tell which to keep; a number that isn't above those known would be
//! stopped at once, or would stand twice for one host.
ghost use Rattle.sl_ballot.specs.Limits.{limited_number};
ghost use Rattle.sl_trace.specs.Ballots.{number_above};
ghost use Rattle.std.specs.Prelude.{◌≡◌, ◌≤◌};

use thiserror::Error;

/// The number of a ballot would be 2^63 or more, which no block may carry.
#[derive(Clone, Copy, Debug, PartialEq, Eq, Error)]
#[error("the ballot's number would be past the greatest that a block may carry")]
pub struct Limit;

/// The number, if a block may carry it: if it is below 2^63.
pub fn within_limit(number: u128) -> Result<u64, Limit>
    ensures { result ≡ limited_number number }
{
    if number < 1 << 63 {
        Ok(number as u64)
    } else {
        Err(Limit)
    }
}

/// The least number of a host's own that is above another. It may be past 2^64, since what a block shows may be near it.
pub fn number_above(hosts: u32, id: u32, top: u64) -> u128
    requires { 1 ≤ hosts }
    ensures { result ≡ number_above hosts id top }
{
    let (hosts, id, top) = (u128::from(hosts), u128::from(id), u128::from(top));
    if top < id {
        id
    } else {
        id + hosts * ((top - id) / hosts + 1)
    }
}
