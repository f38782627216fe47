//! What a read of all hosts' blocks tells a ballot: host 1's block first, and none where it is torn.
//!
//! A torn block may hide a greater number or an accepted value, so it stops the ballot. The own block is the exception: its host alone
//! writes it, so whatever a read shows of it, what was submitted last is what it will be, and it is taken as that.
ghost use Rattle.sl_ballot.specs.Reads.{is_torn_at, known_blocks};
ghost use Rattle.sl_trace.specs.Ballots.{ballot_blocks, block_ahead, block_rival, greater_bal, in_instance, known_block, stop_of, torn_host, value_to_write, with_own};
ghost use Rattle.std.specs.List.{enumerate_from};
ghost use Rattle.std.specs.Prelude.{IfSome, None, fold, length, position, ◌+◌, ◌<◌, ◌^◌, ◌≡◌};

use crate::blocks::{greater_bal, is_ahead, is_rival, stop_by, value_or};
use sl_sector::{Block, Owner};
use sl_trace::Stop;

/// A host's block as it was read; the own one is taken as submitted where it is torn.
fn known_block(own: &Block, seen: Option<Block>, host: usize) -> Option<Block>
    ensures { result ≡ known_block own.now seen host }
{
    if host == own.host as usize {
        Some(seen.unwrap_or(*own))
    } else {
        seen
    }
}

/// How many hosts are before the first whose block is torn.
fn torn_place(own: &Block, read: &[Option<Block>]) -> Option<usize>
    ensures place { result ≡ position (is_torn_at own.now) (enumerate_from 0 read.now) }
    ensures within { IfSome result (λ i. i < length read.now) }
{
    read.iter().enumerate().position(|(before, seen)| known_block(own, *seen, before + 1).is_none())
}

/// The least host whose block is torn.
#[tactic(auto, using(crate::proofs::ReadRules::torn))]
fn torn_host(own: &Block, read: &[Option<Block>]) -> Option<u32>
    requires { length read.now < 2 ^ 32 }
    ensures { result ≡ torn_host (with_own own.now 1 read.now) }
{
    torn_place(own, read).map(|before| before as u32 + 1)
}

/// The first block of a later instance.
fn block_ahead(own: &Block, read: &[Option<Block>]) -> Option<Block>
    ensures { result ≡ block_ahead own.now (known_blocks own.now read.now) }
{
    read.iter()
        .enumerate()
        .filter_map(|(before, seen)| known_block(own, *seen, before + 1))
        .find(|block| is_ahead(own, block))
}

/// The first block with a greater number in the instance.
fn block_rival(own: &Block, read: &[Option<Block>]) -> Option<Block>
    ensures { result ≡ block_rival own.now (known_blocks own.now read.now) }
{
    read.iter()
        .enumerate()
        .filter_map(|(before, seen)| known_block(own, *seen, before + 1))
        .find(|block| is_rival(own, block))
}

/// The block of the greatest bal in an instance; none where no block has one there.
fn best_in(n: u64, own: &Block, read: &[Option<Block>]) -> Option<Block>
    ensures { result ≡ fold greater_bal None (in_instance n (known_blocks own.now read.now)) }
{
    read.iter()
        .enumerate()
        .filter_map(|(before, seen)| known_block(own, *seen, before + 1))
        .filter(|block| block.lver == n)
        .fold(None, greater_bal)
}

/// What stops the ballot of this own block in a read of the blocks of hosts 1, 2 ..: the least host whose block is torn, but for the own
/// one; else the least in a later instance; else the least with a greater number in its own.
#[tactic(auto, using(crate::proofs::ReadRules::by_place), unfolding(sl_trace::specs::Ballots::stop_of))]
pub fn stop_of(own: &Block, read: &[Option<Block>]) -> Option<Stop>
    requires { length read.now < 2 ^ 32 }
    ensures { result ≡ stop_of own.now read.now }
{
    match torn_host(own, read) {
        Some(host) => Some(Stop::BlockTorn { host }),
        None => stop_by(block_ahead(own, read), block_rival(own, read)),
    }
}

/// The value that a session's ballot in instance `n` has to write, by a read of the blocks of hosts 1, 2 .., the own one as submitted
/// where it is torn: that of the greatest bal there, of two that tie the least host's; the session itself where no block has a bal.
#[tactic(auto, using(crate::proofs::ReadRules::by_place))]
pub fn value_after_read(me: Owner, n: u64, own: &Block, read: &[Option<Block>]) -> Owner
    ensures { result ≡ value_to_write me n (ballot_blocks own.now read.now) }
{
    value_or(me, best_in(n, own, read))
}
