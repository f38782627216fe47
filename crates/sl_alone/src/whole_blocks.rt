//! What blocks tell a ballot, where all of them are whole.
//!
//! `sl_ballot` has the same of a read of all hosts' blocks, in which a torn one is absent.
ghost use Rattle.sl_ballot.specs.Limits.{limited_number};
ghost use Rattle.sl_ballot.specs.Phases.{top_of};
ghost use Rattle.sl_trace.specs.Ballots.{block_ahead, block_rival, greater_bal, in_instance, next_mbal, phase2_block, value_to_write};
ghost use Rattle.std.specs.Prelude.{None, fold, ◌≡◌, ◌≤◌};

use sl_ballot::{
    Limit, greater_bal, is_ahead, is_rival, number_above, proposing, value_or, within_limit,
};
use sl_sector::{Block, Owner};

/// The first block of a later instance.
pub(crate) fn block_ahead(own: &Block, blocks: &[Block]) -> Option<Block>
    ensures { result ≡ block_ahead own.now blocks.now }
{
    blocks.iter().copied().find(|block| is_ahead(own, block))
}

/// The first block with a greater number in the instance.
pub(crate) fn block_rival(own: &Block, blocks: &[Block]) -> Option<Block>
    ensures { result ≡ block_rival own.now blocks.now }
{
    blocks.iter().copied().find(|block| is_rival(own, block))
}

/// The block of the greatest bal in an instance; none where no block has one there.
fn best_in(n: u64, blocks: &[Block]) -> Option<Block>
    ensures { result ≡ fold greater_bal None (in_instance n blocks.now) }
{
    blocks
        .iter()
        .copied()
        .filter(|block| block.lver == n)
        .fold(None, |best, block| greater_bal(best, block))
}

/// The value that a session's ballot in instance `n` has to write, by these blocks: that of the greatest bal there, of two that tie the
/// first; the session itself where no block has a bal.
pub fn value_to_write(me: Owner, n: u64, blocks: &[Block]) -> Owner
    ensures { result ≡ value_to_write me n blocks.now }
{
    value_or(me, best_in(n, blocks))
}

/// The block of phase 2 after that of phase 1, by the blocks that were read in between, the own one among them: with the value of the
/// greatest bal in its instance, or the session itself where there is none.
#[tactic(auto, unfolding(sl_trace::specs::Ballots::phase2_block))]
pub fn phase2_block(me: Owner, own: &Block, blocks: &[Block]) -> Block
    ensures { result ≡ phase2_block me own.now blocks.now }
{
    proposing(own, value_to_write(me, own.lver, blocks))
}

/// The greatest of the numbers, and 0 where there is none.
fn top_of(numbers: &[u64]) -> u64
    ensures { result ≡ top_of numbers.now }
{
    numbers
        .iter()
        .copied()
        .fold(0, |top, number| top.max(number))
}

/// The least number k*N + id that is above all of these, for the host with this id among `hosts`. The error comes exactly where that is
/// 2^63 or more.
#[tactic(auto, using(sl_ballot::proofs::NumberRules::above))]
pub fn next_mbal(hosts: u32, id: u32, seen: &[u64]) -> Result<u64, Limit>
    requires { 1 ≤ hosts }
    ensures { result ≡ limited_number (next_mbal hosts id seen.now) }
{
    within_limit(number_above(hosts, id, top_of(seen)))
}
