//! The blocks that a ballot writes.
//!
//! Phase 1 writes a new number and keeps what its host accepted in the instance: a block that forgot it could let a second value be
//! chosen. What was accepted in an earlier instance is dropped, since it says nothing of this one. Phase 2 writes the value of the
//! greatest bal that was read. The mode that stands in a block is no part of the ballot, and goes with it unchanged.
ghost use Rattle.sl_ballot.specs.Limits.{limited_block};
ghost use Rattle.sl_ballot.specs.Phases.{mbal_in, mbal_seen, numbered_block, top_mbal};
ghost use Rattle.sl_trace.specs.Ballots.{ballot_blocks, moded_block, number_above, phase1_block, phase2_block, proposing};
ghost use Rattle.sl_words.specs.Words.{present};
ghost use Rattle.std.specs.Prelude.{max, ◌≡◌, ◌≤◌};

use crate::number::{Limit, number_above, within_limit};
use crate::reads::value_after_read;
use sl_sector::{Block, Gen, Owner};

/// The number that a block shows in an instance; 0 where it is of another.
fn mbal_in(n: u64, block: &Block) -> u64
    ensures { result ≡ mbal_in n block.now }
{
    if block.lver == n { block.mbal } else { 0 }
}

/// The same of a block that was read; 0 where it is torn.
fn mbal_seen(n: u64, seen: &Option<Block>) -> u64
    ensures { result ≡ mbal_seen n seen.now }
{
    match seen {
        Some(block) => mbal_in(n, block),
        None => 0,
    }
}

/// The greatest number that the blocks show in an instance; 0 where they show none.
fn top_mbal(n: u64, blocks: &[Block]) -> u64
    ensures { result ≡ top_mbal n blocks.now }
{
    blocks
        .iter()
        .fold(0, |top, block| top.max(mbal_in(n, block)))
}

/// The same of the blocks of a read that aren't torn.
fn top_mbal_read(n: u64, read: &[Option<Block>]) -> u64
    ensures { result ≡ top_mbal n (present read.now) }
{
    read.iter().fold(0, |top, seen| top.max(mbal_seen(n, seen)))
}

/// The block of phase 1 with this number.
fn numbered_block(me: Owner, n: u64, shared: bool, mode_gen: Gen, own: &Block, mbal: u64) -> Block
    ensures { result ≡ numbered_block me n shared mode_gen own.now mbal }
{
    let empty = Block {
        host: me.id,
        shared,
        lver: n,
        mbal,
        bal: 0,
        inp_gen: 0,
        mode_gen,
        inp: 0,
    };
    if own.lver == n {
        Block {
            bal: own.bal,
            inp_gen: own.inp_gen,
            inp: own.inp,
            ..empty
        }
    } else {
        empty
    }
}

/// The block of phase 1 whose number is above that of the own block and `top`, the greatest seen.
fn begun_block(
    me: Owner,
    hosts: u32,
    n: u64,
    shared: bool,
    mode_gen: Gen,
    own: &Block,
    top: u64,
) -> Result<Block, Limit>
    requires { 1 ≤ hosts }
    ensures { result
        ≡ limited_block (numbered_block me n shared mode_gen own.now (number_above hosts me.id (max (mbal_in n own.now) top))) }
{
    let mbal = within_limit(number_above(hosts, me.id, mbal_in(n, own).max(top)))?;
    Ok(numbered_block(me, n, shared, mode_gen, own, mbal))
}

/// The block of phase 1 of a ballot in instance `n`, with this mode. Its number is the least k*N + id, of N = `hosts` and the session's
/// id, above each mbal in `n` of the own block and of those seen. The error comes exactly where that is 2^63 or more.
#[tactic(auto, using(crate::proofs::NumberRules::above_seen), unfolding(sl_trace::specs::Ballots::phase1_block))]
pub fn phase1_block(
    me: Owner,
    hosts: u32,
    n: u64,
    shared: bool,
    mode_gen: Gen,
    own: &Block,
    seen: &[Block],
) -> Result<Block, Limit>
    requires { 1 ≤ hosts }
    ensures { result ≡ limited_block (phase1_block me hosts n shared mode_gen own.now seen.now) }
{
    begun_block(me, hosts, n, shared, mode_gen, own, top_mbal(n, seen))
}

/// The same where the blocks seen are those of a read; torn ones are passed over.
#[tactic(auto, using(crate::proofs::NumberRules::above_seen), unfolding(sl_trace::specs::Ballots::phase1_block))]
pub fn phase1_after_read(
    me: Owner,
    hosts: u32,
    n: u64,
    shared: bool,
    mode_gen: Gen,
    own: &Block,
    read: &[Option<Block>],
) -> Result<Block, Limit>
    requires { 1 ≤ hosts }
    ensures { result ≡ limited_block (phase1_block me hosts n shared mode_gen own.now (present read.now)) }
{
    begun_block(me, hosts, n, shared, mode_gen, own, top_mbal_read(n, read))
}

/// The block of phase 2 with this value: accepted under the block's own number.
pub fn proposing(own: &Block, value: Owner) -> Block
    ensures { result ≡ proposing own.now value }
{
    Block {
        bal: own.mbal,
        inp: value.id,
        inp_gen: value.generation,
        ..*own
    }
}

/// The block of phase 2 after that of phase 1, by a read of the blocks of hosts 1, 2 ..: with the value of the greatest bal in its instance, or
/// the session itself where there is none. The own one is taken as submitted where it is torn.
#[tactic(auto, unfolding(sl_trace::specs::Ballots::phase2_block))]
pub fn phase2_after_read(me: Owner, own: &Block, read: &[Option<Block>]) -> Block
    ensures { result ≡ phase2_block me own.now (ballot_blocks own.now read.now) }
{
    proposing(own, value_after_read(me, own.lver, own, read))
}

/// The block with this mode and the same ballot. `mode_gen` is the generation of the session that has the mode, 0 where it isn't shared.
pub fn moded_block(own: &Block, shared: bool, mode_gen: Gen) -> Block
    ensures { result ≡ moded_block own.now shared mode_gen }
{
    Block {
        shared,
        mode_gen,
        ..*own
    }
}
