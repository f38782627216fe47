//! Blocks of pairs, where each host keeps its block in two sectors that it writes in turn.
//!
//! A read whose answer has some host's second sector torn is made once more. What the first answer gave of the hosts whose second sector was
//! whole is kept until the second one is there: sectors are sampled in rising order, so an old first sector may stand beside a second one
//! that was being written. Of each host the block of the greater turn counts, of both answers.

ghost use Rattle.sl_area.specs.Pairs.{later_pair};
ghost use Rattle.sl_lease.specs.Reads.{blocks_of_pairs, merged_with};
ghost use Rattle.sl_sector.specs.Records.{Fits, IsBlock, IsPair};
ghost use Rattle.std.specs.Prelude.{All, IfOk, IfSome, None, length, option_map, replicate, slice_index_or, slice_set, ◌-◌, ◌<◌, ◌≡◌, ◌≤◌};

use sl_sector::{Block, PairBlock};
use std::alloc::{AllocError, Global};
use std::marker::Model;

/// A list of blocks of pairs, one for each of the run's hosts.
#[derive(Drop)]
pub struct Pairs {
    items: Vec<Option<PairBlock>>,
}

impl Model for Pairs {
    ghost use Rattle.sl_sector.specs.Records.{IsPair};
    ghost use Rattle.sl_sector.specs.declared.sector.PairBlock.{PairBlock as PairBlockOf};
    ghost use Rattle.std.specs.Prelude.{All, IfSome, List, Option};

    ghost Value = { List (Option PairBlockOf) };

    ghost view = { λ p. p.items.items };

    ghost invariant = { λ p. All (λ o. IfSome o IsPair) p.items.items };
}

impl Pairs {
    /// A place for each of so many hosts. An `Err` is want of memory.
    pub fn new(alloc: Global, hosts: u32) -> Result<Pairs, AllocError>
        ensures { IfOk result (λ p. p ≡ replicate hosts None) }
    {
        Ok(Pairs {
            items: vec![in alloc; None; hosts as usize]?,
        })
    }

    /// Puts that of the host with so many before it.
    pub(crate) fn put(&mut self, before: usize, pair: Option<PairBlock>)
        requires place { before < length self.old }
        requires rules { IfSome pair IsPair }
        ensures { self.new ≡ slice_set self.old before pair }
    {
        self.items[before] = pair;
    }

    /// That of the host with so many before it, if there is one.
    pub(crate) fn at(&self, before: usize) -> Option<PairBlock>
        ensures exact { result ≡ slice_index_or self.now before None }
        ensures rules { IfSome result IsPair }
    {
        pair_at(&self.items, before)
    }
}

/// The block of a host's pair, with so many hosts before it.
fn pair_at(pairs: &[Option<PairBlock>], before: usize) -> Option<PairBlock>
    ensures exact { result ≡ slice_index_or pairs.now before None }
    ensures rules { All (λ o. IfSome o IsPair) pairs.now → IfSome result IsPair }
{
    match pairs.get(before) {
        Some(pair) => *pair,
        None => None,
    }
}

/// The block that a pair has.
fn block_in(pair: &Option<PairBlock>) -> Option<Block>
    ensures exact { result ≡ option_map (λ p. p.block) pair.now }
    ensures rules { IfSome pair.now IsPair → IfSome result IsBlock }
{
    match pair {
        Some(pair) => Some(pair.block),
        None => None,
    }
}

/// The one of greater turn; of two with one turn the second.
pub(crate) fn later_pair(a: Option<PairBlock>, b: Option<PairBlock>) -> Option<PairBlock>
    ensures exact { result ≡ later_pair a b }
    ensures rules { IfSome a IsPair → IfSome b IsPair → IfSome result IsPair }
{
    match (a, b) {
        (None, b) => b,
        (Some(a), None) => Some(a),
        (Some(a), Some(b)) => { if b.turn < a.turn { Some(a) } else { Some(b) } }
    }
}

/// What a first answer gave, with what the last one gave.
pub(crate) fn merge(first: &Pairs, last: &mut [Option<PairBlock>])
    requires { All (λ o. IfSome o IsPair) last.old }
    ensures exact { last.new ≡ merged_with first.now last.old }
    ensures rules { All (λ o. IfSome o IsPair) last.new }
{
    for before in 0..last.len() {
        last[before] = later_pair(first.at(before), last[before]);
    }
}

/// Puts the blocks of pairs into their places.
pub(crate) fn put_blocks(pairs: &[Option<PairBlock>], blocks: &mut [Option<Block>])
    requires places { length blocks.old ≡ length pairs.now }
    requires rules { All (λ o. IfSome o IsPair) pairs.now }
    ensures exact { blocks.new ≡ blocks_of_pairs pairs.now }
    ensures rules { All (λ o. IfSome o IsBlock) blocks.new }
{
    for before in 0..pairs.len() {
        blocks[before] = block_in(&pairs[before]);
    }
}

/// The turn of a host's pair, if it has a block.
pub(crate) fn turn_of(pairs: &[Option<PairBlock>], host: u32) -> Option<u64>
    requires host { 1 ≤ host }
    requires rules { All (λ o. IfSome o IsPair) pairs.now }
    ensures exact { result ≡ option_map (λ p. p.turn) (slice_index_or pairs.now (host - 1) None) }
    ensures rules { IfSome result (λ t. (1 ≤ t) × Fits t) }
{
    match pair_at(pairs, host as usize - 1) {
        Some(pair) => Some(pair.turn),
        None => None,
    }
}
