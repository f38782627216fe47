//! The leader for which a torn one is taken, where blocks have pairs: it is made of the blocks.

ghost use Rattle.sl_area.specs.AreaSizes.{layout_of};
ghost use Rattle.sl_area.specs.AreaRecords.{fresh_leader};
ghost use Rattle.sl_area.specs.TornLeader.{greatest_lver, leader_made};
ghost use Rattle.sl_lease.specs.Reads.{top_of};
ghost use Rattle.sl_sector.specs.Records.{IsLeader};
ghost use Rattle.sl_words.specs.Words.{present, some_is};
ghost use Rattle.std.specs.Prelude.{IfSome, None, find, ◌==◌, ◌≡◌};

use sl_area::Geometry;
use sl_sector::{Leader, PairBlock};
use sl_text::Name;

/// The greater of a number and the lver of one, if it was read.
fn top_of(top: u64, pair: &Option<PairBlock>) -> u64
    ensures { result ≡ top_of top pair.now }
{
    match pair {
        Some(pair) => top.max(pair.block.lver),
        None => top,
    }
}

/// The greatest lver among them; 0 where there is none.
fn greatest_lver(pairs: &[Option<PairBlock>]) -> u64
    ensures { result ≡ greatest_lver (present pairs.now) }
{
    let mut top = 0;
    for pair in pairs {
        top = top_of(top, pair);
    }
    top
}

/// Whether one was read and has this lver.
fn has_lver(pair: &Option<PairBlock>, lver: u64) -> bool
    ensures { result ≡ some_is (λ p. p.block.lver == lver) pair.now }
{
    match pair {
        Some(pair) => pair.block.lver == lver,
        None => false,
    }
}

/// The first of them with this lver.
fn first_with(pairs: &[Option<PairBlock>], lver: u64) -> Option<PairBlock>
    ensures { result ≡ find (λ p. p.block.lver == lver) (present pairs.now) }
{
    for pair in pairs {
        if has_lver(pair, lver) {
            return *pair;
        }
    }
    None
}

/// The leader for which a torn one is taken: never held, with the names that the least host's block of the greatest lver has. Where all
/// lvers are 0 there is none.
pub(crate) fn leader_made(geometry: &Geometry, pairs: &[Option<PairBlock>]) -> Option<Leader>
    ensures exact { result ≡ leader_made (layout_of geometry.now) (present pairs.now) }
    ensures rules { IfSome result IsLeader }
{
    let lver = greatest_lver(pairs);
    match first_with(pairs, lver) {
        Some(pair) => {
            if lver > 0 {
                Some(fresh_leader(geometry, pair.lockspace, pair.resource))
            } else {
                None
            }
        }
        None => None,
    }
}

/// A leader that was never held, of a resource with these names.
fn fresh_leader(geometry: &Geometry, lockspace: Name, resource: Name) -> Leader
    ensures exact { result ≡ fresh_leader (layout_of geometry.now) lockspace resource }
    ensures rules { IsLeader result }
{
    Leader {
        held: false,
        num_hosts: geometry.hosts(),
        lver: 0,
        generation: 0,
        owner: 0,
        lockspace,
        resource,
    }
}
