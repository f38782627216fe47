//! A sector at its place. Each place is for one kind of record, and a block's place is for one host. What belongs elsewhere counts as
//! torn there, just as bytes that spell nothing: it tells nothing of the place.

ghost use Rattle.std.specs.Prelude.{◌&&◌, ◌==◌, ◌≡◌};
ghost use Rattle.sl_words.specs.Words.{same_truth};
ghost use Rattle.sl_sector.specs.SectorLayouts as spelling;

use crate::sector::{Bad, Block, DeltaRec, HostId, Leader, PairBlock, Rec, Request, ValueRec};

/// The delta record, where what was read is one; else it is torn.
pub fn delta_in(read: Result<Rec, Bad>) -> Option<DeltaRec>
    ensures { result ≡ spelling.delta_in read }
{
    match read {
        Ok(Rec::DeltaIs(delta)) => Some(delta),
        _ => None,
    }
}

/// The leader, where what was read is one; else it is torn.
pub fn leader_in(read: Result<Rec, Bad>) -> Option<Leader>
    ensures { result ≡ spelling.leader_in read }
{
    match read {
        Ok(Rec::LeaderIs(leader)) => Some(leader),
        _ => None,
    }
}

/// The block, where what was read is that host's; else it is torn.
pub fn block_in(host: HostId, read: Result<Rec, Bad>) -> Option<Block>
    ensures { result ≡ spelling.block_in host read }
{
    match read {
        Ok(Rec::BlockIs(block)) => {
            if block.host == host {
                Some(block)
            } else {
                None
            }
        }
        _ => None,
    }
}

/// The request, where what was read is one; else it is torn.
pub fn request_in(read: Result<Rec, Bad>) -> Option<Request>
    ensures { result ≡ spelling.request_in read }
{
    match read {
        Ok(Rec::RequestIs(request)) => Some(request),
        _ => None,
    }
}

/// The value, where what was read is one; else it is torn.
pub fn value_in(read: Result<Rec, Bad>) -> Option<ValueRec>
    ensures { result ≡ spelling.value_in read }
{
    match read {
        Ok(Rec::ValueIs(value)) => Some(value),
        _ => None,
    }
}

/// Whether a turn stands in the first sector of a pair: the odd ones do.
pub fn is_first_turn(turn: u64) -> bool
    ensures { result ≡ spelling.is_first_turn turn }
{
    turn % 2 == 1
}

/// Whether a block of a pair belongs there: in the first or the second sector of that host's.
fn is_of_pair(pair: &PairBlock, host: HostId, first: bool) -> bool
    ensures { result ≡ (pair.now.block.host == host && same_truth (spelling.is_first_turn pair.now.turn) first) }
{
    pair.block.host == host && is_first_turn(pair.turn) == first
}

/// The block in the first or the second sector of a pair, where what was read is that host's and its turn stands there; else it is torn.
pub fn pair_in(host: HostId, first: bool, read: Result<Rec, Bad>) -> Option<PairBlock>
    ensures { result ≡ spelling.pair_in host first read }
{
    match read {
        Ok(Rec::PairIs(pair)) => {
            if is_of_pair(&pair, host, first) {
                Some(pair)
            } else {
                None
            }
        }
        _ => None,
    }
}

/// The leader of an area with pairs, where what was read is one; else it is torn.
pub fn pair_leader_in(read: Result<Rec, Bad>) -> Option<Leader>
    ensures { result ≡ spelling.pair_leader_in read }
{
    match read {
        Ok(Rec::PairLeaderIs(leader)) => Some(leader),
        _ => None,
    }
}
