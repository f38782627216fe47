//! Records that were never used.

ghost use Rattle.sl_area.specs.AreaSizes.{layout_of};
ghost use Rattle.sl_area.specs.AreaLayout.{block_sectors};
ghost use Rattle.sl_area.specs.AreaRecords.{fresh_block, fresh_block_at, fresh_delta, fresh_leader, fresh_pair, leader_record, no_request, no_value};
ghost use Rattle.std.specs.Prelude.{[], ◌+◌, ◌≡◌, ◌≤◌};

use sl_area::Geometry;
use sl_sector::{Block, DeltaRec, DeltaState, Leader, PairBlock, Rec, Request, ValueRec};
use sl_text::{Data, Name};

/// An id's record that was never claimed.
pub(crate) fn fresh_delta(lockspace: Name, id: u32) -> DeltaRec
    ensures { result ≡ fresh_delta lockspace id }
{
    DeltaRec {
        state: DeltaState::Free,
        id,
        generation: 0,
        seq: 0,
        stamp: 0,
        lockspace,
        host: None,
        bitmap: [0; 250],
    }
}

/// A leader that was never held.
pub(crate) fn fresh_leader(geometry: Geometry, lockspace: Name, resource: Name) -> Leader
    ensures { result ≡ fresh_leader (layout_of geometry) lockspace resource }
{
    Leader {
        held: false,
        num_hosts: geometry.hosts(),
        lver: 0,
        generation: 0,
        owner: 0,
        lockspace,
        resource,
    }
}

/// A host's block that has no ballot.
fn fresh_block(host: u32) -> Block
    ensures { result ≡ fresh_block host }
{
    Block {
        host,
        shared: false,
        lver: 0,
        mbal: 0,
        bal: 0,
        inp_gen: 0,
        mode_gen: 0,
        inp: 0,
    }
}

/// A block of a host's pair that has no ballot.
fn fresh_pair(host: u32, turn: u64, lockspace: Name, resource: Name) -> PairBlock
    ensures { result ≡ fresh_pair host turn lockspace resource }
{
    PairBlock {
        block: fresh_block(host),
        turn,
        lockspace,
        resource,
    }
}

/// Of the sectors that the blocks of an area have, the `k`-th before any was written.
pub(crate) fn fresh_block_at(geometry: Geometry, lockspace: Name, resource: Name, k: u32) -> Rec
    requires { (1 ≤ k) × (k ≤ block_sectors (layout_of geometry)) }
    ensures { result ≡ fresh_block_at (layout_of geometry) lockspace resource (k + 1) }
{
    let _sectors = geometry.block_sectors();
    if geometry.is_paired() {
        let turn = 1 + u64::from((k + 1) % 2);
        Rec::PairIs(fresh_pair((k + 1) / 2, turn, lockspace, resource))
    } else {
        Rec::BlockIs(fresh_block(k))
    }
}

/// The record of a leader, in an area with pairs or without.
pub(crate) fn leader_record(geometry: Geometry, leader: Leader) -> Rec
    ensures { result ≡ leader_record (layout_of geometry) leader }
{
    if geometry.is_paired() {
        Rec::PairLeaderIs(leader)
    } else {
        Rec::LeaderIs(leader)
    }
}

/// The cleared request.
pub(crate) fn no_request() -> Request
    ensures { result ≡ no_request }
{
    Request {
        force: 0,
        host: 0,
        lver: 0,
    }
}

/// No byte.
fn no_bytes() -> Data
    ensures { result ≡ [] }
{
    match Data::new(&[]) {
        Some(bytes) => bytes,
        None => unreachable!(),
    }
}

/// The value without a byte.
pub(crate) fn no_value() -> ValueRec
    ensures { result ≡ no_value }
{
    ValueRec {
        host: 0,
        lver: 0,
        seq: 0,
        bytes: no_bytes(),
    }
}
