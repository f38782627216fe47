//! Whether a record keeps its rules, so that there are bytes that spell it.

ghost use Rattle.sl_sector.specs.Records.{IsBlock, IsDelta, IsLeader, IsPair, IsRecord, IsRequest, IsValue};
ghost use Rattle.sl_sector.specs.declared.sector.DeltaState.TheVariants.{Free as NobodysTurn};
ghost use Rattle.sl_text.specs.Names.{is_data, is_name};
ghost use Rattle.sl_words.specs.Words.{all_zero};
ghost use Rattle.std.specs.List.{list_all};
ghost use Rattle.std.specs.Prelude.{IsSomeAnd, IsTrue, None, nat_lt, replicate, ◌≡◌, ◌↔◌};

use sl_sector::{Block, DeltaRec, DeltaState, Leader, PairBlock, Rec, Request, ValueRec};
use sl_text::{Data, Name};

/// What every number of a record is below.
const RECORD_NUMBERS: u64 = 1 << 63;

/// What every stamp is below.
const MOMENTS: u64 = 1_000_000_000_000_000;

/// The hosts of a lockspace, at most.
const MOST_HOSTS: u32 = 2000;

/// Whether the text of a name is one: it always is.
fn is_name(name: &Name) -> bool
    ensures { result ≡ is_name name.now }
{
    Name::new(name.as_slice()).is_some()
}

/// Whether a host is named.
fn is_named(host: &Option<Name>) -> bool
    ensures { IsTrue result ↔ IsSomeAnd host.now (λ n. IsTrue (is_name n)) }
{
    match host {
        Some(name) => is_name(name),
        None => false,
    }
}

/// Whether the bytes of a value are few enough: they always are.
fn is_data(bytes: &Data) -> bool
    ensures { result ≡ is_data bytes.now }
{
    Data::new(bytes.as_slice()).is_some()
}

/// Bytes are below 256, as the rules of records ask of a list of numbers.
fn are_bytes(bytes: &[u8])
    ensures { IsTrue (list_all (λ b. nat_lt b 256) bytes.now) }
{
    let _size = bytes.len();
}

/// Whether all bytes are zero.
fn are_zeros(bytes: &[u8]) -> bool
    ensures { result ≡ all_zero bytes.now }
{
    bytes.iter().all(|byte| *byte == 0)
}

/// Whether no host is marked.
#[tactic(auto, using(crate::proofs::RecordLaws::blank_from, crate::proofs::RecordLaws::blank_back))]
fn is_blank(bitmap: &[u8; 250]) -> bool
    ensures { IsTrue result ↔ (bitmap.now ≡ replicate 250 0) }
{
    are_zeros(bitmap)
}

/// Whether nothing is in it but its id, as in one that was never claimed.
fn is_unclaimed(delta: &DeltaRec) -> bool
    ensures { IsTrue result ↔ ((delta.now.state ≡ NobodysTurn) × (delta.now.seq ≡ 0) × (delta.now.stamp ≡ 0) × (delta.now.host ≡ None)
        × (delta.now.bitmap ≡ replicate 250 0)) }
{
    delta.state == DeltaState::Free
        && delta.seq == 0
        && delta.stamp == 0
        && delta.host.is_none()
        && is_blank(&delta.bitmap)
}

/// Whether an id's record keeps its rules.
fn is_delta(delta: &DeltaRec) -> bool
    ensures { IsTrue result ↔ IsDelta delta.now }
{
    are_bytes(&delta.bitmap);
    let fits = 1 <= delta.id
        && delta.id <= MOST_HOSTS
        && delta.generation < RECORD_NUMBERS
        && delta.seq < RECORD_NUMBERS
        && delta.stamp < MOMENTS
        && is_name(&delta.lockspace);
    if delta.generation == 0 {
        fits && is_unclaimed(delta)
    } else {
        fits && is_named(&delta.host)
    }
}

/// Whether a leader keeps its rules.
fn is_leader(leader: &Leader) -> bool
    ensures { IsTrue result ↔ IsLeader leader.now }
{
    let fits = 1 <= leader.num_hosts
        && leader.num_hosts <= MOST_HOSTS
        && leader.lver < RECORD_NUMBERS
        && leader.generation < RECORD_NUMBERS
        && leader.owner <= leader.num_hosts;
    let used = leader.lver != 0;
    fits && is_name(&leader.lockspace)
        && is_name(&leader.resource)
        && used == (leader.generation != 0)
        && used == (leader.owner != 0)
        && (used || !leader.held)
}

/// Whether a host's block keeps its rules.
fn is_block(block: &Block) -> bool
    ensures { IsTrue result ↔ IsBlock block.now }
{
    let fits = 1 <= block.host
        && block.host <= MOST_HOSTS
        && block.lver < RECORD_NUMBERS
        && block.mbal < RECORD_NUMBERS
        && block.bal <= block.mbal
        && block.inp_gen < RECORD_NUMBERS
        && block.mode_gen < RECORD_NUMBERS
        && block.inp <= MOST_HOSTS;
    let voted = block.bal != 0;
    fits && voted == (block.inp_gen != 0)
        && voted == (block.inp != 0)
        && block.shared == (block.mode_gen != 0)
        && (block.lver != 0 || (block.mbal == 0 && !block.shared))
}

/// Whether a block of a pair keeps its rules.
fn is_pair(pair: &PairBlock) -> bool
    ensures { IsTrue result ↔ IsPair pair.now }
{
    is_block(&pair.block)
        && 1 <= pair.turn
        && pair.turn < RECORD_NUMBERS
        && is_name(&pair.lockspace)
        && is_name(&pair.resource)
}

/// Whether a request keeps its rules.
fn is_request(request: &Request) -> bool
    ensures { IsTrue result ↔ IsRequest request.now }
{
    request.force <= 2
        && request.host <= MOST_HOSTS
        && request.lver < RECORD_NUMBERS
        && (request.force == 0) == (request.lver == 0)
}

/// Whether a value keeps its rules.
fn is_value(value: &ValueRec) -> bool
    ensures { IsTrue result ↔ IsValue value.now }
{
    are_bytes(value.bytes.as_slice());
    value.host <= MOST_HOSTS
        && value.lver < RECORD_NUMBERS
        && value.seq < RECORD_NUMBERS
        && is_data(&value.bytes)
}

/// Whether a record keeps the rules of its kind, so that there are bytes that spell it.
pub(crate) fn is_record(written: &Rec) -> bool
    ensures { IsTrue result ↔ IsRecord written.now }
{
    match written {
        Rec::DeltaIs(delta) => is_delta(delta),
        Rec::LeaderIs(leader) => is_leader(leader),
        Rec::BlockIs(block) => is_block(block),
        Rec::RequestIs(request) => is_request(request),
        Rec::ValueIs(value) => is_value(value),
        Rec::PairIs(pair) => is_pair(pair),
        Rec::PairLeaderIs(leader) => is_leader(leader),
    }
}
