//! Ballots.
ghost use Rattle.std.specs.Prelude.{IsTrue, ◌<◌, ◌^◌, ◌≤◌};

use crate::told::Told;
use crate::word_values::{number_at, number_of, numbers_from, part, short_at, short_of, word};
use sl_alone::{Ballot, BallotStep, ballot_run, next_mbal};
use sl_ballot::{Limit, instance_of, stop_of, value_after_read};
use sl_sector::{Block, Leader, Owner};
use sl_text::Name;
use sl_trace::{Instance, Stop};

/// A block without a mode, whose value is of generation 1 where bal isn't 0.
fn block_of(text: &str) -> Block {
    let bal = number_of(part(text, '/', 3));
    Block {
        host: short_of(part(text, '/', 0)),
        shared: false,
        lver: number_of(part(text, '/', 1)),
        mbal: number_of(part(text, '/', 2)),
        bal,
        inp_gen: bal.min(1),
        mode_gen: 0,
        inp: short_of(part(text, '/', 4)),
    }
}

/// Adds a block to a list; `none` is no block.
fn push_block(told: &mut Told, blocks: &mut Vec<Block>, text: &str) {
    if text != "none" {
        told.need(blocks.push(block_of(text)).is_ok());
    }
}

/// The blocks of a list.
fn blocks_of(told: &mut Told, text: &str) -> Vec<Block> {
    let mut blocks = Vec::new(told.alloc);
    for block in text.split(',') {
        push_block(told, &mut blocks, block);
    }
    blocks
}

/// A block, or none where it is torn.
fn block_or_torn(text: &str) -> Option<Block> {
    if text == "-" {
        None
    } else {
        Some(block_of(text))
    }
}

/// The blocks of a read, in which one may be torn.
fn read_of(told: &mut Told, text: &str) -> Vec<Option<Block>> {
    let mut blocks = Vec::new(told.alloc);
    for block in text.split(',') {
        told.need(blocks.push(block_or_torn(block)).is_ok());
    }
    blocks
}

/// A block as these texts write it, and its value's generation.
fn block_text(told: &mut Told, block: Block) {
    told.short(block.host);
    told.number_behind("/", block.lver);
    told.number_behind("/", block.mbal);
    told.number_behind("/", block.bal);
    told.number_behind("/", u64::from(block.inp));
    told.said("gen", block.inp_gen);
}

/// The session whose id and generation the first two words are.
fn session(text: &str) -> Owner {
    Owner {
        id: short_at(text, 0),
        generation: number_at(text, 1),
    }
}

/// Whether a ballot of this session of so many hosts, in an instance and from an own block on, can be.
fn can_be(me: Owner, hosts: u32, n: u64, own: &Block) -> bool
    ensures { IsTrue result → (1 ≤ me.id) × (me.id ≤ hosts) × (hosts ≤ 2000) × (1 ≤ n) × (n < 2 ^ 63) × (own.now.lver ≤ n) }
{
    1 <= me.id && me.id <= hosts && hosts <= 2000 && 1 <= n && n < 1 << 63 && own.lver <= n
}

/// How a ballot came out.
fn outcome(told: &mut Told, step: Result<BallotStep, Limit>) {
    match step {
        Ok(BallotStep::Go(block)) => block_text(told, block),
        Ok(BallotStep::Won) => told.word("won"),
        Ok(BallotStep::Lost(owner)) => {
            told.said_two("lost to", u64::from(owner.id), owner.generation)
        }
        Ok(BallotStep::Rival { host, mbal }) => told.said_two("rival", u64::from(host), mbal),
        Ok(BallotStep::Ahead { host, lver }) => told.said_two("ahead", u64::from(host), lver),
        Err(Limit) => told.word("limit"),
    }
}

/// A whole ballot: the session, the number of hosts, the instance, the own block, the blocks seen before and in the reads of its phases.
pub fn ballot(told: &mut Told, text: &str) {
    let (me, hosts, n) = (session(text), short_at(text, 2), number_at(text, 3));
    let own = block_of(word(text, 4));
    if !can_be(me, hosts, n, &own) {
        return told.word("none");
    }
    let seen = blocks_of(told, word(text, 5));
    let first = blocks_of(told, word(text, 6));
    let second = blocks_of(told, word(text, 7));
    outcome(told, ballot_run(me, hosts, n, own, &seen, &first, &second));
}

/// The block with which such a ballot begins.
pub fn begin(told: &mut Told, text: &str) {
    let (me, hosts, n) = (session(text), short_at(text, 2), number_at(text, 3));
    let own = block_of(word(text, 4));
    if !can_be(me, hosts, n, &own) {
        return told.word("none");
    }
    let seen = blocks_of(told, word(text, 5));
    match Ballot::begin(me, hosts, n, own, &seen) {
        Ok(ballot) => block_text(told, ballot.block()),
        Err(Limit) => told.word("limit"),
    }
}

/// The next number of a host, of so many, behind the numbers that were seen.
pub fn mbal(told: &mut Told, text: &str) {
    let hosts = short_at(text, 0);
    if hosts < 1 {
        return told.word("none");
    }
    let seen = numbers_from(told, text, 2);
    match next_mbal(hosts, short_at(text, 1), &seen) {
        Ok(number) => told.number(number),
        Err(Limit) => told.word("limit"),
    }
}

/// What stops a ballot, if anything does.
fn stop_text(told: &mut Told, stop: Option<Stop>) {
    match stop {
        Some(Stop::BlockTorn { host }) => told.said("torn", u64::from(host)),
        Some(Stop::BlockAhead { host, lver }) => told.said_two("ahead", u64::from(host), lver),
        Some(Stop::BlockRival { host, mbal }) => told.said_two("rival", u64::from(host), mbal),
        None => told.word("goes on"),
    }
}

/// What stops a ballot whose own block is the first, at a read.
pub fn stop(told: &mut Told, text: &str) {
    let read = read_of(told, word(text, 1));
    if read.len() < 1 << 32 {
        stop_text(told, stop_of(&block_of(word(text, 0)), &read));
    }
}

/// The value that a session proposes in an instance, with this own block, after this read.
pub fn accepted(told: &mut Told, text: &str) {
    let read = read_of(told, word(text, 4));
    let own = block_of(word(text, 3));
    let value = value_after_read(session(text), number_at(text, 2), &own, &read);
    told.short(value.id);
    told.number(value.generation);
}

/// The instance that an acquire of host 2 in generation 1 begins behind this leader, and by whom the resource is held, if it is.
fn begun(told: &mut Told, is_over: bool, leader: &Leader, freed: u64, top: u64)
    requires leader { leader.now.lver < 2 ^ 63 }
    requires freed { freed < 2 ^ 63 }
{
    let me = Owner {
        id: 2,
        generation: 1,
    };
    match instance_of(is_over, me, leader, freed, top) {
        Instance::Begins { instance } => told.said("begins", instance),
        Instance::HeldAlready { lver, owner } => told.said_two("held", lver, u64::from(owner.id)),
    }
}

/// The instance that an acquire of that host begins behind a leader of instance 3: whether the leader's owner is over, whether it is held,
/// its owner, of generation 1, the greatest instance that the host freed, and the greatest of a block.
pub fn instance(told: &mut Told, text: &str) {
    let Some(name) = Name::new(b"r") else {
        return told.word("no name");
    };
    let leader = Leader {
        held: word(text, 1) == "held",
        num_hosts: 2,
        lver: 3,
        generation: 1,
        owner: short_at(text, 2),
        lockspace: name,
        resource: name,
    };
    let freed = number_at(text, 3);
    if freed >= 1 << 63 {
        return told.word("none");
    }
    begun(
        told,
        word(text, 0) == "over",
        &leader,
        freed,
        number_at(text, 4),
    );
}
