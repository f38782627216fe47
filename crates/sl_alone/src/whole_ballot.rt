//! One ballot from its begin to its end.
//!
//! It keeps the session, the own block and the phase. The caller writes `block`, tells by `wrote` that the write was answered ok, and
//! hands in what a read of the blocks that was submitted after that gave; twice, once in each phase. Three things hold of every ballot:
//!
//! - The block's instance and number never change. So whoever reads a greater number in the instance knows that this ballot stops.
//! - A value is written only after the read of phase 1, and is that of the greatest bal read there. Else a ballot could write another
//!   value than one that was chosen already.
//! - The ballot ends with a value only after the read of phase 2. At the first read its own value stands on no disk yet, so a host with
//!   a greater number could not have learned of it.
ghost use Rattle.sl_alone.specs.WholeBallots.{after_step, begun, ends_with, is_reading, phase_written, step_of, unless_stopped};
ghost use Rattle.sl_alone.specs.BallotRuns.{ballot_run};
ghost use Rattle.sl_trace.specs.Ballots.{phase1_block};
ghost use Rattle.std.specs.Prelude.{IsTrue, ◌<◌, ◌^◌, ◌≡◌, ◌≤◌};

use crate::whole_blocks::{block_ahead, block_rival, phase2_block};
use sl_ballot::{Limit, phase1_block, same_owner, value_of};
use sl_sector::{Block, Owner};
use std::marker::Model;

/// What comes next in a ballot: a write or a read of blocks, or its end.
#[derive(Clone, Copy)]
pub enum Phase {
    /// The block of phase 1 is to be written.
    Phase1Write,
    /// It was written, and the blocks are to be read.
    Phase1Read,
    /// The block of phase 2 is to be written.
    Phase2Write,
    /// It was written, and the blocks are to be read again.
    Phase2Read,
    /// Nothing: the ballot was won, lost or stopped.
    Ended,
}

/// What a read of the blocks says of a ballot.
#[derive(Clone, Copy)]
pub enum BallotStep {
    /// It goes on: this block of phase 2 is to be written. Only the read of phase 1 says so.
    Go(Block),
    /// It ended with the session itself. Only the read of phase 2 says so.
    Won,
    /// It ended with another session. Only the read of phase 2 says so.
    Lost(Owner),
    /// This host has a greater number in the instance.
    Rival { host: u32, mbal: u64 },
    /// This host is in a later instance.
    Ahead { host: u32, lver: u64 },
}

/// A ballot of a session: the block that it writes, and what comes next.
#[derive(Drop)]
pub struct Ballot {
    me: Owner,
    block: Block,
    phase: Phase,
}

impl Model for Ballot {
    ghost use Rattle.sl_alone.specs.WholeBallots.{BallotState};

    ghost Value = { BallotState };

    ghost view = { λ b. record { self = b.me; block = b.block; phase = b.phase } };
}

/// The stop by a block of a later instance, else by one with a greater number in the instance; else this step.
fn unless_stopped(own: &Block, blocks: &[Block], next: BallotStep) -> BallotStep
    ensures { result ≡ unless_stopped own.now blocks.now next }
{
    if let Some(ahead) = block_ahead(own, blocks) {
        return BallotStep::Ahead {
            host: ahead.host,
            lver: ahead.lver,
        };
    }
    match block_rival(own, blocks) {
        Some(rival) => BallotStep::Rival {
            host: rival.host,
            mbal: rival.mbal,
        },
        None => next,
    }
}

/// How a session's ballot with this value ends.
fn ends_with(me: Owner, value: Owner) -> BallotStep
    ensures { result ≡ ends_with me value }
{
    if same_owner(value, me) {
        BallotStep::Won
    } else {
        BallotStep::Lost(value)
    }
}

impl Ballot {
    /// A ballot of session `me`, of `num_hosts` hosts (1 to 2000), in instance `n` (1 to 2^63 - 1). `own` is the own block so far, of no
    /// later instance, and `seen` are the blocks known. The error comes exactly where the number, the least k*N + id above each mbal in
    /// `n` that they show, is 2^63 or more.
    pub fn begin(
        me: Owner,
        num_hosts: u32,
        n: u64,
        own: Block,
        seen: &[Block],
    ) -> Result<Ballot, Limit>
        requires id { (1 ≤ me.id) × (me.id ≤ num_hosts) }
        requires hosts { num_hosts ≤ 2000 }
        requires instance { (1 ≤ n) × (n < 2 ^ 63) × (own.lver ≤ n) }
        ensures { result ≡ begun me (phase1_block me num_hosts n own.shared own.mode_gen own seen.now) }
    {
        let block = phase1_block(me, num_hosts, n, own.shared, own.mode_gen, &own, seen)?;
        Ok(Ballot {
            me,
            block,
            phase: Phase::Phase1Write,
        })
    }

    /// The own block: the one to be written, or the one written last.
    pub fn block(&self) -> Block
        ensures { result ≡ self.now.block }
    {
        self.block
    }

    /// The write of `block` was answered ok. Said again, or where none is due, it changes nothing.
    pub fn wrote(&mut self)
        ensures { self.new ≡ record self.old { phase = phase_written self.old.phase } }
    {
        self.phase = match self.phase {
            Phase::Phase1Write => Phase::Phase1Read,
            Phase::Phase2Write => Phase::Phase2Read,
            other => other,
        };
    }

    /// Takes the blocks that a read gave which was submitted after the write of `block` was answered. The first of a later instance ends
    /// the ballot, else the first with a greater number in the instance; else phase 1 gives the block of phase 2 and phase 2 the end.
    ///
    /// The own block as written stands among them; it may be left out wherever its bal is 0, and always in phase 2.
    pub fn read(&mut self, blocks: &[Block]) -> BallotStep
        requires { IsTrue (is_reading self.old.phase) }
        ensures step { result ≡ step_of self.old blocks.now }
        ensures state { self.new ≡ after_step self.old result }
    {
        let next = match self.phase {
            Phase::Phase1Read => BallotStep::Go(phase2_block(self.me, &self.block, blocks)),
            _ => ends_with(self.me, value_of(&self.block)),
        };
        let step = unless_stopped(&self.block, blocks, next);
        match step {
            BallotStep::Go(block) => {
                self.block = block;
                self.phase = Phase::Phase2Write;
            }
            _ => self.phase = Phase::Ended,
        }
        step
    }
}

/// A whole ballot, with the blocks that its first read gave and those that a second one would: begin, write, read, write, read. It ends
/// `Won`, `Lost`, at a `Rival` or one `Ahead`; the error is that of `Ballot::begin`. All that `Ballot` does in a row is told by this
/// one contract.
pub fn ballot_run(
    me: Owner,
    num_hosts: u32,
    n: u64,
    own: Block,
    seen: &[Block],
    first: &[Block],
    second: &[Block],
) -> Result<BallotStep, Limit>
    requires id { (1 ≤ me.id) × (me.id ≤ num_hosts) }
    requires hosts { num_hosts ≤ 2000 }
    requires instance { (1 ≤ n) × (n < 2 ^ 63) × (own.lver ≤ n) }
    ensures { result ≡ ballot_run me num_hosts n own seen.now first.now second.now }
{
    let mut ballot = Ballot::begin(me, num_hosts, n, own, seen)?;
    ballot.wrote();
    let step = ballot.read(first);
    if let BallotStep::Go(_) = step {
        ballot.wrote();
        return Ok(ballot.read(second));
    }
    Ok(step)
}
