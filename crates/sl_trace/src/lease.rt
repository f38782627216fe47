//! What ballots come to, and what a lease does next.

use crate::{LeaseStep, Mode, Reply};
use sl_sector::{Block, Leader, Owner};

/// What a read of the blocks says of a ballot, the first that fits: a torn block of a host; a block of a later instance (host and
/// lver); a greater number in the instance (host and mbal).
#[derive(Clone, Copy)]
pub enum Stop {
    BlockTorn { host: u32 },
    BlockAhead { host: u32, lver: u64 },
    BlockRival { host: u32, mbal: u64 },
}

/// Which instance an acquire begins, or who holds the resource and under which instance.
#[derive(Clone, Copy)]
pub enum Instance {
    Begins { instance: u64 },
    HeldAlready { lver: u64, owner: Owner },
}

/// What a lease owes, the first that fits: an open ballot of this instance is run to its end; an own mode that is left over is
/// cleared; the leader of this instance is written free.
#[derive(Clone, Copy)]
pub enum Owed {
    BallotOwed { instance: u64 },
    ModeOwed,
    FreeOwed { instance: u64 },
}

/// To what end a lease is worked on: a job acquires it in a mode, converts a holding to a mode, or gives it up, or what it owes is
/// settled.
#[derive(Clone, Copy)]
pub enum Aim {
    Acquires(Mode),
    Converts(Mode),
    Releases,
    Settles,
}

/// What a lease does next: at most one call, or one reply, or a grant, or the conversion of a holding with the call that it then owes.
#[derive(Drop)]
pub enum LeaseNext {
    /// Nothing is due: the work is over, or waits for a later wake.
    Nothing,
    /// The blocks of all hosts are read, or the whole area, by the step.
    ReadFor(LeaseStep),
    /// The own block is written, for this step.
    WriteBlock { step: LeaseStep, block: Block },
    /// The leader is written, for this step.
    WriteLeader { step: LeaseStep, leader: Leader },
    /// The job has this reply, and its work is over.
    AnswerJob(Reply),
    /// The job is granted the resource in this mode, under this instance.
    GrantJob { mode: Mode, lver: u64 },
    /// The job's process holds the resource shared in place of exclusive, under the same instance; then the leader is written free.
    BecomeShared { lver: u64, leader: Leader },
    /// The job's process holds the resource exclusive in place of shared, under this instance; then the own block is written without
    /// the mode.
    BecomeExclusive { lver: u64, block: Block },
}
