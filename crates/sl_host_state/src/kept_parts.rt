//! The small things that a host keeps as they are: of calls, of leases, of joinings, of jobs. What its parts keep of them beyond that is in
//! the parts.

use sl_text::FilePath;
use sl_trace::{Command, JoinStep, LeaseStep, Purpose, Work};

/// The version of a value that a session wrote last: the instance it was held under, and how often it was written there.
#[derive(Clone, Copy)]
pub struct ValuePair {
    pub lver: u64,
    pub seq: u64,
}

/// A call without an answer: what its answer needs. The record that it writes is nowhere asked again, but for these numbers of it.
#[derive(Clone, Copy)]
pub struct OpenCall {
    pub number: u64,
    pub session: u64,
    pub purpose: Purpose,
    pub path: FilePath,
    pub offset: u64,
    /// The sectors that it reads; a write has none.
    pub sectors: Option<u32>,
    /// The instance of the leader or block that it writes, and 0.
    pub lver: u64,
    /// Those of the value that it writes: the reply tells them.
    pub value: Option<ValuePair>,
    /// The clock's reading at which it was submitted.
    pub reading: u64,
}

/// The call for whose answer a job waits.
#[derive(Clone, Copy)]
pub struct WaitingCall {
    pub number: u64,
    pub reading: u64,
}

/// A job that has no reply yet: its command, its child, and the call that it waits for.
#[derive(Clone, Copy)]
pub struct JobState {
    pub number: u64,
    pub command: Option<Command>,
    /// Its child, once it has its grant.
    pub child: Option<u32>,
    pub waits: Option<WaitingCall>,
}

/// The newest call of a lease, while it has no answer.
#[derive(Clone, Copy)]
pub struct LeaseCall {
    pub number: u64,
    pub work: Work,
    pub step: LeaseStep,
    /// The instance of the free that it writes, if it does.
    pub frees: Option<u64>,
    /// Whether it writes a block without the shared mode.
    pub clears: bool,
    /// The turn of the block of a pair that it writes, if it does.
    pub turn: Option<u64>,
}

/// The greatest number of a ballot that a lease has seen in an instance.
#[derive(Clone, Copy)]
pub struct TopNumber {
    pub instance: u64,
    pub mbal: u64,
}

/// The newest call of a joining: its step, the reading of its submission, and that of its answer.
#[derive(Clone, Copy)]
pub struct JoinCall {
    pub step: JoinStep,
    pub made: u64,
    pub answered: Option<u64>,
}
