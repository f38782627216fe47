//! What a host does in a step: the entries of its trace.

use crate::input::Input;
use crate::reply::Reply;
use sl_sector::Rec;
use sl_text::{FilePath, Name, Seq};

/// How a resource is held: by one session alone, or by any number in shared mode.
#[derive(Clone, Copy, PartialEq, Eq)]
pub enum Mode {
    Exclusive,
    Shared,
}

/// What a process is sent: that it is to stop, or its end.
#[derive(Clone, Copy, PartialEq, Eq)]
pub enum Signal {
    Term,
    Kill,
}

/// The steps of a joining, in their order. Each is one call on the sector of the session's id.
#[derive(Clone, Copy, PartialEq, Eq)]
pub enum JoinStep {
    /// What stands there at first.
    FirstRead,
    /// Whether it stands there still; once more each `renew`.
    WatchRead,
    /// Whether it stands there still, with the connection registered: then it is claimed.
    DecidingRead,
    /// The claim.
    ClaimWrite,
    /// Whether the claim stands there, `dead` behind its answer.
    VerifyRead,
    /// The first live record.
    FirstRenewal,
}

/// The reads of a lease that hold blocks. With pairs such a read is made once more where some host's second sector is torn in it.
#[derive(Clone, Copy, PartialEq, Eq)]
pub enum LeaseRead {
    /// Of an acquire, or a conversion to exclusive, of this resource.
    OfArea { resource: Name },
    /// Before a free that is owed is written.
    OfFree,
    /// Before a settling writes a block of a pair.
    OfBlock,
    /// In phase 1 of a ballot.
    OfPhase1,
    /// In phase 2 of a ballot.
    OfPhase2,
}

/// The steps of work on a resource's lease. The read with which an acquire begins has the resource's name that its command gives;
/// a settling reads the area before it writes a free that it owes, and with pairs the blocks before it writes its own.
#[derive(Clone, Copy, PartialEq, Eq)]
pub enum LeaseStep {
    /// Leader, request and all blocks, for the resource of this name.
    ReadArea { resource: Name },
    /// The same, before a settling writes a free: it may not be needed any more.
    ReadBeforeFree,
    /// All blocks, before a settling writes a block of a pair.
    ReadBeforeBlock,
    /// A read that is made once more, since it found a second sector of a pair torn.
    ReadAgain { read: LeaseRead },
    /// The own block, with a new number.
    Phase1Write,
    /// All blocks behind it.
    Phase1Read,
    /// The own block, with the value that the ballot proposes.
    Phase2Write,
    /// All blocks behind it: the ballot has ended where none is above.
    Phase2Read,
    /// The leader, held, of a ballot that the session won.
    TakeLeader,
    /// The own block, with the shared mode.
    SetMode,
    /// The leader, free.
    FreeLeader,
    /// The own block, without the mode.
    ClearMode,
}

/// On whose account work on a lease is done.
#[derive(Clone, Copy, PartialEq, Eq)]
pub enum Work {
    /// On that of the job with this number: it goes on while the job runs.
    ForJob { job: u64 },
    /// On nobody's: what the lease owes is settled, while the session is active.
    Settling,
}

/// What a sector call is for; `job` is the number of the job which made it.
#[derive(Clone, Copy, PartialEq, Eq)]
pub enum Purpose {
    /// A step of a joining, on the id's sector.
    Joining { job: u64, step: JoinStep },
    /// The write of a live record that keeps a joined session alive.
    Renewal,
    /// The read of all delta sectors that follows a renewal.
    Survey,
    /// The write of a leaving's free record.
    Leaving { job: u64 },
    /// A step of work on a resource's lease, on its leader or its blocks.
    Lease { work: Work, step: LeaseStep },
    /// A request's read of leader and request.
    RequestRead { job: u64 },
    /// A request's write; the owner of the held leader that was read, if there was one.
    RequestWrite { job: u64, owner: Option<u32> },
    /// An exclusive holder's read of the request, since some host's delta record has its bit.
    SeeRequest,
    /// The write of a resource's value.
    ValueWrite { job: u64 },
    /// The read of a resource's value.
    ValueRead { job: u64 },
}

/// Whole sectors to read, or a record to write.
#[derive(Clone, Copy, PartialEq, Eq)]
pub enum Op {
    ReadSectors { sectors: u32 },
    WriteRecord { record: Rec },
}

/// A sector call: whole sectors from an offset on, of the session with this place among the daemon's sessions.
#[derive(Clone, Copy, PartialEq, Eq)]
pub struct Call {
    pub number: u64,
    pub session: u64,
    pub purpose: Purpose,
    pub path: FilePath,
    pub offset: u64,
    pub op: Op,
}

/// A resource's area: a disk's path and the area's offset.
#[derive(Clone, Copy, PartialEq, Eq)]
pub struct Spot {
    pub path: FilePath,
    pub base: u64,
}

/// A process begins to hold a resource, for the session with this place; a persistent holding outlives its process. Process 0 stands for
/// none: its holdings are the machine's orphans.
#[derive(Clone, Copy, PartialEq, Eq)]
pub struct Grant {
    pub process: u32,
    pub session: u64,
    pub lockspace: Name,
    pub resource: Name,
    pub path: FilePath,
    pub offset: u64,
    pub mode: Mode,
    pub lver: u64,
    pub persistent: bool,
}

/// A process no longer holds a resource.
#[derive(Clone, Copy, PartialEq, Eq)]
pub struct End {
    pub process: u32,
    pub lockspace: Name,
    pub resource: Name,
    pub path: FilePath,
    pub offset: u64,
}

/// A process, with the signal that it is sent.
#[derive(Clone, Copy, PartialEq, Eq)]
pub struct Sent {
    pub process: u32,
    pub signal: Signal,
}

/// What is done to the machine's connections to its watchdog daemon. One that has run out, at its clock's reading `expiry`, in
/// milliseconds, fails each test.
#[derive(Clone, Copy, PartialEq, Eq)]
pub enum Move {
    Register { lockspace: Name, expiry: u64 },
    Renew { lockspace: Name, expiry: u64 },
    Unregister { lockspace: Name },
}

/// A child program to start: for a job, or as the kill program that stands for the term to a process.
#[derive(Clone, Copy, PartialEq, Eq)]
pub struct Start {
    pub process: u32,
    pub program: FilePath,
    pub job: Option<u64>,
    pub stands_for: Option<u32>,
}

/// A reply, with the number of the job that it ends.
#[derive(Drop, PartialEq, Eq)]
pub struct JobReply {
    pub job: u64,
    pub reply: Reply,
}

/// All that one step does, by classes in the order in which they are told.
#[derive(Drop, PartialEq, Eq)]
pub struct Effects {
    pub ends: Seq<End>,
    pub signals: Seq<Sent>,
    pub moves: Seq<Move>,
    pub grants: Seq<Grant>,
    pub starts: Seq<Start>,
    pub replies: Seq<JobReply>,
    pub calls: Seq<Call>,
}

/// One step of a daemon: its clock's reading in milliseconds, what came, and what it did.
#[derive(Drop, PartialEq, Eq)]
pub struct Entry {
    pub reading: u64,
    pub input: Input,
    pub effects: Effects,
}
