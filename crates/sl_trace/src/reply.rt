//! Replies to commands, and what a session tells of other hosts.

use sl_sector::Owner;
use sl_text::{Data, Name, Seq};

/// What an id looks like to a session, by the looks that its renewals made.
#[derive(Clone, Copy, PartialEq, Eq)]
pub enum HostState {
    /// No look yet, the last found no record, or all found the same for less than `fail`.
    Unknown,
    /// The last look found it free.
    Free,
    /// Its record has stood still for `dead`.
    Dead,
    /// The first look that found the record as it is was answered `fail` ago.
    Failing,
    /// None of these, and an earlier look found another record.
    Live,
}

/// An id with what it looks like.
#[derive(Clone, Copy, PartialEq, Eq)]
pub struct StateOf {
    pub id: u32,
    pub state: HostState,
}

/// A joined session, as `status` tells it.
#[derive(Clone, Copy, PartialEq, Eq)]
pub struct SessionOf {
    pub lockspace: Name,
    pub id: u32,
    pub generation: u64,
}

/// What has a limit: a count of what a machine or a daemon has, or a number that a record has to hold.
#[derive(Clone, Copy, PartialEq, Eq)]
pub enum Limited {
    /// Lockspaces of a machine that are in use: at most 8.
    Lockspaces,
    /// Leases of a daemon's joined sessions: at most 256.
    Resources,
    /// Holdings of a machine, with the running jobs that may become such: at most 1024.
    Holders,
    /// Child numbers that a daemon gave, with the running jobs that may need one: at most 1000000.
    Children,
    /// Processes of a daemon with a kill program: at most 1024.
    Killpaths,
    /// These numbers of records stay below 2^63, and so do the others here.
    Gen,
    Seq,
    Lver,
    Mbal,
    Turn,
}

/// Generation and seq of a delta record.
#[derive(Clone, Copy, PartialEq, Eq)]
pub struct DeltaVersion {
    pub generation: u64,
    pub seq: u64,
}

/// Generation and host name of a delta record; an absent name is `-`.
#[derive(Clone, Copy, PartialEq, Eq)]
pub struct DeltaOwner {
    pub generation: u64,
    pub name: Name,
}

/// The answer to a command. (Definitions call five variants `StillJoining`, `HeldBy`, `SharedBy`, `Misread`, `LimitReached`.)
#[derive(Drop, PartialEq, Eq)]
pub enum Reply {
    /// What was asked for is done; there is nothing else to tell.
    Done,
    /// The session is joined under this generation.
    Generation {
        generation: u64,
    },
    /// The process holds the resource, under this instance.
    Granted {
        lver: u64,
    },
    /// The child runs under this process number, and holds the resource.
    Started {
        lver: u64,
        process: u32,
    },
    /// The resource's value, with its version.
    Value {
        lver: u64,
        seq: u64,
        bytes: Data,
    },
    /// A value was written with this version; the text doesn't tell it.
    ValueSet {
        lver: u64,
        seq: u64,
    },
    /// What each id looks like; those that were found free are left out.
    Hosts(Seq<StateOf>),
    /// The joined sessions, by lockspace.
    Sessions(Seq<SessionOf>),
    /// No session of this lockspace, or one of another id or place.
    NoSession,
    /// The session is not joined yet.
    Joining,
    /// The session is in recovery or leaving; its last renewal was submitted at this reading.
    Recovering {
        renewed: u64,
    },
    /// The id's record changed between two reads of a joining: somebody has it.
    IdHeld {
        first: DeltaVersion,
        later: Option<DeltaVersion>,
    },
    /// The joining's claim does not stand any more: somebody else's record does, or a torn one.
    IdLost {
        own: DeltaOwner,
        found: Option<DeltaOwner>,
    },
    /// The claim was submitted more than `join_max` before this reading: too late to verify it.
    IdLate {
        claimed: u64,
        now: u64,
    },
    /// The id's sector spells no delta record.
    TornDelta,
    /// The leader's sector spells no leader.
    TornLeader,
    /// The block of this host is torn: it could hide a holder.
    TornBlock {
        host: u32,
    },
    /// This session won the instance, and is not known to be over.
    Held {
        lver: u64,
        owner: Owner,
    },
    /// This session holds the resource shared, and is not known to be over.
    Shared {
        owner: Owner,
    },
    /// This host has begun a greater ballot of the instance.
    Rival {
        host: u32,
        mbal: u64,
    },
    /// This host has begun a later instance.
    Ahead {
        host: u32,
        lver: u64,
    },
    /// A call of the job was unanswered from its submission, at the first reading, until `io` or more later, at the second.
    IoTimeout {
        call: u64,
        from: u64,
        to: u64,
    },
    /// A call of the job was answered as failed.
    IoFault {
        call: u64,
    },
    /// A call on the resource's area is unanswered, so no other work on it may begin.
    Pending {
        call: u64,
    },
    /// This process holds the resource, in a mode that does not go with what is asked.
    Busy {
        process: u32,
    },
    /// The machine has no orphan of the resource in this mode.
    NoOrphan,
    /// The process does not hold the resource, or not in this mode.
    NotHeld,
    /// The child could not be started; what it held has ended.
    SpawnFault,
    /// The value's sector spells no value.
    ValueTorn,
    /// The text is no command: the column, from 1 on, of the first word that does not fit.
    BadCommand {
        column: u64,
    },
    /// A count or a number would pass its limit.
    Limit {
        which: Limited,
    },
    /// The request asks for no more than is held, or for less than the request that stands; none, where that is torn.
    RequestOld {
        held: u64,
        stored: Option<u64>,
    },
    /// The area's leader is of another resource, or of another number of hosts.
    WrongArea {
        lockspace: Name,
        resource: Name,
        hosts: u32,
    },
    /// The id's sector has the record of another lockspace or id.
    WrongDelta {
        lockspace: Name,
        id: u32,
    },
    /// No such process: it has exited, or is no child that runs.
    NoProcess {
        process: u32,
    },
    /// The session is joined already, under this generation.
    Joined {
        generation: u64,
    },
}

/// Why a session counts as over: a newer generation was seen, its free was seen, or its record stood still.
#[derive(Clone, Copy, PartialEq, Eq)]
pub enum Evidence {
    Newer { generation: u64 },
    Freed { generation: u64 },
    Silent { from: u64, to: u64 },
}
