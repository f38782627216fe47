//! What a command comes to.

use sl_sector::ValueRec;
use sl_trace::{Grant, LockspaceArg, Mode, Reply, ResourceArg, Session, Spot};

/// What a command comes to, as data, on the trace before its line; `carry_decision` then does it.
#[derive(Drop)]
pub enum Decision {
    /// It is answered at once: refused, told, or done already.
    Replies(Reply),
    /// A session of this number begins with the read of its id's sector.
    Joins {
        session: u64,
        lockspace: LockspaceArg,
    },
    /// The session begins to leave: its holders are told to stop, its other jobs refused.
    Leaves(Session),
    /// Work on the lease begins with a read of the area.
    ReadsArea {
        session: Session,
        resource: ResourceArg,
    },
    /// Granted at once beside a shared holding, under its instance.
    Shares {
        session: Session,
        lver: u64,
    },
    /// The holding ends; where it was the last under its lease the area is written, and the reply waits for that.
    GivesUp {
        session: Session,
        holding: Grant,
    },
    /// The orphan ends, and its place is the asking process's.
    TakesOver {
        session: Session,
        orphan: Grant,
    },
    /// A holding of the resource is converted to a mode.
    ConvertsTo {
        session: Session,
        resource: ResourceArg,
        mode: Mode,
    },
    /// A request begins with a read of leader and request.
    Requests {
        session: Session,
        resource: ResourceArg,
    },
    /// This value, with its version, is written under an exclusive holding.
    SetsValue {
        session: Session,
        spot: Spot,
        value: ValueRec,
    },
    /// The value is read under a holding.
    GetsValue {
        session: Session,
        spot: Spot,
    },
}
