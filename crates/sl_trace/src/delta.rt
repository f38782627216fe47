//! What is known of a session, and what it does next on its id's sector.

use crate::{JoinStep, Reply};
use sl_sector::DeltaRec;

/// What is known of a joined session where a renewal or its free may be due.
#[derive(Clone, Copy)]
pub struct DeltaKnown {
    pub generation: u64,
    /// That of the last delta record that was submitted, answered or not.
    pub seq: u64,
    /// The submission reading of the last renewal.
    pub renewed: u64,
    /// A call on a delta sector is unanswered.
    pub busy: bool,
    /// Recovery has begun: the session renews no more.
    pub recovering: bool,
    /// The job of the `rem_lockspace` by which the session leaves, if it does.
    pub leaving: Option<u64>,
    /// The free record was submitted: it is the session's last call.
    pub freed: bool,
}

/// What a delta lease does next: at most one move of its connection, one call and one reply.
#[derive(Drop)]
pub enum DeltaNext {
    /// Nothing is due: the session waits for an answer or for its time.
    Nothing,
    /// The joining is refused with this reply; its connection goes where no write is unanswered.
    RefuseJoin(Reply),
    /// The own sector is read, for this step of the joining.
    ReadOwn(JoinStep),
    /// The connection is registered until `fail` after now, and the own sector is read.
    RegisterAndRead(JoinStep),
    /// The claim is written, with a generation and a seq above those read.
    WriteClaim(DeltaRec),
    /// The claim is answered: the connection goes while the session waits.
    Disconnect,
    /// The first live record is written: its answer ok joins the session.
    WriteFirst(DeltaRec),
    /// The session is joined under this generation by a renewal submitted at this reading: reply, connection, a read of all ids.
    Join { generation: u64, renewed: u64 },
    /// A renewal submitted at this reading was answered ok: the connection moves, and all ids are read.
    MoveConnection { renewed: u64 },
    /// A further live record is written, with the bits of the hosts that are asked for something.
    WriteRenewal(DeltaRec),
    /// The free record is written, for the job that leaves.
    WriteFree { job: u64, record: DeltaRec },
    /// The leaving is over: its job gets this reply, the connection goes, and the session ends.
    EndLeaving { job: u64, reply: Reply },
}
