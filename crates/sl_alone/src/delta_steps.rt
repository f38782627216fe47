//! What comes to a delta lease by itself, and what it gives.

use sl_request::Bitmap;
use sl_sector::DeltaRec;
use sl_trace::{Answer, JoinStep, Move, Reply};

/// What comes to a delta lease in a step: the time, an answer to its call, or that it is to leave.
#[derive(Drop)]
pub enum DeltaIn {
    /// Time has passed; a renewal that is due carries these bits.
    Wake(Bitmap),
    /// The call without an answer, of this number, is answered.
    Answered { call: u64, answer: Answer },
    /// The daemon has refused the job that joins.
    Refused,
    /// The joined session leaves, holding nothing: its free is written, or in recovery it ends.
    Leave,
}

/// A call on delta sectors, at most one in a step. Its place follows from the lease.
#[derive(Drop)]
pub enum DeltaCall {
    /// The own sector is read, at this step of the joining.
    ReadOwn(JoinStep),
    /// It is written, at this step of the joining.
    WriteOwn { step: JoinStep, record: DeltaRec },
    /// A live record is written.
    RenewOwn(DeltaRec),
    /// The sectors of all ids are read.
    ReadAll,
    /// The free record is written: the lease's last call.
    FreeOwn(DeltaRec),
}

/// What a lease has come to, where its joining or its leaving ends by the step.
#[derive(Drop)]
pub enum Outcome {
    /// The session is joined under this generation.
    Joined { generation: u64 },
    /// The joining is refused, with this reply.
    NotJoined(Reply),
    /// The leaving is over: the job that left has this reply.
    Left(Reply),
}

/// What a step gives: at most one move of the connection, one call and one outcome, to be carried out by the caller.
#[derive(Drop)]
pub struct DeltaOut {
    /// Recovery begins by this step: the session's holders have to stop.
    pub recovers: bool,
    pub moved: Option<Move>,
    pub call: Option<DeltaCall>,
    pub outcome: Option<Outcome>,
}
