//! A session, and how it stands.

use sl_text::{FilePath, Name};

/// One joining, or one session that the setting gives.
#[derive(Clone, Copy)]
pub struct Session {
    pub number: u64,
    /// The job of its joining; none for a session that the setting gives.
    pub job: Option<u64>,
    pub lockspace: Name,
    pub id: u32,
    pub path: FilePath,
    pub offset: u64,
    /// The reading that the setting gives as its last renewal's, and 0.
    pub renewed: u64,
}

/// How a recovery or a leaving began: in which entry, at which reading, and from which entry on its kills may come.
#[derive(Clone, Copy)]
pub struct Begun {
    pub at: u64,
    pub reading: u64,
    /// A recovery that begins by time does so at the head of its step, so with a grace of 0 its kills come in that step; one that
    /// begins in the input, and a leaving, leave them to the next.
    pub kills_from: u64,
}

/// How a session stands with its renewals: the submission reading of the last that was answered ok outside recovery, and how recovery
/// began, if it has.
#[derive(Clone, Copy)]
pub struct Renewing {
    pub last: u64,
    pub recovery: Option<Begun>,
}
