//! Where a session stands between its joining and its end.

/// The stages of a session: those of a joining by its newest call, then joined, then gone.
#[derive(Clone, Copy, Debug, PartialEq, Eq)]
pub enum Stage {
    /// It reads its id's sector and watches it.
    Looking,
    /// The deciding read was submitted: it is to find what was watched.
    Deciding,
    /// The claim was submitted and isn't answered ok.
    Claiming,
    /// The claim was answered ok, and a wait has begun.
    Waiting,
    /// The verify read was submitted: it is to find the own claim.
    Verifying,
    /// The first renewal was submitted: its answer ok joins the session.
    FirstRenewing,
    /// It is joined, and renews.
    Standing,
    /// It leaves, and its free was submitted.
    Freeing,
    /// Its joining was refused; a write of it may still be unanswered.
    Refused,
    /// It was joined, and its connection was removed.
    Ended,
}
