//! What a lawful run makes of an id.

ghost use Rattle.sl_id_safety.specs.State.Facts.{ClaimsHaveDecided, DecidingReadsHaveWatched, DeltaWritesComeInTurn, JoinReadsAreOwn, RenewalsHaveVerified, SessionsFollow, VerifyReadsHaveClaimed};
ghost use Rattle.sl_id_safety.specs.State.StateLaws.{IdsAreBounded, IdsStart};

/// A read of a joining reads the session's own sector.
pub fn join_reads_are_own()
    ensures { JoinReadsAreOwn }
{}

/// Behind a deciding read stands what the session read first: a free record, or one that it watched for long enough.
pub fn deciding_reads_have_watched()
    ensures { DecidingReadsHaveWatched }
{}

/// Behind a claim stands a deciding read, which showed what was watched.
pub fn claims_have_decided()
    ensures { ClaimsHaveDecided }
{}

/// Behind a verify read stands the claim, answered ok long enough before.
pub fn verify_reads_have_claimed()
    ensures { VerifyReadsHaveClaimed }
{}

/// What stands behind a renewal or a free.
pub fn renewals_have_verified()
    ensures { RenewalsHaveVerified }
{}

/// A session's delta records are written one after the other.
pub fn delta_writes_come_in_turn()
    ensures { DeltaWritesComeInTurn }
{}

/// A daemon's sessions of one lockspace follow one another.
pub fn sessions_follow()
    ensures { SessionsFollow }
{}

/// At first one record stands in an id's sector: a session's of the header, or a free one.
pub fn ids_start()
    ensures { IdsStart }
{}

/// The watchdogs keep the bounds of an id.
pub fn ids_are_bounded()
    ensures { IdsAreBounded }
{}
