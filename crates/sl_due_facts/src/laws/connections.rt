//! What is known of the connections of sessions holds at each moment of a step of a daemon that does what is due, and so do the laws of
//! sessions: of their calls, their delta records and their connections.
//!
//! A name is registered just where a session of it is covered: a joining registers with its deciding and with its verify read, and its
//! connection goes when its claim was answered, when it is refused with no write unanswered, and when it ends
//! (`Connections::ConnectionsChange`). No two sessions of one name are present, so no act touches another's connection.

ghost use Rattle.sl_due_facts.specs.Connections.DeltaLaws.{ClaimsAreLawful, FirstRenewalsAreLawful, FreeIsDecided, FreesAreLawful, JoinedSurveysAreLawful, JoinsAreLawful, JoinsBegin, LooksAreLawful, NothingWasRead, RenewalsAreLawful, RenewedSurveysAreLawful, VerifiesAreLawful, WatchFactsAreKept, WatchFactsBegin, WatchFactsConclude, WatchedIsDecided, WatchesAreLawful};
ghost use Rattle.sl_due_facts.specs.Connections.DeltasSoFar.{CallsAreKept, CallsBegin};
ghost use Rattle.sl_due_facts.specs.Connections.ConnectionLaws.{ConnectionFactsAreKept, ConnectionFactsBegin, ConnectionFactsConclude, MovesAreKept, MovesBegin, WatchdogIsLawful};

/// After each act a name is registered just where a session of it is covered, and no connection outlasts what its session may do.
pub fn connection_facts_are_kept()
    ensures { ConnectionFactsAreKept }
{}

/// So it is once a step has begun.
pub fn connection_facts_begin()
    ensures { ConnectionFactsBegin }
{}

/// Where all that an answer makes due is done, no connection waits for it.
pub fn connection_facts_conclude()
    ensures { ConnectionFactsConclude }
{}

/// After each act a connection was made in this entry only of a session that was not covered before it, and removed only of one that does
/// nothing more in it.
pub fn moves_are_kept()
    ensures { MovesAreKept }
{}

/// So it is once a step has begun.
pub fn moves_begin()
    ensures { MovesBegin }
{}

/// At each moment of a step a session that is covered has its connection, which ends in time, was not made anew, and is removed only where
/// nothing is held and no write is unanswered.
pub fn watchdog_is_lawful()
    ensures { WatchdogIsLawful }
{}

/// After each act a joining that runs has read a record of its own id first, and the same ever since, but for what was just heard.
pub fn watch_facts_are_kept()
    ensures { WatchFactsAreKept }
{}

/// So it is once a step has begun.
pub fn watch_facts_begin()
    ensures { WatchFactsBegin }
{}

/// Before the first entry, too: no joining has read anything yet.
pub fn nothing_was_read()
    ensures { NothingWasRead }
{}

/// Where all that an answer makes due is done, that is true of what was heard too.
pub fn watch_facts_conclude()
    ensures { WatchFactsConclude }
{}

/// A renewal that is due is lawful where it is written.
pub fn renewals_are_lawful()
    ensures { RenewalsAreLawful }
{}

/// So is the free of a leaving.
pub fn frees_are_lawful()
    ensures { FreesAreLawful }
{}

/// So is the look at all ids after a renewal.
pub fn renewed_surveys_are_lawful()
    ensures { RenewedSurveysAreLawful }
{}

/// The look at all ids with which a session joins is lawful.
pub fn joined_surveys_are_lawful()
    ensures { JoinedSurveysAreLawful }
{}

/// A first read is lawful: nobody of the name is present.
pub fn looks_are_lawful()
    ensures { LooksAreLawful }
{}

/// A further read of a watch is lawful: the first found a record, and the same has stood since.
pub fn watches_are_lawful()
    ensures { WatchesAreLawful }
{}

/// A deciding read after a free record is lawful.
pub fn free_is_decided()
    ensures { FreeIsDecided }
{}

/// So is one after a record that was watched for long enough.
pub fn watched_is_decided()
    ensures { WatchedIsDecided }
{}

/// A claim is lawful: it is one above what was read twice.
pub fn claims_are_lawful()
    ensures { ClaimsAreLawful }
{}

/// A verify read is lawful: the claim was answered long enough ago, and not too long.
pub fn verifies_are_lawful()
    ensures { VerifiesAreLawful }
{}

/// A first renewal is lawful: the claim was read back.
pub fn first_renewals_are_lawful()
    ensures { FirstRenewalsAreLawful }
{}

/// After each act every session that a job began and that has joined did so by the answer of its first renewal.
pub fn joins_are_lawful()
    ensures { JoinsAreLawful }
{}

/// So it is once a step has begun.
pub fn joins_begin()
    ensures { JoinsBegin }
{}

/// After each act each call of the entry so far keeps the law of delta sectors, as the trace stood where it was made.
pub fn calls_are_kept()
    ensures { CallsAreKept }
{}

/// So it is once a step has begun.
pub fn calls_begin()
    ensures { CallsBegin }
{}
