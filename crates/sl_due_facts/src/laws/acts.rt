//! What is shown of every daemon that does what is due.

ghost use Rattle.sl_due_facts.specs.Acts.DueDaemons.{DecisionsAreTheirs, DueIsSeen, HostsOwnTheirCalls};

/// A step at its end is the trace with the entry that is due.
pub fn due_is_seen()
    ensures { DueIsSeen }
{}

/// Each decision is of a session that is present, or of one that begins with it.
pub fn decisions_are_theirs()
    ensures { DecisionsAreTheirs }
{}

/// Each call is of a session of its daemon, by its number.
pub fn hosts_own_their_calls()
    ensures { HostsOwnTheirCalls }
{}
