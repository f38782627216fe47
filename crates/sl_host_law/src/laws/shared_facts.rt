//! What the laws of a host share: plain facts of lists; who the sessions and jobs of a trace are, by their numbers; and that the members
//! of a host are sessions of its trace, each with a number of its own.

ghost use Rattle.sl_host_law.specs.SharedFacts.MembersAreSessions.{MembersAreSessions, NumbersAreApart};

/// A member is a session of the trace, and is present.
pub fn members_are_sessions()
    ensures { MembersAreSessions }
{}

/// A number names at most one member.
pub fn numbers_are_apart()
    ensures { NumbersAreApart }
{}
