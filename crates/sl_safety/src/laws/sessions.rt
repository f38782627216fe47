//! What the sessions of each resource's history promise.

ghost use Rattle.sl_safety.specs.Sessions.SessionsFollow.{SessionsFollow};
ghost use Rattle.sl_safety.specs.Sessions.SessionLaws.{HistoriesAreInOrder, HistoriesEndEarlier, HistoriesHaveTrueEvidence, HistoriesShowNewest, JoinedAreHosts, NamesAreApart};

/// Joined sessions of one lockspace have different names for ballots.
pub fn names_are_apart()
    ensures { NamesAreApart }
{}

/// Each of them has the id of a host.
pub fn joined_are_hosts()
    ensures { JoinedAreHosts }
{}

/// Where a session joins, all of its id that joined before are over.
pub fn histories_end_earlier()
    ensures { HistoriesEndEarlier }
{}

/// The sessions of a host follow one another on each resource.
pub fn sessions_follow()
    ensures { SessionsFollow }
{}

/// A read shows, of each host, what was answered ok before it was submitted, or what was submitted later.
pub fn histories_show_newest()
    ensures { HistoriesShowNewest }
{}

/// Only joined sessions act, one of an id joins at a step, and over is final, silent and settled.
pub fn histories_are_in_order()
    ensures { HistoriesAreInOrder }
{}

/// In the history of a resource evidence against a session means that it is over.
pub fn histories_have_true_evidence()
    ensures { HistoriesHaveTrueEvidence }
{}
