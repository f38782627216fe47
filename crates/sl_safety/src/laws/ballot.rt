//! What a lawful run keeps of the ballots of each resource.

ghost use Rattle.sl_safety.specs.Ballot.Enders.{EndersAreJoined};
ghost use Rattle.sl_safety.specs.Ballot.Endings.{EndedBallotsEnd};
ghost use Rattle.sl_safety.specs.Ballot.LeadersFollowBallots.{LeadersFollowBallots};
ghost use Rattle.sl_safety.specs.Ballot.Reasons.{HistoriesKeepTheirBallots, InstancesHaveReasons};

/// A ballot that has ended in a session's trace has ended in the history.
pub fn ended_ballots_end()
    ensures { EndedBallotsEnd }
{}

/// Each leader is written by the session with which an own ballot of its instance ended before.
pub fn leaders_follow_ballots()
    ensures { LeadersFollowBallots }
{}

/// Only a joined session of a resource's lockspace ends a ballot on the resource's area.
pub fn enders_are_joined()
    ensures { EndersAreJoined }
{}

/// Each phase 1 has a reason to begin its instance.
pub fn instances_have_reasons()
    ensures { InstancesHaveReasons }
{}

/// Each write of a block is one of a ballot.
pub fn histories_keep_their_ballots()
    ensures { HistoriesKeepTheirBallots }
{}
