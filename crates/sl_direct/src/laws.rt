//! What is left of an area and told of it, without the steps: laws of the definitions that `run_direct` cites.
ghost use Rattle.sl_direct.specs.Laws.{InitialisedIsFound, LeaderIsLast, LeaderIsTold, LockspaceStands, ResourceStands, UpgradeIsTold};

/// In a lockspace that was initialised the sector of each id spells a record that was never claimed.
pub fn lockspace_stands()
    ensures { LockspaceStands }
{}

/// In a resource that was initialised the sectors spell a leader that was never held, a cleared request, blocks without a ballot and an
/// empty value.
pub fn resource_stands()
    ensures { ResourceStands }
{}

/// An initialising of a resource that broke off left the leader's sector as it was, unless it was the leader's own write that failed.
pub fn leader_is_last()
    ensures { LeaderIsLast }
{}

/// A look at a leader is done only where the sector spells the resource's leader, and is `NotTheLeader` only where it doesn't.
pub fn leader_is_told()
    ensures { LeaderIsTold }
{}

/// What was initialised is found.
pub fn initialised_is_found()
    ensures { InitialisedIsFound }
{}

/// An upgrade is done only where the area can be upgraded, and is `NotTheLeader` or `TornBlock` only where it can't.
pub fn upgrade_is_told()
    ensures { UpgradeIsTold }
{}
