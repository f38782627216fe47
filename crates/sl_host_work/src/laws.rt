//! What a lease, and the holder of an id's sector, may do next; how many effects a pass makes at most.

ghost use Rattle.sl_host_work.specs.NextDecisions.{DeltasArePlain, LeasesAreOfHeld};
ghost use Rattle.sl_host_work.specs.FewHolders.{HoldersAreFew};

/// A holding that becomes shared is the exclusive one, and no lease answers a joining.
#[tactic(auto, using(crate::proofs::NextLaws::leases_are_of_held))]
pub fn leases_are_of_held()
    ensures { LeasesAreOfHeld }
{}

/// No joining is refused, and no leaving ends, by a reply that a joining is done.
#[tactic(auto, using(crate::proofs::PlainLaws::deltas_are_plain))]
pub fn deltas_are_plain()
    ensures { DeltasArePlain }
{}

/// Members whose numbers are apart have no more holders together than there are holdings.
#[tactic(auto, using(crate::proofs::HoldersFew::holders_are_few))]
pub fn holders_are_few()
    ensures { HoldersAreFew }
{}
