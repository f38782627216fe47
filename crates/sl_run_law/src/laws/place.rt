//! What a lawful run promises of its areas.

ghost use Rattle.sl_run_law.specs.Place.Homes.{LockspacesHoldDeltas, NothingLandsElsewhere, ResourcesHoldLeases};

/// In a lockspace's area only delta records of its ids land.
pub fn lockspaces_hold_deltas()
    ensures { LockspacesHoldDeltas }
{}

/// In a resource's area only its own records land.
pub fn resources_hold_leases()
    ensures { ResourcesHoldLeases }
{}

/// Outside the header's areas nothing lands: there the disks stay as they were.
pub fn nothing_lands_elsewhere()
    ensures { NothingLandsElsewhere }
{}
