//! What a lawful run promises of landings.

ghost use Rattle.sl_run_law.specs.Landing.Landings.{DoneWritesHaveLanded, LandedWritesAreThere, LandingsAreSectors, LandingsComeInOrder, WritesLandOnce};

/// Landings stand in the order of their steps, the newest first.
pub fn landings_come_in_order()
    ensures { LandingsComeInOrder }
{}

/// A write lands once at most, whole or torn.
pub fn writes_land_once()
    ensures { WritesLandOnce }
{}

/// A write that has landed has its landing.
pub fn landed_writes_are_there()
    ensures { LandedWritesAreThere }
{}

/// A write that was answered ok has landed.
pub fn done_writes_have_landed()
    ensures { DoneWritesHaveLanded }
{}

/// What lands are whole sectors, at whole sectors of its disk.
pub fn landings_are_sectors()
    ensures { LandingsAreSectors }
{}
