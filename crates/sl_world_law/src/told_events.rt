//! What is told of an event, by what is kept before it.

ghost use Rattle.sl_world_law.specs.ToldEvents.{AsksAreKept, ConflictsAreCounted, ConflictsOfParts, OneMoreConflict, TellingIsKept, UsesAreKept};

/// What is told of a step, of a test and of conflicts is told by what is kept of the world.
pub fn telling_is_kept()
    ensures { TellingIsKept }
{}

/// All that is held, and what lingers.
pub fn uses_are_kept()
    ensures { UsesAreKept }
{}

/// Which machine has an ask that is due.
pub fn asks_are_kept()
    ensures { AsksAreKept }
{}

/// A use more is one test more.
pub fn one_more_conflict()
    ensures { OneMoreConflict }
{}

/// So a step's conflicts are counted grant by grant, by what is kept.
pub fn conflicts_are_counted()
    ensures { ConflictsAreCounted }
{}

/// Conflicts among uses are the same in whatever order the uses stand.
pub fn conflicts_of_parts()
    ensures { ConflictsOfParts }
{}
