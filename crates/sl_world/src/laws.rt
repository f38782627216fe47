//! What is known of an event that has come to pass.

ghost use Rattle.sl_world.specs.ConflictsLeft.{CalmAfter, CalmBefore, ConflictsAreLeft};

/// The conflicts of an event are told by what is held after it and what lingers then.
pub fn conflicts_are_left()
    ensures { ConflictsAreLeft }
{}

/// Where no two uses conflict before an event, no two do that stand before its grants.
pub fn calm_before()
    ensures { CalmBefore }
{}

/// Whether no two conflict is known again behind them.
pub fn calm_after()
    ensures { CalmAfter }
{}
