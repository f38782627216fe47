//! How the events of a lawful run are steps of an id.

ghost use Rattle.sl_id_safety.specs.Steps.EventParts.{BetweenIsBounded, EndingsGoOn, EntriesGoOn, LandingsGoOn, OwnStepsGoOn, QuietChangesGoOn, SamplingsGoOn};

/// The bounds hold between an event's first change and its step.
pub fn between_is_bounded()
    ensures { BetweenIsBounded }
{}

/// Where an event changes nothing of an id but the moment, and with it which sessions are over, the id goes on by its steps.
pub fn quiet_changes_go_on()
    ensures { QuietChangesGoOn }
{}

/// Where a write lands, is torn or is dropped the id goes on by its steps.
pub fn landings_go_on()
    ensures { LandingsGoOn }
{}

/// Where a read is sampled the id goes on by its steps.
pub fn samplings_go_on()
    ensures { SamplingsGoOn }
{}

/// Where a daemon or its machine ends the id goes on by its steps.
pub fn endings_go_on()
    ensures { EndingsGoOn }
{}

/// Where no daemon takes the event, in what the machine does by itself, the id goes on by its steps.
pub fn own_steps_go_on()
    ensures { OwnStepsGoOn }
{}

/// Over an entry of a daemon the id goes on by its steps.
pub fn entries_go_on()
    ensures { EntriesGoOn }
{}
