//! What an event makes of what is kept, said directly.

ghost use Rattle.sl_world_law.specs.DirectChanges.{DoneDirectly, QuietEvents, ResetsAreQuiet};

/// Where nobody does anything, there is only what the event changes first.
pub fn quiet_events()
    ensures { QuietEvents }
{}

/// At a reset, too, where no daemon takes the event, there is only what it changes first.
pub fn resets_are_quiet()
    ensures { ResetsAreQuiet }
{}

/// A call that is done leaves its write, and goes.
pub fn done_directly()
    ensures { DoneDirectly }
{}
