//! Why an event may not happen.

ghost use Rattle.sl_world_law.specs.Refusals.{RefusalsAreKept};

/// The first refusal that fits is the same, whatever the event.
pub fn refusals_are_kept()
    ensures { RefusalsAreKept }
{}
