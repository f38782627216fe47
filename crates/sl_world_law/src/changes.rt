//! What an event changes before a daemon takes its step.

ghost use Rattle.sl_world_law.specs.Changes.{LivesAreKept, TimesAreKept};
ghost use Rattle.sl_world_law.specs.Flights.{FlightsAreKept};

/// Time that passes, tests of the watchdog daemon, and machines that come up.
pub fn times_are_kept()
    ensures { TimesAreKept }
{}

/// Daemons that begin and end, and machines that go down.
pub fn lives_are_kept()
    ensures { LivesAreKept }
{}

/// Reads that sample, writes that take effect or never will, and calls that are done.
pub fn flights_are_kept()
    ensures { FlightsAreKept }
{}
