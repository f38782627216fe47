//! Worlds in which time may stand still.

ghost use Rattle.sl_generate.specs.TimelyWorlds.{EventsStayTimely, FirstWorldsAreTimely, TimeMayStandStill};

/// The world of a header is timely.
pub fn first_worlds_are_timely()
    ensures { FirstWorldsAreTimely }
{}

/// Each event that may happen leaves a world timely.
pub fn events_stay_timely()
    ensures { EventsStayTimely }
{}

/// So in each world that a run comes to, a time of 0 may pass.
pub fn time_may_stand_still()
    ensures { TimeMayStandStill }
{}
