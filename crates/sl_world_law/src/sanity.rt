//! Sane worlds, and what comes to daemons in them.

ghost use Rattle.sl_world_law.specs.SaneInputs.{InputsMayCome};
ghost use Rattle.sl_world_law.specs.SanityStays.{SanityStays};

/// What is known of a world is known after each event.
pub fn sanity_stays()
    ensures { SanityStays }
{}

/// What an event gives a daemon is something that may come to it.
pub fn inputs_may_come()
    ensures { InputsMayCome }
{}
