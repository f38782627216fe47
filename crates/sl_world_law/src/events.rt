//! All of an event.

ghost use Rattle.sl_world_law.specs.Events.{EventsAreKept};

/// An event that may happen leaves what is kept as it leaves the world.
#[tactic(auto, using(crate::proofs::WholeEvents::events_are_kept))]
pub fn events_are_kept()
    ensures { EventsAreKept }
{}
