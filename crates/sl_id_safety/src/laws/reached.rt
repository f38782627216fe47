//! What a lawful run makes of an id, from its start on.

ghost use Rattle.sl_id_safety.specs.Reached.IdsAreReached.{IdsAreReached, IdsGoOn};

/// From front to front it goes on by its steps.
pub fn ids_go_on()
    ensures { IdsGoOn }
{}

/// So the state of each id, after every event, is one that the steps of an id reach.
pub fn ids_are_reached()
    ensures { IdsAreReached }
{}
