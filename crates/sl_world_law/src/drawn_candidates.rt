//! What a generator asks of a world.

ghost use Rattle.sl_world_law.specs.DrawnCandidates.{DrawsAreKept, QuestionsStand};

/// What is asked of machines and calls.
pub fn questions_stand()
    ensures { QuestionsStand }
{}

/// The event that a generator draws is told by what is kept of the world.
pub fn draws_are_kept()
    ensures { DrawsAreKept }
{}
