//! The world at moment 0; and what is lawful has been lawful all along.

ghost use Rattle.sl_run.specs.RunLaws.{NothingIsHeldAtFirst, NothingIsARun};
ghost use Rattle.sl_run.specs.LawLaws.{FrontsAreOrderly, FrontsAreLawful, FrontsAreCaused};

/// Nothing is held at moment 0, so no two holdings conflict.
pub fn nothing_is_held_at_first()
    ensures { NothingIsHeldAtFirst }
{}

/// The run of no event is a run.
pub fn nothing_is_a_run()
    ensures { NothingIsARun }
{}

/// Each front of an orderly trace is orderly.
pub fn fronts_are_orderly()
    ensures { FrontsAreOrderly }
{}

/// Each front of a lawful trace is lawful.
pub fn fronts_are_lawful()
    ensures { FrontsAreLawful }
{}

/// Each front of a trace whose replies have their causes is one.
pub fn fronts_are_caused()
    ensures { FrontsAreCaused }
{}
