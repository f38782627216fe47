//! Fronts of lawful runs are lawful, and each event of a run has one step.

ghost use Rattle.sl_run_law.specs.Front.LawfulFronts.{EventsHaveOneStep, FrontsAreLawful};

/// Each front of a lawful run is a lawful run.
pub fn fronts_are_lawful()
    ensures { FrontsAreLawful }
{}

/// Each event of a run has one step, of a daemon or of the machine itself.
pub fn events_have_one_step()
    ensures { EventsHaveOneStep }
{}
