//! What is due is lawful: each trace of a daemon that does what is due keeps all laws.
//!
//! All that is known of a step in progress is kept by each act, each part where it is shown; here it is put together, and so is what holds
//! only where all that an answer makes due is done. By induction over the entries each trace of such steps is whole: lawful, with its facts.

ghost use Rattle.sl_due_facts.specs.Jobs.Acquires.{AcquiresKeepToTheirs};
ghost use Rattle.sl_due_law.specs.LawfulTraces.TraceLaws.{DueIsWellWith, FactsAtFirst, TracesAreLawful, TracesHold};

/// Before the first entry all facts hold.
pub fn facts_at_first()
    ensures { FactsAtFirst }
{}

/// Each trace of steps that are due is whole, with its kills sent.
pub fn traces_hold()
    ensures { TracesHold }
{}

/// So each trace of steps that are due is lawful.
pub fn traces_are_lawful()
    ensures { TracesAreLawful }
{}

/// An acquire's job keeps to its lease, starts no child, and has neither call nor reply before its line.
pub fn acquires_keep_to_theirs()
    ensures { AcquiresKeepToTheirs }
{}

/// And its replies have their causes where each entry's do.
pub fn due_is_well_with()
    ensures { DueIsWellWith }
{}
