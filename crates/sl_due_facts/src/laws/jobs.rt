//! What is known of calls and of jobs, and of jobs under a session in recovery or leaving, holds at each moment of a step of a daemon that
//! does what is due.
//!
//! A job's number is that of its line, and a session or a leaving that a line began has its job (`Jobs::SessionsHaveJobs`). An effect is
//! allowed where its job is one that a line has brought and, if it is a call, it fits the job's command and is the job's only one
//! (`Jobs::JobsAreAllowed`); whatever is carried out of allowed effects keeps the facts (`Jobs::EffectsAreAllowed`). So what is left is
//! what each act allows: of an answer, since its call was the job's only one and is answered now; of a line, since its job is new; of a
//! joining on a wake, since its calls come in turn; of a leaving's free, since no call of its session is unanswered.

ghost use Rattle.sl_due_facts.specs.Jobs.JobLaws.{CallFactsAreKept, CallFactsBegin, EntriesBegin, EntriesFollow, JobFactsAreKept, JobFactsBegin, QuietFactsAreKept, QuietFactsBegin, QuietFactsConclude};

/// The entry so far follows the trace before it, after each act.
pub fn entries_follow()
    ensures { EntriesFollow }
{}

/// So it does once a step has begun.
pub fn entries_begin()
    ensures { EntriesBegin }
{}

/// A call's number finds it, and its answer fits it, after each act.
pub fn call_facts_are_kept()
    ensures { CallFactsAreKept }
{}

/// So it is once a step has begun.
pub fn call_facts_begin()
    ensures { CallFactsBegin }
{}

/// A call fits its job's command, and is the job's only one without an answer, after each act.
pub fn job_facts_are_kept()
    ensures { JobFactsAreKept }
{}

/// So it is once a step has begun.
pub fn job_facts_begin()
    ensures { JobFactsBegin }
{}

/// No job goes on under a session in recovery or leaving, after each act, but under one whose recovery began by the read that was heard.
pub fn quiet_facts_are_kept()
    ensures { QuietFactsAreKept }
{}

/// None does once a step has begun.
pub fn quiet_facts_begin()
    ensures { QuietFactsBegin }
{}

/// None does where all that an answer makes due is done.
pub fn quiet_facts_conclude()
    ensures { QuietFactsConclude }
{}
