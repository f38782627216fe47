//! The replies of a daemon that does what is due: each is of a running job, one for a job, and has its cause, in each trace of a daemon that
//! does what is due.
//!
//! Each act gives its replies with their causes and keeps them to the entry's end, but for what a line is answered at once, refused as in
//! recovery or by the limit of turns, granted, or answered as done: that has its cause in the entry that is due, by what the step had done
//! before its input.
//! What is answered later than it was asked rests on what stands behind it: a first look that spelled a record, a read that let a request
//! pass, a value that the line brought, an end in the line's entry, what a child to be started holds. That stands in each such trace.

ghost use Rattle.sl_due_law.specs.Causes.CausedSoFar.{is_explained};
ghost use Rattle.sl_due_law.specs.Causes.LineCauses.{AnswersAreCaused, AtOnceAreCaused, DecisionsOverlook, DoneAtLines, GrantedAtLines, HeadsAreEarly, LastIsSilent, LimitedAtLines, LinesAreCaused, LinesAreWell, RefusedAtLines, StoppedAreCaused};
ghost use Rattle.sl_due_law.specs.Causes.CauseLaws.{CausesAreKept, CausesBegin, CausesStand, LeavingsAreCaused, RepliesRun, RepliesRunBegin, TracesAreCaused};

/// Each act gives its replies with their causes, but for those of its line, and leaves those before it.
pub fn causes_are_kept()
    ensures { CausesAreKept is_explained }
{}

/// So it is once a step has begun.
pub fn causes_begin()
    ensures { CausesBegin is_explained }
{}

/// Each reply is of a running job, no two of a step are of one job.
pub fn replies_run()
    ensures { RepliesRun }
{}

/// So it is once a step has begun.
pub fn replies_run_begin()
    ensures { RepliesRunBegin }
{}

/// What a command is answered at once has its cause, where it was decided on what stood before the entry's input.
pub fn lines_are_caused()
    ensures { LinesAreCaused }
{}

/// That a leaving is done has its cause where its free was answered ok.
pub fn leavings_are_caused()
    ensures { LeavingsAreCaused }
{}

/// What a command comes to is the same without the moves and signals that a step made before its input, where no joined session's connection
/// was removed.
pub fn decisions_overlook()
    ensures { DecisionsOverlook }
{}

/// So what a line is answered at once has its cause in the entry that ends the step, where that entry has of before its input just what the
/// step had (so unless the line itself is refused as in recovery).
pub fn answers_are_caused()
    ensures { AnswersAreCaused }
{}

/// A line that is refused as in recovery is so with its cause.
pub fn stopped_are_caused()
    ensures { StoppedAreCaused }
{}

/// Before its input a step has called, granted and ended nothing, started kill programs alone, refused jobs by recoveries and by time alone, and
/// removed no joined session's connection.
pub fn heads_are_early()
    ensures { HeadsAreEarly }
{}

/// What comes last in a step starts nothing, answers nobody, and grants and ends nothing.
pub fn last_is_silent()
    ensures { LastIsSilent }
{}

/// What a command is answered at once has its cause in the entry that is due.
pub fn lines_are_well()
    ensures { LinesAreWell }
{}

/// Each reply that an entry that is due gives at once to its own line has its cause.
pub fn at_once_are_caused()
    ensures { AtOnceAreCaused }
{}

/// Whom the step of a line refuses as in recovery is so with its cause, also the others of a session that leaves by the line.
pub fn refused_at_lines()
    ensures { RefusedAtLines }
{}

/// What a line is granted, beside a holding or by taking one over, is granted with its cause.
pub fn granted_at_lines()
    ensures { GrantedAtLines }
{}

/// What a line is answered where the turn of its block would pass its limit is so with its cause.
pub fn limited_at_lines()
    ensures { LimitedAtLines }
{}

/// What a line is answered as done is so with its cause: a kill program is set, or a holding was given up beside others of the lease.
pub fn done_at_lines()
    ensures { DoneAtLines }
{}

/// What the causes of later replies stand on holds of each trace of steps that are due.
pub fn causes_stand()
    ensures { CausesStand }
{}

/// Each reply of each entry that is due has its cause.
pub fn traces_are_caused()
    ensures { TracesAreCaused }
{}
