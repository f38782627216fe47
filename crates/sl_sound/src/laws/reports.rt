//! What is promised of the run in which each daemon does what is due.

ghost use Rattle.sl_sound.specs.Reports.EventsAskFew.{AsksEnd, EventsAskFew};
ghost use Rattle.sl_sound.specs.Reports.ReportLaws.{AcceptedSchedulesEndWell, OwedIsHeadline, ReportsAreRuns, RunsHaveOneReport};

/// Few asks of lvmlockd follow one event, so a report's lines come to an end.
pub fn events_ask_few()
    ensures { EventsAskFew }
{}

/// Each ask leaves fewer, and then none is due.
pub fn asks_end()
    ensures { AsksEnd }
{}

/// The plain program follows a schedule and reports the run.
pub fn reports_are_runs()
    ensures { ReportsAreRuns }
{}

/// A schedule that is read and allowed to its end has status 0, and no other has.
pub fn accepted_schedules_end_well()
    ensures { AcceptedSchedulesEndWell }
{}

/// All reports of sound runs of one source are one report, with one status.
pub fn runs_have_one_report()
    ensures { RunsHaveOneReport }
{}

/// What is owed of sound runs is a front of the plain program's report, or all of it.
pub fn owed_is_headline()
    ensures { OwedIsHeadline }
{}
