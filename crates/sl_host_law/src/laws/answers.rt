//! What is decided at an answer is done: the state that follows stands for the step with it.

ghost use Rattle.sl_host_law.specs.Answers.AnswersFollow.{AnswersFollow, AnswersSetFree};
ghost use Rattle.sl_host_law.specs.Answers.CarriedDecisions.{DecisionsAreCarried};
ghost use Rattle.sl_host_law.specs.Answers.Grants.{GrantsAreTaken};
ghost use Rattle.sl_host_law.specs.Answers.Joinings.{JoiningsFollow};
ghost use Rattle.sl_host_law.specs.Answers.LeaseAnswers.{LeaseAnswersFollow};
ghost use Rattle.sl_host_law.specs.Answers.LeasesGoOn.{LeasesGoOn, SettlingsMay};
ghost use Rattle.sl_host_law.specs.Answers.LeasesSetFree.{LeasesSetFree};
ghost use Rattle.sl_host_law.specs.Answers.LeaseDecisions.{LeasesAreCarried};
ghost use Rattle.sl_host_law.specs.Answers.PhaseTwo.{PhaseTwoFollows};
ghost use Rattle.sl_host_law.specs.Answers.RefusalsFollow.{RefusalsFollow};
ghost use Rattle.sl_host_law.specs.Answers.Requests.{RequestsFollow};
ghost use Rattle.sl_host_law.specs.Answers.Surveys.{SurveysFollow};
ghost use Rattle.sl_host_law.specs.Answers.WakingsFollow.{WakingsFollow};

/// A refused joining goes with its connection, and an overdue job is refused.
pub fn refusals_follow()
    ensures { RefusalsFollow }
{}

/// What a session's delta lease decided is done.
pub fn decisions_are_carried()
    ensures { DecisionsAreCarried }
{}

/// What a session's lease decided is done.
pub fn leases_are_carried()
    ensures { LeasesAreCarried }
{}

/// An answer sets free what waited for it.
pub fn answers_set_free()
    ensures { AnswersSetFree }
{}

/// The whole of an answer to a renewal and to a free is followed.
pub fn answers_follow()
    ensures { AnswersFollow }
{}

/// The whole of an answer to a call on a request or a value is followed.
pub fn requests_follow()
    ensures { RequestsFollow }
{}

/// The whole of an answer to a joining's call is followed.
pub fn joinings_follow()
    ensures { JoiningsFollow }
{}

/// The whole of an answer to a lease's call is followed.
pub fn lease_answers_follow()
    ensures { LeaseAnswersFollow }
{}

/// Lines that give or take a holding at once are taken.
pub fn grants_are_taken()
    ensures { GrantsAreTaken }
{}

/// The whole of an answer to a read of all ids is followed.
pub fn surveys_follow()
    ensures { SurveysFollow }
{}

/// An answered lease waits for nothing, so its work may go on.
pub fn leases_set_free()
    ensures { LeasesSetFree }
{}

/// The second phase of a ballot follows the read of the first.
pub fn phase_two_follows()
    ensures { PhaseTwoFollows }
{}

/// The whole of an answer to a lease's call, by what is kept.
pub fn leases_go_on()
    ensures { LeasesGoOn }
{}

/// What a wake makes due by time is followed.
pub fn wakings_follow()
    ensures { WakingsFollow }
{}

/// A settling on a free area may do what is owed.
pub fn settlings_may()
    ensures { SettlingsMay }
{}
