//! What a step asks of sessions, leases and jobs is answered by what a host keeps of them.

ghost use Rattle.sl_host_law.specs.Questions.Answers.{AnswersAreTheirs, AnswersDecide};
ghost use Rattle.sl_host_law.specs.Questions.Jobs.{JobsAnswer, WorkGoesOn};
ghost use Rattle.sl_host_law.specs.Questions.Members.{MembersAnswer};
ghost use Rattle.sl_host_law.specs.Questions.PartQuestions.{HostsPart, MembersPart, RefusalsAreTold};

/// What a step asks of a session is answered by its member.
pub fn members_answer()
    ensures { MembersAnswer }
{}

/// What a step asks of jobs is answered by those that are kept.
pub fn jobs_answer()
    ensures { JobsAnswer }
{}

/// Whether the work of a member's call goes on is told by what is kept.
pub fn work_goes_on()
    ensures { WorkGoesOn }
{}

/// The answer to a call is that of the member that made it.
pub fn answers_are_theirs()
    ensures { AnswersAreTheirs }
{}

/// What an answer makes due is told by what is kept.
pub fn answers_decide()
    ensures { AnswersDecide }
{}

/// What a step does to a session before its input is told by its member.
pub fn members_part()
    ensures { MembersPart }
{}

/// Passes over holdings, jobs and connections are told by what is kept.
pub fn hosts_part()
    ensures { HostsPart }
{}

/// Whether the connection of a refused joining goes is told by what is kept.
pub fn refusals_are_told()
    ensures { RefusalsAreTold }
{}
