//! What is carried along a quiet acquire.
//!
//! The acquire is at a call of its course (`OnCourse`): what its daemon has, and what its area holds. A quiet event leaves it there, or answers
//! the call; the answer shows what the lease needs, so the next call is made, or, after the last, the grant. So along quiet events the acquire
//! stays on its course until it is granted.

ghost use Rattle.sl_headline.specs.Quiet.Events.CarriedStages.{AreasShowOwn, OthersKeepCourse};
ghost use Rattle.sl_headline.specs.Quiet.Events.AnswersShow.{AnswersShow, CourseComesOn, CourseIsGranted, CourseIsQuiet, GrantsStay};
ghost use Rattle.sl_headline.specs.Quiet.Events.DaemonsRunOn.{DaemonsRunOn};
ghost use Rattle.sl_headline.specs.Quiet.Events.AreaGoesOn.{AreaGoesOn, CourseGoesOn, LandingsGoOn};
ghost use Rattle.sl_headline.specs.Quiet.Events.CourseLeads.{CourseDecides, CourseEnds, CourseLeads};
ghost use Rattle.sl_headline.specs.Quiet.Events.LeadsToGrants.{CoursesLeadToGrants};

/// The blocks that stand there are whole, the own one among them, and others of earlier instances.
pub fn areas_show_own()
    ensures { AreasShowOwn }
{}

/// A daemon that neither crashes nor is reset runs on, with one more entry where an event gives it an input.
pub fn daemons_run_on()
    ensures { DaemonsRunOn }
{}

/// An entry that doesn't concern the acquire's call leaves the daemon on its course: it makes no other call of the lease, and answers nothing.
pub fn others_keep_course()
    ensures { OthersKeepCourse }
{}

/// An event lands nothing, or one write that was in flight.
pub fn landings_go_on()
    ensures { LandingsGoOn }
{}

/// An event that disturbs nothing leaves the area: what stands there, and that only the acquire's call may land.
pub fn area_goes_on()
    ensures { AreaGoesOn }
{}

/// A quiet event leaves the acquire at its call, or answers it.
pub fn course_goes_on()
    ensures { CourseGoesOn }
{}

/// Where the lease decides for the call of the next stage, the daemon goes on to it.
pub fn course_leads()
    ensures { CourseLeads }
{}

/// Where it decides for the grant, the job is answered by it, and makes no other call.
pub fn course_ends()
    ensures { CourseEnds }
{}

/// By what an answer shows the lease decides for the next stage, and after the last for the grant.
pub fn course_decides()
    ensures { CourseDecides }
{}

/// A quiet event's answer is ok and in time, and shows what the lease needs.
pub fn answers_show()
    ensures { AnswersShow }
{}

/// After the last stage it grants the acquire, by so many calls as it needs.
pub fn course_is_granted()
    ensures { CourseIsGranted }
{}

/// The grant stays: the reply is given once, and a job that has its reply makes no other call.
pub fn grants_stay()
    ensures { GrantsStay }
{}

/// While the acquire is at a call it waits for an answer, without a reply; granted it has what is promised.
pub fn course_is_quiet()
    ensures { CourseIsQuiet }
{}

/// Before the last stage the answer leads to the next: its call is made, and the area holds what it needs.
pub fn course_comes_on()
    ensures { CourseComesOn }
{}

/// Along quiet events an acquire on its course stays on it until it is granted.
pub fn courses_lead_to_grants()
    ensures { CoursesLeadToGrants }
{}
