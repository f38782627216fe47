//! The decisions of a quiet acquire, one after another.

ghost use Rattle.sl_headline.specs.Quiet.Course.CourseOfCalls.{CourseDecisions};
ghost use Rattle.sl_headline.specs.Quiet.Course.QuietDecisions.{QuietDecisions};

/// Each answer leads to the next call, and the last to the grant.
pub fn quiet_decisions()
    ensures { QuietDecisions }
{}

/// What is known at each of them follows from the lease's calls.
pub fn course_decisions()
    ensures { CourseDecisions }
{}
