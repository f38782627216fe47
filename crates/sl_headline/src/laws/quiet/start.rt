//! Where a quiet acquire begins.

ghost use Rattle.sl_headline.specs.Quiet.Start.CourseStarts.{LinesFindQuiet, StartIsLow, StartsAreOfLines, StartsBeginCourses, StartsReadTheArea};

/// What stands before the acquire's line, the line finds.
pub fn lines_find_quiet()
    ensures { LinesFindQuiet }
{}

/// So a quiet start makes the read of the area due.
pub fn starts_read_the_area()
    ensures { StartsReadTheArea }
{}

/// The area of a quiet start is of a resource of the header, for a leader stands there.
pub fn starts_are_of_lines()
    ensures { StartsAreOfLines }
{}

/// Where the own block and the frees of before are of no later instance than the next, the event that brings the line begins the course.
pub fn starts_begin_courses()
    ensures { StartsBeginCourses }
{}

/// The session's blocks and frees of before a quiet start are of no later instance than the next, and nothing is accepted in that one.
pub fn start_is_low()
    ensures { StartIsLow }
{}
