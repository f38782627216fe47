//! What a lawful run promises of calls and daemons.

ghost use Rattle.sl_run_law.specs.Course.CourseLaws.{CallsAreDistinct, CoursesAreCalls, CoursesHaveDaemons, DaemonsAreOfWorld, EntriesAreStamped, MachinesMirror};

/// Each entry of a daemon has its stamp.
pub fn entries_are_stamped()
    ensures { EntriesAreStamped }
{}

/// A machine's calls of a daemon are those of its trace.
pub fn courses_are_calls()
    ensures { CoursesAreCalls }
{}

/// Each call of a machine is one of a daemon of it.
pub fn courses_have_daemons()
    ensures { CoursesHaveDaemons }
{}

/// Numbers of a machine's calls are different.
pub fn calls_are_distinct()
    ensures { CallsAreDistinct }
{}

/// A machine keeps of its daemons what it should.
pub fn machines_mirror()
    ensures { MachinesMirror }
{}

/// Each daemon is made of the header's times and layout.
pub fn daemons_are_of_world()
    ensures { DaemonsAreOfWorld }
{}
