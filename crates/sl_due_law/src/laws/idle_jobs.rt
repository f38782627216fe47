//! No job is left idle.

ghost use Rattle.sl_due_law.specs.LawfulTraces.TraceLaws.{NoneIsIdle};

/// No job is idle at the end of an entry: each has a call or a start of its own unanswered, waits in a joining, or is a leaving.
pub fn none_is_idle()
    ensures { NoneIsIdle }
{}
