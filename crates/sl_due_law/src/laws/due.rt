//! What is due is lawful, of every daemon: whatever lines and answers come, in every setting that a daemon may be made of, each trace of steps
//! that are due keeps all laws, each reply in it has its cause, and no job is idle at the end of an entry.
//!
//! Nothing is asked of the trace besides. So whoever shows that a program's daemon does what is due has all three.

ghost use Rattle.sl_report.specs.Host.{DueIsLawful};

/// A daemon that does what is due is lawful, its replies have their causes, and none of its jobs is idle.
pub fn due_is_lawful()
    ensures { DueIsLawful }
{}
