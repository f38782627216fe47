//! Parts of a step as functions of what a host keeps: who is signalled, which jobs are refused, which holdings end, each in the order in
//! which it is due.

ghost use Rattle.sl_host_law.specs.StepParts.Ends.{EndsAreTaken};
ghost use Rattle.sl_host_law.specs.StepParts.Exits.{ExitsAreTaken};
ghost use Rattle.sl_host_law.specs.StepParts.ExpectedIsOpen.{ExpectedIsOpen};
ghost use Rattle.sl_host_law.specs.StepParts.Lines.{LinesAreTaken};
ghost use Rattle.sl_host_law.specs.StepParts.Recoveries.{GoneDoNothing, RecoveriesAreTaken};
ghost use Rattle.sl_host_law.specs.StepParts.Refusals.{RefusalsAreTaken};
ghost use Rattle.sl_host_law.specs.StepParts.EarlierIsQuiet.{EarlierIsQuiet};
ghost use Rattle.sl_host_law.specs.StepParts.Signals.{SignalsAreTaken};
ghost use Rattle.sl_host_law.specs.StepParts.Spawns.{SpawnsAreTaken};
ghost use Rattle.sl_host_law.specs.StepParts.Wakes.{MembersWake};

/// A process is told to stop, or sent a signal, and so is each holder of a member.
pub fn signals_are_taken()
    ensures { SignalsAreTaken }
{}

/// Jobs are refused one after another, by number, and the host stands for the step in which they are.
pub fn refusals_are_taken()
    ensures { RefusalsAreTaken }
{}

/// What a process held ends or is left, and its jobs are refused.
pub fn exits_are_taken()
    ensures { ExitsAreTaken }
{}

/// What a wake and a step's end make due is told by what is kept of a member.
pub fn members_wake()
    ensures { MembersWake }
{}

/// Renewals on a wake, and what comes last of a member, are taken.
pub fn ends_are_taken()
    ensures { EndsAreTaken }
{}

/// Recoveries and kills before the input are taken.
pub fn recoveries_are_taken()
    ensures { RecoveriesAreTaken }
{}

/// A session that is gone does nothing in any pass.
pub fn gone_do_nothing()
    ensures { GoneDoNothing }
{}

/// A command line is taken as a whole.
pub fn lines_are_taken()
    ensures { LinesAreTaken }
{}

/// The answer of a child's start is taken as a whole.
pub fn spawns_are_taken()
    ensures { SpawnsAreTaken }
{}

/// An answer that may come is one of an open call.
pub fn expected_is_open()
    ensures { ExpectedIsOpen }
{}

/// A host stands however early it looks again for what is due by time.
pub fn earlier_is_quiet()
    ensures { EarlierIsQuiet }
{}
