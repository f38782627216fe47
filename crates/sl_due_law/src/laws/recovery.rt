//! What recovery, leaving and parting do in a step of a daemon that does what is due.
//!
//! Where a recovery or a leaving begins its session's holders are told to stop and its jobs are refused; what was done so far is kept by each
//! act (`Recovery::StopsAreKept`), and where recovery begins by the read that an answer brings it is done when all is done that the answer makes
//! due (`Recovery::StopsConclude`). A joined session's connection is removed in recovery or at its free's answer alone (`Recovery::PartingsAreKept`).
//! What must be done, and is no act where nothing is due, is shown of the parts of a step themselves: that holders are killed once their
//! grace has passed, that a term follows a kill program which was not started, that a session with nothing left ends (`Recovery::Passes`).

ghost use Rattle.sl_due_law.specs.Recovery.RecoveryLaws.{AnswersAreHeard, DenialsAreKept, DenialsBegin, FreesConclude, KillFactsGoOn, PartingIsLawful, PartingsAreKept, PartingsBegin, RecoveryIsLawful, StopsAreKept, StopsBegin, StopsConclude};

/// Before the input and on a wake each act leaves no job answered ok.
pub fn denials_are_kept()
    ensures { DenialsAreKept }
{}

/// So it is once a step has begun.
pub fn denials_begin()
    ensures { DenialsBegin }
{}

/// Each act keeps that a session whose recovery or leaving begins in the step has been stopped, but by a read that was just heard.
pub fn stops_are_kept()
    ensures { StopsAreKept }
{}

/// So it is once a step has begun.
pub fn stops_begin()
    ensures { StopsBegin }
{}

/// So it is of each where all that an answer makes due is done.
pub fn stops_conclude()
    ensures { StopsConclude }
{}

/// When an answer is heard each session whose recovery begins by it is still joined.
pub fn answers_are_heard()
    ensures { AnswersAreHeard }
{}

/// Each act removes the connection of a joined session in recovery or at its free's answer alone.
pub fn partings_are_kept()
    ensures { PartingsAreKept }
{}

/// So it is once a step has begun: no connection was removed yet.
pub fn partings_begin()
    ensures { PartingsBegin }
{}

/// At its free's answer a session ends.
pub fn frees_conclude()
    ensures { FreesConclude }
{}

/// The law of parting follows from those of areas, delta sectors and the watchdog.
pub fn parting_is_lawful()
    ensures { PartingIsLawful }
{}

/// What is known of kills goes on to each entry's end.
pub fn kill_facts_go_on()
    ensures { KillFactsGoOn }
{}

/// By an entry's end is done what recovery and leaving ask.
pub fn recovery_is_lawful()
    ensures { RecoveryIsLawful }
{}
