//! What is known of a session stays known.

ghost use Rattle.sl_run_law.specs.Sessions.SessionLaws.{AnswersStay, CallsAreMade, CallsWereLawful, EndedAreSilent, FreedAreSilent, FrontAnswersStay, JoiningsAreInTurn, JoiningsAreOrdered, MarksStay, NamesAreApart, SeeingSetsBack, SessionsStay, WritersStay, WritesAreCovered};

/// Joined, refused, removed, ended: each stays as it was first found.
pub fn marks_stay()
    ensures { MarksStay }
{}

/// Each call was made by an entry.
pub fn calls_are_made()
    ensures { CallsAreMade }
{}

/// An answered call never changes: whatever comes later, it has this answer.
pub fn answers_stay()
    ensures { AnswersStay }
{}

/// A session that has ended submits nothing more.
pub fn ended_are_silent()
    ensures { EndedAreSilent }
{}

/// A session keeps its number among its daemon's sessions.
pub fn sessions_stay()
    ensures { SessionsStay }
{}

/// Each call of a session kept the laws of delta sectors where it was made.
pub fn calls_were_lawful()
    ensures { CallsWereLawful }
{}

/// In a joining one call comes after another's answer.
pub fn joinings_are_in_turn()
    ensures { JoiningsAreInTurn }
{}

/// While a write is unanswered its session's connection stands.
pub fn writes_are_covered()
    ensures { WritesAreCovered }
{}

/// What was answered when a call was made stays answered so.
pub fn front_answers_stay()
    ensures { FrontAnswersStay }
{}

/// The calls of a joining come in its order.
pub fn joinings_are_ordered()
    ensures { JoiningsAreOrdered }
{}

/// After its free a session submits nothing more.
pub fn freed_are_silent()
    ensures { FreedAreSilent }
{}

/// A request that a joining sees sets it back.
pub fn seeing_sets_back()
    ensures { SeeingSetsBack }
{}

/// A session is not removed while a write of it is unanswered.
pub fn writers_stay()
    ensures { WritersStay }
{}

/// One session of a lockspace's name comes after another.
pub fn names_are_apart()
    ensures { NamesAreApart }
{}
