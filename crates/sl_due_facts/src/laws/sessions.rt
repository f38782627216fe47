//! What is known of sessions holds at each moment of a step of a daemon that does what is due.
//!
//! A session is present until it ends, or until the last write of its refused joining is answered; no act but a first read makes one
//! present (`Sessions::NameEffects`), and no call is made by a session that was refused (`Sessions::NamesAreAllowed`), so names stay apart. A
//! joining that runs has had no call refused; after each answer it makes a call or waits for a wake: what it decides on and what it verifies
//! was read and claimed before, by the laws of its calls (`Sessions::JoiningsGoOn`).
//!
//! The free of a session is written once: where nothing it has called is unanswered, nothing is held in it and its leaving runs; no act calls
//! for it from then on, and no grant is made in it (`Sessions::DeltaFactsHold`). What a joined session writes next to its delta record is what
//! it wrote last and one more, and that is a number as long as it is a session (`Sessions::JoinedNumbers`).

ghost use Rattle.sl_due_facts.specs.Sessions.SessionLaws.{DeltaFactsAreKept, DeltaFactsBegin, NameFactsAreKept, NameFactsBegin, NameFactsConclude};

/// No two sessions that are present have one name, and a joining that runs goes on, after each act.
pub fn name_facts_are_kept()
    ensures { NameFactsAreKept }
{}

/// So it is once a step has begun.
pub fn name_facts_begin()
    ensures { NameFactsBegin }
{}

/// Where all that an answer makes due is done, no joining waits for it.
pub fn name_facts_conclude()
    ensures { NameFactsConclude }
{}

/// After each act a session that wrote its free is left and holds nothing, makes no further call, and its free was its last call; and the
/// generation and seq of a joined session are numbers.
pub fn delta_facts_are_kept()
    ensures { DeltaFactsAreKept }
{}

/// So it is once a step has begun.
pub fn delta_facts_begin()
    ensures { DeltaFactsBegin }
{}
