//! How the laws go on through a step: what one more effect of an entry leaves of them.
//!
//! An effect changes what its own questions tell, and nothing else: a grant what is held, a reply which jobs run, a call its session's calls.
//! Laws are said of each call as the trace stood where it was made, with all effects of the entry but later calls. So an effect that comes
//! after a call is among what its laws are said of, and must leave them: moves and replies do, where they are another's. And one more call of
//! a joined session keeps all that was orderly so far.

ghost use Rattle.sl_due_facts.specs.AddedEffects.EffectLaws.{EffectsAreTold, JoinedCallsKeepOrder, MovesLeaveCalls, RepliesLeaveCalls};

/// What each question to a trace becomes by one more effect of its newest entry.
pub fn effects_are_told()
    ensures { EffectsAreTold }
{}

/// A move that comes after a call, and doesn't remove its session's connection, leaves the call lawful.
pub fn moves_leave_calls()
    ensures { MovesLeaveCalls }
{}

/// On a wake a reply that comes after a call, to another job than that of its session's joining, leaves the call lawful.
pub fn replies_leave_calls()
    ensures { RepliesLeaveCalls }
{}

/// One more call of a joined session leaves the trace orderly.
pub fn joined_calls_keep_order()
    ensures { JoinedCallsKeepOrder }
{}
