//! What each lawful trace keeps to.

ghost use Rattle.sl_run_law.specs.Leases.LeaseLaws.{AreasAreApart, BlocksCome, BlocksHaveFronts, EachWasSubmitted, ExclusiveFollows, LeadersFollow, ModesFollow, OneAtATime, Phase2Follows, Phase2IsRead, SharedFollows};

/// Each call of a lawful trace was submitted at a front of it, and what that front knew is what the trace knows but for later answers.
pub fn each_was_submitted()
    ensures { EachWasSubmitted }
{}

/// A session has one call at a time that writes on an area or reads its blocks.
pub fn one_at_a_time()
    ensures { OneAtATime }
{}

/// Each block that a session writes comes from its own block: by phase 1, by phase 2, or by a change of mode.
pub fn blocks_come()
    ensures { BlocksCome }
{}

/// Phase 2 follows its own phase 1, and a read after it that shows nothing above.
pub fn phase2_follows()
    ensures { Phase2Follows }
{}

/// The read of phase 2 follows its own phase 2, answered ok.
pub fn phase2_is_read()
    ensures { Phase2IsRead }
{}

/// A leader follows an own ballot of its instance that ended with the session.
pub fn leaders_follow()
    ensures { LeadersFollow }
{}

/// A block has a mode where a shared holding stands or is about to be granted.
pub fn modes_follow()
    ensures { ModesFollow }
{}

/// An exclusive grant follows a ballot that the session won, and a look at all blocks.
pub fn exclusive_follows()
    ensures { ExclusiveFollows }
{}

/// A call on the area of another is of that area.
pub fn areas_are_apart()
    ensures { AreasAreApart }
{}

/// A shared grant joins a shared holding, or follows a ballot that the session won and its mark.
pub fn shared_follows()
    ensures { SharedFollows }
{}

/// Each block that is written was lawful where it was submitted.
pub fn blocks_have_fronts()
    ensures { BlocksHaveFronts }
{}
