//! What a lawful run promises of its grants, in the history of their resource.

ghost use Rattle.sl_safety.specs.Grant.HistoryGrants.{ExclusiveGrantsAre, ExclusivesAreKept, SharedAreShared, SharedAreUnder};

/// Each exclusive grant of a trace is one of the history of its resource: its session won the instance, had not freed it, and had looked
/// at all blocks after the instance had begun.
pub fn exclusive_grants_are()
    ensures { ExclusiveGrantsAre }
{}

/// An exclusive holding of a session that is not over goes back to such a grant, which stands.
pub fn exclusives_are_kept()
    ensures { ExclusivesAreKept }
{}

/// A shared holding of a session that is not over goes back to a shared grant of the history, and each block of the session has its mark
/// since.
pub fn shared_are_shared()
    ensures { SharedAreShared }
{}

/// That grant is one under the holding's own instance.
pub fn shared_are_under()
    ensures { SharedAreUnder }
{}
