//! What a ballot comes to, by its steps and whole.

ghost use Rattle.sl_alone.specs.BallotLaws as laws;

/// What stops a ballot is what `stop_among` names. The own block may stand among the others or not: it stops nothing, and where it has no
/// bal it doesn't change the value.
pub fn stops_are_one()
    ensures { laws.StopsAreOne }
{}

/// A block to write comes only from the read of phase 1, an end with a value only from that of phase 2; instance and number stay.
pub fn steps_follow_phases()
    ensures { laws.StepsFollowPhases }
{}

/// A whole ballot is won or lost only if no block of either read is of a later instance or has a greater number in its own, and then by the
/// value that the first read told to write; else the read that stopped it has a block that is ahead or, where none is, a rival.
pub fn runs_end()
    ensures { laws.RunsEnd }
{}
