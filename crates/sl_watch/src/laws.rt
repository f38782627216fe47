//! What sightings show, and what they don't.
ghost use Rattle.sl_watch.specs.Laws as laws;
ghost use Rattle.sl_watch.specs.ToldLooks as telling;

/// A claim that stands still is no evidence against its writer, however long it stands: he may still join.
pub fn claims_are_no_evidence()
    ensures { laws.ClaimsAreNoEvidence }
{}

/// A sighting that spells no delta record of the id ends every run, and the next one begins anew.
pub fn torn_ends_runs()
    ensures { laws.TornEndsRuns }
{}

/// A sighting counts exactly where its bytes spell a delta record of the id.
pub fn sighted_is_spelled()
    ensures { laws.SightedIsSpelled }
{}

/// What was seen of one id says nothing of another.
pub fn others_say_nothing()
    ensures { laws.OthersSayNothing }
{}

/// The record that is read from a sector's bytes is spelled by them, so two sectors that spell one record have the same bytes.
pub fn bytes_are_read_true()
    ensures { laws.BytesAreReadTrue }
{}

/// A watch that is told what a read of all ids gave stands for each id's sightings with it.
pub fn watches_are_told()
    ensures { telling.WatchesAreTold }
{}
