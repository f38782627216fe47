//! What a lawful run promises of the sessions of each id.

pub mod reached;
pub mod state;
pub mod steps;

ghost use Rattle.sl_id_safety.specs.Interface.{EvidenceMeansOver, EvidencesAreTrue, GenerationsNameOne, IdsAreSafe, JoinedReadNoOther, JoinedStays, JoinersFindOver, JoinersRise, LockspacesAreAreas, OneActsForEachId, OverAreSettled, OverAreSilent, OverStays, SectorsAreAlone, SectorsStand};
ghost use Rattle.sl_id_safety.specs.JoinedStand.{JoinedStand, SameIdsStandTogether, StandingTogetherIsSameId};

/// A joined session stands with its id as the world has it.
pub fn joined_stand()
    ensures { JoinedStand }
{}

/// Sessions of one id have one sector.
pub fn same_ids_stand_together()
    ensures { SameIdsStandTogether }
{}

/// Joined sessions of one sector have one id.
pub fn standing_together_is_same_id()
    ensures { StandingTogetherIsSameId }
{}

/// Joined sessions of one lockspace and one id have one id of one area.
pub fn lockspaces_are_areas()
    ensures { LockspacesAreAreas }
{}

/// A joined session stays joined in the state of its id, to the end of the run.
pub fn joined_stays()
    ensures { JoinedStays }
{}

/// A session that is over makes no call any more.
pub fn over_are_silent()
    ensures { OverAreSilent }
{}

/// No write of it but its free is answered any more.
pub fn over_are_settled()
    ensures { OverAreSettled }
{}

/// For each id at most one joined session is not over.
pub fn one_acts_for_each_id()
    ensures { OneActsForEachId }
{}

/// One that joins later has a greater generation.
pub fn joiners_rise()
    ensures { JoinersRise }
{}

/// Lockspace, id and generation name one joined session.
pub fn generations_name_one()
    ensures { GenerationsNameOne }
{}

/// A session that is over stays so.
pub fn over_stays()
    ensures { OverStays }
{}

/// Where a session has joined, each of its id that had joined before is over.
pub fn joiners_find_over()
    ensures { JoinersFindOver }
{}

/// What lands in a joined session's sector until it is over is of its own writes, but what came before its claim.
pub fn sectors_are_alone()
    ensures { SectorsAreAlone }
{}

/// A joined session's sector holds a record of its own, or torn bytes, until it is over.
pub fn sectors_stand()
    ensures { SectorsStand }
{}

/// A session that somebody has evidence against is over, whenever it joined, and none joins later.
pub fn evidence_means_over()
    ensures { EvidenceMeansOver }
{}

/// So all evidence of a run is true.
pub fn evidences_are_true()
    ensures { EvidencesAreTrue }
{}

/// A joined session reads no foreign record in its own sector.
pub fn reads_no_other()
    ensures { JoinedReadNoOther }
{}

/// The invariant of ids and time, after every event of every lawful run: writes in flight are covered, evidence is true, one session acts
/// for each id, generations rise, and a joined session's sector is its own.
pub fn ids_are_safe()
    ensures { IdsAreSafe }
{}
