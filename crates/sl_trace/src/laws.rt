//! How the questions to a trace change as it grows; what was shown once stays shown; and numbers of ballots (Gafni and Lamport, *Disk
//! Paxos*: numbers of different processors are disjoint).

ghost use Rattle.sl_trace.specs.TraceLaws.{CallsGrow, CallsStay, RepliesStay, TracesHaveFronts};
ghost use Rattle.sl_trace.specs.EvidenceLaws.{EvidenceStays, EvidenceCounts};
ghost use Rattle.sl_trace.specs.BallotLaws.{NumbersAreLeast};

/// One more call in the newest entry is one more call at the head of all.
pub fn calls_grow()
    ensures { CallsGrow }
{}

/// A step that does nothing and answers nothing leaves all calls as they were.
pub fn calls_stay()
    ensures { CallsStay }
{}

/// A job that has a reply keeps it.
pub fn replies_stay()
    ensures { RepliesStay }
{}

/// Each front of a trace is a trace.
pub fn traces_have_fronts()
    ensures { TracesHaveFronts }
{}

/// A session that was once counted as over stays so counted, though a later torn sighting may end the run that showed it.
pub fn evidence_stays()
    ensures { EvidenceStays }
{}

/// Evidence counts from the entry on that brings it.
pub fn evidence_counts()
    ensures { EvidenceCounts }
{}

/// A host's next number is the least of its own above all that it knows.
pub fn numbers_are_least()
    ensures { NumbersAreLeast }
{}
