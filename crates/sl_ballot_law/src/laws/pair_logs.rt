//! A host's pair by what a run tells of it: which write landed when, what was answered, and what sessions were shown.
//!
//! There is no code here, and no world. A log (`specs/PairLogs/Logs`) tells by the steps of a run what happened to a pair, and `IsLog` is what is
//! asked of it: that one write follows another, that a session is over where the next of its host joins, and that each block has the turn
//! above the one that its session was shown last. From a log come the states of a pair, two small steps for each step of the run, and so
//! all that `sl_ballot_law` proves of runs. Whoever has a world owes `IsLog`, and nothing of states.

ghost use Rattle.sl_ballot_law.specs.PairLogs.Theorems.{LogsAreRuns, LogsStand, PairsHaveBlocks, ReadsAreRegisters};

/// Each log gives a run of a pair.
pub fn logs_are_runs()
    ensures { LogsAreRuns }
{}

/// The states of a log stand for it.
pub fn logs_stand()
    ensures { LogsStand }
{}

/// What a read gives of a pair is a register's content.
pub fn reads_are_registers()
    ensures { ReadsAreRegisters }
{}

/// A pair always has a block, which is no older than what was answered ok.
pub fn pairs_have_blocks()
    ensures { PairsHaveBlocks }
{}
