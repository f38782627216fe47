//! Areas with pairs: what a run of many machines tells of each host's pair is a log of `sl_ballot_law`.
//!
//! So the pair's states are a run, and what is read of it is a register's content.

ghost use Rattle.sl_safety.specs.Pairs.PairLaws.{PairsAreLogs};
ghost use Rattle.sl_safety.specs.Pairs.Reads.{PairsAreGiven, PairsStand};
ghost use Rattle.sl_safety.specs.Pairs.PairsAreShown.{PairsAreShown};

/// What is told of a host's pair keeps what is asked of it.
pub fn pairs_are_logs()
    ensures { PairsAreLogs }
{}

/// What reads give of a host's pair is a register's content.
pub fn pairs_are_given()
    ensures { PairsAreGiven }
{}

/// Once a block of a host was answered ok, what stands in its pair is no older.
pub fn pairs_stand()
    ensures { PairsStand }
{}

/// What a read gives of a host's pair is what the landings show that it has sampled.
pub fn pairs_are_shown()
    ensures { PairsAreShown }
{}
