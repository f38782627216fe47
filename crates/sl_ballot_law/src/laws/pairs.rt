//! A host's block in a pair of sectors: why it is a register.
//!
//! There is no code here, and no world: each function is a law of the small steps of `specs/Pairs/Steps`, which say what writers and the disk do
//! with the two sectors. A block is written alternately to the first and to the second with a rising turn. Reads are no steps: they sample
//! a sector of the pair at a moment.
//!
//! The argument, in sentences (`specs/Pairs/Invariant` has the first in full):
//!
//! - The known turn stands, and beside it the turn before, the turn after, or a torn sector: what is written next goes there.
//! - So a block that lands whole is the pair's from then on, and a torn write takes away none that was answered ok.
//! - What one answer gives with a valid second sector, and what two answers give together, was the pair's block at some moment of the read.
//! - So it is no older than the newest block that had been answered ok when the read was submitted.
//!
//! | left out | and so |
//! |---|---|
//! | the second read (`one_answer_fails`) | a read gives a block older than one that was answered ok before |
//! | the merge with the first answer (`second_alone_fails`) | the same |
//! | that a read counts from its first submission (`counted_late_fails`) | the same |
//! | that turns take the two sectors in turn (`same_sector_fails`) | a torn write takes away the block that was answered ok |
//! | that a session reads its pair before it writes (`unseen_turn_fails`) | its block is not the pair's |
//! | that one session of a host is over before the next begins (`overlap_fails`) | a late write replaces a later one |

ghost use Rattle.sl_ballot_law.specs.Pairs.Examples.{CountedLateFails, OneAnswerFails, OverlapFails, SameSectorFails, SecondAloneFails, SomeAreRead, SomeFallsBack, SomeIsTorn, UnseenTurnFails};
ghost use Rattle.sl_ballot_law.specs.Pairs.Leaders.{BallotsEndAgain, LeadersAreBelow, ShownIsReason};
ghost use Rattle.sl_ballot_law.specs.Pairs.Shows.{PairsShowNewest};
ghost use Rattle.sl_ballot_law.specs.Pairs.Theorems.{BlockChanges, InvariantHolds, NoneIsTorn, OnceIsRegister, OwnReadIsCurrent, PairHasBlock, QuietIsShown, RunsOfTwoAreRuns, StepKeeps, StoodIsNewest, TwiceIsRegister};

/// Each step of a pair, by its writers or by the disk, keeps the invariant.
pub fn step_keeps()
    ensures { StepKeeps }
{}

/// The invariant holds at each moment of a run.
pub fn invariant_holds()
    ensures { InvariantHolds }
{}

/// The pair always has a block, which is no older than the newest that was answered ok.
pub fn pair_has_block()
    ensures { PairHasBlock }
{}

/// How the pair's block changes in a step.
pub fn block_changes()
    ensures { BlockChanges }
{}

/// A run of two steps at a moment is a run.
pub fn runs_of_two_are_runs()
    ensures { RunsOfTwoAreRuns }
{}

// ---- reads

/// One answer whose second sector is valid gives a block that stood between the two samples.
pub fn once_is_register()
    ensures { OnceIsRegister }
{}

/// What two answers give stood between the first sample and the last.
pub fn twice_is_register()
    ensures { TwiceIsRegister }
{}

/// What stood is no older than the newest block answered ok before, and was submitted.
pub fn stood_is_newest()
    ensures { StoodIsNewest }
{}

/// Two answers give no block only where both sectors were torn when the second sampled them.
pub fn none_is_torn()
    ensures { NoneIsTorn }
{}

/// A pair that nobody writes is shown.
pub fn quiet_is_shown()
    ensures { QuietIsShown }
{}

/// A session is shown its own pair as it stands.
pub fn own_read_is_current()
    ensures { OwnReadIsCurrent }
{}

// ---- histories

/// The register lemma: reads of pairs show the newest.
pub fn pairs_show_newest()
    ensures { PairsShowNewest }
{}

// ---- leaders

/// A block that a read shows is a reason to begin its instance.
pub fn shown_is_reason()
    ensures { ShownIsReason }
{}

/// A leader is below what a read shows of its owner's host, once the read was submitted after it.
pub fn leaders_are_below()
    ensures { LeadersAreBelow }
{}

/// A ballot of an instance that is run again ends with the session that the lost leader named.
pub fn ballots_end_again()
    ensures { BallotsEndAgain }
{}

// ---- examples

/// Witness: a torn write, a later session that goes on, and reads of both.
#[tactic(auto, using(crate::proofs::Pairs::ExampleRuns::some_are_read))]
pub fn some_are_read()
    ensures { SomeAreRead }
{}

/// Witness: two answers that give no block.
#[tactic(auto, using(crate::proofs::Pairs::ExampleRuns::some_is_torn))]
pub fn some_is_torn()
    ensures { SomeIsTorn }
{}

/// Witness: a block that was not answered ok is lost.
#[tactic(auto, using(crate::proofs::Pairs::ExampleRuns::some_falls_back))]
pub fn some_falls_back()
    ensures { SomeFallsBack }
{}

/// Counterexample: a read without a second one.
#[tactic(auto, using(crate::proofs::Pairs::ExampleRuns::one_answer_fails))]
pub fn one_answer_fails()
    ensures { OneAnswerFails }
{}

/// Counterexample: the second answer without the first.
#[tactic(auto, using(crate::proofs::Pairs::ExampleRuns::second_alone_fails))]
pub fn second_alone_fails()
    ensures { SecondAloneFails }
{}

/// Counterexample: counting a read from the submission of its second answer.
#[tactic(auto, using(crate::proofs::Pairs::ExampleRuns::counted_late_fails))]
pub fn counted_late_fails()
    ensures { CountedLateFails }
{}

/// Counterexample: a write to the sector of the known turn.
#[tactic(auto, using(crate::proofs::Pairs::ExampleRuns::same_sector_fails))]
pub fn same_sector_fails()
    ensures { SameSectorFails }
{}

/// Counterexample: a write of a session that has not read its pair.
#[tactic(auto, using(crate::proofs::Pairs::ExampleRuns::unseen_turn_fails))]
pub fn unseen_turn_fails()
    ensures { UnseenTurnFails }
{}

/// Counterexample: two sessions that write at once.
#[tactic(auto, using(crate::proofs::Pairs::ExampleRuns::overlap_fails))]
pub fn overlap_fails()
    ensures { OverlapFails }
{}
