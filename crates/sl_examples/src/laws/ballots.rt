//! Examples for the laws of ballots and leases: two histories that keep all rules, so that no law is empty, and eight that break one rule
//! each and the law that rests on it, so that no rule is idle.
//!
//! | the history breaks | and so |
//! |---|---|
//! | `ShowsNewest`, by a write that lands late (`overlap_breaks`) | two sessions win one instance |
//! | `ShowsNewest`, by a torn block that is passed over (`torn_breaks`) | two sessions win one instance |
//! | `GoesUp` (`lower_breaks`) | two sessions win one instance |
//! | `NumbersArePositive` (`zero_breaks`) | two sessions win one instance |
//! | `EarlierAreOver` (`two_alive_break`) | two sessions win one instance |
//! | `EvidenceMeansOver` (`false_evidence_breaks`) | two sessions hold exclusive |
//! | `FreesAfterMark` (`freed_first_breaks`) | one holds exclusive beside another that holds shared |
//! | `LooksAfterBegun` (`early_look_breaks`) | one holds exclusive beside another that holds shared |

ghost use Rattle.sl_examples.specs.Ballots.EarlyLook.{EarlyLookBreaks};
ghost use Rattle.sl_examples.specs.Ballots.FalseEvidence.{FalseEvidenceBreaks};
ghost use Rattle.sl_examples.specs.Ballots.FreedFirst.{FreedFirstBreaks};
ghost use Rattle.sl_examples.specs.Ballots.TwoGrants.{SomeAreGranted};
ghost use Rattle.sl_examples.specs.Ballots.OlderInstance.{LowerBreaks};
ghost use Rattle.sl_examples.specs.Ballots.Overlap.{OverlapBreaks};
ghost use Rattle.sl_examples.specs.Ballots.TakenOver.{SomeIsTakenOver};
ghost use Rattle.sl_examples.specs.Ballots.TornBlock.{TornBreaks};
ghost use Rattle.sl_examples.specs.Ballots.TwoAlive.{TwoAliveBreak};
ghost use Rattle.sl_examples.specs.Ballots.NumberZero.{ZeroBreaks};

/// Witness: there is a lawful history in which two sessions are granted holdings, one exclusive and one shared.
pub fn some_are_granted()
    ensures { SomeAreGranted }
{}

/// Witness: there is a lawful history in which a lease passes from a session that is over to another.
pub fn some_is_taken_over()
    ensures { SomeIsTakenOver }
{}

/// Counterexample: a write that lands after a later one of its session.
pub fn overlap_breaks()
    ensures { OverlapBreaks }
{}

/// Counterexample: a read that passes over a torn block.
pub fn torn_breaks()
    ensures { TornBreaks }
{}

/// Counterexample: a host that goes back to a lower instance.
pub fn lower_breaks()
    ensures { LowerBreaks }
{}

/// Counterexample: a ballot of number 0.
pub fn zero_breaks()
    ensures { ZeroBreaks }
{}

/// Counterexample: two sessions of one id that are alive at once.
pub fn two_alive_break()
    ensures { TwoAliveBreak }
{}

/// Counterexample: evidence against a session that is alive.
pub fn false_evidence_breaks()
    ensures { FalseEvidenceBreaks }
{}

/// Counterexample: an instance that is freed before the mark.
pub fn freed_first_breaks()
    ensures { FreedFirstBreaks }
{}

/// Counterexample: a look at the blocks before the instance has begun.
pub fn early_look_breaks()
    ensures { EarlyLookBreaks }
{}
