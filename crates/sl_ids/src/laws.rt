//! One id of one lockspace: its sessions, the landings in its delta sector, and why at most one of the sessions is alive.
//!
//! There is no code here, and no world: each function is a law of the small steps of `specs/Steps`, under two promises. The watchdogs
//! bound for how long a session acts (`IsBounded`), and the waits are long enough for that (`AreLongEnough`); `watchdogs_bound` and
//! `waits_suffice` give both from clocks and times. The record of an id is that of *Light-weight leases for storage-centric coordination*
//! (Chockler and Malkhi): write a claim, wait, see that it still stands.
//!
//! The invariant, in sentences (`specs/Invariant` has it in full, and what would go wrong without each):
//!
//! - Claims that may still land have one base, the record that their writers saw.
//! - Beside a verified session that is not over no claim may land, and above its claim it alone has written.
//! - Generations of landings don't fall, and no two landings spell the same.

pub mod waits;

ghost use Rattle.sl_ids.specs.Examples.{ShorterSilenceFails, ShorterWaitFails, ShorterWatchFails, SilentClaimFails, SomeIdIsTakenOver};
ghost use Rattle.sl_ids.specs.Guards.{WaitsSuffice, WatchdogsBound};
ghost use Rattle.sl_ids.specs.Interface.{EarlierAreOver, EvidenceMeansOver, GenerationNamesOne, GenerationsRise, NobodyElseWrites, OneIsOver, OverIsFinal};
ghost use Rattle.sl_ids.specs.InvariantLaws.{ClaimLandingKeeps, ClaimsAreOrdered, DecidingKeeps, OneActs, OwnLandingKeeps, QuietKeeps, SectorIsFresh, StartHolds, StepKeeps, VerifyingKeeps};
ghost use Rattle.sl_ids.specs.Listed.{ListsLand};
ghost use Rattle.sl_ids.specs.Runs.{RunsGoOn};

// ---- what the argument over ballots may use

/// Of two joined sessions of an id one is over.
pub fn one_is_over()
    ensures { OneIsOver }
{}

/// Over is final: a session of an id that is over stays so, whatever comes.
pub fn over_is_final()
    ensures { OverIsFinal }
{}

/// Evidence against a generation means that its session is over, and that none joins with it later.
pub fn evidence_means_over()
    ensures { EvidenceMeansOver }
{}

/// A generation names one joined session of an id, so evidence against it is evidence against that session.
pub fn generation_names_one()
    ensures { GenerationNamesOne }
{}

/// Generations rise in the order of joining.
pub fn generations_rise()
    ensures { GenerationsRise }
{}

/// At a join all that joined before are over.
pub fn earlier_are_over()
    ensures { EarlierAreOver }
{}

/// Nobody else writes above the claim of a joined session that is not over.
pub fn nobody_else_writes()
    ensures { NobodyElseWrites }
{}

// ---- the invariant, for an induction of the world's own

/// The invariant holds where every session of an id has done nothing, or is joined with its record there.
pub fn start_holds()
    ensures { StartHolds }
{}

/// The sample of a deciding read keeps it.
pub fn deciding_keeps()
    ensures { DecidingKeeps }
{}

/// The sample of a verify read keeps it.
pub fn verifying_keeps()
    ensures { VerifyingKeeps }
{}

/// The landing of a claim keeps it.
pub fn claim_landing_keeps()
    ensures { ClaimLandingKeeps }
{}

/// The landing of a renewal or of a free keeps it.
pub fn own_landing_keeps()
    ensures { OwnLandingKeeps }
{}

/// What lands nothing and decides nothing keeps it.
pub fn quiet_keeps()
    ensures { QuietKeeps }
{}

/// Each step of an id keeps the invariant.
pub fn step_keeps()
    ensures { StepKeeps }
{}

/// Beside a verified session that is not over the sector is fresh.
pub fn sector_is_fresh()
    ensures { SectorIsFresh }
{}

/// Of two verified sessions one is over.
#[tactic(auto, using(crate::proofs::StateLaws::only_one))]
pub fn one_acts()
    ensures { OneActs }
{}

/// Verified sessions are ordered by their claims.
pub fn claims_are_ordered()
    ensures { ClaimsAreOrdered }
{}

// ---- from clocks, watchdogs and lists

/// The watchdogs bound an id, and the waits by the formulas are long enough.
pub fn watchdogs_bound()
    ensures { WatchdogsBound }
{}

/// The waits by a clock give the timed premises of the steps.
pub fn waits_suffice()
    ensures { WaitsSuffice }
{}

/// Runs are put together, and states between the steps of one moment are bounded.
pub fn runs_go_on()
    ensures { RunsGoOn }
{}

/// Landings may be kept as a list.
pub fn lists_land()
    ensures { ListsLand }
{}

// ---- examples

/// Witness: an id can be taken over.
#[tactic(auto, using(crate::proofs::ExampleRuns::taken_over))]
pub fn some_id_is_taken_over()
    ensures { SomeIdIsTakenOver }
{}

/// Counterexample: a watch that is one too short.
#[tactic(auto, using(crate::proofs::ShorterWaits::shorter_watch))]
pub fn shorter_watch_fails()
    ensures { ShorterWatchFails }
{}

/// Counterexample: a wait before the verify read that is one too short.
#[tactic(auto, using(crate::proofs::ShorterWaits::shorter_wait))]
pub fn shorter_wait_fails()
    ensures { ShorterWaitFails }
{}

/// Counterexample: a silence that is one too short.
#[tactic(auto, using(crate::proofs::ExampleRuns::shorter_silence))]
pub fn shorter_silence_fails()
    ensures { ShorterSilenceFails }
{}

/// Counterexample: the silence of a claim taken for evidence, though its writer may still join.
#[tactic(auto, using(crate::proofs::ExampleRuns::silent_claim))]
pub fn silent_claim_fails()
    ensures { SilentClaimFails }
{}
