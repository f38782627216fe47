//! Clocks that drift, a session under its machine's watchdog, and what the waits of a joining and of a watch give.
//!
//! There is no code here, and no world: each function is a law, which its clause states and the check proves. A session stands here as
//! a few points of one machine's clock; the world has to supply those, and the order in which they come.
//!
//! - **Drift.** Each two points of a clock are related by `Precedes`: so few readings take little time, and many take much.
//! - **Watchdog.** While a session can act, its last keepalive found its connection unexpired. So it acts for less than `gone` after the
//!   point from which its connection's expiry counts. Without this, nothing that others see of a session would ever mean that it is over.
//! - **Waits.** Who waits for `dead` or `take_over` by its own clock, from an answer to a submission, has waited in real time for more than
//!   others may act. Without the rounding and the drift in these times a fast clock would wait too short.

ghost use Rattle.sl_ids.specs.Clocks.Guarded.{GuardedIsBounded};
ghost use Rattle.sl_ids.specs.Clocks.Points.{ClocksDrift};
ghost use Rattle.sl_ids.specs.Clocks.Readings.{DeadIsLongEnough, JoinMaxIsShort, LongReading, ShortReading, TakeOverIsLongEnough};
ghost use Rattle.sl_ids.specs.Clocks.Waits.{AliveBesideShorterSilence, AliveBesideSilenceFromSubmission, SilenceIsLong, VerifyWaits, WatchWaits};
ghost use Rattle.sl_ids.specs.Clocks.Watchdog.{ActingIsBounded, ClaimIsBounded, ConnectionIsBounded, GoneIsUsedUp, KeepaliveStaysFresh, OverAfterGone, PendingIsBounded};

// ---- drift

/// Each two points that a machine's clock comes to are related by the bound on drift.
pub fn clocks_drift()
    ensures { ClocksDrift }
{}

/// Few readings on a clock take little time.
pub fn short_reading()
    ensures { ShortReading }
{}

/// Many readings on a clock take much time.
pub fn long_reading()
    ensures { LongReading }
{}

/// A wait of `dead` lasts longer than `gone`.
pub fn dead_is_long_enough()
    ensures { DeadIsLongEnough }
{}

/// A watch of `take_over` lasts longer than `hold` and `gone`.
pub fn take_over_is_long_enough()
    ensures { TakeOverIsLongEnough }
{}

/// At most `join_max` on a clock lasts less than `hold`.
pub fn join_max_is_short()
    ensures { JoinMaxIsShort }
{}

// ---- the watchdog

/// The last keepalive found the connection unexpired, and what happens to the connection keeps that so.
#[tactic(auto, using(crate::proofs::Clocks::WatchdogLaws::fresh))]
pub fn keepalive_stays_fresh()
    ensures { KeepaliveStaysFresh }
{}

/// A connection stands for a bounded time.
pub fn connection_is_bounded()
    ensures { ConnectionIsBounded }
{}

/// A session acts for less than `gone` after it was renewed.
pub fn acting_is_bounded()
    ensures { ActingIsBounded }
{}

/// .. and may act at the last moment before, at any timing: `gone` is no longer than it need be.
#[tactic(auto, using(crate::proofs::Clocks::WatchdogLaws::used_up))]
pub fn gone_is_used_up()
    ensures { GoneIsUsedUp }
{}

/// A session that was renewed `gone` ago is over.
pub fn over_after_gone()
    ensures { OverAfterGone }
{}

/// A session that verifies its claim acts for a bounded time after it claimed.
pub fn claim_is_bounded()
    ensures { ClaimIsBounded }
{}

/// A claim that may still land was decided a bounded time ago.
pub fn pending_is_bounded()
    ensures { PendingIsBounded }
{}

/// In each state of a run the watchdog bounds what a session may still do, and covers each write in flight.
#[tactic(auto, using(crate::proofs::Clocks::GuardingLaws::guarded))]
pub fn guarded_is_bounded()
    ensures { GuardedIsBounded }
{}

// ---- the waits

/// The verify read comes late enough: whoever acted as the claim landed is over by then.
pub fn verify_waits()
    ensures { VerifyWaits }
{}

/// The deciding read comes late enough: the writer of what was watched is over by then.
pub fn watch_waits()
    ensures { WatchWaits }
{}

/// A silence is long enough: the session whose record stood still is over.
pub fn silence_is_long()
    ensures { SilenceIsLong }
{}

/// Counterexample: a silence of two less than `dead` is no evidence.
#[tactic(auto, using(crate::proofs::Clocks::WatchdogLaws::shorter))]
pub fn shorter_silence_fails()
    ensures { AliveBesideShorterSilence }
{}

/// Counterexample: a silence that counts from the first sighting's submission, and not from its answer, is no evidence.
#[tactic(auto, using(crate::proofs::Clocks::WatchdogLaws::from_submission))]
pub fn silence_from_submission_fails()
    ensures { AliveBesideSilenceFromSubmission }
{}
