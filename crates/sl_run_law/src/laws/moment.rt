//! What a lawful run promises of moments and clocks.

ghost use Rattle.sl_run_law.specs.Moment.FrontMoments.{FrontsGoOn, MomentsFollowFronts, StampsDriftFromFronts};
ghost use Rattle.sl_run_law.specs.Moment.MomentsFollowSteps.{KeptIsPast, MomentsFollowSteps, StampsDrift, StampsDriftToNow};
ghost use Rattle.sl_run_law.specs.Moment.Orders.{EntriesAreInOrder, EntriesAreWaits, MachinesAreInOrder};
ghost use Rattle.sl_run_law.specs.Moment.Waits.{ClaimsAreBounded, DeadWaits, JoinMaxWaits, PendingAreBounded, SilencesAreLong, TakeOverWaits, VerifyReadsAreLate, WatchesAreLong};

/// Of two things the one with the lesser step came first.
pub fn moments_follow_steps()
    ensures { MomentsFollowSteps }
{}

/// All that is kept is of the past.
pub fn kept_is_past()
    ensures { KeptIsPast }
{}

/// Between two stamps of a machine its clock drifts within its bounds.
pub fn stamps_drift()
    ensures { StampsDrift }
{}

/// So it does between a stamp and now.
pub fn stamps_drift_to_now()
    ensures { StampsDriftToNow }
{}

// ---- waits

/// A wait of `dead` on a machine's clock lasts longer than `gone`.
pub fn dead_waits()
    ensures { DeadWaits }
{}

/// A watch of `take_over` lasts longer than `hold` and `gone`.
pub fn take_over_waits()
    ensures { TakeOverWaits }
{}

/// At most `join_max` lasts less than `hold`.
pub fn join_max_waits()
    ensures { JoinMaxWaits }
{}

/// The verify read is sampled more than `gone` after the claim landed.
pub fn verify_reads_are_late()
    ensures { VerifyReadsAreLate }
{}

/// The deciding read is sampled more than `hold` and `gone` after the first of the watch.
pub fn watches_are_long()
    ensures { WatchesAreLong }
{}

/// The last read of a silence is sampled more than `gone` after its first.
pub fn silences_are_long()
    ensures { SilencesAreLong }
{}

/// A session that verifies its claim acts for a bounded time after it claimed.
pub fn claims_are_bounded()
    ensures { ClaimsAreBounded }
{}

/// A claim that may still land was decided a bounded time ago.
pub fn pending_are_bounded()
    ensures { PendingAreBounded }
{}

// ---- order

/// What a machine keeps is in the order of the steps.
pub fn machines_are_in_order()
    ensures { MachinesAreInOrder }
{}

/// The entries of a daemon come at later and later steps.
pub fn entries_are_in_order()
    ensures { EntriesAreInOrder }
{}

/// Two entries of a daemon are a wait.
pub fn entries_are_waits()
    ensures { EntriesAreWaits }
{}

// ---- from a front on

/// What is kept later was kept at the front, or is of later.
pub fn fronts_go_on()
    ensures { FrontsGoOn }
{}

/// Moments follow steps between a front and later.
pub fn moments_follow_fronts()
    ensures { MomentsFollowFronts }
{}

/// Clocks drift within their bounds between a front and later.
pub fn stamps_drift_from_fronts()
    ensures { StampsDriftFromFronts }
{}
