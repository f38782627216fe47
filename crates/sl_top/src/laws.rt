//! What each status tells of a run, and of what live machines' histories are: laws of the definitions that `run` and `run_offline` cite.

ghost use Rattle.sl_top.specs.LiveHistories.{LiveHistoriesAreGood};
ghost use Rattle.sl_top.specs.StatusLaws.{AcceptedSchedulesEndWell, CausesHaveStatuses, OtherSchedulesAreRefused, StatusesHaveCauses};

use sl_outside::LiveDevices;

/// Each status but `Done` and want of memory comes only with its cause.
pub fn statuses_have_causes<D: LiveDevices>()
    ensures { StatusesHaveCauses (record { content = D.Area.content; faults = D.Area.faults; acts = D.Spawner.acts }) }
{}

/// Words that say nothing end with `BadWords`, and a look at another leader with `NotTheLeader`, if nothing cuts the run short.
pub fn causes_have_statuses<D: LiveDevices>()
    ensures { CausesHaveStatuses (record { content = D.Area.content; faults = D.Area.faults; acts = D.Spawner.acts }) }
{}

/// A schedule that is read and allowed to its end is done, unless something fails or memory lacks; no other is.
pub fn accepted_schedules_end_well<D: LiveDevices>()
    ensures { AcceptedSchedulesEndWell (record { content = D.Area.content; faults = D.Area.faults; acts = D.Spawner.acts }) }
{}

/// Any other schedule is refused, unless something fails or memory lacks; no accepted one is.
pub fn other_schedules_are_refused<D: LiveDevices>()
    ensures { OtherSchedulesAreRefused (record { content = D.Area.content; faults = D.Area.faults; acts = D.Spawner.acts }) }
{}

/// The history of each machine of a live run is lawful, and each reply in it has its cause; and the areas and the spawner that devices handed out for the
/// machine served it, and came so back to the devices.
pub fn live_histories_are_good<D: LiveDevices>()
    ensures { LiveHistoriesAreGood (record { content = D.Area.content; faults = D.Area.faults; acts = D.Spawner.acts }) }
{}
