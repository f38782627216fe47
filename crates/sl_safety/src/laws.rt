//! What every lawful run keeps of resources.
//!
//! The history of a resource, read off a run of many machines: registers (`laws::resources`), whose they are (`laws::sessions`), and a host's
//! pair of sectors (`laws::host_pairs`).

pub mod ballot;
pub mod grant;
pub mod holding;
pub mod host_pairs;
pub mod pairs_have_blocks;
pub mod resources;
pub mod sessions;
pub mod value;

ghost use Rattle.sl_run.specs.Safety.{Invariants, Safety};
ghost use Rattle.sl_safety.specs.Histories.{HistoriesAreLawful, HistoriesKeepInstances};
ghost use Rattle.sl_safety.specs.SafetyInvariants.{BallotsAgree, OneWins, SharedModesStand};
ghost use Rattle.sl_safety.specs.Volumes.{VolumesExclude};

/// The history of each resource keeps all rules of the argument over ballots.
pub fn histories_are_lawful()
    ensures { HistoriesAreLawful }
{}

/// All ballots of a resource's instance that end, end with one session.
pub fn ballots_agree()
    ensures { BallotsAgree }
{}

/// At most one session ends a ballot of an instance with itself.
pub fn one_wins()
    ensures { OneWins }
{}

/// The mode of a shared holder that is not over stands in its host's block.
pub fn shared_modes_stand()
    ensures { SharedModesStand }
{}

/// The history of each resource keeps all rules of the order of instances.
pub fn histories_keep_instances()
    ensures { HistoriesKeepInstances }
{}

/// No two uses conflict, after every event of every lawful run: neither two holdings, nor one and what lingers of another machine's since a
/// reset, for as long as a write that was in flight then may land.
pub fn lawful_runs_are_safe()
    ensures { Safety }
{}

/// No logical volume is active on two machines unless both have it shared, after every event of every lawful run.
pub fn volumes_exclude()
    ensures { VolumesExclude }
{}

/// Both invariants hold after every event of every lawful run: that of ids and time, and that of blocks and leaders.
pub fn invariants_hold()
    ensures { Invariants }
{}
