//! What every lawful run promises of lvmlockd's locks.

ghost use Rattle.sl_headline.specs.Volumes.DueCallsFit.{DueCallsFit, DueRunsAreAnswered};
ghost use Rattle.sl_headline.specs.Volumes.FewAsks.{AsksAreFewInRuns};
ghost use Rattle.sl_headline.specs.Volumes.LockNames.{LocksAreResources};
ghost use Rattle.sl_headline.specs.Volumes.OneVersion.{VersionsAreKnownOnce};
ghost use Rattle.sl_headline.specs.Volumes.WholeProgramReads.{LocksAreHeldWhenDue, WholeProgramReads};
ghost use Rattle.sl_headline.specs.Volumes.SameInRuns.{SameIsUnchangedInRuns, VolumesAreSafeInRuns, VolumesAreSafeWhenDue};
ghost use Rattle.sl_headline.specs.Volumes.VersionsWereTold.{VersionsWereTold};
ghost use Rattle.sl_headline.specs.Volumes.LocksHeldInRuns.{LocksAreHeldInRuns, ToldVolumesExcludeInRuns};

/// An acquire is asked again for one line at most so often as the header has it.
pub fn asks_are_few()
    ensures { AsksAreFewInRuns }
{}

/// At each moment each lock of a machine's table, which is what lines tell, is a holding of the machine in the lock's mode, where replies have
/// their causes: it comes with the grant, and leaves with the end of the holding, whatever ends that.
pub fn locks_are_held()
    ensures { LocksAreHeldInRuns }
{}

/// So no logical volume is told active on two machines at any moment, unless both share it.
pub fn told_volumes_exclude()
    ensures { ToldVolumesExcludeInRuns }
{}

/// A daemon that does what is due calls for a value where its job's command names one, and on that one.
pub fn due_calls_fit()
    ensures { DueCallsFit }
{}

/// So in a run of such daemons lvmlockd's locks are answered what they asked.
pub fn due_runs_are_answered()
    ensures { DueRunsAreAnswered }
{}

/// Each lock that a line names is a resource that a command may name.
pub fn locks_are_resources()
    ensures { LocksAreResources }
{}

/// The whole program reads each ask of the locks as the command that it spells.
pub fn whole_program_reads()
    ensures { WholeProgramReads }
{}

/// So what lines tell is held wherever its daemons do what is due.
pub fn locks_are_held_when_due()
    ensures { LocksAreHeldWhenDue }
{}

/// Each version of a group's value that the locks know was told them, by the host's reply to a read or a write of it that they asked.
pub fn versions_were_told()
    ensures { VersionsWereTold }
{}

/// Of each group the locks know one version.
pub fn versions_are_known_once()
    ensures { VersionsAreKnownOnce }
{}

/// Where a group's value is told to be the one that is known, no other machine's write of it was answered ok since it was told.
pub fn same_is_unchanged()
    ensures { SameIsUnchangedInRuns }
{}

/// So the locks keep to all that is said of them.
pub fn volumes_are_safe()
    ensures { VolumesAreSafeInRuns }
{}

/// .. in each lawful run of a program that reads their asks, where its daemons do what is due.
pub fn volumes_are_safe_when_due()
    ensures { VolumesAreSafeWhenDue }
{}
