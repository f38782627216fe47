//! What a lawful trace and a lawful run promise of holdings.

ghost use Rattle.sl_safety.specs.Holding.HoldingOrigins.{ExclusivesAreUnfreed, HoldersStand, HoldingsAreGranted, OneDaemonAgrees, SharedHoldingsBegin, SharedRunsBegin};
ghost use Rattle.sl_safety.specs.Holding.Holders.{LingeringIsLeft, OneMachineAgrees, UsesAreHeld};
ghost use Rattle.sl_run.specs.HeldOverTime.{HoldersHoldOnce, HoldingsGoOn};

/// Each holding was granted by an entry, from which on it stood.
pub fn holdings_are_granted()
    ensures { HoldingsAreGranted }
{}

/// The session under which a process holds is joined, and has not written its free.
pub fn holders_stand()
    ensures { HoldersStand }
{}

/// While a session holds a resource exclusive under an instance, it has submitted no free of this instance.
pub fn exclusives_are_unfreed()
    ensures { ExclusivesAreUnfreed }
{}

/// A session that holds a resource shared has done so without a gap since a grant that came by a ballot of its own.
pub fn shared_runs_begin()
    ensures { SharedRunsBegin }
{}

/// Two processes of one daemon hold one resource only if both hold it shared.
pub fn one_daemon_agrees()
    ensures { OneDaemonAgrees }
{}

/// What lingers on a machine was held at a reset by a daemon that it had then, and each reset since that daemon began came with it or later.
pub fn lingering_is_left()
    ensures { LingeringIsLeft }
{}

/// A use of the world, a holding or what lingers of one, is of a joined session of its machine, which is not over.
pub fn uses_are_held()
    ensures { UsesAreHeld }
{}

/// Uses of one machine don't conflict: of one daemon by its laws, of several since what lingers is nobody's any more.
pub fn one_machine_agrees()
    ensures { OneMachineAgrees }
{}

/// A shared holding has stood beside shared ones without a gap since a grant that came by a ballot of its own instance.
pub fn shared_holdings_begin()
    ensures { SharedHoldingsBegin }
{}

/// No process of a machine holds a place twice.
pub fn holders_hold_once()
    ensures { HoldersHoldOnce }
{}

/// Each holding, or one that follows it, goes on until it is let go: of a persistent one somebody on the machine holds the resource at every
/// moment until a release, a take-over or a reset.
pub fn holdings_go_on()
    ensures { HoldingsGoOn }
{}
