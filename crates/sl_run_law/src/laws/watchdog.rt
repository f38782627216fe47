//! What watchdogs promise of a lawful run.

ghost use Rattle.sl_run_law.specs.Watchdog.WatchdogLaws.{CoveredAreConnected, CoveredMayAct, WritersMayAct};

/// A session whose connection must stand is connected.
pub fn covered_are_connected()
    ensures { CoveredAreConnected }
{}

/// .. and may act, until its machine was reset more than `land` ago.
pub fn covered_may_act()
    ensures { CoveredMayAct }
{}

/// A session with a write in flight may act.
pub fn writers_may_act()
    ensures { WritersMayAct }
{}
