//! What each premise gives of a run: `drift`, `watchdog`, `landing`, `torn`, `name`.

ghost use Rattle.sl_run_law.specs.ClocksDrift.{ClocksDrift, ClocksDriftInRuns};
ghost use Rattle.sl_run_law.specs.Course.CourseLaws.{DaemonNamesAreApart};
ghost use Rattle.sl_run_law.specs.Landing.Landings.{LandingsAreWritten};
ghost use Rattle.sl_run_law.specs.Watchdog.WatchdogLaws.{WritesInFlightAreCovered};

/// `drift`: a clock grows within the drift of the time that passes.
pub fn clocks_drift()
    ensures { ClocksDrift }
{}

/// Along a run, too, a clock grows within the drift of the time that passes.
pub fn clocks_drift_in_runs()
    ensures { ClocksDriftInRuns }
{}

/// `watchdog` and `landing`: each write in flight is covered, by a connection that stands or until it lands.
pub fn writes_in_flight_are_covered()
    ensures { WritesInFlightAreCovered }
{}

/// `torn`: each landing was left by a write of a machine.
pub fn landings_are_written()
    ensures { LandingsAreWritten }
{}

/// `name`: no two daemons share a name.
pub fn daemon_names_are_apart()
    ensures { DaemonNamesAreApart }
{}
