//! A quiet acquire is granted: an acquire that nothing stands in the way of.

pub mod area;
pub mod course;
pub mod events;
pub mod leases;
pub mod no_denial;
pub mod reads;
pub mod start;
pub mod step;

ghost use Rattle.sl_headline.specs.Quiet.Start.QuietIsGranted.{QuietAcquiresAreGranted};
ghost use Rattle.sl_headline.specs.Quiet.Start.MadeRunsQuiet.{MadeRunsAreQuiet};

use sl_world_state::Daemon;

/// So a quiet acquire is granted: by then, or it waits for an answer, whatever comes later.
pub fn quiet_acquires_are_granted()
    ensures { QuietAcquiresAreGranted }
{}

/// So it is in a run of daemons of one kind, where one stood for each trace after each of its events.
pub fn made_runs_are_quiet<D: Daemon>()
    ensures { MadeRunsAreQuiet D.stands }
{}
