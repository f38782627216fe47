//! What is promised of made runs.

pub mod quiet;
pub mod volumes;

ghost use Rattle.sl_headline.specs.PromisedRuns.{MadeReplaysArePromised, MadeReportsArePromised, MadeRunsArePromised};

use sl_world_state::Daemon;

/// Where daemons of this kind do what is due, a run made of them is as promised.
pub fn made_runs_are_promised<D: Daemon>()
    ensures { MadeRunsArePromised D.stands }
{}

/// What is owed of made runs is then owed of promised ones; and what is written is the plain program's report, or a front of it.
pub fn made_replays_are_promised<D: Daemon>()
    ensures { MadeReplaysArePromised D.stands }
{}

/// So is the whole report of a made run.
pub fn made_reports_are_promised<D: Daemon>()
    ensures { MadeReportsArePromised D.stands }
{}
