//! The stage of a session by its own sector.

ghost use Rattle.sl_delta.specs.DeltaDecisions.{IsFitNext};
ghost use Rattle.sl_alone.specs.DeltaSteps.{joining_wake, stage_holding, stage_joining};
ghost use Rattle.sl_trace.specs.Sessions.{stage_after};
ghost use Rattle.std.specs.Prelude.{◌≡◌};

use sl_delta::OwnSector;
use sl_trace::{DeltaNext, JoinStep, Stage};

/// The stage of a joining after this step, its call answered or not.
fn stage_after(step: JoinStep, done: bool) -> Stage
    ensures { result ≡ stage_after step done }
{
    match step {
        JoinStep::FirstRead => Stage::Looking,
        JoinStep::WatchRead => Stage::Looking,
        JoinStep::DecidingRead => Stage::Deciding,
        JoinStep::ClaimWrite => {
            if done {
                Stage::Waiting
            } else {
                Stage::Claiming
            }
        }
        JoinStep::VerifyRead => Stage::Verifying,
        JoinStep::FirstRenewal => Stage::FirstRenewing,
    }
}

/// The stage of a joining, by its newest call.
pub(crate) fn stage_of(own: &OwnSector) -> Stage
    ensures { result ≡ stage_joining own.now }
{
    match &own.newest {
        Some(call) => stage_after(call.step, call.answered.is_some()),
        None => Stage::Looking,
    }
}

/// The stage of a session that is joined, or was.
pub(crate) fn standing_of(own: &OwnSector) -> Stage
    ensures { result ≡ stage_holding own.now }
{
    if own.freed {
        Stage::Freeing
    } else {
        Stage::Standing
    }
}

/// What a wake makes due of a joining: its first read, or what its time has come for.
pub(crate) fn first_or_on_wake(own: &OwnSector, now: u64) -> DeltaNext
    ensures exact { result ≡ joining_wake now own.now }
    ensures fit { IsFitNext result }
{
    match &own.newest {
        Some(_) => own.on_wake(now),
        None => DeltaNext::ReadOwn(JoinStep::FirstRead),
    }
}
