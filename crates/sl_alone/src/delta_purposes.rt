//! What a call's purpose says of a delta lease.

ghost use Rattle.sl_alone.specs.DeltaSteps.{writes_own, writes_step};
ghost use Rattle.sl_trace.specs.Sessions.{is_join_call, is_survey_purpose};
ghost use Rattle.sl_trace.specs.declared.effects.JoinStep.TheVariants.{FirstRead};
ghost use Rattle.std.specs.Prelude.{◌≡◌};

use sl_trace::{JoinStep, Purpose};

/// Whether the call is a joining's first read.
pub(crate) fn is_first_read(purpose: &Purpose) -> bool
    ensures { result ≡ is_join_call FirstRead purpose.now }
{
    matches!(
        purpose,
        Purpose::Joining {
            job: _,
            step: JoinStep::FirstRead,
        }
    )
}

/// Whether a step of a joining writes.
pub(crate) fn writes_step(step: JoinStep) -> bool
    ensures { result ≡ writes_step step }
{
    match step {
        JoinStep::FirstRead => false,
        JoinStep::WatchRead => false,
        JoinStep::DecidingRead => false,
        JoinStep::ClaimWrite => true,
        JoinStep::VerifyRead => false,
        JoinStep::FirstRenewal => true,
    }
}

/// Whether a call for this purpose writes the own sector.
pub(crate) fn writes_own(purpose: &Purpose) -> bool
    ensures { result ≡ writes_own purpose.now }
{
    match purpose {
        Purpose::Joining { job: _, step } => writes_step(*step),
        Purpose::Renewal => true,
        Purpose::Leaving { job: _ } => true,
        _ => false,
    }
}

/// Whether the call reads all delta sectors.
pub(crate) fn is_survey(purpose: &Purpose) -> bool
    ensures { result ≡ is_survey_purpose purpose.now }
{
    matches!(purpose, Purpose::Survey)
}
