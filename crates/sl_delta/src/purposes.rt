//! What a call's purpose says of the own sector.

ghost use Rattle.sl_trace.specs.DeltaDecisions.{join_step_of};
ghost use Rattle.sl_trace.specs.Sessions.{is_delta_purpose, is_free_purpose, is_join_call, is_renewal};
ghost use Rattle.sl_trace.specs.declared.effects.JoinStep.TheVariants.{ClaimWrite, FirstRead};
ghost use Rattle.std.specs.Prelude.{◌≡◌};

use sl_trace::{JoinStep, Purpose};

/// At which step of a joining the call is; none of any other call.
pub(crate) fn join_step_of(purpose: &Purpose) -> Option<JoinStep>
    ensures { result ≡ join_step_of purpose.now }
{
    match purpose {
        Purpose::Joining { job: _, step } => Some(*step),
        Purpose::Renewal => None,
        Purpose::Survey => None,
        Purpose::Leaving { job: _ } => None,
        Purpose::Lease { work: _, step: _ } => None,
        Purpose::RequestRead { job: _ } => None,
        Purpose::RequestWrite { job: _, owner: _ } => None,
        Purpose::SeeRequest => None,
        Purpose::ValueWrite { job: _ } => None,
        Purpose::ValueRead { job: _ } => None,
    }
}

/// Whether the call is a joining's first read.
pub(crate) fn is_first_read(purpose: &Purpose) -> bool
    ensures { result ≡ is_join_call FirstRead purpose.now }
{
    matches!(
        purpose,
        Purpose::Joining {
            job: _,
            step: JoinStep::FirstRead,
        }
    )
}

/// Whether the call writes a claim.
pub(crate) fn is_claim(purpose: &Purpose) -> bool
    ensures { result ≡ is_join_call ClaimWrite purpose.now }
{
    matches!(
        purpose,
        Purpose::Joining {
            job: _,
            step: JoinStep::ClaimWrite,
        }
    )
}

/// Whether the call is a renewal, the first one too.
pub(crate) fn is_renewal(purpose: &Purpose) -> bool
    ensures { result ≡ is_renewal purpose.now }
{
    matches!(
        purpose,
        Purpose::Renewal
            | Purpose::Joining {
                job: _,
                step: JoinStep::FirstRenewal,
            }
    )
}

/// Whether the call is on a delta sector.
pub(crate) fn is_delta(purpose: &Purpose) -> bool
    ensures { result ≡ is_delta_purpose purpose.now }
{
    matches!(
        purpose,
        Purpose::Joining { job: _, step: _ }
            | Purpose::Renewal
            | Purpose::Survey
            | Purpose::Leaving { job: _ }
    )
}

/// Whether the call writes the free record.
pub(crate) fn is_free(purpose: &Purpose) -> bool
    ensures { result ≡ is_free_purpose purpose.now }
{
    matches!(purpose, Purpose::Leaving { job: _ })
}
