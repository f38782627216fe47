//! What the answer of a call tells the own sector, and what it makes due of a joined lease.

ghost use Rattle.sl_alone.specs.DeltaSteps.{IsSized};
ghost use Rattle.sl_delta.specs.DeltaDecisions.{IsFitNext};
ghost use Rattle.sl_delta.specs.OwnSector.{after_answer, answer_in, heard};
ghost use Rattle.sl_trace.specs.DeltaDecisions.{next_after_free, next_after_renewal};
ghost use Rattle.sl_words.specs.Bounds.{moments};
ghost use Rattle.std.specs.Prelude.{IfOk, false, true, ◌<◌, ◌≡◌};

use crate::delta_purposes::is_first_read;
use sl_delta::{OwnSector, SectorAnswer};
use sl_sector::Image;
use sl_trace::{Answer, DeltaNext, Purpose, Reply};
use std::alloc::{AllocError, Global};
use std::sync::Arc;

/// The answer, with its sector read. An `Err` is want of memory.
pub(crate) fn sector_answer(alloc: Global, answer: Answer) -> Result<SectorAnswer, AllocError>
    requires { IsSized answer }
    ensures { IfOk result (λ a. answer_in a ≡ answer) }
{
    match answer {
        Answer::Read(bytes) => Ok(SectorAnswer::Read(Arc::new(alloc, Image::of_bytes(bytes))?)),
        Answer::Written => Ok(SectorAnswer::Written),
        Answer::Failed => Ok(SectorAnswer::Failed),
    }
}

/// Any of its calls was answered so.
pub(crate) fn told(own: &mut OwnSector, now: u64, purpose: &Purpose, answer: SectorAnswer)
    requires { now < moments }
    ensures { own.new ≡ after_answer purpose.now (answer_in answer) now own.old }
{
    if is_first_read(purpose) {
        own.first_answered(now, answer);
    } else {
        own.answered(now, purpose);
    }
}

/// The read of all delta sectors was answered.
pub(crate) fn surveyed(own: &mut OwnSector, now: u64)
    requires { now < moments }
    ensures { own.new ≡ heard now true false own.old }
{
    own.answered(now, &Purpose::Survey);
}

/// After the answer of a renewal submitted at the reading `made`: in recovery neither the connection moves nor are ids read.
pub fn after_renewal(recovering: bool, made: u64, answer: &SectorAnswer) -> DeltaNext
    requires { made < moments }
    ensures exact { result ≡ next_after_renewal recovering made (answer_in answer.now) }
    ensures fit { IsFitNext result }
{
    match answer {
        SectorAnswer::Read(_) => DeltaNext::Nothing,
        SectorAnswer::Written => {
            if recovering {
                DeltaNext::Nothing
            } else {
                DeltaNext::MoveConnection { renewed: made }
            }
        }
        SectorAnswer::Failed => DeltaNext::Nothing,
    }
}

/// After the answer of the free, the call with this number, for the job that leaves.
pub fn after_free(job: u64, call: u64, answer: &SectorAnswer) -> DeltaNext
    ensures exact { result ≡ next_after_free job call (answer_in answer.now) }
    ensures fit { IsFitNext result }
{
    match answer {
        SectorAnswer::Read(_) => DeltaNext::Nothing,
        SectorAnswer::Written => DeltaNext::EndLeaving {
            job,
            reply: Reply::Done,
        },
        SectorAnswer::Failed => DeltaNext::EndLeaving {
            job,
            reply: Reply::IoFault { call },
        },
    }
}
