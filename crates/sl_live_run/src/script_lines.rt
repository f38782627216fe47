//! What a line of the script gives, and what is told of it.

ghost use Rattle.sl_live_run.specs.Runs.{given_by, refusal_text};
ghost use Rattle.sl_report.specs.RefusalLines.{refusal_line};
ghost use Rattle.sl_text.specs.Forms.{as_bytes};
ghost use Rattle.std.specs.Prelude.{IfOk, [], ◌∷◌, ◌≡◌};

use sl_live_lines::GivenLine;
use sl_reader::LiveLine;
use sl_run::Refusal;
use sl_schedule::push_refusal_line;
use sl_text::Bytes;
use std::alloc::{AllocError, Global};

/// A copy of a text. An `Err` is want of memory.
fn copy(alloc: Global, text: &Bytes) -> Result<Bytes, AllocError>
    ensures { IfOk result (λ copy. copy ≡ text.now) }
{
    Bytes::from_slice(alloc, text.as_slice())
}

/// What a line of the script gives, and to which machine, if it gives anything. An `Err` is want of memory.
pub(crate) fn given_by(
    alloc: Global,
    line: &LiveLine,
) -> Result<Option<(u32, GivenLine)>, AllocError>
    ensures { IfOk result (λ given. given ≡ given_by line.now) }
{
    match line {
        LiveLine::Command { machine, text } => {
            Ok(Some((*machine, GivenLine::ForHost(copy(alloc, text)?))))
        }
        LiveLine::Post { machine, text } => {
            Ok(Some((*machine, GivenLine::ForHost(copy(alloc, text)?))))
        }
        LiveLine::Locks { machine, line } => {
            Ok(Some((*machine, GivenLine::ForLocks(copy(alloc, line)?))))
        }
        LiveLine::Exits { .. } => Ok(None),
        LiveLine::Refused { .. } => Ok(None),
    }
}

/// The line of a refusal. An `Err` is want of memory.
fn refusal_of(alloc: Global, number: u64, why: Refusal) -> Result<Vec<u8>, AllocError>
    ensures { IfOk result (λ text. text.items ≡ as_bytes (refusal_line number why ∷ [])) }
{
    let mut text = Vec::new(alloc);
    push_refusal_line(&mut text, number, why)?;
    Ok(text)
}

/// What is told of a line of the script itself: its refusal, if it is refused. An `Err` is want of memory.
pub(crate) fn refusal_text(alloc: Global, line: &LiveLine) -> Result<Vec<u8>, AllocError>
    ensures { IfOk result (λ text. text.items ≡ refusal_text line.now) }
{
    match line {
        LiveLine::Command { .. } => Ok(Vec::new(alloc)),
        LiveLine::Post { .. } => Ok(Vec::new(alloc)),
        LiveLine::Locks { .. } => Ok(Vec::new(alloc)),
        LiveLine::Exits { .. } => Ok(Vec::new(alloc)),
        LiveLine::Refused { number, why } => refusal_of(alloc, *number, *why),
    }
}
