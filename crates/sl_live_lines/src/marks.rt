//! What an entry opens and closes: its calls and starts, and what its input answers.

ghost use Rattle.sl_live_lines.specs.AuditedHistory.{after_entry, answered_by, calls_made, has, opened_at, starts_made, told_by};
ghost use Rattle.sl_trace.specs.declared.effects.Call.{Call as CallOf};
ghost use Rattle.sl_trace.specs.declared.effects.Start.{Start as StartOf};
ghost use Rattle.std.specs.Prelude.{OnOk, Some, cond, map, ℕ, ◌≡◌};

use crate::open_numbers::Open;
use sl_trace::{Call, Entry, Input, Start};
use std::alloc::AllocError;

/// The call that an input answers, if it does.
fn answered_by(input: &Input) -> Option<u64>
    ensures { result ≡ answered_by input.now }
{
    match input {
        Input::Answer { call, .. } => Some(*call),
        Input::Line(_) => None,
        Input::Number(_) => None,
        Input::Wake => None,
        Input::Exit { .. } => None,
        Input::Spawned { .. } => None,
    }
}

/// The start that it answers, if it does.
fn told_by(input: &Input) -> Option<u64>
    ensures { result ≡ told_by input.now }
{
    match input {
        Input::Spawned { process, .. } => Some(u64::from(*process)),
        Input::Line(_) => None,
        Input::Number(_) => None,
        Input::Answer { .. } => None,
        Input::Wake => None,
        Input::Exit { .. } => None,
    }
}

/// Opens the calls of an entry. An `Err` is want of memory.
#[tactic(auto, using(crate::proofs::AnswerLaws::opened_more))]
fn open_calls(opened: &mut Open, number: u64, calls: &[Call]) -> Result<(), AllocError>
    ensures { OnOk result ((n : ℕ) → opened_at opened.new n ≡ cond (has (map (λ (c : CallOf). c.number) calls.now) n) (Some number) (opened_at opened.old n)) }
{
    for call in calls {
        opened.open(call.number, number)?;
    }
    Ok(())
}

/// Opens its starts. An `Err` is want of memory.
#[tactic(auto, using(crate::proofs::AnswerLaws::opened_more))]
fn open_starts(opened: &mut Open, number: u64, starts: &[Start]) -> Result<(), AllocError>
    ensures { OnOk result ((n : ℕ) → opened_at opened.new n ≡ cond (has (map (λ (s : StartOf). s.process) starts.now) n) (Some number) (opened_at opened.old n)) }
{
    for start in starts {
        opened.open(u64::from(start.process), number)?;
    }
    Ok(())
}

/// What an entry leaves of the open calls. An `Err` is want of memory.
pub(crate) fn note_calls(opened: &mut Open, number: u64, entry: &Entry) -> Result<(), AllocError>
    ensures { OnOk result ((n : ℕ) → opened_at opened.new n
        ≡ after_entry (calls_made entry.now) (answered_by entry.now.input) number n (opened_at opened.old n)) }
{
    opened.close(answered_by(&entry.input));
    open_calls(opened, number, entry.effects.calls.as_slice())
}

/// What it leaves of the open starts. An `Err` is want of memory.
pub(crate) fn note_starts(opened: &mut Open, number: u64, entry: &Entry) -> Result<(), AllocError>
    ensures { OnOk result ((n : ℕ) → opened_at opened.new n
        ≡ after_entry (starts_made entry.now) (told_by entry.now.input) number n (opened_at opened.old n)) }
{
    opened.close(told_by(&entry.input));
    open_starts(opened, number, entry.effects.starts.as_slice())
}
