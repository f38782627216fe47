//! What the last line counts of a step.
//!
//! Each count is added with a test: one that is too great for 64 bits ends the play, and never wraps.

ghost use Rattle.sl_locks.specs.Replies.{line_text};
ghost use Rattle.sl_play.specs.ToldSteps.{AreCounted, counts_with, one_more, told_view};
ghost use Rattle.sl_play.specs.declared.step_counts.PlayError.TheVariants.{TooMany};
ghost use Rattle.sl_report.specs.Reports as reports;
ghost use Rattle.sl_report.specs.Reports.{is_ok_text, refusals_told};
ghost use Rattle.sl_trace.specs.EffectTexts.{is_ok_reply};
ghost use Rattle.std.specs.Prelude.{count_by, Err, IfNone, IfOk, IfSome, length, not, ◌<◌, ◌^◌, ◌≡◌, ◌≤◌};

use sl_locks::{LineReply, StepTold, push_line_reply};
use sl_schedule::Counts;
use sl_trace::{JobReply, Reply};
use std::alloc::{AllocError, Global};
use thiserror::Error;

/// Why a play does not go on.
#[derive(Clone, Copy, Debug, PartialEq, Eq, Error)]
pub enum PlayError {
    /// There is no memory, or there are no numbers left for calls or jobs.
    #[error("out of memory")]
    NoMemory,
    /// A count of the last line would be too great for 64 bits.
    #[error("a count is too great")]
    TooMany,
}

impl From<AllocError> for PlayError {
    ghost use Rattle.sl_play.specs.declared.step_counts.PlayError.TheVariants.{NoMemory};
    ghost use Rattle.std.specs.Prelude.{◌≡◌};

    ghost from_gives = { λ _ e. e ≡ NoMemory };

    fn from(_: AllocError) -> PlayError {
        PlayError::NoMemory
    }
}

/// The counts of a run without events.
pub fn no_counts() -> Counts
    ensures { result ≡ reports.no_counts }
{
    Counts {
        events: 0,
        calls: 0,
        grants: 0,
        refusals: 0,
        conflicts: 0,
    }
}

/// Whether the answer's text begins with `ok`.
fn is_ok(reply: &Reply) -> bool
    ensures { result ≡ is_ok_reply reply.now }
{
    match reply {
        Reply::Done => true,
        Reply::Generation { generation: _ } => true,
        Reply::Granted { lver: _ } => true,
        Reply::Started {
            lver: _,
            process: _,
        } => true,
        Reply::Value {
            lver: _,
            seq: _,
            bytes: _,
        } => true,
        Reply::ValueSet { lver: _, seq: _ } => true,
        Reply::Hosts(_) => true,
        Reply::Sessions(_) => true,
        _ => false,
    }
}

/// How many commands were answered with a refusal.
fn refused(replies: &[JobReply]) -> usize
    ensures exact { result ≡ count_by (λ a. not (is_ok_reply a.reply)) replies.now }
    ensures few { (result ≤ length replies.now) × (length replies.now < 2 ^ 63) }
{
    replies.iter().filter(|a| !is_ok(&a.reply)).count()
}

/// Whether a text begins with `ok`.
#[tactic(auto, using(crate::proofs::Texts::texts_turned))]
fn is_ok_text(text: &[u8]) -> bool
    ensures { result ≡ is_ok_text text.now }
{
    text.starts_with(b"ok")
}

/// Whether the reply to a line of lvmlockd is a refusal. An `Err` is want of memory.
fn is_refusal(alloc: Global, reply: &LineReply) -> Result<bool, AllocError>
    ensures { IfOk result (λ b. b ≡ not (is_ok_text (line_text reply.now))) }
{
    let mut text = Vec::new(alloc);
    push_line_reply(&mut text, reply)?;
    Ok(!is_ok_text(text.as_slice()))
}

/// How many refusals are told of a step. An `Err` is want of memory.
fn refusals(alloc: Global, told: &StepTold) -> Result<u64, AllocError>
    ensures { IfOk result (λ n. n ≡ refusals_told (told_view told.now)) }
{
    let count = refused(told.effects.replies.as_slice()) as u64;
    match &told.line {
        None => Ok(count),
        Some((_, reply)) => {
            if is_refusal(alloc, reply)? {
                Ok(count + 1)
            } else {
                Ok(count)
            }
        }
    }
}

/// How many leases a step granted.
pub(crate) fn granted(told: &StepTold) -> usize
    ensures { result ≡ length told.now.effects.grants }
{
    told.effects.grants.len()
}

/// The counts with an event of which nothing is told.
pub(crate) fn one_more(counts: &Counts) -> Result<Counts, PlayError>
    ensures exact { IfOk result (λ k. k ≡ one_more counts.now) }
    ensures many { result ≡ Err TooMany → AreCounted (one_more counts.now) → ⊥ }
{
    match counts.events.checked_add(1) {
        Some(events) => Ok(Counts { events, ..*counts }),
        None => Err(PlayError::TooMany),
    }
}

/// The counts with these; None where one is too great.
fn added(
    counts: &Counts,
    ask: bool,
    told: &StepTold,
    refusals: u64,
    conflicts: u64,
) -> Option<Counts>
    requires { refusals ≡ refusals_told (told_view told.now) }
    ensures exact { IfSome result (λ k. k ≡ counts_with ask told.now conflicts counts.now) }
    ensures many { IfNone result (AreCounted (counts_with ask told.now conflicts counts.now) → ⊥) }
{
    let events = if ask {
        counts.events
    } else {
        counts.events.checked_add(1)?
    };
    Some(Counts {
        events,
        calls: counts.calls.checked_add(told.effects.calls.len() as u64)?,
        grants: counts.grants.checked_add(told.effects.grants.len() as u64)?,
        refusals: counts.refusals.checked_add(refusals)?,
        conflicts: counts.conflicts.checked_add(conflicts)?,
    })
}

/// The counts with those of a step, which is an ask's or another event's, and so many conflicts.
pub fn counted(
    alloc: Global,
    counts: &Counts,
    ask: bool,
    told: &StepTold,
    conflicts: u64,
) -> Result<Counts, PlayError>
    ensures exact { IfOk result (λ k. k ≡ counts_with ask told.now conflicts counts.now) }
    ensures many { result ≡ Err TooMany → AreCounted (counts_with ask told.now conflicts counts.now) → ⊥ }
{
    let refusals = refusals(alloc, told)?;
    match added(counts, ask, told, refusals, conflicts) {
        Some(counts) => Ok(counts),
        None => Err(PlayError::TooMany),
    }
}
