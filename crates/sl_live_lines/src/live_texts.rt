//! The lines of live machines.

ghost use Rattle.sl_command.specs.OutputLines.{line_text};
ghost use Rattle.sl_live_lines.specs.LocksAlong.{step_along};
ghost use Rattle.sl_live_lines.specs.LiveTexts.{answer_jobs, answer_text, last_text, line_jobs, live_line, replies_text, step_jobs};
ghost use Rattle.sl_locks.specs.Replies as locks;
ghost use Rattle.sl_locks.specs.Replies.{told_as};
ghost use Rattle.sl_report.specs.Reports.{told_lines};
ghost use Rattle.sl_text.specs.Forms.{as_bytes};
ghost use Rattle.sl_trace.specs.EffectTexts.{answer_words, reply_text};
ghost use Rattle.std.specs.Prelude.{OnOk, Some, flat_map, [], ◌++◌, ◌∷◌, ◌≡◌};

use crate::{Along, is_told};
use sl_command::push_reply_text;
use sl_locks::{LineReply, push_line_reply};
use sl_run::Refusal;
use sl_schedule::push_refusal_line;
use sl_text::write::push_line;
use sl_trace::{Entry, JobReply, Reply};
use std::alloc::AllocError;

/// How a live script ended, as its last line tells it.
#[derive(Clone, Copy)]
pub enum Ending {
    /// It was read to its end, and no line was refused.
    Whole,
    /// The line with this number was refused.
    Refused { number: u64, why: Refusal },
    /// A read of it failed, so its end is not known.
    Cut,
}

/// Adds a space and the text of a reply.
fn push_behind(out: &mut Vec<u8>, reply: &Reply) -> Result<(), AllocError>
    ensures { OnOk result (out.new.items ≡ out.old.items ++ 32 ∷ reply_text reply.now) }
{
    out.push(b' ')?;
    push_reply_text(out, reply)
}

/// Adds the line of a reply.
#[tactic(auto, using(crate::proofs::LiveLaws::replies))]
fn push_reply(out: &mut Vec<u8>, machine: usize, answer: &JobReply) -> Result<(), AllocError>
    ensures { OnOk result (out.new.items ≡ out.old.items ++ line_text machine (answer_words answer.now)) }
{
    let front = format!(in *out.allocator(); "{machine} reply {}", answer.job)?;
    out.extend_from_slice(front.as_bytes())?;
    push_behind(out, &answer.reply)?;
    out.push(b'\n')?;
    Ok(())
}

/// Adds the line of a reply, unless it is that to this ask, and its job.
fn push_told(
    out: &mut Vec<u8>,
    jobs: &mut Vec<u64>,
    machine: usize,
    asked: Option<u64>,
    answer: &JobReply,
) -> Result<(), AllocError>
    ensures text { OnOk result (out.new.items ≡ out.old.items ++ answer_text machine asked answer.now) }
    ensures jobs { OnOk result (jobs.new.items ≡ jobs.old.items ++ answer_jobs asked answer.now) }
{
    if is_told(asked, answer) {
        push_reply(out, machine, answer)?;
        jobs.push(answer.job)?;
        Ok(())
    } else {
        Ok(())
    }
}

/// Adds the lines of a step's replies but that to this ask, and their jobs.
fn push_replies(
    out: &mut Vec<u8>,
    jobs: &mut Vec<u64>,
    machine: usize,
    asked: Option<u64>,
    answers: &[JobReply],
) -> Result<(), AllocError>
    ensures text { OnOk result (out.new.items ≡ out.old.items ++ flat_map (answer_text machine asked) answers.now) }
    ensures jobs { OnOk result (jobs.new.items ≡ jobs.old.items ++ flat_map (answer_jobs asked) answers.now) }
{
    for answer in answers {
        push_told(out, jobs, machine, asked, answer)?;
    }
    Ok(())
}

/// Adds the line of the reply to a line for lvmlockd.
fn push_lock_reply(
    out: &mut Vec<u8>,
    machine: usize,
    number: u64,
    reply: &LineReply,
) -> Result<(), AllocError>
    ensures { OnOk result (out.new.items ≡ out.old.items ++ as_bytes (told_lines machine (Some (number, locks.line_text reply.now)))) }
{
    let front = format!(in *out.allocator(); "{machine} reply {number} ")?;
    out.extend_from_slice(front.as_bytes())?;
    push_line_reply(out, reply)?;
    out.push(b'\n')?;
    Ok(())
}

/// Adds the line of that reply, and its job, if it has come.
fn push_line_told(
    out: &mut Vec<u8>,
    jobs: &mut Vec<u64>,
    machine: usize,
    line: &Option<(u64, LineReply)>,
) -> Result<(), AllocError>
    ensures text { OnOk result (out.new.items ≡ out.old.items ++ as_bytes (told_lines machine (told_as line.now))) }
    ensures jobs { OnOk result (jobs.new.items ≡ jobs.old.items ++ line_jobs (told_as line.now)) }
{
    match line {
        None => Ok(()),
        Some((number, reply)) => {
            push_lock_reply(out, machine, *number, reply)?;
            jobs.push(*number)?;
            Ok(())
        }
    }
}

/// Adds the lines of a step's replies, by which the locks go on, and the jobs whose replies they are.
pub(crate) fn push_step(
    out: &mut Vec<u8>,
    jobs: &mut Vec<u64>,
    machine: usize,
    locks: &mut Along,
    entry: &Entry,
) -> Result<(), AllocError>
    ensures text { OnOk result (out.new.items ≡ out.old.items ++ replies_text machine locks.old entry.now) }
    ensures jobs { OnOk result (jobs.new.items ≡ jobs.old.items ++ step_jobs locks.old entry.now) }
    ensures locks { OnOk result (locks.new ≡ step_along locks.old entry.now) }
{
    let asked = locks.asked_by(entry);
    push_replies(out, jobs, machine, asked, entry.effects.replies.as_slice())?;
    let line = locks.step(entry)?;
    push_line_told(out, jobs, machine, &line)?;
    Ok(())
}

/// Adds the last line.
fn push_live_line(out: &mut Vec<u8>, machines: usize, replies: u64) -> Result<(), AllocError>
    ensures { OnOk result (out.new.items ≡ out.old.items ++ live_line machines replies ++ 10 ∷ []) }
{
    let line = format!(in *out.allocator(); "live machines {machines} replies {replies}")?;
    push_line(out, line.as_bytes())
}

/// Adds what stands at the end, by how the script ended. An `Err` is want of memory.
pub fn push_last(
    out: &mut Vec<u8>,
    machines: usize,
    replies: u64,
    ending: Ending,
) -> Result<(), AllocError>
    ensures { OnOk result (out.new.items ≡ out.old.items ++ last_text machines replies ending) }
{
    match ending {
        Ending::Whole => push_live_line(out, machines, replies),
        Ending::Refused { number, why } => push_refusal_line(out, number, why),
        Ending::Cut => Ok(()),
    }
}
