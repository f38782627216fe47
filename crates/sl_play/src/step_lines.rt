//! The lines of a step: what the daemon or the machine did, and the reply to lvmlockd's line, if it has come.

ghost use Rattle.sl_locks.specs.Replies.{line_text, told_as};
ghost use Rattle.sl_play.specs.ToldSteps.{tests_told, told_view};
ghost use Rattle.sl_report.specs.Reports.{step_lines, told_lines};
ghost use Rattle.sl_text.specs.Forms.{as_bytes};
ghost use Rattle.std.specs.Prelude.{OnErr, OnOk, Some, ◌++◌, ◌≡◌};

use sl_command::push_effect_lines;
use sl_locks::{LineReply, StepTold, push_line_reply};
use sl_schedule::push_test_line;
use std::alloc::AllocError;

/// Adds the line of the reply to a line of lvmlockd.
fn push_reply(
    out: &mut Vec<u8>,
    machine: u32,
    number: u64,
    reply: &LineReply,
) -> Result<(), AllocError>
    ensures { OnOk result (out.new.items ≡ out.old.items ++ as_bytes (told_lines machine (Some (number, line_text reply.now)))) }
{
    let front = format!(in *out.allocator(); "{machine} reply {number} ")?;
    out.extend_from_slice(front.as_bytes())?;
    push_line_reply(out, reply)?;
    out.push(b'\n')?;
    Ok(())
}

/// Adds the line of the reply, if it has come.
fn push_line(
    out: &mut Vec<u8>,
    machine: u32,
    line: &Option<(u64, LineReply)>,
) -> Result<(), AllocError>
    ensures { OnOk result (out.new.items ≡ out.old.items ++ as_bytes (told_lines machine (told_as line.now))) }
{
    match line {
        None => Ok(()),
        Some((number, reply)) => push_reply(out, machine, *number, reply),
    }
}

/// Adds the line of a test of the watchdog daemon, if there was one. An `Err` is want of memory, and `out` stays as it was.
pub(crate) fn push_test(
    out: &mut Vec<u8>,
    machine: u32,
    test: Option<bool>,
) -> Result<(), AllocError>
    ensures ok { OnOk result (out.new.items ≡ out.old.items ++ as_bytes (tests_told machine test)) }
    ensures err { OnErr result (out.new.items ≡ out.old.items) }
{
    match test {
        None => Ok(()),
        Some(holds) => push_test_line(out, machine, holds),
    }
}

/// Adds what stands behind the effects: the line of a reply, if one has come, and that of a test. Lines of lvmlockd are rare, so only theirs are made
/// apart. An `Err` is want of memory, and `out` stays as it was.
#[tactic(auto, using(crate::proofs::EndsFinish::bytes_joined))]
fn push_behind(
    out: &mut Vec<u8>,
    machine: u32,
    line: &Option<(u64, LineReply)>,
    test: Option<bool>,
) -> Result<(), AllocError>
    ensures ok { OnOk result (out.new.items ≡ out.old.items ++ as_bytes (told_lines machine (told_as line.now) ++ tests_told machine test)) }
    ensures err { OnErr result (out.new.items ≡ out.old.items) }
{
    if line.is_none() {
        return push_test(out, machine, test);
    }
    let mut lines = Vec::new(*out.allocator());
    push_line(&mut lines, machine, line)?;
    push_test(&mut lines, machine, test)?;
    out.extend_from_slice(&lines)
}

/// Adds the lines of an event: those of the step of a machine, and that of a test. An `Err` is want of memory, and `out` stays as it was.
#[tactic(auto, using(crate::proofs::EndsFinish::bytes_joined))]
pub fn push_event(
    out: &mut Vec<u8>,
    machine: u32,
    told: &StepTold,
    test: Option<bool>,
) -> Result<(), AllocError>
    ensures ok { OnOk result (out.new.items ≡ out.old.items ++ as_bytes (step_lines machine (told_view told.now) ++ tests_told machine test)) }
    ensures err { OnErr result (out.new.items ≡ out.old.items) }
{
    let len = out.len();
    push_effect_lines(out, machine, &told.effects)?;
    let behind = push_behind(out, machine, &told.line, test);
    if behind.is_err() {
        out.truncate(len);
    }
    behind
}
