//! The lines that a step of a daemon writes, with their line feeds: what it did, in the order of the classes of effects.
//!
//! They are written where they stay. Where memory runs out, what was there stays in front of what has been added, and that is cut off.

ghost use Rattle.std.specs.Prelude.{OnErr, OnOk, codes, decimal, ◌++◌, ◌∷◌, ◌≡◌, []};
ghost use Rattle.sl_command.specs.OutputLines.{KeepsFronts, class_text, line_text};
ghost use Rattle.sl_sector.specs.RecordTexts.{record_words};
ghost use Rattle.sl_text.specs.Forms.{as_bytes, spaced};
ghost use Rattle.sl_trace.specs.EffectTexts as texts;

use crate::replies::push_reply_behind;
use crate::words::{push_behind, push_decimal, push_part, push_text, push_word};
use sl_sector::{Rec, push_record_text};
use sl_text::Name;
use sl_trace::{Call, Effects, End, Grant, JobReply, Mode, Move, Op, Sent, Signal, Start};
use std::alloc::AllocError;

/// Adds the front of a machine's line: its number, and a word.
fn push_machine(out: &mut Vec<u8>, machine: u32, word: &str) -> Result<(), AllocError>
    ensures ok { OnOk result (out.new.items ≡ out.old.items ++ texts.machine_line machine (word.now ∷ [])) }
    ensures kept { KeepsFronts out.old.items out.new.items }
{
    push_decimal(out, u64::from(machine))?;
    push_word(out, word.as_bytes())
}

/// Adds the front of a machine's line that has a number: of a process, of a job or of a call.
fn push_numbered(out: &mut Vec<u8>, machine: u32, word: &str, number: u64) -> Result<(), AllocError>
    ensures ok { OnOk result (out.new.items ≡ out.old.items ++ texts.machine_line machine (word.now ∷ decimal number ∷ [])) }
    ensures kept { KeepsFronts out.old.items out.new.items }
{
    push_machine(out, machine, word)?;
    push_behind(out, number)
}

/// Adds a resource with its lockspace, behind a space.
fn push_resource(out: &mut Vec<u8>, lockspace: &Name, resource: &Name) -> Result<(), AllocError>
    ensures ok { OnOk result (out.new.items ≡ out.old.items ++ 32 ∷ texts.of_resource lockspace.now resource.now) }
    ensures kept { KeepsFronts out.old.items out.new.items }
{
    push_word(out, lockspace.as_slice())?;
    push_part(out, resource.as_slice())
}

/// Adds the line of an end.
fn push_end(out: &mut Vec<u8>, machine: u32, end: &End) -> Result<(), AllocError>
    ensures ok { OnOk result (out.new.items ≡ out.old.items ++ line_text machine (texts.end_words end.now)) }
    ensures kept { KeepsFronts out.old.items out.new.items }
{
    push_numbered(out, machine, "end", u64::from(end.process))?;
    push_resource(out, &end.lockspace, &end.resource)?;
    push_text(out, b"\n")
}

/// Adds the lines of ends.
fn push_ends(out: &mut Vec<u8>, machine: u32, ends: &[End]) -> Result<(), AllocError>
    ensures ok { OnOk result (out.new.items ≡ out.old.items ++ class_text machine (λ e. texts.end_words e) ends.now) }
    ensures kept { KeepsFronts out.old.items out.new.items }
{
    for end in ends {
        push_end(out, machine, end)?;
    }
    Ok(())
}

/// The word of a signal.
fn signal_word(signal: Signal) -> &'static str
    ensures { result.now ≡ texts.signal_word signal }
{
    match signal {
        Signal::Term => "term",
        Signal::Kill => "kill",
    }
}

/// Adds the line of a signal.
fn push_signal(out: &mut Vec<u8>, machine: u32, sent: &Sent) -> Result<(), AllocError>
    ensures ok { OnOk result (out.new.items ≡ out.old.items ++ line_text machine (texts.sent_words sent.now)) }
    ensures kept { KeepsFronts out.old.items out.new.items }
{
    push_numbered(out, machine, "signal", u64::from(sent.process))?;
    push_word(out, signal_word(sent.signal).as_bytes())?;
    push_text(out, b"\n")
}

/// Adds the lines of signals.
fn push_signals(out: &mut Vec<u8>, machine: u32, signals: &[Sent]) -> Result<(), AllocError>
    ensures ok { OnOk result (out.new.items ≡ out.old.items ++ class_text machine (λ s. texts.sent_words s) signals.now) }
    ensures kept { KeepsFronts out.old.items out.new.items }
{
    for sent in signals {
        push_signal(out, machine, sent)?;
    }
    Ok(())
}

/// Adds the front of a connection's line: what becomes of it, and its lockspace.
fn push_connection(
    out: &mut Vec<u8>,
    machine: u32,
    verb: &str,
    lockspace: &Name,
) -> Result<(), AllocError>
    ensures ok { OnOk result (out.new.items ≡ out.old.items ++ texts.machine_line machine (codes "wdmd" ∷ verb.now ∷ lockspace.now ∷ [])) }
    ensures kept { KeepsFronts out.old.items out.new.items }
{
    push_machine(out, machine, "wdmd")?;
    push_word(out, verb.as_bytes())?;
    push_word(out, lockspace.as_slice())
}

/// Adds the line of a connection that begins or renews, with its expiry.
fn push_expiry(
    out: &mut Vec<u8>,
    machine: u32,
    verb: &str,
    lockspace: &Name,
    expiry: u64,
) -> Result<(), AllocError>
    ensures ok { OnOk result (out.new.items ≡ out.old.items ++ line_text machine (codes "wdmd" ∷ verb.now ∷ lockspace.now ∷ decimal expiry ∷ [])) }
    ensures kept { KeepsFronts out.old.items out.new.items }
{
    push_connection(out, machine, verb, lockspace)?;
    push_behind(out, expiry)?;
    push_text(out, b"\n")
}

/// Adds the line of a connection that ends.
fn push_unregister(out: &mut Vec<u8>, machine: u32, lockspace: &Name) -> Result<(), AllocError>
    ensures ok { OnOk result (out.new.items ≡ out.old.items ++ line_text machine (codes "wdmd" ∷ codes "unregister" ∷ lockspace.now ∷ [])) }
    ensures kept { KeepsFronts out.old.items out.new.items }
{
    push_connection(out, machine, "unregister", lockspace)?;
    push_text(out, b"\n")
}

/// Adds the line of a connection's move.
fn push_move(out: &mut Vec<u8>, machine: u32, step: &Move) -> Result<(), AllocError>
    ensures ok { OnOk result (out.new.items ≡ out.old.items ++ line_text machine (texts.move_words step.now)) }
    ensures kept { KeepsFronts out.old.items out.new.items }
{
    match step {
        Move::Register { lockspace, expiry } => {
            push_expiry(out, machine, "register", lockspace, *expiry)
        }
        Move::Renew { lockspace, expiry } => push_expiry(out, machine, "renew", lockspace, *expiry),
        Move::Unregister { lockspace } => push_unregister(out, machine, lockspace),
    }
}

/// Adds the lines of connections' moves.
fn push_moves(out: &mut Vec<u8>, machine: u32, moves: &[Move]) -> Result<(), AllocError>
    ensures ok { OnOk result (out.new.items ≡ out.old.items ++ class_text machine (λ m. texts.move_words m) moves.now) }
    ensures kept { KeepsFronts out.old.items out.new.items }
{
    for step in moves {
        push_move(out, machine, step)?;
    }
    Ok(())
}

/// The word of a mode.
fn mode_word(mode: Mode) -> &'static str
    ensures { result.now ≡ texts.mode_word mode }
{
    match mode {
        Mode::Exclusive => "ex",
        Mode::Shared => "sh",
    }
}

/// Adds the mode and the lver of a grant, each behind a space.
fn push_granted(out: &mut Vec<u8>, mode: Mode, lver: u64) -> Result<(), AllocError>
    ensures ok { OnOk result (out.new.items ≡ out.old.items ++ 32 ∷ spaced (texts.mode_word mode ∷ decimal lver ∷ [])) }
    ensures kept { KeepsFronts out.old.items out.new.items }
{
    push_word(out, mode_word(mode).as_bytes())?;
    push_behind(out, lver)
}

/// Adds the line of a grant.
fn push_grant(out: &mut Vec<u8>, machine: u32, grant: &Grant) -> Result<(), AllocError>
    ensures ok { OnOk result (out.new.items ≡ out.old.items ++ line_text machine (texts.grant_words grant.now)) }
    ensures kept { KeepsFronts out.old.items out.new.items }
{
    push_numbered(out, machine, "grant", u64::from(grant.process))?;
    push_resource(out, &grant.lockspace, &grant.resource)?;
    push_granted(out, grant.mode, grant.lver)?;
    push_text(out, b"\n")
}

/// Adds the lines of grants.
fn push_grants(out: &mut Vec<u8>, machine: u32, grants: &[Grant]) -> Result<(), AllocError>
    ensures ok { OnOk result (out.new.items ≡ out.old.items ++ class_text machine (λ g. texts.grant_words g) grants.now) }
    ensures kept { KeepsFronts out.old.items out.new.items }
{
    for grant in grants {
        push_grant(out, machine, grant)?;
    }
    Ok(())
}

/// Adds the line of a child's start.
fn push_start(out: &mut Vec<u8>, machine: u32, start: &Start) -> Result<(), AllocError>
    ensures ok { OnOk result (out.new.items ≡ out.old.items ++ line_text machine (texts.start_words start.now)) }
    ensures kept { KeepsFronts out.old.items out.new.items }
{
    push_numbered(out, machine, "start", u64::from(start.process))?;
    push_word(out, start.program.as_slice())?;
    push_text(out, b"\n")
}

/// Adds the lines of children's starts.
fn push_starts(out: &mut Vec<u8>, machine: u32, starts: &[Start]) -> Result<(), AllocError>
    ensures ok { OnOk result (out.new.items ≡ out.old.items ++ class_text machine (λ s. texts.start_words s) starts.now) }
    ensures kept { KeepsFronts out.old.items out.new.items }
{
    for start in starts {
        push_start(out, machine, start)?;
    }
    Ok(())
}

/// Adds the line of a reply to a job.
#[tactic(auto, using(crate::proofs::LineLaws::replies))]
fn push_answer(out: &mut Vec<u8>, machine: u32, answer: &JobReply) -> Result<(), AllocError>
    ensures ok { OnOk result (out.new.items ≡ out.old.items ++ line_text machine (texts.answer_words answer.now)) }
    ensures kept { KeepsFronts out.old.items out.new.items }
{
    push_numbered(out, machine, "reply", answer.job)?;
    push_reply_behind(out, &answer.reply)?;
    push_text(out, b"\n")
}

/// Adds the lines of replies to jobs.
fn push_answers(out: &mut Vec<u8>, machine: u32, answers: &[JobReply]) -> Result<(), AllocError>
    ensures ok { OnOk result (out.new.items ≡ out.old.items ++ class_text machine (λ a. texts.answer_words a) answers.now) }
    ensures kept { KeepsFronts out.old.items out.new.items }
{
    for answer in answers {
        push_answer(out, machine, answer)?;
    }
    Ok(())
}

/// Adds the front of a call's line: what is done, and where.
fn push_place(out: &mut Vec<u8>, machine: u32, call: &Call, verb: &str) -> Result<(), AllocError>
    ensures ok { OnOk result (out.new.items ≡ out.old.items
        ++ texts.machine_line machine (codes "call" ∷ decimal call.now.number ∷ verb.now ∷ call.now.path ∷ decimal call.now.offset ∷ [])) }
    ensures kept { KeepsFronts out.old.items out.new.items }
{
    push_numbered(out, machine, "call", call.number)?;
    push_word(out, verb.as_bytes())?;
    push_word(out, call.path.as_slice())?;
    push_behind(out, call.offset)
}

/// Adds the line of a read.
fn push_read(out: &mut Vec<u8>, machine: u32, call: &Call, sectors: u32) -> Result<(), AllocError>
    ensures ok { OnOk result (out.new.items ≡ out.old.items
        ++ line_text machine (codes "call" ∷ decimal call.now.number ∷ codes "read" ∷ call.now.path ∷ decimal call.now.offset ∷ decimal sectors ∷ [])) }
    ensures kept { KeepsFronts out.old.items out.new.items }
{
    push_place(out, machine, call, "read")?;
    push_behind(out, u64::from(sectors))?;
    push_text(out, b"\n")
}

/// Adds the line of a write.
#[tactic(auto, using(crate::proofs::LineLaws::front_stays))]
fn push_write(out: &mut Vec<u8>, machine: u32, call: &Call, written: &Rec) -> Result<(), AllocError>
    ensures ok { OnOk result (out.new.items ≡ out.old.items
        ++ line_text machine (codes "call" ∷ decimal call.now.number ∷ codes "write" ∷ call.now.path ∷ decimal call.now.offset ∷ record_words written.now)) }
    ensures kept { KeepsFronts out.old.items out.new.items }
{
    push_place(out, machine, call, "write")?;
    push_text(out, b" ")?;
    push_record_text(out, written)?;
    push_text(out, b"\n")
}

/// Adds the line of a call.
fn push_call(out: &mut Vec<u8>, machine: u32, call: &Call) -> Result<(), AllocError>
    ensures ok { OnOk result (out.new.items ≡ out.old.items ++ line_text machine (texts.call_words call.now)) }
    ensures kept { KeepsFronts out.old.items out.new.items }
{
    match call.op {
        Op::ReadSectors { sectors } => push_read(out, machine, call, sectors),
        Op::WriteRecord { record } => push_write(out, machine, call, &record),
    }
}

/// Adds the lines of calls.
fn push_calls(out: &mut Vec<u8>, machine: u32, calls: &[Call]) -> Result<(), AllocError>
    ensures ok { OnOk result (out.new.items ≡ out.old.items ++ class_text machine (λ k. texts.call_words k) calls.now) }
    ensures kept { KeepsFronts out.old.items out.new.items }
{
    for call in calls {
        push_call(out, machine, call)?;
    }
    Ok(())
}

/// Adds the lines of all classes.
fn push_classes(out: &mut Vec<u8>, machine: u32, effects: &Effects) -> Result<(), AllocError>
    ensures ok { OnOk result (out.new.items ≡ out.old.items ++ as_bytes (texts.effect_lines machine effects.now)) }
    ensures kept { KeepsFronts out.old.items out.new.items }
{
    push_ends(out, machine, effects.ends.as_slice())?;
    push_signals(out, machine, effects.signals.as_slice())?;
    push_moves(out, machine, effects.moves.as_slice())?;
    push_grants(out, machine, effects.grants.as_slice())?;
    push_starts(out, machine, effects.starts.as_slice())?;
    push_answers(out, machine, effects.replies.as_slice())?;
    push_calls(out, machine, effects.calls.as_slice())?;
    Ok(())
}

/// Adds the lines of one step of a machine, each with its line feed. An `Err` is want of memory, and `out` stays as it was.
#[tactic(auto, using(crate::proofs::LineLaws::whole_kept))]
pub fn push_effect_lines(
    out: &mut Vec<u8>,
    machine: u32,
    effects: &Effects,
) -> Result<(), AllocError>
    ensures ok { OnOk result (out.new.items ≡ out.old.items ++ as_bytes (texts.effect_lines machine effects.now)) }
    ensures err { OnErr result (out.new.items ≡ out.old.items) }
{
    let len = out.len();
    let pushed = push_classes(out, machine, effects);
    if pushed.is_err() {
        out.truncate(len);
    }
    pushed
}
