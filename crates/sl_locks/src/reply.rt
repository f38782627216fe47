//! What a line is answered, and its text.

ghost use Rattle.sl_locks.specs.Replies.{held_words, line_text};
ghost use Rattle.sl_run.specs.Lvm.{held_lock_word};
ghost use Rattle.sl_text.specs.Forms.{spaced};
ghost use Rattle.sl_trace.specs.EffectTexts as texts;
ghost use Rattle.std.specs.Prelude.{OnOk, codes, map, ◌++◌, ◌∷◌, ◌≡◌};

use crate::lock::HeldLock;
use sl_command::push_reply_text;
use sl_text::Seq;
use sl_trace::{Mode, Reply};
use std::alloc::AllocError;

/// What lvmlockd answers to a line.
#[derive(Drop)]
pub enum LineReply {
    /// As the host replied, or as it would.
    Passed(Reply),
    /// Whether the group's value is the one that was seen.
    Compared { same: bool },
    /// The locks that are held, in the order of their grants.
    Locks(Seq<HeldLock>),
}

/// The word of a mode.
fn mode_word(mode: Mode) -> &'static str
    ensures { result.now ≡ texts.mode_word mode }
{
    match mode {
        Mode::Exclusive => "ex",
        Mode::Shared => "sh",
    }
}

/// Adds a text behind a character.
fn push_behind(out: &mut Vec<u8>, mark: u8, text: &[u8]) -> Result<(), AllocError>
    ensures { OnOk result (out.new.items ≡ out.old.items ++ mark ∷ text.now) }
{
    out.push(mark)?;
    out.extend_from_slice(text)
}

/// Adds a held lock behind a space.
fn push_held(out: &mut Vec<u8>, held: &HeldLock) -> Result<(), AllocError>
    ensures { OnOk result (out.new.items ≡ out.old.items ++ 32 ∷ held_lock_word held.now) }
{
    push_behind(out, b' ', held.lock.group.as_slice())?;
    push_behind(out, b'/', held.lock.name.as_slice())?;
    push_behind(out, b':', mode_word(held.mode).as_bytes())
}

/// Adds held locks, each behind a space.
fn push_each(out: &mut Vec<u8>, held: &[HeldLock]) -> Result<(), AllocError>
    ensures { OnOk result (out.new.items ≡ out.old.items ++ held_words held.now) }
{
    for lock in held {
        push_held(out, lock)?;
    }
    Ok(())
}

/// Adds what is told of the locks that are held.
#[tactic(auto, using(crate::proofs::ReplyTexts::words))]
fn push_locks(out: &mut Vec<u8>, held: &[HeldLock]) -> Result<(), AllocError>
    ensures { OnOk result (out.new.items ≡ out.old.items ++ spaced (codes "ok" ∷ map held_lock_word held.now)) }
{
    out.extend_from_slice(b"ok")?;
    push_each(out, held)
}

/// Adds the text of the reply to a line. An `Err` is want of memory.
pub fn push_line_reply(out: &mut Vec<u8>, reply: &LineReply) -> Result<(), AllocError>
    ensures { OnOk result (out.new.items ≡ out.old.items ++ line_text reply.now) }
{
    match reply {
        LineReply::Passed(reply) => push_reply_text(out, reply),
        LineReply::Compared { same } => {
            if *same {
                out.extend_from_slice(b"ok same")
            } else {
                out.extend_from_slice(b"ok changed")
            }
        }
        LineReply::Locks(held) => push_locks(out, held.as_slice()),
    }
}
