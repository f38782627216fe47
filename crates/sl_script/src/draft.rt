//! The effects of a step, as they are read.

ghost use Rattle.sl_world_state.specs.Daemons.{IsSoundOp};
ghost use Rattle.sl_script.specs.Drafts.{draft_of, is_few};
ghost use Rattle.sl_script.specs.MadeSteps.{AreMade};
ghost use Rattle.std.specs.Prelude.{IfOk, true, ◌<◌, ◌^◌, ◌≡◌};

use crate::calls::NewCalls;
use crate::effect;
use crate::effect::Asked;
use crate::starts::NewStarts;
use sl_text::Seq;
use sl_text::words::Words;
use sl_trace::{Effects, End, Grant, JobReply, Move, Sent};
use std::alloc::{AllocError, Global};

/// How many effects of a class a step makes at most.
pub const MOST: usize = 32;

/// The effects that were read so far for a step, each class with its limit.
#[derive(Drop)]
pub struct Draft {
    ends: Vec<End>,
    signals: Vec<Sent>,
    moves: Vec<Move>,
    grants: Vec<Grant>,
    starts: NewStarts,
    replies: Vec<JobReply>,
    calls: NewCalls,
}

/// Puts away what was read, if something was.
fn keep<T: Drop>(items: &mut Vec<T>, read: Result<T, usize>) -> Result<(), AllocError> {
    if let Ok(item) = read {
        items.push(item)?;
    }
    Ok(())
}

impl Draft {
    /// Nothing, where the next call and child have these numbers.
    fn new(alloc: Global, next: u64, sector: u32, child: u64) -> Draft
        ensures numbers { draft_of result ≡ record { next = next; sector = sector; child = child } }
        ensures few { is_few result ≡ true }
    {
        Draft {
            ends: Vec::new(alloc),
            signals: Vec::new(alloc),
            moves: Vec::new(alloc),
            grants: Vec::new(alloc),
            starts: NewStarts::new(alloc, child),
            replies: Vec::new(alloc),
            calls: NewCalls::new(alloc, next, sector),
        }
    }

    /// Puts a call away, if one was read.
    fn ask(&mut self, read: Result<Asked, usize>) -> Result<(), AllocError>
        requires op { IfOk read (λ a. IsSoundOp a.op) }
        requires numbers { (draft_of self.old).next < 2 ^ 63 }
        ensures { draft_of self.new ≡ draft_of self.old }
    {
        match read {
            Ok(asked) => self.calls.put(asked.path, asked.offset, asked.op),
            Err(_) => Ok(()),
        }
    }

    /// Puts away what a class of its own has no words for: a call or a child, if one is told.
    fn take_numbered(&mut self, words: &mut Words<'_>) -> Result<(), AllocError>
        requires { (draft_of self.old).next < 2 ^ 63 }
        ensures { draft_of self.new ≡ draft_of self.old }
    {
        if words.skip(b"read") {
            self.ask(effect::read(words))
        } else if words.skip(b"write") {
            self.ask(effect::write(words))
        } else if words.skip(b"start") {
            match words.path() {
                Ok(program) => self.starts.put(program),
                Err(_) => Ok(()),
            }
        } else {
            Ok(())
        }
    }

    /// Puts an effect away.
    fn take(&mut self, text: &[u8]) -> Result<(), AllocError>
        requires { (draft_of self.old).next < 2 ^ 63 }
        ensures { draft_of self.new ≡ draft_of self.old }
    {
        let mut words = Words::new(text);
        if words.skip(b"end") {
            keep(&mut self.ends, effect::end(&mut words))
        } else if words.skip(b"signal") {
            keep(&mut self.signals, effect::signal(&mut words))
        } else if words.skip(b"wdmd") {
            keep(&mut self.moves, effect::moved(&mut words))
        } else if words.skip(b"grant") {
            keep(&mut self.grants, effect::grant(&mut words))
        } else if words.skip(b"reply") {
            keep(&mut self.replies, effect::replied(&mut words))
        } else {
            self.take_numbered(&mut words)
        }
    }

    /// Whether no class but the numbered ones has too many.
    fn is_few(&self) -> bool
        ensures { result ≡ is_few self.now }
    {
        self.ends.len() <= MOST
            && self.signals.len() <= MOST
            && self.moves.len() <= MOST
            && self.grants.len() <= MOST
            && self.replies.len() <= MOST
    }

    /// The effects.
    fn into_effects(self) -> Effects
        requires { is_few self ≡ true }
        ensures { AreMade (draft_of self).next (draft_of self).sector (draft_of self).child result }
    {
        let Draft {
            ends,
            signals,
            moves,
            grants,
            starts,
            replies,
            calls,
        } = self;
        Effects {
            ends: Seq::new(ends),
            signals: Seq::new(signals),
            moves: Seq::new(moves),
            grants: Seq::new(grants),
            starts: starts.into_seq(),
            replies: Seq::new(replies),
            calls: calls.into_seq(),
        }
    }
}

/// All that a text tells.
fn drafted(
    alloc: Global,
    text: &[u8],
    next: u64,
    sector: u32,
    child: u64,
) -> Result<Draft, AllocError>
    requires { next < 2 ^ 63 }
    ensures { IfOk result (λ d. draft_of d ≡ record { next = next; sector = sector; child = child }) }
{
    let mut draft = Draft::new(alloc, next, sector, child);
    for part in text.split(|byte| *byte == b',') {
        draft.take(part)?;
    }
    Ok(draft)
}

/// The effects that a text tells; none, where it tells too many.
pub fn effects_of(
    alloc: Global,
    text: &[u8],
    next: u64,
    sector: u32,
    child: u64,
) -> Result<Effects, AllocError>
    requires { next < 2 ^ 63 }
    ensures { IfOk result (AreMade next sector child) }
{
    let draft = drafted(alloc, text, next, sector, child)?;
    if draft.is_few() {
        Ok(draft.into_effects())
    } else {
        Ok(Draft::new(alloc, next, sector, child).into_effects())
    }
}
