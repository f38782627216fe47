//! A copy of what a step did.

ghost use Rattle.sl_cell.specs.Copies.{AreWithin};
ghost use Rattle.sl_cell.specs.CopyRoom.{Holds};
ghost use Rattle.sl_world_state.specs.declared.daemon.Most.{Most};
ghost use Rattle.std.specs.Prelude.{OnOk, ℕ, ◌≡◌};

use crate::copies::Blank;
use crate::reply_copies::Blanks;
use sl_trace::{Call, Effects, End, Grant, Move, Sent, Start};
use sl_world_state::Most;
use std::alloc::{AllocError, Global};

/// Memory for a copy of what a step does.
#[derive(Drop)]
pub(crate) struct Spare {
    ends: Blank<End>,
    signals: Blank<Sent>,
    moves: Blank<Move>,
    grants: Blank<Grant>,
    starts: Blank<Start>,
    replies: Blanks,
    calls: Blank<Call>,
}

impl Spare {
    /// Room for the copies of no step. It takes no memory.
    pub(crate) fn new(alloc: Global) -> Spare {
        Spare {
            ends: Blank::new(alloc),
            signals: Blank::new(alloc),
            moves: Blank::new(alloc),
            grants: Blank::new(alloc),
            starts: Blank::new(alloc),
            replies: Blanks::new(alloc),
            calls: Blank::new(alloc),
        }
    }

    /// Sees that it is for so much at least, with a list of so many elements. An `Err` is want of memory.
    pub(crate) fn reserve(&mut self, most: &Most, longest: usize) -> Result<(), AllocError>
        ensures { OnOk result (Holds self.new most.now longest) }
    {
        self.ends.reserve(most.ends)?;
        self.signals.reserve(most.signals)?;
        self.moves.reserve(most.moves)?;
        self.grants.reserve(most.grants)?;
        self.starts.reserve(most.starts)?;
        self.replies.reserve(most.replies, longest)?;
        self.calls.reserve(most.calls)
    }

    /// A copy of what a step did.
    pub(crate) fn copy(&mut self, alloc: Global, effects: &Effects) -> Effects
        requires { (most : Most) × (longest : ℕ) × Holds self.old most longest × AreWithin most longest effects.now }
        ensures { result ≡ effects.now }
    {
        Effects {
            ends: self.ends.copy(alloc, effects.ends.as_slice()),
            signals: self.signals.copy(alloc, effects.signals.as_slice()),
            moves: self.moves.copy(alloc, effects.moves.as_slice()),
            grants: self.grants.copy(alloc, effects.grants.as_slice()),
            starts: self.starts.copy(alloc, effects.starts.as_slice()),
            replies: self.replies.copy(alloc, effects.replies.as_slice()),
            calls: self.calls.copy(alloc, effects.calls.as_slice()),
        }
    }
}
