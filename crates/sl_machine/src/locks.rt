//! What a machine asks of the locks that lvmlockd has there.

ghost use Rattle.sl_locks.specs.Replies.{told_as};
ghost use Rattle.sl_locks.specs.Steps.{lock_input};
ghost use Rattle.sl_locks.specs.Tables.{has_room, locks_of};
ghost use Rattle.sl_machine.specs.HeardInputs.{heard_by_locks};
ghost use Rattle.sl_run.specs.Locks.{Locks, fresh_locks, left_locks, locks_after, told_effects};
ghost use Rattle.std.specs.Prelude.{Bool, IfOk, OnOk, is_some, true, ◌≡◌};

use sl_locks::{LockInput, LvmLocks, StepTold};
use sl_run::Header;
use sl_text::Bytes;
use sl_trace::{Effects, Input};
use std::alloc::{AllocError, Global};

/// lvmlockd's locks on a machine, with the line that runs.
pub trait LockTable: Drop {
    /// The locks, with the line that runs, as the definitions have them.
    ghost locks: { Self → Locks };

    /// Whether they have room for one step more.
    ghost has_room: { Self → Bool };

    /// Those of a header's world before any line. They take no memory.
    fn fresh(alloc: Global, header: &Header) -> Self
        ensures { locks result ≡ fresh_locks header.now };

    /// Whether a line runs: it has no reply yet.
    fn has_line(&self) -> bool
        ensures { result ≡ is_some (locks self.now).line };

    /// Whether an ask is due: it is the next thing to happen.
    fn has_ask(&self) -> bool
        ensures { result ≡ is_some (locks self.now).due };

    /// The ask that is due. An `Err` is want of memory.
    fn ask(&self, alloc: Global) -> Result<Option<Bytes>, AllocError>
        ensures { IfOk result (λ text. text ≡ (locks self.now).due) };

    /// Takes the memory that one step more needs. An `Err` is want of it.
    fn reserve(&mut self) -> Result<(), AllocError>
        ensures room { OnOk result (has_room self.new ≡ true) }
        ensures same { locks self.new ≡ locks self.old };

    /// The number of the ask that has no reply yet.
    fn asked(&self) -> Option<u64>
        ensures { result ≡ (locks self.now).asked };

    /// The step with this number, input and effects, which stand where it is told: there are then the effects without the reply to an ask,
    /// which is kept or told by the line, and the reply to the line that runs, if it has come, with the line's number. It takes no memory.
    fn turn(&mut self, number: u64, input: LockInput, told: &mut StepTold)
        requires { has_room self.old ≡ true }
        ensures stays { locks self.new ≡ (locks_after number (lock_input input) told.old.effects (locks self.old)).0 }
        ensures line { told_as told.new.line ≡ (locks_after number (lock_input input) told.old.effects (locks self.old)).1 }
        ensures effects { told.new.effects ≡ told_effects number (lock_input input) told.old.effects (locks self.old) };

    /// The locks whose holdings the machine itself has ended, without its daemon, leave the table. They take no memory.
    fn leave(&mut self, effects: &Effects)
        ensures { locks self.new ≡ left_locks effects.now (locks self.old) };
}

impl LockTable for LvmLocks {
    ghost locks = { locks_of };

    ghost has_room = { has_room };

    fn fresh(alloc: Global, header: &Header) -> LvmLocks {
        LvmLocks::fresh(alloc, header)
    }

    fn has_line(&self) -> bool {
        LvmLocks::has_line(self)
    }

    fn has_ask(&self) -> bool {
        LvmLocks::has_ask(self)
    }

    fn ask(&self, alloc: Global) -> Result<Option<Bytes>, AllocError> {
        self.ask_text(alloc)
    }

    fn reserve(&mut self) -> Result<(), AllocError> {
        LvmLocks::reserve(self)
    }

    fn asked(&self) -> Option<u64> {
        LvmLocks::asked(self)
    }

    fn turn(&mut self, number: u64, input: LockInput, told: &mut StepTold) {
        LvmLocks::turn(self, number, input, told);
    }

    fn leave(&mut self, effects: &Effects) {
        LvmLocks::leave(self, effects);
    }
}

/// What lvmlockd's locks take of an input. An `Err` is want of memory.
pub fn lock_input_of(alloc: Global, input: &Input) -> Result<LockInput, AllocError>
    ensures { IfOk result (λ l. lock_input l ≡ heard_by_locks input.now) }
{
    match input {
        Input::Line(_) => Ok(LockInput::Line),
        Input::Number(text) => Ok(LockInput::Number(Bytes::from_slice(alloc, text.as_slice())?)),
        Input::Exit { process } => Ok(LockInput::Exit(*process)),
        Input::Answer { call: _, answer: _ } => Ok(LockInput::Nothing),
        Input::Wake => Ok(LockInput::Nothing),
        Input::Spawned { process: _, ok: _ } => Ok(LockInput::Nothing),
    }
}
