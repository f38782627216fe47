//! Writes that take effect in part: tested and then made, since what a part of a write leaves is asked of the sector that it falls on.

ghost use Rattle.sl_world_state.specs.Refusals.{is_shaped_in, refusal_in};
ghost use Rattle.sl_machine.specs.KeptParts.{kept_state};
ghost use Rattle.sl_run.specs.declared.event.Event.TheVariants.{Tear};
ghost use Rattle.sl_trace.specs.Traces.{no_effects};
ghost use Rattle.sl_world.specs.AllowedEvents.{AllCome, StandsForSome};
ghost use Rattle.sl_world.specs.GivenSteps.{IsSame};
ghost use Rattle.std.specs.Prelude.{IfErr, IfOk, OnErr, OnOk, Some, true, ◌≡◌};

use crate::world::World;
use sl_machine::LockTable;
use sl_run::Refusal;
use sl_text::Bytes;
use sl_world_state::Daemon;
use std::alloc::AllocError;

impl<D: Daemon, L: LockTable> World<D, L> {
    /// A write takes effect in part, or why it may not. An `Err` is want of memory.
    pub(crate) fn tear(
        &mut self,
        machine: u32,
        call: u64,
        kept: u32,
        bytes: &Bytes,
    ) -> Result<Result<(), Refusal>, AllocError>
        requires some { StandsForSome D.commands D.stands (kept_state L.locks self.old.kept) self.old.hosts }
        requires shaped { is_shaped_in (kept_state L.locks self.old.kept).header (Tear machine call kept bytes.now) ≡ true }
        ensures refused { IfOk result (λ x. IfErr x (λ r. refusal_in D.commands (kept_state L.locks self.old.kept) (Tear machine call kept bytes.now) ≡ Some r)) }
        ensures come { IfOk result (λ x. OnOk x (AllCome D.commands D.stands (kept_state L.locks self.old.kept) self.old.hosts (Tear machine call kept bytes.now) (kept_state L.locks self.new.kept) self.new.hosts no_effects)) }
        ensures same { IfOk result (λ x. OnErr x (IsSame (kept_state L.locks self.old.kept) self.old.hosts (kept_state L.locks self.new.kept) self.new.hosts)) }
        ensures err { OnErr result (IsSame (kept_state L.locks self.old.kept) self.old.hosts (kept_state L.locks self.new.kept) self.new.hosts) }
    {
        let told = self.kept.tear(machine, call, kept, bytes)?;
        Ok(told)
    }
}
