//! Processes that exit, and machines that go down: what no daemon takes the machine does itself.

ghost use Rattle.sl_world_state.specs.Inputs.{own_in};
ghost use Rattle.sl_world_state.specs.KeptWorld.{MachineState, machine_in};
ghost use Rattle.sl_world_state.specs.Steps.{taken_kept};
ghost use Rattle.sl_machine.specs.KeptParts.{kept_state};
ghost use Rattle.sl_run.specs.declared.event.Event.TheVariants.{ExitOf, Reset};
ghost use Rattle.sl_world.specs.AllowedEvents.{IsAllowed};
ghost use Rattle.sl_world.specs.GivenSteps.{IsSame};
ghost use Rattle.sl_world.specs.ToldEvents.{ComesTold, told_view};
ghost use Rattle.std.specs.Prelude.{IfOk, None, OnErr, OnOk, Some, false, ◌≡◌};

use crate::world::World;
use sl_locks::StepTold;
use sl_machine::{Kept, LockTable};
use sl_trace::{Effects, Input};
use sl_world_state::Daemon;
use std::alloc::AllocError;

/// Whether a daemon runs on a machine; where there is none, none does.
fn runs_on<L: LockTable>(kept: &Kept<L>, machine: u32) -> bool
    ensures there { (s : MachineState) → machine_in (kept_state L.locks kept.now) machine ≡ Some s → result ≡ s.runs }
    ensures absent { machine_in (kept_state L.locks kept.now) machine ≡ None → result ≡ false }
{
    match kept.machine(machine) {
        None => false,
        Some(found) => found.runs,
    }
}

/// What a machine itself does when a process exits. An `Err` is want of memory, and changes nothing that is seen.
fn exit_alone<L: LockTable>(
    kept: &mut Kept<L>,
    machine: u32,
    process: u32,
) -> Result<Effects, AllocError>
    ensures own { IfOk result (λ fx. fx ≡ own_in (kept_state L.locks kept.old) (ExitOf machine process)) }
    ensures kept { IfOk result (λ fx. kept_state L.locks kept.new ≡ taken_kept machine None fx (kept_state L.locks kept.old)) }
    ensures err { OnErr result (kept_state L.locks kept.new ≡ kept_state L.locks kept.old) }
{
    let effects = kept.exit_effects(machine, process)?;
    kept.reserve_own(machine, &effects)?;
    kept.own(machine, &effects);
    Ok(effects)
}

/// Effects that no daemon made are told.
pub(crate) fn tell_alone(told: &mut StepTold, effects: Effects)
    ensures { told_view told.new ≡ record { effects = effects; line = None } }
{
    told.effects = effects;
    told.line = None;
}

impl<D: Daemon, L: LockTable> World<D, L> {
    /// A process ends. An `Err` is want of memory or of numbers.
    pub(crate) fn exit(
        &mut self,
        machine: u32,
        process: u32,
        told: &mut StepTold,
    ) -> Result<(), AllocError>
        requires { IsAllowed D.commands D.stands (kept_state L.locks self.old.kept) self.old.hosts (ExitOf machine process) }
        ensures ok { OnOk result (ComesTold D.commands D.stands (kept_state L.locks self.old.kept) self.old.hosts (ExitOf machine process) (kept_state L.locks self.new.kept) self.new.hosts told.new) }
        ensures err { OnErr result (IsSame (kept_state L.locks self.old.kept) self.old.hosts (kept_state L.locks self.new.kept) self.new.hosts) }
    {
        let runs = runs_on(&self.kept, machine);
        if runs {
            self.give(machine, Input::Exit { process }, told)
        } else {
            let effects = exit_alone(&mut self.kept, machine, process)?;
            tell_alone(told, effects);
            Ok(())
        }
    }

    /// A machine goes down. An `Err` is want of memory.
    pub(crate) fn reset(&mut self, machine: u32, told: &mut StepTold) -> Result<(), AllocError>
        requires { IsAllowed D.commands D.stands (kept_state L.locks self.old.kept) self.old.hosts (Reset machine) }
        ensures ok { OnOk result (ComesTold D.commands D.stands (kept_state L.locks self.old.kept) self.old.hosts (Reset machine) (kept_state L.locks self.new.kept) self.new.hosts told.new) }
        ensures err { OnErr result (IsSame (kept_state L.locks self.old.kept) self.old.hosts (kept_state L.locks self.new.kept) self.new.hosts) }
    {
        let effects = self.kept.reset_effects(machine)?;
        self.kept.reset(machine)?;
        self.hosts.end(machine as usize - 1);
        tell_alone(told, effects);
        Ok(())
    }
}
