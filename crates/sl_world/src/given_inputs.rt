//! Events that give a daemon an input and change nothing else before its step.

ghost use Rattle.sl_machine.specs.KeptParts.{kept_state};
ghost use Rattle.sl_run.specs.declared.event.Event.TheVariants.{GiveAsk, GiveCommand, GiveLvm, SpawnedOf, WakeUp};
ghost use Rattle.sl_world.specs.AllowedEvents.{IsAllowed};
ghost use Rattle.sl_world.specs.GivenSteps.{IsSame};
ghost use Rattle.sl_world.specs.ToldEvents.{ComesTold};
ghost use Rattle.sl_world_state.specs.KeptWorld.{MachineState, machine_in};
ghost use Rattle.std.specs.Prelude.{IfOk, OnErr, OnOk, Some, ◌≡◌};

use crate::world::World;
use sl_locks::StepTold;
use sl_machine::{Kept, LockTable};
use sl_text::Bytes;
use sl_trace::Input;
use sl_world_state::Daemon;
use std::alloc::AllocError;

/// The ask that is due on a machine. An `Err` is want of memory, or there is none.
fn ask_of<L: LockTable>(kept: &Kept<L>, machine: u32) -> Result<Bytes, AllocError>
    ensures { IfOk result (λ text. (s : MachineState) → machine_in (kept_state L.locks kept.now) machine ≡ Some s → s.locks.due ≡ Some text) }
{
    match kept.machine(machine) {
        None => Err(AllocError),
        Some(found) => match found.locks.ask(*kept.machines.allocator())? {
            Some(text) => Ok(text),
            None => Err(AllocError),
        },
    }
}

impl<D: Daemon, L: LockTable> World<D, L> {
    /// The daemon of a machine is woken. An `Err` is that of the daemon: want of memory or of numbers; it changes nothing.
    pub(crate) fn wake(&mut self, machine: u32, told: &mut StepTold) -> Result<(), AllocError>
        requires { IsAllowed D.commands D.stands (kept_state L.locks self.old.kept) self.old.hosts (WakeUp machine) }
        ensures ok { OnOk result (ComesTold D.commands D.stands (kept_state L.locks self.old.kept) self.old.hosts (WakeUp machine) (kept_state L.locks self.new.kept) self.new.hosts told.new) }
        ensures err { OnErr result (IsSame (kept_state L.locks self.old.kept) self.old.hosts (kept_state L.locks self.new.kept) self.new.hosts) }
    {
        self.give(machine, Input::Wake, told)
    }

    /// A command line is given to the daemon of a machine. An `Err` is as above.
    pub(crate) fn command(
        &mut self,
        machine: u32,
        text: Bytes,
        told: &mut StepTold,
    ) -> Result<(), AllocError>
        requires { IsAllowed D.commands D.stands (kept_state L.locks self.old.kept) self.old.hosts (GiveCommand machine text) }
        ensures ok { OnOk result (ComesTold D.commands D.stands (kept_state L.locks self.old.kept) self.old.hosts (GiveCommand machine text) (kept_state L.locks self.new.kept) self.new.hosts told.new) }
        ensures err { OnErr result (IsSame (kept_state L.locks self.old.kept) self.old.hosts (kept_state L.locks self.new.kept) self.new.hosts) }
    {
        self.give(machine, Input::Line(text), told)
    }

    /// A line is given to lvmlockd on a machine, and its number to the daemon. An `Err` is as above.
    pub(crate) fn lvm_line(
        &mut self,
        machine: u32,
        line: Bytes,
        told: &mut StepTold,
    ) -> Result<(), AllocError>
        requires { IsAllowed D.commands D.stands (kept_state L.locks self.old.kept) self.old.hosts (GiveLvm machine line) }
        ensures ok { OnOk result (ComesTold D.commands D.stands (kept_state L.locks self.old.kept) self.old.hosts (GiveLvm machine line) (kept_state L.locks self.new.kept) self.new.hosts told.new) }
        ensures err { OnErr result (IsSame (kept_state L.locks self.old.kept) self.old.hosts (kept_state L.locks self.new.kept) self.new.hosts) }
    {
        self.give(machine, Input::Number(line), told)
    }

    /// What lvmlockd's locks ask is given to the daemon.
    pub(crate) fn ask(&mut self, machine: u32, told: &mut StepTold) -> Result<(), AllocError>
        requires { IsAllowed D.commands D.stands (kept_state L.locks self.old.kept) self.old.hosts (GiveAsk machine) }
        ensures ok { OnOk result (ComesTold D.commands D.stands (kept_state L.locks self.old.kept) self.old.hosts (GiveAsk machine) (kept_state L.locks self.new.kept) self.new.hosts told.new) }
        ensures err { OnErr result (IsSame (kept_state L.locks self.old.kept) self.old.hosts (kept_state L.locks self.new.kept) self.new.hosts) }
    {
        let text = ask_of(&self.kept, machine)?;
        self.give(machine, Input::Line(text), told)
    }

    /// The start of a child is answered.
    pub(crate) fn spawned(
        &mut self,
        machine: u32,
        process: u32,
        ok: bool,
        told: &mut StepTold,
    ) -> Result<(), AllocError>
        requires { IsAllowed D.commands D.stands (kept_state L.locks self.old.kept) self.old.hosts (SpawnedOf machine process ok) }
        ensures ok { OnOk result (ComesTold D.commands D.stands (kept_state L.locks self.old.kept) self.old.hosts (SpawnedOf machine process ok) (kept_state L.locks self.new.kept) self.new.hosts told.new) }
        ensures err { OnErr result (IsSame (kept_state L.locks self.old.kept) self.old.hosts (kept_state L.locks self.new.kept) self.new.hosts) }
    {
        self.give(machine, Input::Spawned { process, ok }, told)
    }
}
