//! Events: each is refused, or comes to pass.
//!
//! `apply` asks first why the event may not happen, and then matches it: one method an event, each of which is shown to make the world that the
//! definitions make of it, with the effects that it answers. A refusal or want of memory leaves the world for which it stood. `apply_untold` does
//! the same with the events of which nothing is told.

ghost use Rattle.sl_world_state.specs.Refusals.{refusal_in};
ghost use Rattle.sl_world_state.specs.SaneWorlds.{WorldStands};
ghost use Rattle.sl_machine.specs.KeptParts.{kept_state};
ghost use Rattle.sl_machine.specs.EventTests.{bars_locks, is_tear};
ghost use Rattle.sl_world.specs.AllowedEvents.{IsAllowed, StandsForSome};
ghost use Rattle.sl_world.specs.GivenSteps.{IsSame};
ghost use Rattle.sl_world.specs.ToldEvents.{ComesTold, is_untold};
ghost use Rattle.sl_run.specs.Refusals as refusals;
ghost use Rattle.sl_run.specs.Worlds as worlds;
ghost use Rattle.sl_run.specs.declared.event.Refusal.{Refusal as RefusalOf};
ghost use Rattle.std.specs.Prelude.{Err, IfOk, OnErr, OnOk, Some, false, true, ◌≡◌, ◌⊎◌};

use crate::world::World;
use sl_locks::StepTold;
use sl_machine::LockTable;
use sl_run::{Event, Refusal};
use sl_world_state::Daemon;
use std::alloc::AllocError;

/// Why an event was not applied; the world is as before.
#[derive(Drop)]
pub enum ApplyError {
    Refused(Refusal),
    OutOfMemory,
}

impl<D: Daemon, L: LockTable> World<D, L> {
    /// Whether the event is a command for lvmlockd's process.
    fn is_for_locks(&self, event: &Event) -> bool
        ensures { result ≡ bars_locks D.commands (kept_state L.locks self.now.kept) event.now }
    {
        match event {
            Event::GiveCommand { machine: _, text } => {
                D::is_for_locks(self.kept.header(), text.as_slice())
            }
            _ => false,
        }
    }

    /// Why an event may not happen. An `Err` is want of memory, at a tear alone: whether its bytes spell something is told by the bytes.
    /// Nothing that is seen changes.
    pub fn refusal(&mut self, event: &Event) -> Result<Option<Refusal>, AllocError>
        ensures exact { IfOk result (λ r. r ≡ refusal_in D.commands (kept_state L.locks self.old.kept) event.now) }
        ensures total { OnErr result (is_tear event.now ≡ true) }
        ensures same { IsSame (kept_state L.locks self.old.kept) self.old.hosts (kept_state L.locks self.new.kept) self.new.hosts }
    {
        let locks = self.is_for_locks(event);
        self.kept.refusal(event, locks)
    }

    /// An event of which something is told comes to pass, and is told. An `Err` is want of memory or of numbers.
    fn happen_told(&mut self, event: Event, told: &mut StepTold) -> Result<(), AllocError>
        requires allowed { IsAllowed D.commands D.stands (kept_state L.locks self.old.kept) self.old.hosts event }
        requires told { is_untold event ≡ false }
        ensures ok { OnOk result (ComesTold D.commands D.stands (kept_state L.locks self.old.kept) self.old.hosts event (kept_state L.locks self.new.kept) self.new.hosts told.new) }
        ensures err { OnErr result (IsSame (kept_state L.locks self.old.kept) self.old.hosts (kept_state L.locks self.new.kept) self.new.hosts) }
    {
        match event {
            Event::WakeUp { machine } => self.wake(machine, told),
            Event::GiveCommand { machine, text } => self.command(machine, text, told),
            Event::GiveLvm { machine, line } => self.lvm_line(machine, line, told),
            Event::GiveAsk { machine } => self.ask(machine, told),
            Event::AnswerCall { machine, call, ok } => self.answer(machine, call, ok, told),
            Event::Do { machine, call } => self.do_call(machine, call, told),
            Event::ExitOf { machine, process } => self.exit(machine, process, told),
            Event::SpawnedOf {
                machine,
                process,
                ok,
            } => self.spawned(machine, process, ok, told),
            Event::Reset { machine } => self.reset(machine, told),
            _ => unreachable!(),
        }
    }

    /// An event of which something is told comes to pass, unless something refuses it, and it is told: the effects of its daemon or of the machine
    /// itself, without the reply to an ask, and the reply to lvmlockd's line, if it has come. After an `Err` nothing has changed that is seen.
    pub fn apply(&mut self, event: Event, told: &mut StepTold) -> Result<(), ApplyError>
        requires stands { StandsForSome D.commands D.stands (kept_state L.locks self.old.kept) self.old.hosts }
        requires told { is_untold event ≡ false }
        ensures refused { (w : worlds.World) → WorldStands D.commands D.stands (kept_state L.locks self.old.kept) self.old.hosts w → (r : RefusalOf)
            → refusals.refusal_of w event ≡ Some r → (result ≡ Err (ApplyError.Refused r)) ⊎ ((is_tear event ≡ true) × (result ≡ Err ApplyError.OutOfMemory)) }
        ensures only { (w : worlds.World) → WorldStands D.commands D.stands (kept_state L.locks self.old.kept) self.old.hosts w → (r : RefusalOf)
            → result ≡ Err (ApplyError.Refused r) → refusals.refusal_of w event ≡ Some r }
        ensures ok { OnOk result (ComesTold D.commands D.stands (kept_state L.locks self.old.kept) self.old.hosts event (kept_state L.locks self.new.kept) self.new.hosts told.new) }
        ensures err { OnErr result (IsSame (kept_state L.locks self.old.kept) self.old.hosts (kept_state L.locks self.new.kept) self.new.hosts) }
    {
        match self.refusal(&event) {
            Err(_) => Err(ApplyError::OutOfMemory),
            Ok(Some(why)) => Err(ApplyError::Refused(why)),
            Ok(None) => match self.happen_told(event, told) {
                Ok(()) => Ok(()),
                Err(_) => Err(ApplyError::OutOfMemory),
            },
        }
    }
}
