//! Events of which nothing is told: they give no daemon an input, and their machine does nothing of itself.
//!
//! Most lines of a schedule are such: time passes, a sector is sampled, a write lands, a test is made. Their answer says no more than that they came
//! to pass, so no room is set aside for effects that there are not.

ghost use Rattle.sl_world_state.specs.SaneWorlds.{WorldStands};
ghost use Rattle.sl_machine.specs.KeptParts.{kept_state};
ghost use Rattle.sl_machine.specs.EventTests.{is_tear};
ghost use Rattle.sl_world.specs.AllowedEvents.{IsAllowed, StandsForSome};
ghost use Rattle.sl_world.specs.GivenSteps.{IsSame};
ghost use Rattle.sl_world.specs.ToldEvents.{ComesTold, is_untold, nothing_told};
ghost use Rattle.sl_run.specs.Refusals as refusals;
ghost use Rattle.sl_run.specs.Worlds as worlds;
ghost use Rattle.sl_run.specs.declared.event.Event.TheVariants.{Tear};
ghost use Rattle.sl_run.specs.declared.event.Refusal.{Refusal as RefusalOf};
ghost use Rattle.sl_world.specs.declared.apply.ApplyError.TheVariants as errors;
ghost use Rattle.std.specs.Prelude.{Err, OnErr, OnOk, Some, true, ◌≡◌, ◌⊎◌};

use crate::apply::ApplyError;
use crate::world::World;
use sl_machine::LockTable;
use sl_run::Event;
use sl_text::Bytes;
use sl_world_state::Daemon;
use std::alloc::AllocError;

/// Whether nothing is told of an event: it gives no daemon an input, and its machine does nothing of itself.
pub fn is_untold(event: &Event) -> bool
    ensures { result ≡ is_untold event.now }
{
    match event {
        Event::Pass { .. } => true,
        Event::Sample { .. } => true,
        Event::Land { .. } => true,
        Event::Tear { .. } => true,
        Event::DropWrite { .. } => true,
        Event::Test { .. } => true,
        Event::StartDaemon { .. } => true,
        Event::Crash { .. } => true,
        Event::Restart { .. } => true,
        _ => false,
    }
}

impl<D: Daemon, L: LockTable> World<D, L> {
    /// A write takes effect in part, which nothing refuses. An `Err` is want of memory.
    fn tear_allowed(
        &mut self,
        machine: u32,
        call: u64,
        kept: u32,
        bytes: &Bytes,
    ) -> Result<(), AllocError>
        requires { IsAllowed D.commands D.stands (kept_state L.locks self.old.kept) self.old.hosts (Tear machine call kept bytes.now) }
        ensures ok { OnOk result (ComesTold D.commands D.stands (kept_state L.locks self.old.kept) self.old.hosts (Tear machine call kept bytes.now) (kept_state L.locks self.new.kept) self.new.hosts nothing_told) }
        ensures err { OnErr result (IsSame (kept_state L.locks self.old.kept) self.old.hosts (kept_state L.locks self.new.kept) self.new.hosts) }
    {
        match self.tear(machine, call, kept, bytes)? {
            Ok(()) => Ok(()),
            Err(_) => unreachable!(),
        }
    }

    /// An event of which nothing is told comes to pass. An `Err` is want of memory.
    fn happen_untold(&mut self, event: Event) -> Result<(), AllocError>
        requires allowed { IsAllowed D.commands D.stands (kept_state L.locks self.old.kept) self.old.hosts event }
        requires untold { is_untold event ≡ true }
        ensures ok { OnOk result (ComesTold D.commands D.stands (kept_state L.locks self.old.kept) self.old.hosts event (kept_state L.locks self.new.kept) self.new.hosts nothing_told) }
        ensures err { OnErr result (IsSame (kept_state L.locks self.old.kept) self.old.hosts (kept_state L.locks self.new.kept) self.new.hosts) }
    {
        match event {
            Event::Pass { time, growths } => self.pass(time, &growths),
            Event::Sample {
                machine,
                call,
                sectors,
            } => self.sample(machine, call, sectors),
            Event::Land { machine, call } => self.land(machine, call),
            Event::Tear {
                machine,
                call,
                kept,
                bytes,
            } => self.tear_allowed(machine, call, kept, &bytes),
            Event::DropWrite { machine, call } => self.drop_write(machine, call),
            Event::Test { machine } => self.test(machine),
            Event::StartDaemon { machine, name } => self.start(machine, name),
            Event::Crash { machine } => self.crash(machine),
            Event::Restart { machine } => self.restart(machine),
            _ => unreachable!(),
        }
    }

    /// An event of which nothing is told comes to pass, unless something refuses it. After an `Err` nothing has changed that is seen.
    pub fn apply_untold(&mut self, event: Event) -> Result<(), ApplyError>
        requires stands { StandsForSome D.commands D.stands (kept_state L.locks self.old.kept) self.old.hosts }
        requires untold { is_untold event ≡ true }
        ensures refused { (w : worlds.World) → WorldStands D.commands D.stands (kept_state L.locks self.old.kept) self.old.hosts w → (r : RefusalOf)
            → refusals.refusal_of w event ≡ Some r → (result ≡ Err (errors.Refused r)) ⊎ ((is_tear event ≡ true) × (result ≡ Err errors.OutOfMemory)) }
        ensures only { (w : worlds.World) → WorldStands D.commands D.stands (kept_state L.locks self.old.kept) self.old.hosts w → (r : RefusalOf)
            → result ≡ Err (errors.Refused r) → refusals.refusal_of w event ≡ Some r }
        ensures ok { OnOk result (ComesTold D.commands D.stands (kept_state L.locks self.old.kept) self.old.hosts event (kept_state L.locks self.new.kept) self.new.hosts nothing_told) }
        ensures err { OnErr result (IsSame (kept_state L.locks self.old.kept) self.old.hosts (kept_state L.locks self.new.kept) self.new.hosts) }
    {
        match self.refusal(&event) {
            Err(_) => Err(ApplyError::OutOfMemory),
            Ok(Some(why)) => Err(ApplyError::Refused(why)),
            Ok(None) => match self.happen_untold(event) {
                Ok(()) => Ok(()),
                Err(_) => Err(ApplyError::OutOfMemory),
            },
        }
    }
}
