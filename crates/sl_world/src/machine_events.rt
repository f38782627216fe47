//! Events that no daemon takes: what is kept changes, the daemons stay as they are, and nothing is told.

ghost use Rattle.sl_machine.specs.KeptParts.{kept_state};
ghost use Rattle.sl_run.specs.declared.event.Event.TheVariants.{Crash, DropWrite, Land, Pass, Restart, Sample, Test};
ghost use Rattle.sl_world.specs.AllowedEvents.{IsAllowed};
ghost use Rattle.sl_world.specs.GivenSteps.{IsSame};
ghost use Rattle.sl_world.specs.ToldEvents.{ComesTold, nothing_told};
ghost use Rattle.std.specs.Prelude.{OnErr, OnOk};

use crate::world::World;
use sl_machine::{LockTable, Outcome};
use sl_text::Seq;
use sl_world_state::Daemon;
use std::alloc::AllocError;

impl<D: Daemon, L: LockTable> World<D, L> {
    /// Time passes, which the world allows. An `Err` is want of memory, and changes nothing.
    pub(crate) fn pass(&mut self, time: u64, growths: &Option<Seq<u64>>) -> Result<(), AllocError>
        requires { IsAllowed D.commands D.stands (kept_state L.locks self.old.kept) self.old.hosts (Pass time growths.now) }
        ensures ok { OnOk result (ComesTold D.commands D.stands (kept_state L.locks self.old.kept) self.old.hosts (Pass time growths.now) (kept_state L.locks self.new.kept) self.new.hosts nothing_told) }
        ensures err { OnErr result (IsSame (kept_state L.locks self.old.kept) self.old.hosts (kept_state L.locks self.new.kept) self.new.hosts) }
    {
        self.kept.pass(time, growths);
        Ok(())
    }

    /// A read samples its next sectors. An `Err` is want of memory.
    pub(crate) fn sample(&mut self, machine: u32, call: u64, sectors: u64) -> Result<(), AllocError>
        requires { IsAllowed D.commands D.stands (kept_state L.locks self.old.kept) self.old.hosts (Sample machine call sectors) }
        ensures ok { OnOk result (ComesTold D.commands D.stands (kept_state L.locks self.old.kept) self.old.hosts (Sample machine call sectors) (kept_state L.locks self.new.kept) self.new.hosts nothing_told) }
        ensures err { OnErr result (IsSame (kept_state L.locks self.old.kept) self.old.hosts (kept_state L.locks self.new.kept) self.new.hosts) }
    {
        self.kept.sample(machine, call, sectors)?;
        Ok(())
    }

    /// A write takes effect whole. An `Err` is want of memory.
    pub(crate) fn land(&mut self, machine: u32, call: u64) -> Result<(), AllocError>
        requires { IsAllowed D.commands D.stands (kept_state L.locks self.old.kept) self.old.hosts (Land machine call) }
        ensures ok { OnOk result (ComesTold D.commands D.stands (kept_state L.locks self.old.kept) self.old.hosts (Land machine call) (kept_state L.locks self.new.kept) self.new.hosts nothing_told) }
        ensures err { OnErr result (IsSame (kept_state L.locks self.old.kept) self.old.hosts (kept_state L.locks self.new.kept) self.new.hosts) }
    {
        self.kept.land(machine, call)?;
        Ok(())
    }

    /// A write of an ended daemon never takes effect.
    pub(crate) fn drop_write(&mut self, machine: u32, call: u64) -> Result<(), AllocError>
        requires { IsAllowed D.commands D.stands (kept_state L.locks self.old.kept) self.old.hosts (DropWrite machine call) }
        ensures ok { OnOk result (ComesTold D.commands D.stands (kept_state L.locks self.old.kept) self.old.hosts (DropWrite machine call) (kept_state L.locks self.new.kept) self.new.hosts nothing_told) }
        ensures err { OnErr result (IsSame (kept_state L.locks self.old.kept) self.old.hosts (kept_state L.locks self.new.kept) self.new.hosts) }
    {
        self.kept.end_call(machine, call, Outcome::Dropped);
        Ok(())
    }

    /// The watchdog daemon's test is made, and keeps the device alive where it holds. An `Err` is as above.
    pub(crate) fn test(&mut self, machine: u32) -> Result<(), AllocError>
        requires { IsAllowed D.commands D.stands (kept_state L.locks self.old.kept) self.old.hosts (Test machine) }
        ensures ok { OnOk result (ComesTold D.commands D.stands (kept_state L.locks self.old.kept) self.old.hosts (Test machine) (kept_state L.locks self.new.kept) self.new.hosts nothing_told) }
        ensures err { OnErr result (IsSame (kept_state L.locks self.old.kept) self.old.hosts (kept_state L.locks self.new.kept) self.new.hosts) }
    {
        self.kept.test(machine);
        Ok(())
    }

    /// A machine that was down comes up. An `Err` is as above.
    pub(crate) fn restart(&mut self, machine: u32) -> Result<(), AllocError>
        requires { IsAllowed D.commands D.stands (kept_state L.locks self.old.kept) self.old.hosts (Restart machine) }
        ensures ok { OnOk result (ComesTold D.commands D.stands (kept_state L.locks self.old.kept) self.old.hosts (Restart machine) (kept_state L.locks self.new.kept) self.new.hosts nothing_told) }
        ensures err { OnErr result (IsSame (kept_state L.locks self.old.kept) self.old.hosts (kept_state L.locks self.new.kept) self.new.hosts) }
    {
        self.kept.restart(machine);
        Ok(())
    }

    /// The daemon of a machine ends. An `Err` is as above.
    pub(crate) fn crash(&mut self, machine: u32) -> Result<(), AllocError>
        requires { IsAllowed D.commands D.stands (kept_state L.locks self.old.kept) self.old.hosts (Crash machine) }
        ensures ok { OnOk result (ComesTold D.commands D.stands (kept_state L.locks self.old.kept) self.old.hosts (Crash machine) (kept_state L.locks self.new.kept) self.new.hosts nothing_told) }
        ensures err { OnErr result (IsSame (kept_state L.locks self.old.kept) self.old.hosts (kept_state L.locks self.new.kept) self.new.hosts) }
    {
        self.kept.crash(machine);
        self.hosts.end(machine as usize - 1);
        Ok(())
    }
}
