//! A daemon begins.

ghost use Rattle.sl_world_state.specs.KeptWorld.{MachineState, machine_in};
ghost use Rattle.sl_machine.specs.KeptParts.{kept_state};
ghost use Rattle.sl_run.specs.declared.event.Event.TheVariants.{StartDaemon};
ghost use Rattle.sl_world.specs.AllowedEvents.{IsAllowed};
ghost use Rattle.sl_world.specs.GivenSteps.{IsSame};
ghost use Rattle.sl_world.specs.ToldEvents.{ComesTold, nothing_told};
ghost use Rattle.sl_world_law.specs.WorldsStand.{new_site};
ghost use Rattle.std.specs.Prelude.{IfOk, None, OnErr, OnOk, Some, ◌≡◌};

use crate::world::World;
use sl_machine::{Kept, LockTable};
use sl_text::{Name, Seq};
use sl_trace::Numbers;
use sl_world_state::{Daemon, Site};
use std::alloc::AllocError;

/// With what a daemon begins on a machine. An `Err` is of no machine.
fn site_of<L: LockTable>(kept: &Kept<L>, machine: u32, name: Name) -> Result<Site, AllocError>
    ensures site { IfOk result (λ site. (s : MachineState) → machine_in (kept_state L.locks kept.now) machine ≡ Some s → site ≡ new_site machine name s) }
    ensures none { OnErr result (machine_in (kept_state L.locks kept.now) machine ≡ None) }
{
    let alloc = *kept.machines.allocator();
    match kept.machine(machine) {
        None => Err(AllocError),
        Some(found) => Ok(Site {
            machine,
            name,
            first: Numbers {
                call: found.flights.next(),
                job: found.job,
            },
            given: Seq::new(Vec::new(alloc)),
        }),
    }
}

impl<D: Daemon, L: LockTable> World<D, L> {
    /// A daemon begins. An `Err` is want of memory.
    pub(crate) fn start(&mut self, machine: u32, name: Name) -> Result<(), AllocError>
        requires { IsAllowed D.commands D.stands (kept_state L.locks self.old.kept) self.old.hosts (StartDaemon machine name) }
        ensures ok { OnOk result (ComesTold D.commands D.stands (kept_state L.locks self.old.kept) self.old.hosts (StartDaemon machine name) (kept_state L.locks self.new.kept) self.new.hosts nothing_told) }
        ensures err { OnErr result (IsSame (kept_state L.locks self.old.kept) self.old.hosts (kept_state L.locks self.new.kept) self.new.hosts) }
    {
        let alloc = *self.kept.machines.allocator();
        match Name::new(name.as_slice()) {
            None => Err(AllocError),
            Some(_) => {
                let site = site_of(&self.kept, machine, name)?;
                self.kept.reserve_name()?;
                self.hosts
                    .start(alloc, self.kept.header(), machine as usize - 1, site)?;
                self.kept.start(machine, name);
                Ok(())
            }
        }
    }
}
