//! The executed world, and how it gives a daemon an input.
//!
//! An input is given in three moves: room is taken for as much as the daemon says that its step makes at most, the daemon steps, and its
//! effects are put away. The first and the second may want memory and then change nothing; the third can't fail. So an event either comes to pass whole, or
//! nothing that is seen has changed.

ghost use Rattle.sl_world_state.specs.KeptWorld.{MachineState, machine_in};
ghost use Rattle.sl_machine.specs.KeptParts.{kept_state};
ghost use Rattle.sl_time.specs.Times.{reading_of};
ghost use Rattle.sl_world.specs.AllowedEvents.{LacksAt, LeavesAt, MayGive};
ghost use Rattle.sl_world.specs.GivenSteps.{IsSame};
ghost use Rattle.sl_world.specs.ToldEvents.{GivesTold};
ghost use Rattle.std.specs.Prelude.{None, OnErr, OnOk, Some, false, true, ◌≡◌};

use crate::hosts::Hosts;
use sl_locks::StepTold;
use sl_machine::{Kept, LockTable, hear, lock_input_of};
use sl_trace::Input;
use sl_world_state::Daemon;
use std::alloc::AllocError;

/// A world: what is kept, and the daemons that run.
#[derive(Drop)]
pub struct World<D: Daemon, L: LockTable> {
    pub(crate) kept: Kept<L>,
    pub(crate) hosts: Hosts<D>,
}

/// What a machine's clock shows; 0 where there is none.
pub(crate) fn reading<L: LockTable>(kept: &Kept<L>, machine: u32) -> u64
    ensures there { (s : MachineState) → machine_in (kept_state L.locks kept.now) machine ≡ Some s → result ≡ reading_of s.clock }
    ensures absent { machine_in (kept_state L.locks kept.now) machine ≡ None → result ≡ 0 }
{
    match kept.machine(machine) {
        Some(found) => found.reading(),
        None => 0,
    }
}

/// How many numbers are kept back, so that a step has numbers for all that it makes.
const LEFT: u64 = (1 << 63) - 2048;

/// Whether numbers are left for a step on a machine; where there is none, none are.
pub(crate) fn has_numbers<L: LockTable>(kept: &Kept<L>, machine: u32) -> bool
    ensures left { result ≡ true → LeavesAt (kept_state L.locks kept.now) machine }
    ensures lacks { result ≡ false → LacksAt (kept_state L.locks kept.now) machine }
    ensures absent { machine_in (kept_state L.locks kept.now) machine ≡ None → result ≡ false }
{
    match kept.machine(machine) {
        Some(found) => found.flights.next() < LEFT && found.job < LEFT,
        None => false,
    }
}

impl<D: Daemon, L: LockTable> World<D, L> {
    /// What was told of a step of a machine is written: its memory may serve a later step. Nothing that is seen changes.
    pub fn take_back(&mut self, machine: u32, told: &mut StepTold)
        ensures { self.new ≡ self.old }
    {
        if machine > 0 {
            self.hosts
                .take_back(machine as usize - 1, &mut told.effects);
        }
    }

    /// The daemon of a machine takes a step at this input, and it is told. An `Err` is want of memory or of numbers, and changes nothing that is
    /// seen.
    pub(crate) fn give(
        &mut self,
        machine: u32,
        input: Input,
        told: &mut StepTold,
    ) -> Result<(), AllocError>
        requires { MayGive D.stands (kept_state L.locks self.old.kept) self.old.hosts machine input }
        ensures ok { OnOk result (GivesTold D.stands D.makes (kept_state L.locks self.old.kept) self.old.hosts machine input (kept_state L.locks self.new.kept) self.new.hosts told.new) }
        ensures err { OnErr result (IsSame (kept_state L.locks self.old.kept) self.old.hosts (kept_state L.locks self.new.kept) self.new.hosts) }
    {
        let left = has_numbers(&self.kept, machine);
        if !left {
            return Err(AllocError);
        }
        let index = machine as usize - 1;
        let now = reading(&self.kept, machine);
        let most = self.hosts.most(index);
        let heard = hear(&input);
        let locks = lock_input_of(*self.kept.machines.allocator(), &input)?;
        self.kept.reserve(machine, &most)?;
        let effects = self.hosts.step(index, now, &input)?;
        told.effects = effects;
        self.kept.step(machine, heard, locks, told);
        Ok(())
    }
}
