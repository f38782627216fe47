//! What is kept of a world, but for its daemons.

ghost use Rattle.sl_world_state.specs.Changes.{change_flight, crashed_machine, named_in, reset_machine, restarted_machine, started_machine, tested_machine};
ghost use Rattle.sl_world_state.specs.KeptWorld.{MachineState, change_machine_in, machine_in};
ghost use Rattle.sl_machine.specs.KeptParts.{AtMachine, kept_state, place_in};
ghost use Rattle.sl_world_state.specs.Steps.{owned_machine};
ghost use Rattle.sl_machine.specs.Flights.{ended_flight};
ghost use Rattle.sl_locks.specs.Steps.{lock_input};
ghost use Rattle.sl_machine.specs.Machines.{HasOwnRoom, HasRoom, HasTold, TakesStep, machine_state, stepped_by};
ghost use Rattle.indexmap.specs.IndexSet.{spare};
ghost use Rattle.std.specs.List.{list_any};
ghost use Rattle.sl_run.specs.Headers.{IsHeader};
ghost use Rattle.std.specs.Option.{option_copied};
ghost use Rattle.std.specs.Prelude.{IfSome, OnErr, OnOk, Some, bytes_eq, false, option_map, reverse, ◌<◌, ◌≡◌};

use crate::flight::Outcome;
use crate::heard_inputs::Heard;
use crate::locks::LockTable;
use crate::machine::Machine;
use crate::names::{DaemonName, add_name};
use indexmap::IndexSet;
use sl_disks::Disks;
use sl_locks::{LockInput, StepTold};
use sl_run::Header;
use sl_text::Name;
use sl_trace::Effects;
use sl_world_state::Most;
use std::alloc::AllocError;

/// The moment, the machines, the disks and all names that daemons had.
#[derive(Drop)]
pub struct Kept<L: LockTable> {
    pub disks: Disks,
    pub moment: u64,
    /// Machine m stands at place m - 1.
    pub machines: Vec<Machine<L>>,
    pub names: IndexSet<DaemonName>,
}

/// The place of a machine among so many.
pub fn place_of(count: usize, machine: u32) -> Option<usize>
    ensures exact { result ≡ place_in count machine }
    ensures within { IfSome result (λ i. i < count) }
{
    if machine == 0 {
        return None;
    }
    let index = machine as usize - 1;
    if index < count { Some(index) } else { None }
}

impl<L: LockTable> Kept<L> {
    /// The header of the world, whose machines these are.
    #[tactic(auto, unfolding(crate::specs::KeptParts::kept_state))]
    pub fn header(&self) -> &Header
        ensures exact { result.now ≡ (kept_state L.locks self.now).header }
        ensures lawful { IsHeader result.now }
    {
        self.disks.header()
    }

    /// The machine of this number, from 1 on, if there is one.
    pub fn machine(&self, machine: u32) -> Option<&Machine<L>>
        ensures { option_map (machine_state L.locks) (option_copied result) ≡ machine_in (kept_state L.locks self.now) machine }
    {
        match place_of(self.machines.len(), machine) {
            None => None,
            Some(index) => Some(&self.machines[index]),
        }
    }

    /// The watchdog daemon's test is made on a machine.
    pub fn test(&mut self, machine: u32)
        ensures { kept_state L.locks self.new ≡ change_machine_in machine (tested_machine (kept_state L.locks self.old).moment) (kept_state L.locks self.old) }
    {
        let moment = self.moment;
        if let Some(index) = place_of(self.machines.len(), machine) {
            self.machines[index].test(moment);
        }
    }

    /// The daemon of a machine ends; its connections, holdings and writes in flight stay.
    pub fn crash(&mut self, machine: u32)
        ensures { kept_state L.locks self.new ≡ change_machine_in machine (crashed_machine) (kept_state L.locks self.old) }
    {
        if let Some(index) = place_of(self.machines.len(), machine) {
            self.machines[index].crash();
        }
    }

    /// A machine goes down. An `Err` is want of memory, and changes nothing that is seen.
    pub fn reset(&mut self, machine: u32) -> Result<(), AllocError>
        ensures ok { OnOk result (kept_state L.locks self.new
            ≡ change_machine_in machine (reset_machine (kept_state L.locks self.old).header (kept_state L.locks self.old).moment) (kept_state L.locks self.old)) }
        ensures err { OnErr result (kept_state L.locks self.new ≡ kept_state L.locks self.old) }
    {
        let alloc = *self.machines.allocator();
        let moment = self.moment;
        if let Some(index) = place_of(self.machines.len(), machine) {
            self.machines[index].reset(alloc, self.disks.header(), moment)?;
        }
        Ok(())
    }

    /// A machine comes up, without a daemon, and its watchdog counts from now.
    pub fn restart(&mut self, machine: u32)
        ensures { kept_state L.locks self.new ≡ change_machine_in machine (restarted_machine (kept_state L.locks self.old).moment) (kept_state L.locks self.old) }
    {
        let moment = self.moment;
        if let Some(index) = place_of(self.machines.len(), machine) {
            self.machines[index].restart(moment);
        }
    }

    /// The way of a write ends so.
    pub fn end_call(&mut self, machine: u32, call: u64, outcome: Outcome)
        ensures { kept_state L.locks self.new ≡ change_machine_in machine (change_flight call (ended_flight outcome)) (kept_state L.locks self.old) }
    {
        if let Some(index) = place_of(self.machines.len(), machine) {
            self.machines[index].end_call(call, outcome);
        }
    }

    /// What a machine does without a daemon. It takes no memory.
    pub fn own(&mut self, machine: u32, effects: &Effects)
        requires { AtMachine (λ a. HasOwnRoom a effects.now) self.old machine }
        ensures { kept_state L.locks self.new ≡ change_machine_in machine (owned_machine effects.now) (kept_state L.locks self.old) }
    {
        if let Some(index) = place_of(self.machines.len(), machine) {
            self.machines[index].own(effects);
        }
    }

    /// Takes the memory that a step of a machine's daemon needs. An `Err` is want of it. Nothing that is seen changes.
    pub fn reserve(&mut self, machine: u32, most: &Most) -> Result<(), AllocError>
        ensures room { OnOk result (AtMachine (HasRoom L.has_room most.now) self.new machine) }
        ensures same { kept_state L.locks self.new ≡ kept_state L.locks self.old }
    {
        if let Some(index) = place_of(self.machines.len(), machine) {
            self.machines[index].reserve(most)?;
        }
        Ok(())
    }

    /// Takes the memory that a name more needs. An `Err` is want of it. Nothing that is seen changes.
    #[tactic(auto, unfolding(crate::specs::KeptParts::kept_state))]
    pub fn reserve_name(&mut self) -> Result<(), AllocError>
        ensures room { OnOk result (0 < spare self.new.names) }
        ensures keys { self.new.names.keys ≡ self.old.names.keys }
        ensures same { kept_state L.locks self.new ≡ kept_state L.locks self.old }
    {
        self.names.reserve(1)
    }

    /// Takes the memory that a machine needs for what it does itself. An `Err` is want of it. Nothing that is seen changes.
    pub fn reserve_own(&mut self, machine: u32, effects: &Effects) -> Result<(), AllocError>
        ensures room { OnOk result (AtMachine (λ a. HasOwnRoom a effects.now) self.new machine) }
        ensures same { kept_state L.locks self.new ≡ kept_state L.locks self.old }
    {
        if let Some(index) = place_of(self.machines.len(), machine) {
            self.machines[index].reserve_own(effects)?;
        }
        Ok(())
    }

    /// The daemon of a machine has taken a step whose effects stand where it is told: there are then the effects without the reply to an ask,
    /// and the reply to lvmlockd's line, if it has come. It takes no memory.
    pub fn step(&mut self, machine: u32, heard: Heard, input: LockInput, told: &mut StepTold)
        requires { AtMachine (λ a. TakesStep L.has_room a told.old.effects) self.old machine }
        ensures stays { kept_state L.locks self.new
            ≡ change_machine_in machine (stepped_by self.old.disks.header heard (lock_input input) told.old.effects) (kept_state L.locks self.old) }
        ensures told { (s : MachineState) → machine_in (kept_state L.locks self.old) machine ≡ Some s → HasTold told.new (lock_input input) told.old.effects s }
    {
        let alloc = *self.machines.allocator();
        if let Some(index) = place_of(self.machines.len(), machine) {
            self.machines[index].step(alloc, self.disks.header(), heard, input, told);
        }
    }

    /// A daemon begins on a machine.
    fn begin(&mut self, machine: u32)
        ensures exact { kept_state L.locks self.new ≡ change_machine_in machine (started_machine self.old.disks.header) (kept_state L.locks self.old) }
        ensures names { self.new.names ≡ self.old.names }
    {
        let alloc = *self.machines.allocator();
        if let Some(index) = place_of(self.machines.len(), machine) {
            self.machines[index].start(alloc, self.disks.header());
        }
    }

    /// A daemon has this name that none had. It takes no memory.
    #[tactic(auto, unfolding(crate::specs::KeptParts::kept_state))]
    fn name(&mut self, name: Name)
        requires room { 0 < spare self.old.names }
        requires new { list_any (bytes_eq name) (reverse self.old.names.keys) ≡ false }
        ensures { kept_state L.locks self.new ≡ named_in name (kept_state L.locks self.old) }
    {
        add_name(&mut self.names, name);
    }

    /// A daemon begins on a machine. Its name is added, which none had. It takes no memory.
    pub fn start(&mut self, machine: u32, name: Name)
        requires room { 0 < spare self.old.names }
        requires new { list_any (bytes_eq name) (reverse self.old.names.keys) ≡ false }
        ensures { kept_state L.locks self.new ≡ named_in name (change_machine_in machine (started_machine self.old.disks.header) (kept_state L.locks self.old)) }
    {
        self.begin(machine);
        self.name(name);
    }
}
