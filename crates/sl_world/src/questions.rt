//! What a report and a generator of schedules ask of a world.

ghost use Rattle.sl_world_state.specs.KeptWorld.{machine_in};
ghost use Rattle.sl_machine.specs.KeptParts.{kept_state};
ghost use Rattle.sl_world.specs.AllowedEvents.{StandsForSome};
ghost use Rattle.sl_words.specs.Words.{least};
ghost use Rattle.sl_world_law.specs.DrawnCandidates.{is_useful_in, least_call_in, starves_in};
ghost use Rattle.sl_world_law.specs.ToldEvents.{asking_in, tested_in};
ghost use Rattle.std.specs.List.{position};
ghost use Rattle.std.specs.Prelude.{filter, is_some, length, map, not, option_and_then, option_map, ◌+◌, ◌≡◌, ◌≤◌};

use crate::world::World;
use sl_machine::{LockTable, Machine};
use sl_run::{Event, Header};
use sl_world_state::Daemon;
use std::alloc::AllocError;

/// Whether an ask is due on a machine.
fn has_due<L: LockTable>(machine: &Machine<L>) -> bool
    ensures { result ≡ is_some (L.locks machine.now.locks).due }
{
    machine.locks.has_ask()
}

/// The place of the first of these machines with an ask that is due.
fn place_due<L: LockTable>(machines: &[Machine<L>]) -> Option<usize>
    ensures { result ≡ position (λ a. is_some (L.locks a.locks).due) machines.now }
{
    machines.iter().position(|machine| has_due(machine))
}

/// The first of these machines with an ask that is due.
fn first_due<L: LockTable>(machines: &[Machine<L>]) -> Option<u32>
    requires { length machines.now ≤ 16 }
    ensures { result ≡ option_map (λ i. i + 1) (position (λ a. is_some (L.locks a.locks).due) machines.now) }
{
    match place_due(machines) {
        Some(index) => Some(index as u32 + 1),
        None => None,
    }
}

impl<D: Daemon, L: LockTable> World<D, L> {
    /// Whether the event is a test of the watchdog daemon that holds.
    pub fn test_holds(&self, event: &Event) -> bool
        ensures { result ≡ tested_in (kept_state L.locks self.now.kept) event.now }
    {
        match event {
            Event::Test { machine } => self.kept.test_holds(*machine),
            _ => false,
        }
    }

    /// The first machine with an ask of lvmlockd's locks that is due: it is the next event.
    pub fn asking(&self) -> Option<u32>
        requires { StandsForSome D.commands D.stands (kept_state L.locks self.now.kept) self.now.hosts }
        ensures { result ≡ asking_in (kept_state L.locks self.now.kept) }
    {
        first_due(self.kept.machines.as_slice())
    }

    /// The header of the world.
    pub fn header(&self) -> &Header
        ensures { result.now ≡ (kept_state L.locks self.now.kept).header }
    {
        self.kept.header()
    }

    /// Whether a test of a machine would hold and move its keepalive.
    pub fn is_useful(&self, machine: u32) -> bool
        ensures { result ≡ is_useful_in (kept_state L.locks self.now.kept) machine }
    {
        self.kept.is_useful(machine)
    }

    /// Whether a machine's last keepalive is so old that it is soon reset.
    pub fn is_starving(&self, machine: u32) -> bool
        ensures { result ≡ starves_in (kept_state L.locks self.now.kept) machine }
    {
        self.kept.is_starving(machine)
    }

    /// The least number of a call in flight on a machine.
    pub fn least_call(&self, machine: u32) -> Option<u64>
        ensures { result ≡ least_call_in (kept_state L.locks self.now.kept) machine }
    {
        self.kept.least_call(machine)
    }

    /// The least number of a call in flight of an ended daemon on a machine.
    pub fn least_ended_on(&self, machine: u32) -> Option<u64>
        ensures { result ≡ option_and_then (λ s. least (map (λ f. f.number) (filter (λ f. not f.own) s.flights)))
            (machine_in (kept_state L.locks self.now.kept) machine) }
    {
        self.kept.least_ended_on(machine)
    }
}
