//! What a report and a generator of schedules ask of what is kept.

ghost use Rattle.sl_world_state.specs.KeptWorld.{machine_in};
ghost use Rattle.sl_machine.specs.KeptParts.{kept_state};
ghost use Rattle.sl_machine.specs.Machines.{machine_state};
ghost use Rattle.sl_time.specs.Times.{reading_of};
ghost use Rattle.sl_trace.specs.WatchdogConnections as watchdog;
ghost use Rattle.sl_words.specs.Words.{least, some_is};
ghost use Rattle.std.specs.Option.{option_map_or};
ghost use Rattle.std.specs.Prelude.{false, filter, map, nat_le, nat_lt, not, option_and_then, ◌&&◌, ◌+◌, ◌≡◌};

use crate::kept_world::Kept;
use crate::locks::LockTable;
use crate::machine::Machine;

/// So long after its last keepalive, in milliseconds, a machine counts as starving.
const STARVING: u128 = 550;

impl<L: LockTable> Machine<L> {
    /// Whether the watchdog daemon's test would hold.
    #[tactic(auto, unfolding(crate::specs::Machines::machine_state))]
    fn holds(&self) -> bool
        ensures { result ≡ watchdog.test_holds (machine_state L.locks self.now).connections (reading_of (machine_state L.locks self.now).clock) }
    {
        self.connections.test(self.clock / 1000)
    }

    /// Whether a test at this moment would hold and move the keepalive.
    #[tactic(auto, unfolding(crate::specs::Machines::machine_state))]
    fn is_useful(&self, moment: u64) -> bool
        ensures { result ≡ ((machine_state L.locks self.now).up
            && watchdog.test_holds (machine_state L.locks self.now).connections (reading_of (machine_state L.locks self.now).clock)
            && nat_lt (machine_state L.locks self.now).kept moment) }
    {
        self.up && self.holds() && self.kept < moment
    }

    /// Whether its last keepalive is so old at this moment that it is soon reset.
    #[tactic(auto, unfolding(crate::specs::Machines::machine_state))]
    fn is_starving(&self, moment: u64) -> bool
        ensures { result ≡ ((machine_state L.locks self.now).up && nat_le ((machine_state L.locks self.now).kept + 550) moment) }
    {
        self.up && u128::from(self.kept) + STARVING <= u128::from(moment)
    }

    /// The least number of a call in flight.
    #[tactic(auto, unfolding(crate::specs::Machines::machine_state))]
    fn least_call(&self) -> Option<u64>
        ensures { result ≡ least (map (λ f. f.number) (machine_state L.locks self.now).flights) }
    {
        self.flights.least()
    }

    /// The least number of a call in flight of an ended daemon.
    #[tactic(auto, unfolding(crate::specs::Machines::machine_state))]
    fn least_ended(&self) -> Option<u64>
        ensures { result ≡ least (map (λ f. f.number) (filter (λ f. not f.own) (machine_state L.locks self.now).flights)) }
    {
        self.flights.least_ended()
    }
}

impl<L: LockTable> Kept<L> {
    /// Whether the watchdog daemon's test would hold on a machine.
    pub fn test_holds(&self, machine: u32) -> bool
        ensures { result ≡ option_map_or (λ s. watchdog.test_holds s.connections (reading_of s.clock)) (machine_in (kept_state L.locks self.now) machine) false }
    {
        match self.machine(machine) {
            Some(found) => found.holds(),
            None => false,
        }
    }

    /// Whether a test of a machine would hold and move the keepalive.
    #[tactic(auto, unfolding(crate::specs::KeptParts::kept_state))]
    pub fn is_useful(&self, machine: u32) -> bool
        ensures { result ≡ some_is (λ s. s.up && watchdog.test_holds s.connections (reading_of s.clock) && nat_lt s.kept (kept_state L.locks self.now).moment)
            (machine_in (kept_state L.locks self.now) machine) }
    {
        match self.machine(machine) {
            Some(found) => found.is_useful(self.moment),
            None => false,
        }
    }

    /// Whether a machine's last keepalive is so old that it is soon reset.
    #[tactic(auto, unfolding(crate::specs::KeptParts::kept_state))]
    pub fn is_starving(&self, machine: u32) -> bool
        ensures { result ≡ some_is (λ s. s.up && nat_le (s.kept + 550) (kept_state L.locks self.now).moment) (machine_in (kept_state L.locks self.now) machine) }
    {
        match self.machine(machine) {
            Some(found) => found.is_starving(self.moment),
            None => false,
        }
    }

    /// The least number of a call in flight on a machine.
    pub fn least_call(&self, machine: u32) -> Option<u64>
        ensures { result ≡ option_and_then (λ s. least (map (λ f. f.number) s.flights)) (machine_in (kept_state L.locks self.now) machine) }
    {
        match self.machine(machine) {
            Some(found) => found.least_call(),
            None => None,
        }
    }

    /// The least number of a call in flight of an ended daemon on a machine.
    pub fn least_ended_on(&self, machine: u32) -> Option<u64>
        ensures { result ≡ option_and_then (λ s. least (map (λ f. f.number) (filter (λ f. not f.own) s.flights))) (machine_in (kept_state L.locks self.now) machine) }
    {
        match self.machine(machine) {
            Some(found) => found.least_ended(),
            None => None,
        }
    }
}
