//! A machine.

ghost use Rattle.sl_world_state.specs.Changes.{change_flight, crashed_machine, reset_machine, restarted_machine, started_machine, tested_machine};
ghost use Rattle.sl_world_state.specs.Steps.{owned_machine};
ghost use Rattle.sl_world_state.specs.KeptWorld.{FlightState, flight_in};
ghost use Rattle.sl_world_state.specs.Refusals.{left_in};
ghost use Rattle.sl_machine.specs.Flights.{ended_flight, grown_flight};
ghost use Rattle.sl_locks.specs.Replies.{told_as};
ghost use Rattle.sl_locks.specs.Steps.{lock_input};
ghost use Rattle.sl_machine.specs.Machines.{HasOwnRoom, HasRoom, HasTold, TakesStep, machine_state, put_away_by, stepped_by};
ghost use Rattle.std.specs.Arc.{arc_value};
ghost use Rattle.std.specs.Vec.{vec_capacity, vec_len};
ghost use Rattle.sl_run.specs.Headers.{IsHeader};
ghost use Rattle.sl_run.specs.Locks.{locks_after, told_effects};
ghost use Rattle.sl_time.specs.Times.{reading_of};
ghost use Rattle.std.specs.Prelude.{OnErr, OnOk, Some, flat_map, length, true, ◌+◌, ◌≡◌, ◌≤◌};

use crate::children::{add_starts, hear_start};
use crate::flight::Outcome;
use crate::flights::Flights;
use crate::heard_inputs::Heard;
use crate::locks::LockTable;
use crate::machine_holdings::take_effects;
use crate::reset_holdings::{Lingering, lingering_after};
use sl_locks::{LockInput, StepTold};
use sl_run::Header;
use sl_sector::Image;
use sl_trace::{Effects, Grant};
use sl_wdmd::Wdmd;
use sl_world_state::Most;
use std::alloc::{AllocError, Global};
use std::sync::Arc;

/// A machine: what its next event asks for.
#[derive(Drop)]
pub struct Machine<L: LockTable> {
    pub up: bool,
    /// A daemon ran since the last restart.
    pub used: bool,
    /// Whether a daemon runs there.
    pub runs: bool,
    /// What its clock shows, in thousandths of a millisecond.
    pub clock: u64,
    /// The moment on which the last keepalive rests.
    pub kept: u64,
    pub connections: Wdmd,
    /// The number of the next job.
    pub job: u64,
    /// The children of the daemon that runs whose start has no answer.
    pub starting: Vec<u32>,
    pub flights: Flights,
    pub held: Vec<Grant>,
    /// What it held when it was reset: of the last reset first, and of those before what lingered then.
    pub lingering: Vec<Lingering>,
    pub locks: L,
}

impl<L: LockTable> Machine<L> {
    /// What its clock shows, in whole milliseconds.
    #[tactic(auto, unfolding(crate::specs::Machines::machine_state))]
    pub fn reading(&self) -> u64
        ensures { result ≡ reading_of (machine_state L.locks self.now).clock }
    {
        self.clock / 1000
    }

    /// Takes the memory that a step needs. An `Err` is want of it. Nothing that is seen changes.
    #[tactic(auto, unfolding(crate::specs::Machines::machine_state))]
    pub fn reserve(&mut self, most: &Most) -> Result<(), AllocError>
        ensures room { OnOk result (HasRoom L.has_room most.now self.new) }
        ensures same { machine_state L.locks self.new ≡ machine_state L.locks self.old }
    {
        self.connections.reserve(most.moves)?;
        self.held.reserve(most.grants)?;
        self.starting.reserve(most.starts)?;
        self.flights.reserve(most.calls)?;
        self.locks.reserve()
    }

    /// Takes the memory for what the machine does itself. An `Err` is want of it. Nothing that is seen changes.
    #[tactic(auto, unfolding(crate::specs::Machines::machine_state))]
    pub fn reserve_own(&mut self, effects: &Effects) -> Result<(), AllocError>
        ensures room { OnOk result (HasOwnRoom self.new effects.now) }
        ensures same { machine_state L.locks self.new ≡ machine_state L.locks self.old }
    {
        self.connections.reserve(effects.moves.len())?;
        self.held.reserve(effects.grants.len())
    }

    /// The watchdog daemon's test is made: one that holds moves the keepalive.
    #[tactic(auto, unfolding(crate::specs::Machines::machine_state))]
    pub fn test(&mut self, moment: u64)
        ensures { machine_state L.locks self.new ≡ tested_machine moment (machine_state L.locks self.old) }
    {
        if self.connections.test(self.clock / 1000) {
            self.kept = moment;
        }
    }

    /// A daemon begins, without entries; lvmlockd's locks are fresh.
    #[tactic(auto, unfolding(crate::specs::Machines::machine_state))]
    pub fn start(&mut self, alloc: Global, header: &Header)
        ensures { machine_state L.locks self.new ≡ started_machine header.now (machine_state L.locks self.old) }
    {
        self.runs = true;
        self.used = true;
        self.starting.clear();
        self.locks = L::fresh(alloc, header);
    }

    /// The daemon ends: its writes stay in flight.
    #[tactic(auto, unfolding(crate::specs::Machines::machine_state))]
    pub fn crash(&mut self)
        ensures { machine_state L.locks self.new ≡ crashed_machine (machine_state L.locks self.old) }
    {
        self.runs = false;
        self.starting.clear();
        self.flights.disown();
    }

    /// The machine goes down: what it holds lingers. An `Err` is want of memory, and changes nothing that is seen.
    #[tactic(auto, unfolding(crate::specs::Machines::machine_state))]
    pub fn reset(&mut self, alloc: Global, header: &Header, moment: u64) -> Result<(), AllocError>
        ensures ok { OnOk result (machine_state L.locks self.new ≡ reset_machine header.now moment (machine_state L.locks self.old)) }
        ensures err { OnErr result (machine_state L.locks self.new ≡ machine_state L.locks self.old) }
    {
        let land = header.timing.land();
        let lingering = lingering_after(alloc, &self.held, &self.lingering, land, moment)?;
        self.up = false;
        self.connections.clear();
        self.runs = false;
        self.starting.clear();
        self.held.clear();
        self.lingering = lingering;
        self.locks = L::fresh(alloc, header);
        self.flights.cut(moment);
        Ok(())
    }

    /// The machine comes up; the last keepalive rests on now.
    #[tactic(auto, unfolding(crate::specs::Machines::machine_state))]
    pub fn restart(&mut self, moment: u64)
        ensures { machine_state L.locks self.new ≡ restarted_machine moment (machine_state L.locks self.old) }
    {
        self.up = true;
        self.kept = moment;
        self.used = false;
    }

    /// The way of a write ends so.
    #[tactic(auto, unfolding(crate::specs::Machines::machine_state))]
    pub fn end_call(&mut self, call: u64, outcome: Outcome)
        ensures { machine_state L.locks self.new ≡ change_flight call (ended_flight outcome) (machine_state L.locks self.old) }
    {
        self.flights.end(call, outcome);
    }

    /// A read samples these sectors, so many: what an event makes of the call that it names. An `Err` is want of memory, and changes nothing that is seen.
    #[tactic(auto, unfolding(crate::specs::Machines::machine_state))]
    pub fn sample(
        &mut self,
        call: u64,
        more: Vec<Arc<Image>>,
        sectors: u64,
    ) -> Result<(), AllocError>
        requires { (f : FlightState) → flight_in (machine_state L.locks self.old) call ≡ Some f → sectors ≤ left_in f }
        ensures ok { OnOk result ((g : FlightState → FlightState)
            → ((f : FlightState) → flight_in (machine_state L.locks self.old) call ≡ Some f → g f ≡ grown_flight (flat_map (λ m. arc_value m) more.items) sectors f)
            → machine_state L.locks self.new ≡ change_flight call g (machine_state L.locks self.old)) }
        ensures err { OnErr result (machine_state L.locks self.new ≡ machine_state L.locks self.old) }
    {
        self.flights.sample(call, more, sectors)
    }

    /// What a step of the daemon changes, but for lvmlockd's locks. It takes no memory.
    #[tactic(auto, unfolding(crate::specs::Machines::machine_state))]
    fn put_away(&mut self, alloc: Global, header: &Header, heard: Heard, effects: &Effects)
        requires lawful { IsHeader header.now }
        requires room { TakesStep L.has_room self.old effects.now }
        ensures stays { machine_state L.locks self.new ≡ put_away_by header.now heard effects.now (machine_state L.locks self.old) }
        ensures locks { self.new.locks ≡ self.old.locks }
    {
        self.connections.make_moves(effects.moves.as_slice());
        if heard.numbered {
            self.job += 1;
        }
        hear_start(&mut self.starting, heard.spawned);
        add_starts(&mut self.starting, effects.starts.as_slice());
        self.flights.answer(heard.answered);
        self.flights
            .push_calls(alloc, header, effects.calls.as_slice());
        take_effects(&mut self.held, effects);
    }

    /// The step of lvmlockd's locks, which is told there. It takes no memory.
    #[tactic(auto, unfolding(crate::specs::Machines::machine_state))]
    fn turn_locks(&mut self, number: u64, input: LockInput, told: &mut StepTold)
        requires { L.has_room self.old.locks ≡ true }
        ensures stays { machine_state L.locks self.new
            ≡ record (machine_state L.locks self.old) { locks = (locks_after number (lock_input input) told.old.effects (machine_state L.locks self.old).locks).0 } }
        ensures effects { told.new.effects ≡ told_effects number (lock_input input) told.old.effects (machine_state L.locks self.old).locks }
        ensures line { told_as told.new.line ≡ (locks_after number (lock_input input) told.old.effects (machine_state L.locks self.old).locks).1 }
    {
        self.locks.turn(number, input, told);
    }

    /// The daemon that runs has taken a step whose effects stand where it is told: there are then the effects without the reply to an ask, and
    /// the reply to lvmlockd's line, if it has come. It takes no memory.
    pub fn step(
        &mut self,
        alloc: Global,
        header: &Header,
        heard: Heard,
        input: LockInput,
        told: &mut StepTold,
    )
        requires lawful { IsHeader header.now }
        requires room { TakesStep L.has_room self.old told.old.effects }
        ensures stays { machine_state L.locks self.new ≡ stepped_by header.now heard (lock_input input) told.old.effects (machine_state L.locks self.old) }
        ensures told { HasTold told.new (lock_input input) told.old.effects (machine_state L.locks self.old) }
    {
        let number = self.job;
        self.put_away(alloc, header, heard, &told.effects);
        self.turn_locks(number, input, told);
    }

    /// What the machine does without a daemon. It takes no memory.
    #[tactic(auto, unfolding(crate::specs::Machines::machine_state))]
    pub fn own(&mut self, effects: &Effects)
        requires moves { length effects.now.moves ≤ self.old.connections.room }
        requires grants { vec_len self.old.held + length effects.now.grants ≤ vec_capacity self.old.held }
        ensures { machine_state L.locks self.new ≡ owned_machine effects.now (machine_state L.locks self.old) }
    {
        self.connections.make_moves(effects.moves.as_slice());
        take_effects(&mut self.held, effects);
        self.locks.leave(effects);
    }
}
