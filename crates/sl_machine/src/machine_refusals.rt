//! What an event asks of its machine: the first test that fails.

ghost use Rattle.sl_world_state.specs.Refusals.{needs_running, on_flight_in, reads_in, writes_in};
ghost use Rattle.sl_machine.specs.Machines.{machine_state};
ghost use Rattle.sl_machine.specs.EventTests.{answer_tests, do_tests, drop_tests, land_tests, machine_tests, of_kind, sample_tests};
ghost use Rattle.sl_run.specs.Worlds.{first_that};
ghost use Rattle.sl_run.specs.declared.event.Refusal.TheVariants.{MissingLvm, MissingReset, MissingSpawn, MissingUp};
ghost use Rattle.sl_run.specs.declared.event.Refusal.{Refusal as RefusalOf};
ghost use Rattle.std.specs.List.{list_any};
ghost use Rattle.std.specs.Prelude.{Bool, List, [], is_none, is_some, not, ◌==◌, ◌||◌, ◌∷◌, ◌≡◌};

use crate::children::is_starting;
use crate::flight::Flight;
use crate::locks::LockTable;
use crate::machine::Machine;
use sl_run::{Event, Refusal};

/// This refusal, where the test holds.
fn where_so(test: bool, why: Refusal) -> Option<Refusal>
    ensures { result ≡ first_that ((test, why) ∷ []) }
{
    if test { Some(why) } else { None }
}

/// Why a call may not sample so many sectors.
fn sample_refusal(flight: &Flight, sectors: u64) -> Option<Refusal>
    ensures { result ≡ first_that (of_kind reads_in (sample_tests sectors) flight.now) }
{
    if flight.writes() {
        return Some(Refusal::MissingCall);
    }
    if flight.place().is_none() {
        return Some(Refusal::MissingPlace);
    }
    where_so(flight.left() < sectors, Refusal::MissingSample)
}

/// Why a call may not take effect.
fn land_refusal(flight: &Flight) -> Option<Refusal>
    ensures { result ≡ first_that (of_kind writes_in land_tests flight.now) }
{
    if !flight.writes() {
        return Some(Refusal::MissingCall);
    }
    if flight.place().is_none() {
        return Some(Refusal::MissingPlace);
    }
    where_so(!flight.is_flying(), Refusal::MissingFlight)
}

/// Why a call may not be answered so.
fn answer_refusal(flight: &Flight, ok: bool) -> Option<Refusal>
    ensures { result ≡ first_that (of_kind (λ f. f.own) (answer_tests ok) flight.now) }
{
    if !flight.is_own() {
        return Some(Refusal::MissingCall);
    }
    if ok && !flight.writes() && 0 < flight.left() {
        return Some(Refusal::MissingSample);
    }
    where_so(
        ok && flight.writes() && !flight.has_landed(),
        Refusal::MissingLanding,
    )
}

/// Why a call may not be done.
fn do_refusal(flight: &Flight) -> Option<Refusal>
    ensures { result ≡ first_that (of_kind (λ f. f.own) do_tests flight.now) }
{
    if !flight.is_own() {
        return Some(Refusal::MissingCall);
    }
    if flight.place().is_none() {
        return Some(Refusal::MissingPlace);
    }
    where_so(flight.is_torn(), Refusal::MissingLanding)
}

/// Why a call may not be dropped.
fn drop_refusal(flight: &Flight) -> Option<Refusal>
    ensures { result ≡ first_that (of_kind writes_in drop_tests flight.now) }
{
    if !flight.writes() {
        return Some(Refusal::MissingCall);
    }
    where_so(
        flight.is_own() || !flight.is_flying(),
        Refusal::MissingFlight,
    )
}

impl<L: LockTable> Machine<L> {
    /// Where a daemon runs, what else stands against an event.
    #[tactic(auto, unfolding(crate::specs::Machines::machine_state))]
    fn if_running(&self, rest: Option<Refusal>) -> Option<Refusal>
        ensures { (tests : List (Bool × RefusalOf)) → rest ≡ first_that tests → result ≡ first_that (needs_running (machine_state L.locks self.now) ∷ tests) }
    {
        if self.runs {
            rest
        } else {
            Some(Refusal::MissingDaemon)
        }
    }

    /// Why a daemon may not be given something: none runs.
    #[tactic(auto, unfolding(crate::specs::Machines::machine_state))]
    fn idle_refusal(&self) -> Option<Refusal>
        ensures { result ≡ first_that (needs_running (machine_state L.locks self.now) ∷ []) }
    {
        where_so(!self.runs, Refusal::MissingDaemon)
    }

    /// Why a call may not sample so many sectors.
    #[tactic(auto, unfolding(crate::specs::Machines::machine_state))]
    fn sample_refusal(&self, call: u64, sectors: u64) -> Option<Refusal>
        ensures { result ≡ first_that (on_flight_in (machine_state L.locks self.now) call reads_in (sample_tests sectors)) }
    {
        match self.flights.get(call) {
            None => Some(Refusal::MissingCall),
            Some(flight) => sample_refusal(flight, sectors),
        }
    }

    /// Why a call may not take effect.
    #[tactic(auto, unfolding(crate::specs::Machines::machine_state))]
    pub fn land_refusal(&self, call: u64) -> Option<Refusal>
        ensures { result ≡ first_that (on_flight_in (machine_state L.locks self.now) call writes_in land_tests) }
    {
        match self.flights.get(call) {
            None => Some(Refusal::MissingCall),
            Some(flight) => land_refusal(flight),
        }
    }

    /// Why a call may not be answered so.
    #[tactic(auto, unfolding(crate::specs::Machines::machine_state))]
    fn answer_refusal(&self, call: u64, ok: bool) -> Option<Refusal>
        ensures { result ≡ first_that (on_flight_in (machine_state L.locks self.now) call (λ f. f.own) (answer_tests ok)) }
    {
        match self.flights.get(call) {
            None => Some(Refusal::MissingCall),
            Some(flight) => answer_refusal(flight, ok),
        }
    }

    /// Why a call may not be done.
    #[tactic(auto, unfolding(crate::specs::Machines::machine_state))]
    fn do_refusal(&self, call: u64) -> Option<Refusal>
        ensures { result ≡ first_that (on_flight_in (machine_state L.locks self.now) call (λ f. f.own) do_tests) }
    {
        match self.flights.get(call) {
            None => Some(Refusal::MissingCall),
            Some(flight) => do_refusal(flight),
        }
    }

    /// Why a call may not be dropped.
    #[tactic(auto, unfolding(crate::specs::Machines::machine_state))]
    fn drop_refusal(&self, call: u64) -> Option<Refusal>
        ensures { result ≡ first_that (on_flight_in (machine_state L.locks self.now) call writes_in drop_tests) }
    {
        match self.flights.get(call) {
            None => Some(Refusal::MissingCall),
            Some(flight) => drop_refusal(flight),
        }
    }

    /// Why a command may not be given: it is for lvmlockd's process, or an ask is due.
    #[tactic(auto, unfolding(crate::specs::Machines::machine_state))]
    fn command_refusal(&self, locks: bool) -> Option<Refusal>
        ensures { result ≡ first_that (needs_running (machine_state L.locks self.now) ∷ (locks || is_some (machine_state L.locks self.now).locks.due, MissingLvm) ∷ []) }
    {
        if !self.runs {
            return Some(Refusal::MissingDaemon);
        }
        let due = self.locks.has_ask();
        where_so(locks || due, Refusal::MissingLvm)
    }

    /// Why lvmlockd may not be given a line: one runs.
    #[tactic(auto, unfolding(crate::specs::Machines::machine_state))]
    fn line_refusal(&self) -> Option<Refusal>
        ensures { result ≡ first_that (needs_running (machine_state L.locks self.now) ∷ (is_some (machine_state L.locks self.now).locks.line, MissingLvm) ∷ []) }
    {
        if !self.runs {
            return Some(Refusal::MissingDaemon);
        }
        where_so(self.locks.has_line(), Refusal::MissingLvm)
    }

    /// Why an ask may not be given: none is due.
    #[tactic(auto, unfolding(crate::specs::Machines::machine_state), using(crate::proofs::Refusals::none_is_not_some))]
    fn ask_refusal(&self) -> Option<Refusal>
        ensures { result ≡ first_that (needs_running (machine_state L.locks self.now) ∷ (is_none (machine_state L.locks self.now).locks.due, MissingLvm) ∷ []) }
    {
        if !self.runs {
            return Some(Refusal::MissingDaemon);
        }
        where_so(!self.locks.has_ask(), Refusal::MissingLvm)
    }

    /// Why a start may not be answered: none of this child is waited for.
    #[tactic(auto, unfolding(crate::specs::Machines::machine_state))]
    fn spawn_refusal(&self, process: u32) -> Option<Refusal>
        ensures { result ≡ first_that (needs_running (machine_state L.locks self.now) ∷ (not (list_any (λ q. q == process) (machine_state L.locks self.now).starting), MissingSpawn) ∷ []) }
    {
        if !self.runs {
            return Some(Refusal::MissingDaemon);
        }
        where_so(!is_starting(&self.starting, process), Refusal::MissingSpawn)
    }

    /// Why a daemon may not begin here, whatever its name.
    #[tactic(auto, unfolding(crate::specs::Machines::machine_state))]
    pub fn start_refusal(&self) -> Option<Refusal>
        ensures { result ≡ first_that ((not (machine_state L.locks self.now).up, MissingUp) ∷ ((machine_state L.locks self.now).used, MissingReset) ∷ []) }
    {
        if !self.up {
            return Some(Refusal::MissingUp);
        }
        where_so(self.used, Refusal::MissingReset)
    }

    /// Why an event on this machine may not happen, as far as the machine tells. For a command `locks` tells whether it is for lvmlockd's
    /// process.
    #[tactic(auto, unfolding(crate::specs::Machines::machine_state))]
    pub fn refusal(&self, event: &Event, locks: bool) -> Option<Refusal>
        ensures { result ≡ first_that (machine_tests locks event.now (machine_state L.locks self.now)) }
    {
        match event {
            Event::Pass { .. } => None,
            Event::WakeUp { .. } => self.idle_refusal(),
            Event::GiveCommand { .. } => self.command_refusal(locks),
            Event::GiveLvm { .. } => self.line_refusal(),
            Event::GiveAsk { .. } => self.ask_refusal(),
            Event::Sample { call, sectors, .. } => self.if_running(self.sample_refusal(
                *call, *sectors,
            )),
            Event::Land { call, .. } => self.land_refusal(*call),
            Event::Tear { call, .. } => self.land_refusal(*call),
            Event::AnswerCall { call, ok, .. } => self.if_running(self.answer_refusal(*call, *ok)),
            Event::Do { call, .. } => self.if_running(self.do_refusal(*call)),
            Event::DropWrite { call, .. } => self.drop_refusal(*call),
            Event::Test { .. } => where_so(!self.up, Refusal::MissingUp),
            Event::ExitOf { .. } => where_so(!self.up, Refusal::MissingUp),
            Event::SpawnedOf { process, .. } => self.spawn_refusal(*process),
            Event::StartDaemon { .. } => self.start_refusal(),
            Event::Crash { .. } => self.idle_refusal(),
            Event::Reset { .. } => where_so(!self.up, Refusal::MissingUp),
            Event::Restart { .. } => where_so(self.up, Refusal::MissingDown),
        }
    }
}
