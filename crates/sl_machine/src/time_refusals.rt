//! Why so much time may not pass: the premises on drift, watchdog and landing, and the bound of all moments.

ghost use Rattle.sl_world_state.specs.Refusals as refusing;
ghost use Rattle.sl_machine.specs.KeptParts.{kept_state};
ghost use Rattle.sl_machine.specs.Machines.{machine_state};
ghost use Rattle.sl_run.specs.Premises as run_premises;
ghost use Rattle.sl_run.specs.Headers.{IsHeader};
ghost use Rattle.sl_run.specs.Worlds.{first_that};
ghost use Rattle.sl_run.specs.declared.event.Refusal.TheVariants.{LimitMoment, PremiseDrift, PremiseLanding, PremiseWatchdog};
ghost use Rattle.sl_words.specs.Bounds.{moments};
ghost use Rattle.std.specs.List.{enumerate_from, list_any};
ghost use Rattle.std.specs.Prelude.{None, [], false, nat_le, nat_lt, not, ◌&&◌, ◌*◌, ◌+◌, ◌<◌, ◌^◌, ◌∷◌, ◌≡◌, ◌≤◌, ◌||◌};
ghost use Rattle.sl_words.specs.Words.{some_is};

use crate::kept_world::Kept;
use crate::locks::LockTable;
use crate::machine::Machine;
use sl_run::{Header, Refusal};
use sl_text::Seq;

/// What each moment and each reading stays below.
const MOMENTS: u64 = 1_000_000_000_000_000;

/// By how much the clock at this place grows.
#[tactic(auto, using(crate::proofs::PassLaws::none_index))]
pub(crate) fn growth_of(time: u64, growths: &Option<Seq<u64>>, index: usize) -> u128
    ensures exact { result ≡ run_premises.growth_of time growths.now (index + 1) }
    ensures small { result < 2 ^ 74 }
{
    match growths {
        Some(growths) => match growths.get(index) {
            Some(growth) => u128::from(*growth),
            None => 0,
        },
        None => 1000 * u128::from(time),
    }
}

/// Whether the clock at this place would go wrong.
fn drifts_off(slow: u64, fast: u64, time: u64, growths: &Option<Seq<u64>>, index: usize) -> bool
    ensures { result ≡ not (nat_le (slow * time) (run_premises.growth_of time growths.now (index + 1)) && nat_le (run_premises.growth_of time growths.now (index + 1)) (fast * time)) }
{
    let growth = growth_of(time, growths, index);
    let time = u128::from(time);
    growth < u128::from(slow) * time || u128::from(fast) * time < growth
}

/// The bound on the clocks of a header's world.
fn rho_of(header: &Header) -> u64
    requires { IsHeader header.now }
    ensures exact { result ≡ header.now.timing.rho }
    ensures most { result ≤ 100 }
{
    header.timing.rho()
}

/// Whether one of two holds.
fn either(a: bool, b: bool) -> bool
    ensures { result ≡ (a || b) }
{
    a || b
}

/// Whether so long after a reset is before the moment.
fn is_past(reset: Option<u64>, land: u64, moment: u128) -> bool
    ensures { result ≡ some_is (λ r. nat_lt (r + land) moment) reset }
{
    match reset {
        Some(reset) => u128::from(reset) + u128::from(land) < moment,
        None => false,
    }
}

impl<L: LockTable> Machine<L> {
    /// Whether its reading would reach the bound.
    #[tactic(auto, unfolding(crate::specs::Machines::machine_state))]
    fn reads_past(&self, time: u64, growths: &Option<Seq<u64>>, index: usize) -> bool
        ensures { result ≡ refusing.reads_past time growths.now (index + 1, machine_state L.locks self.now) }
    {
        let clock = u128::from(self.clock) + growth_of(time, growths, index);
        clock / 1000 >= u128::from(MOMENTS)
    }

    /// Whether its last keepalive would be too old.
    #[tactic(auto, unfolding(crate::specs::Machines::machine_state))]
    fn starves(&self, fire: u64, moment: u128) -> bool
        ensures { result ≡ refusing.starves fire moment (machine_state L.locks self.now) }
    {
        self.up && u128::from(self.kept) + u128::from(fire) < moment
    }

    /// Whether a write of before a reset of it could land too late.
    fn is_overdue(&self, land: u64, moment: u128) -> bool
        ensures { result ≡ list_any (refusing.is_overdue land moment) (machine_state L.locks self.now).flights }
    {
        is_past(self.flights.late(), land, moment)
    }
}

/// Whether some reading would reach the bound.
fn some_reads_past<L: LockTable>(
    machines: &[Machine<L>],
    time: u64,
    growths: &Option<Seq<u64>>,
) -> bool
    ensures { result ≡ list_any (λ p. refusing.reads_past time growths.now (p.0 + 1, machine_state L.locks p.1)) (enumerate_from 0 machines.now) }
{
    machines.iter().enumerate().any(|(index, machine)| machine.reads_past(time, growths, index))
}

/// Whether some clock would go wrong.
fn some_drifts_off<L: LockTable>(
    machines: &[Machine<L>],
    rho: u64,
    time: u64,
    growths: &Option<Seq<u64>>,
) -> bool
    requires { rho ≤ 100 }
    ensures { result ≡ list_any (λ p. refusing.drifts_off rho time growths.now (p.0 + 1, machine_state L.locks p.1)) (enumerate_from 0 machines.now) }
{
    let slow = 1000 - rho;
    let fast = 1000 + rho;
    machines
        .iter()
        .enumerate()
        .any(|(index, _)| drifts_off(slow, fast, time, growths, index))
}

/// Whether some last keepalive would be too old.
fn some_starves<L: LockTable>(machines: &[Machine<L>], fire: u64, moment: u128) -> bool
    ensures { result ≡ list_any (λ a. refusing.starves fire moment (machine_state L.locks a)) machines.now }
{
    machines.iter().any(|machine| machine.starves(fire, moment))
}

/// Whether some write could land too late.
fn some_is_overdue<L: LockTable>(machines: &[Machine<L>], land: u64, moment: u128) -> bool
    ensures { result ≡ list_any (λ a. list_any (refusing.is_overdue land moment) (machine_state L.locks a).flights) machines.now }
{
    machines
        .iter()
        .any(|machine| machine.is_overdue(land, moment))
}

/// The first reason that holds.
fn first_reason(limit: bool, drift: bool, watchdog: bool, landing: bool) -> Option<Refusal>
    ensures { result ≡ first_that ((limit, LimitMoment) ∷ (drift, PremiseDrift) ∷ (watchdog, PremiseWatchdog) ∷ (landing, PremiseLanding) ∷ []) }
{
    if limit {
        Some(Refusal::LimitMoment)
    } else if drift {
        Some(Refusal::PremiseDrift)
    } else if watchdog {
        Some(Refusal::PremiseWatchdog)
    } else if landing {
        Some(Refusal::PremiseLanding)
    } else {
        None
    }
}

impl<L: LockTable> Kept<L> {
    /// Whether some reading would reach the bound.
    fn reads_past(&self, time: u64, growths: &Option<Seq<u64>>) -> bool
        ensures { result ≡ list_any (refusing.reads_past time growths.now) (enumerate_from 1 (kept_state L.locks self.now).machines) }
    {
        some_reads_past(&self.machines, time, growths)
    }

    /// Whether the moment or some reading would reach its bound.
    #[tactic(auto, unfolding(crate::specs::KeptParts::kept_state))]
    fn is_past_limit(&self, time: u64, growths: &Option<Seq<u64>>) -> bool
        ensures { result ≡ (nat_le moments ((kept_state L.locks self.now).moment + time)
            || list_any (refusing.reads_past time growths.now) (enumerate_from 1 (kept_state L.locks self.now).machines)) }
    {
        let limit = u128::from(self.moment) + u128::from(time) >= u128::from(MOMENTS);
        let past = self.reads_past(time, growths);
        either(limit, past)
    }

    /// Whether some clock would go wrong.
    fn drifts_off(&self, time: u64, growths: &Option<Seq<u64>>) -> bool
        ensures { result ≡ list_any (refusing.drifts_off (kept_state L.locks self.now).header.timing.rho time growths.now) (enumerate_from 1 (kept_state L.locks self.now).machines) }
    {
        some_drifts_off(&self.machines, rho_of(self.disks.header()), time, growths)
    }

    /// Whether some last keepalive would be too old.
    fn starves(&self, time: u64) -> bool
        ensures { result ≡ list_any (refusing.starves (kept_state L.locks self.now).header.timing.fire ((kept_state L.locks self.now).moment + time)) (kept_state L.locks self.now).machines }
    {
        let fire = self.disks.header().timing.fire();
        some_starves(
            &self.machines,
            fire,
            u128::from(self.moment) + u128::from(time),
        )
    }

    /// Whether some write could land too late.
    fn is_overdue(&self, time: u64) -> bool
        ensures { result ≡ list_any (λ s. list_any (refusing.is_overdue (kept_state L.locks self.now).header.timing.land ((kept_state L.locks self.now).moment + time)) s.flights)
            (kept_state L.locks self.now).machines }
    {
        let land = self.disks.header().timing.land();
        some_is_overdue(
            &self.machines,
            land,
            u128::from(self.moment) + u128::from(time),
        )
    }

    /// Why so much time may not pass: the first reason that holds.
    pub fn pass_refusal(&self, time: u64, growths: &Option<Seq<u64>>) -> Option<Refusal>
        ensures { result ≡ first_that (refusing.pass_tests_in (kept_state L.locks self.now) time growths.now) }
    {
        first_reason(
            self.is_past_limit(time, growths),
            self.drifts_off(time, growths),
            self.starves(time),
            self.is_overdue(time),
        )
    }
}
