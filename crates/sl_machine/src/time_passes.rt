//! Time that passes: each clock goes on.

ghost use Rattle.sl_world_state.specs.Changes.{passed_in};
ghost use Rattle.sl_world_state.specs.Refusals as refusing;
ghost use Rattle.sl_machine.specs.KeptParts.{kept_state};
ghost use Rattle.sl_machine.specs.Machines.{machine_state};
ghost use Rattle.sl_machine.specs.ClocksGoOn.{clock_later};
ghost use Rattle.sl_run.specs.Worlds.{first_that};
ghost use Rattle.std.specs.List.{enumerate_from, list_any};
ghost use Rattle.std.specs.Prelude.{None, false, map, ◌+◌, ◌≡◌};

use crate::kept_world::Kept;
use crate::locks::LockTable;
use crate::machine::Machine;
use crate::time_refusals::growth_of;
use sl_text::Seq;

impl<L: LockTable> Machine<L> {
    /// Its clock goes on.
    #[tactic(auto, using(crate::proofs::PassLaws::clock_fits), unfolding(crate::specs::Machines::machine_state))]
    fn go_on(&mut self, time: u64, growths: &Option<Seq<u64>>, index: usize)
        requires { refusing.reads_past time growths.now (index + 1, machine_state L.locks self.old) ≡ false }
        ensures { self.new ≡ clock_later time growths.now (index, self.old) }
    {
        let clock = u128::from(self.clock) + growth_of(time, growths, index);
        self.clock = clock as u64;
    }
}

/// Each clock goes on.
fn advance<L: LockTable>(machines: &mut Vec<Machine<L>>, time: u64, growths: &Option<Seq<u64>>)
    requires { list_any (λ p. refusing.reads_past time growths.now (p.0 + 1, machine_state L.locks p.1)) (enumerate_from 0 machines.old.items) ≡ false }
    ensures { machines.new.items ≡ map (clock_later time growths.now) (enumerate_from 0 machines.old.items) }
{
    for index in 0..machines.len() {
        machines[index].go_on(time, growths, index);
    }
}

impl<L: LockTable> Kept<L> {
    /// So many milliseconds pass, and each clock grows, by as many or by its own thousandths. No premise may stand against it.
    pub fn pass(&mut self, time: u64, growths: &Option<Seq<u64>>)
        requires { first_that (refusing.pass_tests_in (kept_state L.locks self.old) time growths.now) ≡ None }
        ensures { kept_state L.locks self.new ≡ passed_in time growths.now (kept_state L.locks self.old) }
    {
        advance(&mut self.machines, time, growths);
        self.moment += time;
    }
}
