//! The spawner in memory that a machine gets.
ghost use Rattle.sl_outside.specs.MemSpawners.{IsFresh};
ghost use Rattle.std.specs.Prelude.{IfOk, ◌≡◌};

use crate::mem_spawner::{MemPlan, MemSpawner};
use std::alloc::{AllocError, Global};

/// A machine's spawner before the run: no child was started, and no fault counted.
#[derive(Drop)]
pub struct PlannedSpawner {
    machine: u32,
    spawner: MemSpawner,
    ghost fresh: { IsFresh spawner },
}

impl PlannedSpawner {
    /// The spawner of a machine, by this plan. The only error is want of memory.
    pub fn new(alloc: Global, machine: u32, plan: MemPlan) -> Result<PlannedSpawner, AllocError>
        ensures { IfOk result (λ p. p.machine ≡ machine) }
    {
        let spawner = MemSpawner::new(alloc, plan)?;
        Ok(PlannedSpawner { machine, spawner })
    }

    /// The number of the machine whose spawner it is.
    pub fn machine(&self) -> u32
        ensures { result ≡ self.now.machine }
    {
        self.machine
    }

    /// The spawner itself, which goes by the plan of its machine.
    pub fn into_spawner(self) -> MemSpawner
        ensures { IsFresh result }
    {
        self.spawner
    }
}
