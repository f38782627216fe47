//! What a machine does without its daemon: holdings end, and some become orphans.

ghost use Rattle.sl_world_state.specs.Inputs.{own_in};
ghost use Rattle.sl_machine.specs.KeptParts.{kept_state};
ghost use Rattle.sl_machine.specs.Machines.{machine_state};
ghost use Rattle.sl_run.specs.declared.event.Event.TheVariants.{ExitOf, Reset};
ghost use Rattle.sl_trace.specs.Traces as traces;
ghost use Rattle.std.specs.Prelude.{IfOk, OnOk, [], filter, map, ◌&&◌, ◌++◌, ◌==◌, ◌∷◌, ◌≡◌};

use crate::kept_world::Kept;
use crate::locks::LockTable;
use sl_text::Seq;
use sl_trace::{Effects, End, Grant, end_of, orphan_of};
use std::alloc::{AllocError, Global};

/// Effects that end holdings and grant some, and nothing else. What is empty takes no memory.
fn effects_of(alloc: Global, ends: Vec<End>, grants: Vec<Grant>) -> Effects
    ensures { result ≡ record traces.no_effects { ends = ends.items; grants = grants.items } }
{
    Effects {
        ends: Seq::new(ends),
        signals: Seq::new(Vec::new(alloc)),
        moves: Seq::new(Vec::new(alloc)),
        grants: Seq::new(grants),
        starts: Seq::new(Vec::new(alloc)),
        replies: Seq::new(Vec::new(alloc)),
        calls: Seq::new(Vec::new(alloc)),
    }
}

/// No effects. They take no memory.
pub fn no_effects(alloc: Global) -> Effects
    ensures { result ≡ traces.no_effects }
{
    effects_of(alloc, Vec::new(alloc), Vec::new(alloc))
}

/// Whether the holding is the orphan of the grant's place.
fn is_orphan_at(held: &Grant, grant: &Grant) -> bool
    ensures { result ≡ (traces.is_orphan held.now && traces.same_place held.now.path held.now.offset grant.now.path grant.now.offset) }
{
    held.process == 0 && held.offset == grant.offset && held.path == grant.path
}

/// Whether one of these is the orphan of the grant's place.
fn has_orphan_of(held: &[Grant], grant: &Grant) -> bool
    ensures { result ≡ traces.has_orphan_of held.now grant.now }
{
    held.iter().any(|other| is_orphan_at(other, grant))
}

/// Whether the process's holding becomes an orphan. What is held is looked through only for a persistent holding of the process.
fn leaves_orphan(held: &[Grant], process: u32, grant: &Grant) -> bool
    ensures { result ≡ traces.leaves_orphan held.now process grant.now }
{
    grant.process == process && grant.persistent && !has_orphan_of(held, grant)
}

/// Adds the end of a holding, where it is the process's. An `Err` is want of memory.
fn push_end(ends: &mut Vec<End>, process: u32, grant: &Grant) -> Result<(), AllocError>
    ensures { OnOk result (ends.new.items ≡ ends.old.items ++ map traces.end_of (filter (λ g. g.process == process) (grant.now ∷ []))) }
{
    if grant.process == process {
        ends.push(end_of(grant))?;
    }
    Ok(())
}

/// The ends of a process's holdings. An `Err` is want of memory.
fn ends_of(alloc: Global, process: u32, held: &[Grant]) -> Result<Vec<End>, AllocError>
    ensures { IfOk result (λ ends. ends.items ≡ map traces.end_of (filter (λ g. g.process == process) held.now)) }
{
    let mut ends = Vec::new(alloc);
    for grant in held {
        push_end(&mut ends, process, grant)?;
    }
    Ok(ends)
}

/// The ends of all holdings. An `Err` is want of memory.
fn all_ends(alloc: Global, held: &[Grant]) -> Result<Vec<End>, AllocError>
    ensures { IfOk result (λ ends. ends.items ≡ map traces.end_of held.now) }
{
    let mut ends = Vec::new(alloc);
    for grant in held {
        ends.push(end_of(grant))?;
    }
    Ok(ends)
}

/// Adds the orphan that a process leaves of a holding, where it leaves one. An `Err` is want of memory.
fn push_orphan(
    orphans: &mut Vec<Grant>,
    held: &[Grant],
    process: u32,
    grant: &Grant,
) -> Result<(), AllocError>
    ensures { OnOk result (orphans.new.items
        ≡ orphans.old.items ++ map traces.orphan_of (filter (traces.leaves_orphan held.now process) (grant.now ∷ []))) }
{
    if leaves_orphan(held, process, grant) {
        orphans.push(orphan_of(grant))?;
    }
    Ok(())
}

/// The orphans that a process leaves. An `Err` is want of memory.
fn orphans_left(alloc: Global, process: u32, held: &[Grant]) -> Result<Vec<Grant>, AllocError>
    ensures { IfOk result (λ grants. grants.items ≡ traces.orphans_left process held.now) }
{
    let mut orphans = Vec::new(alloc);
    for grant in held {
        push_orphan(&mut orphans, held, process, grant)?;
    }
    Ok(orphans)
}

/// What is done where a process exits and this is held. An `Err` is want of memory.
fn effects_of_exit(alloc: Global, process: u32, held: &[Grant]) -> Result<Effects, AllocError>
    ensures { IfOk result (λ fx. fx ≡ record traces.no_effects {
      ends = map traces.end_of (filter (λ g. g.process == process) held.now);
      grants = traces.orphans_left process held.now;
    }) }
{
    let ends = ends_of(alloc, process, held)?;
    let orphans = orphans_left(alloc, process, held)?;
    Ok(effects_of(alloc, ends, orphans))
}

impl<L: LockTable> Kept<L> {
    /// What a machine does without its daemon when a process exits. An `Err` is want of memory.
    #[tactic(auto, unfolding(crate::specs::Machines::machine_state))]
    pub fn exit_effects(&self, machine: u32, process: u32) -> Result<Effects, AllocError>
        ensures { IfOk result (λ fx. fx ≡ own_in (kept_state L.locks self.now) (ExitOf machine process)) }
    {
        let alloc = *self.machines.allocator();
        match self.machine(machine) {
            None => Ok(no_effects(alloc)),
            Some(machine) => effects_of_exit(alloc, process, &machine.held),
        }
    }

    /// What a machine does when it goes down. An `Err` is want of memory.
    #[tactic(auto, unfolding(crate::specs::Machines::machine_state))]
    pub fn reset_effects(&self, machine: u32) -> Result<Effects, AllocError>
        ensures { IfOk result (λ fx. fx ≡ own_in (kept_state L.locks self.now) (Reset machine)) }
    {
        let alloc = *self.machines.allocator();
        match self.machine(machine) {
            None => Ok(no_effects(alloc)),
            Some(machine) => {
                let ends = all_ends(alloc, &machine.held)?;
                Ok(effects_of(alloc, ends, Vec::new(alloc)))
            }
        }
    }
}
