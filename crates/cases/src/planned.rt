//! Children in memory, as their plan has it.

use crate::streams::went;
use crate::told::Told;
use sl_io::Failed;
use sl_outside::{Act, MemPlan, MemSpawner, PlannedSpawner, Spawner};
use sl_trace::Signal;
use std::alloc::{AllocError, Global};

/// The spawner of a plan: two children at once, which are deaf to a term, and of which the first exits by itself; the third start fails.
fn spawner(alloc: Global) -> Result<MemSpawner, AllocError> {
    let lives = vec![in alloc; 1, 9]?;
    let failing = vec![in alloc; 3]?;
    let plan = MemPlan {
        children: 2,
        acts: 3,
        lives,
        deaf: true,
        failing,
    };
    Ok(PlannedSpawner::new(alloc, 1, plan)?.into_spawner())
}

/// Starts a child and takes it in: how that went.
pub fn start<S: Spawner>(
    starter: &mut S,
    spawner: &mut S,
    process: u32,
    path: &str,
) -> Result<(), Failed> {
    let child = starter.start(process, path)?;
    spawner.add(process, child)
}

/// Starts a child: how that went.
fn tell_start(told: &mut Told, starter: &mut MemSpawner, spawner: &mut MemSpawner, process: u32) {
    told.word(went(&start(starter, spawner, process, "/bin/x")));
}

/// The child that has exited, else 0.
fn tell_exit(told: &mut Told, spawner: &mut MemSpawner) {
    told.short(spawner.poll().unwrap_or(0));
}

/// How three starts went and a fourth, for which there is no room; and which child exits at the first look and at the second.
fn tell_started(told: &mut Told, starter: &mut MemSpawner, spawner: &mut MemSpawner) {
    tell_start(told, starter, spawner, 7);
    tell_start(told, starter, spawner, 9);
    tell_start(told, starter, spawner, 8);
    told.number(acts_told(starter.acts()));
    tell_start(told, starter, spawner, 6);
    tell_exit(told, spawner);
    tell_exit(told, spawner);
}

/// How many acts are told, 0 where they no longer are.
fn acts_told(acts: Option<&[Act]>) -> u64 {
    match acts {
        Some(acts) => acts.len() as u64,
        None => 0,
    }
}

/// Which child exits once the other is termed, and once it is killed; how many signals were told by then, and whether they still are after two
/// more.
fn tell_signalled(told: &mut Told, spawner: &mut MemSpawner) {
    spawner.signal(9, Signal::Term);
    tell_exit(told, spawner);
    spawner.signal(9, Signal::Kill);
    tell_exit(told, spawner);
    told.number(acts_told(spawner.acts()));
    spawner.signal(9, Signal::Term);
    spawner.signal(9, Signal::Kill);
    told.truth(spawner.acts().is_some());
}

/// Three starts, of which the third is to fail, and one more; signals to the child that is left; and the faults of the starts, and of children
/// that were turned away.
pub fn a_planned_spawner(told: &mut Told) {
    match spawner(told.alloc) {
        Ok(mut spawner) => {
            let mut starter = spawner.starter();
            tell_started(told, &mut starter, &mut spawner);
            tell_signalled(told, &mut spawner);
            told.number(starter.faults());
            told.number(spawner.faults());
        }
        Err(_) => told.need(false),
    }
}
