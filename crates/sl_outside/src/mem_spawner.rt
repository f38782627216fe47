//! A spawner in memory, whose children exit and whose faults come as planned.
//!
//! Its memory is taken when it is made, so that no call takes any. A child for which there is no room is turned away, as a fault. It tells
//! what it was asked to do, for as long as there is room to note it.
ghost use Rattle.sl_outside.specs.Acts.{Grows, IsTold};
ghost use Rattle.sl_outside.specs.MemPlans.{begun_by};
ghost use Rattle.sl_outside.specs.MemSpawners.{after_add, after_poll, after_signal, after_start, exited, life_of, no_room, noted, numbers, start_fails, told};
ghost use Rattle.sl_outside.specs.declared.act.Act.TheVariants.{Signalled, Started};
ghost use Rattle.sl_outside.specs.declared.started_child.StartedChild.TheVariants.{InMemory};
ghost use Rattle.sl_io.specs.FaultCauses.{HasCause};
ghost use Rattle.std.specs.Prelude.{IfOk, IsErr, IsTrue, None, OnErr, OnOk, is_ok, option_map, [], ◌++◌, ◌∷◌, ◌≡◌, ◌≤◌, ◌↔◌};

use crate::act::Act;
use crate::mem_children::{MemChild, MemChildren};
use crate::spawner::Spawner;
use crate::started_child::{MemLife, StartedChild};
use sl_io::{Failed, PlannedFaults};
use sl_text::FilePath;
use sl_trace::Signal;
use sl_words::Room;
use std::alloc::{AllocError, Global};
use std::marker::Model;
use std::mem::replace;

/// What a spawner in memory and its starter are to do.
#[derive(Drop)]
pub struct MemPlan {
    /// How many children may run at once.
    pub children: u32,
    /// How many acts are noted: so many by the starter, and as many by the spawner.
    pub acts: u32,
    /// At which poll after it was taken in a child exits by itself, by the number of the start; the last goes for all later starts, and with
    /// none no child exits by itself. A 0 stands for 1.
    pub lives: Vec<u64>,
    /// Whether a term does nothing to its children: only a kill ends them.
    pub deaf: bool,
    /// The starts that fail, counted from 1.
    pub failing: Vec<u64>,
}

/// What a starter is to do, until it is handed out.
#[derive(Drop)]
struct ToStart {
    lives: Vec<u64>,
    failing: Vec<u64>,
    acts: Option<Room<Act>>,
}

impl Model for ToStart {
    ghost use Rattle.sl_outside.specs.Acts.{Tells};
    ghost use Rattle.sl_outside.specs.MemSpawners.{told};
    ghost use Rattle.sl_outside.specs.declared.act.Act.{Act};
    ghost use Rattle.std.specs.Prelude.{List, Option, []};

    ghost Value = { Option (List Act) };

    ghost view = { λ s. told s.acts };

    ghost invariant = { λ s. Tells (told s.acts) [] };
}

/// A spawner whose children are in memory; it notes what it was asked to do.
#[derive(Drop)]
pub struct MemSpawner {
    alloc: Global,
    to_start: ToStart,
    lives: Vec<u64>,
    deaf: bool,
    starts: PlannedFaults,
    polls: u64,
    children: MemChildren,
    acts: Option<Room<Act>>,
}

impl Model for MemSpawner {
    ghost use Rattle.sl_outside.specs.MemSpawners.{SpawnerState};

    ghost Value = { SpawnerState };

    ghost view = { λ s. record { lives = s.lives.items; deaf = s.deaf; starts = s.starts; polls = s.polls; children = s.children; acts = s.acts } };
}

/// After how many polls the child of this start exits by itself.
fn life_of(lives: &[u64], start: u64) -> u64
    ensures { result ≡ life_of lives.now start }
{
    let last = lives.len().min(start as usize).saturating_sub(1);
    lives.get(last).copied().unwrap_or(u64::MAX)
}

/// The list with one more act, where there is one with room for it.
fn note(acts: Option<Room<Act>>, act: Act) -> Option<Room<Act>>
    ensures exact { result ≡ noted act acts }
    ensures grows { Grows (told acts) (told result) (act ∷ []) }
{
    let mut list = acts?;
    if list.room() == 0 {
        return None;
    }
    list.put(act);
    Some(list)
}

impl ToStart {
    /// Nothing is left to be started as planned.
    fn none(alloc: Global) -> ToStart {
        ToStart {
            lives: Vec::new(alloc),
            failing: Vec::new(alloc),
            acts: None,
        }
    }
}

impl MemSpawner {
    /// A spawner by this plan, with no child. The only error is want of memory.
    pub fn new(alloc: Global, plan: MemPlan) -> Result<MemSpawner, AllocError>
        ensures { IfOk result (λ s. s ≡ begun_by plan) }
    {
        let MemPlan {
            children,
            acts,
            lives,
            deaf,
            failing,
        } = plan;
        let room = acts as usize;
        let to_start = ToStart {
            lives,
            failing,
            acts: Some(Room::new(alloc, room)?),
        };
        Ok(MemSpawner {
            alloc,
            to_start,
            lives: Vec::new(alloc),
            deaf,
            starts: PlannedFaults::none(alloc),
            polls: 0,
            children: MemChildren::new(alloc, children)?,
            acts: Some(Room::new(alloc, room)?),
        })
    }

    /// A spawner with no room, which tells nothing: each child is turned away.
    pub(crate) fn idle(alloc: Global) -> MemSpawner
        ensures { result ≡ no_room }
    {
        MemSpawner {
            alloc,
            to_start: ToStart::none(alloc),
            lives: Vec::new(alloc),
            deaf: false,
            starts: PlannedFaults::none(alloc),
            polls: 0,
            children: MemChildren::none(alloc),
            acts: None,
        }
    }

    /// How many of its calls have failed, as planned or for want of room.
    pub fn faults(&self) -> u64
        ensures { result ≡ self.now.starts.faults }
    {
        self.starts.faults()
    }

    /// What it was asked to do, the first first, where there was room to note it all.
    pub fn acts(&self) -> Option<&[Act]>
        ensures { option_map (λ acts. acts.now) result ≡ told self.now.acts }
    {
        match &self.acts {
            Some(acts) => Some(acts.as_slice()),
            None => None,
        }
    }

    /// What it was asked to do, where there was room to note it all.
    pub(crate) fn into_acts(self) -> Option<Room<Act>>
        ensures { told result ≡ told self.acts }
    {
        let MemSpawner {
            alloc: _,
            to_start: _,
            lives: _,
            deaf: _,
            starts: _,
            polls: _,
            children: _,
            acts,
        } = self;
        acts
    }

    /// How many children run that were neither ended nor have come to their end by the last poll.
    pub(crate) fn alive(&self) -> usize {
        self.children.alive(self.polls)
    }

    /// Starts a child, where that was not planned to fail.
    fn begin(&mut self) -> Result<MemLife, Failed>
        ensures fails { IsErr result ↔ IsTrue (start_fails self.old) }
        ensures exact { self.new ≡ after_start self.old }
        ensures cause { HasCause self.old.starts.faults self.new.starts.faults result }
        ensures life { IfOk result (λ l. l.polls ≡ life_of self.old.lives self.new.starts.made) }
    {
        self.starts.begin()?;
        Ok(MemLife {
            polls: life_of(&self.lives, self.starts.made()),
        })
    }
}

impl Spawner for MemSpawner {
    ghost faults = { λ s. s.starts.faults };

    ghost running = { λ s. numbers s.children };

    ghost acts = { λ s. told s.acts };

    fn starter(&mut self) -> MemSpawner {
        let ToStart {
            lives,
            failing,
            acts,
        } = replace(&mut self.to_start, ToStart::none(self.alloc));
        MemSpawner {
            alloc: self.alloc,
            to_start: ToStart::none(self.alloc),
            lives,
            deaf: self.deaf,
            starts: PlannedFaults::new(failing),
            polls: 0,
            children: MemChildren::none(self.alloc),
            acts,
        }
    }

    fn start(&mut self, process: u32, path: &str) -> Result<StartedChild, Failed>
        ensures running { numbers self.new.children ≡ numbers self.old.children }
        ensures acts { Grows (told self.old.acts) (told self.new.acts) (Started process path.now (is_ok result) ∷ []) }
        ensures cause { HasCause self.old.starts.faults self.new.starts.faults result }
        ensures fails { IsErr result ↔ IsTrue (start_fails self.old) }
    {
        let started = self.begin();
        self.acts = match FilePath::new(path.as_bytes()) {
            Some(path) => {
                let ok = started.is_ok();
                note(self.acts.take(), Act::Started { process, path, ok })
            }
            None => None,
        };
        match started {
            Ok(life) => Ok(StartedChild::InMemory(life)),
            Err(failed) => Err(failed),
        }
    }

    fn add(&mut self, process: u32, child: StartedChild) -> Result<(), Failed>
        ensures added { OnOk result (numbers self.new.children ≡ numbers self.old.children ++ process ∷ []) }
        ensures failed { OnErr result (numbers self.new.children ≡ numbers self.old.children) }
        ensures acts { told self.new.acts ≡ told self.old.acts }
        ensures cause { HasCause self.old.starts.faults self.new.starts.faults result }
        ensures exact { (life : _) → child ≡ InMemory life → self.new ≡ after_add process life.polls self.old }
    {
        let StartedChild::InMemory(life) = child else {
            return Err(self.starts.raise());
        };
        if self.children.room() == 0 {
            return Err(self.starts.raise());
        }
        let ends = self.polls.saturating_add(life.polls);
        self.children.put(MemChild { process, ends });
        Ok(())
    }

    fn signal(&mut self, process: u32, signal: Signal)
        ensures running { numbers self.new.children ≡ numbers self.old.children }
        ensures acts { Grows (told self.old.acts) (told self.new.acts) (Signalled process signal ∷ []) }
        ensures count { self.old.starts.faults ≤ self.new.starts.faults }
        ensures exact { self.new ≡ after_signal process signal self.old }
    {
        if signal == Signal::Kill || !self.deaf {
            self.children.end(process);
        }
        self.acts = note(self.acts.take(), Act::Signalled { process, signal });
    }

    fn poll(&mut self) -> Option<u32>
        ensures told { IsTold result (numbers self.old.children) (numbers self.new.children) }
        ensures acts { told self.new.acts ≡ told self.old.acts }
        ensures count { self.old.starts.faults ≤ self.new.starts.faults }
        ensures first { result ≡ exited self.old }
        ensures exact { self.new ≡ after_poll self.old }
    {
        self.polls = self.polls.saturating_add(1);
        self.children.take_ended(self.polls)
    }
}
