//! The children in memory of live machines: a start may take its time, and how many children run at once, over all machines, is counted.
ghost use Rattle.sl_outside.specs.MemSpawners.{numbers, told};
ghost use Rattle.std.specs.Prelude.{◌≡◌};

use crate::act::Act;
use crate::mem_spawner::MemSpawner;
use crate::spawner::Spawner;
use crate::started_child::StartedChild;
use sl_io::Failed;
use sl_trace::Signal;
use sl_words::Room;
use std::alloc::{AllocError, Global};
use std::marker::Model;
use std::sync::{Arc, Mutex, Wait};
use std::thread::sleep;
use std::time::{Clock, Duration};

/// How many children run.
#[derive(Clone, Copy)]
struct Counts {
    now: usize,
    most: usize,
}

/// Counts the children that run on all machines.
#[derive(Drop)]
pub struct Census<R> {
    rt: R,
    counts: Arc<Mutex<Counts>>,
}

impl<R: Wait + Copy> Census<R> {
    /// No child runs. The only error is want of memory.
    pub fn new(rt: R, alloc: Global) -> Result<Census<R>, AllocError> {
        let counts = Mutex::new(Counts { now: 0, most: 0 });
        Ok(Census {
            rt,
            counts: Arc::new(alloc, counts)?,
        })
    }

    /// The same count, for one more spawner.
    pub fn share(&self) -> Result<Census<R>, AllocError> {
        Ok(Census {
            rt: self.rt,
            counts: Arc::try_clone(&self.counts)?,
        })
    }

    /// The greatest number of children that ever ran at once, over all spawners that share it.
    pub fn most(&self) -> usize {
        self.counts.lock(&self.rt).most
    }

    /// So many ran of one machine, and now so many run.
    fn count(&self, before: usize, after: usize) {
        let mut counts = self.counts.lock(&self.rt);
        counts.now = counts.now.saturating_sub(before).saturating_add(after);
        counts.most = counts.most.max(counts.now);
    }
}

/// Children in memory, counted in a census if there is one.
#[derive(Drop)]
pub struct SharedSpawner<R> {
    rt: R,
    spawner: MemSpawner,
    /// How many starts come before the one that takes its time, and how long that takes.
    slow: Option<(u32, Duration)>,
    census: Option<Census<R>>,
}

impl<R> Model for SharedSpawner<R> {
    ghost use Rattle.sl_outside.specs.MemSpawners.{SpawnerState};

    ghost Value = { SpawnerState };

    ghost view = { λ s. s.spawner };
}

impl<R: Wait + Copy> SharedSpawner<R> {
    /// These children, of which the start behind so many others takes so long, and which this census counts.
    pub(crate) fn new(
        rt: R,
        spawner: MemSpawner,
        slow: Option<(u32, Duration)>,
        census: Option<Census<R>>,
    ) -> SharedSpawner<R>
        ensures { result ≡ spawner }
    {
        SharedSpawner {
            rt,
            spawner,
            slow,
            census,
        }
    }

    /// What it was asked to do, where there was room to note it all.
    pub(crate) fn into_acts(self) -> Option<Room<Act>>
        ensures { told result ≡ told self.acts }
    {
        let SharedSpawner {
            rt: _,
            spawner,
            slow: _,
            census: _,
        } = self;
        spawner.into_acts()
    }

    /// Counts those that run now, where so many ran before.
    fn count(&self, before: usize) {
        if let Some(census) = &self.census {
            census.count(before, self.spawner.alive());
        }
    }
}

impl<R: Clock> SharedSpawner<R> {
    /// Takes the time that the next start takes.
    fn take_time(&mut self)
        ensures { self.new ≡ self.old }
    {
        match self.slow {
            Some((0, time)) => {
                self.slow = None;
                sleep(&self.rt, time);
            }
            Some((before, time)) => self.slow = Some((before - 1, time)),
            None => {}
        }
    }
}

impl<R: Wait + Clock + Copy + Drop> Spawner for SharedSpawner<R> {
    ghost faults = { λ s. s.starts.faults };

    ghost running = { λ s. numbers s.children };

    ghost acts = { λ s. told s.acts };

    fn starter(&mut self) -> SharedSpawner<R> {
        let starter = self.spawner.starter();
        SharedSpawner::new(self.rt, starter, self.slow.take(), None)
    }

    fn start(&mut self, process: u32, path: &str) -> Result<StartedChild, Failed> {
        self.take_time();
        self.spawner.start(process, path)
    }

    fn add(&mut self, process: u32, child: StartedChild) -> Result<(), Failed> {
        let before = self.spawner.alive();
        let added = self.spawner.add(process, child);
        self.count(before);
        added
    }

    fn signal(&mut self, process: u32, signal: Signal) {
        let before = self.spawner.alive();
        self.spawner.signal(process, signal);
        self.count(before);
    }

    fn poll(&mut self) -> Option<u32> {
        let before = self.spawner.alive();
        let exited = self.spawner.poll();
        self.count(before);
        exited
    }
}
