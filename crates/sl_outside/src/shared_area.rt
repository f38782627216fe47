//! A disk in memory that several threads share.
//!
//! Each worker has an area of its own of it, with a count of its own and a plan of its own; each call takes the disk's lock for the copy.
//! Nothing is told of the disk, since another thread may write to it at any time.
ghost use Rattle.std.specs.Prelude.{None, ◌≡◌};
ghost use Rattle.sl_io.specs.FaultCauses.{HasCause};

use sl_area::{Area, MemArea, Place};
use sl_io::{Failed, PlannedFaults};
use std::marker::Model;
use std::sync::{Arc, Mutex, Wait};

/// A share of a disk in memory. Where there is no disk, each call is a fault.
#[derive(Drop)]
pub struct SharedArea<R> {
    rt: R,
    disk: Option<Arc<Mutex<MemArea>>>,
    calls: PlannedFaults,
}

impl<R> Model for SharedArea<R> {
    ghost use Rattle.sl_io.specs.Planned.{Planned};

    ghost Value = { Planned };

    ghost view = { λ a. a.calls };
}

impl<R: Wait> SharedArea<R> {
    /// A share of the disk. The calls numbered in `failing` fail, counted from 1.
    pub(crate) fn new(rt: R, disk: Option<Arc<Mutex<MemArea>>>, failing: Vec<u64>) -> SharedArea<R>
        ensures { result ≡ record { made = 0; failing = failing.items; faults = 0 } }
    {
        SharedArea {
            rt,
            disk,
            calls: PlannedFaults::new(failing),
        }
    }

    /// How many calls of this area have failed so far, as planned.
    pub fn faults(&self) -> u64
        ensures { result ≡ self.now.faults }
    {
        self.calls.faults()
    }

    /// The answer of a call that was done or not.
    fn answer(&mut self, done: bool) -> Result<(), Failed>
        ensures cause { HasCause self.old.faults self.new.faults result }
    {
        if done {
            Ok(())
        } else {
            Err(self.calls.raise())
        }
    }
}

impl<R: Wait + Drop> Area for SharedArea<R> {
    ghost faults = { λ a. a.faults };

    fn read(&mut self, at: Place, n: u32, buffer: &mut [u8]) -> Result<(), Failed> {
        self.calls.begin()?;
        let done = match &self.disk {
            Some(disk) => disk.lock(&self.rt).read(at, n, buffer).is_ok(),
            None => false,
        };
        self.answer(done)
    }

    fn write(&mut self, at: Place, sector: &[u8]) -> Result<(), Failed> {
        self.calls.begin()?;
        let done = match &self.disk {
            Some(disk) => disk.lock(&self.rt).write(at, sector).is_ok(),
            None => false,
        };
        self.answer(done)
    }
}
