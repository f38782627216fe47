//! Disks in memory that all threads share and that were made here, each with its size, for one machine: nobody else is there, and a watchdog device of
//! the system is any that is asked for.
//!
//! All else are the devices in memory for live machines.
ghost use Rattle.std.specs.Prelude.{IfSome, length, ◌<◌, ◌≡◌};

use crate::standing_devices::{NotClaimed, StandingDevices};
use crate::watchdog::Watchdog;
use sl_io::Failed;
use sl_outside::{
    Devices, LiveDevices, MemWords, NotTaken, RealClock, SharedArea, SharedDevices, SharedSpawner,
    TimedDevice, TurnGate, disk_path,
};
use std::alloc::{AllocError, Global};
use std::sync::Wait;
use std::time::Clock;

/// A disk that was made: its path behind the folder's text, and its bytes.
#[derive(Drop)]
struct Made {
    path: String,
    bytes: u64,
}

/// A watchdog device that is none: it is only known whether it was told to rest.
#[derive(Drop)]
pub struct MadeWatchdog {
    path: String,
    rested: bool,
}

impl Watchdog for MadeWatchdog {
    ghost use Rattle.std.specs.Prelude.{string_bytes};

    ghost path = { λ w. string_bytes w.path };

    ghost rested = { λ w. w.rested };

    fn rest(&mut self) {
        self.rested = true;
    }
}

/// Devices in memory, and the disks that were made of them, the last one first.
#[derive(Drop)]
pub struct MadeDevices<R> {
    alloc: Global,
    shared: SharedDevices<R>,
    made: Vec<Made>,
}

/// A disk of so many bytes at this path of a folder. An `Err` is want of memory.
fn made_of(alloc: Global, folder: &str, path: &str, bytes: u64) -> Result<Made, AllocError> {
    Ok(Made {
        path: disk_path(alloc, folder, path)?,
        bytes,
    })
}

/// Where the disk at a path stands among these.
fn place_of(disks: &[Made], path: &str) -> Option<usize>
    ensures { IfSome result (λ at. at < length disks.now) }
{
    disks.iter().position(|disk| disk.path.as_str() == path)
}

impl<R> MadeDevices<R> {
    /// These devices, of which no disk was made yet.
    pub fn new(alloc: Global, shared: SharedDevices<R>) -> MadeDevices<R>
        ensures { result.shared ≡ shared }
    {
        MadeDevices {
            alloc,
            shared,
            made: Vec::new(alloc),
        }
    }

    /// Takes down that a disk was made. For want of memory it is not: then it is as one that does not stand.
    fn note(&mut self, folder: &str, path: &str, bytes: u64)
        ensures { self.new.shared ≡ self.old.shared }
    {
        if let Ok(made) = made_of(self.alloc, folder, path, bytes) {
            let _ = self.made.insert(0, made);
        }
    }
}

impl<R: Wait + Clock + Copy + Drop> Devices for MadeDevices<R> {
    type Area = SharedArea<R>;

    ghost lendings = { λ d. d.shared.notes };

    ghost faults = { λ d. d.shared.makes.faults };

    fn area(&mut self, machine: u32, worker: u32, path: &str) -> SharedArea<R> {
        self.shared.area(machine, worker, path)
    }

    fn back(&mut self, area: SharedArea<R>) {
        self.shared.back(area);
    }
}

impl<R: Wait + Clock + Copy + Drop + Send + Sync> LiveDevices for MadeDevices<R> {
    type Clock = RealClock<R>;

    type Spawner = SharedSpawner<R>;

    type Device = TimedDevice;

    type Words = MemWords;

    type Gate = Option<TurnGate<R>>;

    fn take(&mut self, folder: &str) -> Result<(), NotTaken> {
        self.shared.take(folder)
    }

    fn vacant(&mut self, path: &str) -> Result<(), Failed> {
        self.shared.vacant(path)
    }

    fn make(&mut self, folder: &str, path: &str, size: u64, anew: bool) -> Result<(), Failed> {
        self.shared.make(folder, path, size, anew)?;
        self.note(folder, path, size);
        Ok(())
    }

    fn refused(&self, path: &str) {
        self.shared.refused(path);
    }

    fn clock(&mut self, machine: u32, thread: u32) -> RealClock<R> {
        self.shared.clock(machine, thread)
    }

    fn spawner(&mut self, machine: u32) -> SharedSpawner<R> {
        self.shared.spawner(machine)
    }

    fn spawner_back(&mut self, spawner: SharedSpawner<R>) {
        self.shared.spawner_back(spawner);
    }

    fn device(&mut self, machine: u32, now: u64, fire: u64) -> TimedDevice {
        self.shared.device(machine, now, fire)
    }

    fn words(&mut self, machine: u32) -> MemWords {
        self.shared.words(machine)
    }

    fn gate(&mut self) -> Option<TurnGate<R>> {
        self.shared.gate()
    }
}

impl<R: Wait + Clock + Copy + Drop + Send + Sync> StandingDevices for MadeDevices<R> {
    type Watchdog = MadeWatchdog;

    fn claim(&mut self, _folder: &str, _machine: u32) -> Result<(), NotClaimed> {
        Ok(())
    }

    /// Of disks that were made anew at one path the last one stands.
    fn size(&mut self, path: &str) -> Option<u64> {
        let at = place_of(&self.made, path)?;
        Some(self.made[at].bytes)
    }

    fn sync_writes(&mut self) {}

    fn watch(&mut self, path: String) -> Result<MadeWatchdog, Failed> {
        Ok(MadeWatchdog {
            path,
            rested: false,
        })
    }
}
