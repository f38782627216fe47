//! Devices in memory for live machines: disks that all threads share, children and faults that come as planned, the clock of the system.
//!
//! Nothing is told of the disks: another thread may write at any time. What was handed out and what came back is told, for as long as there is memory
//! to note it.
ghost use Rattle.sl_outside.specs.MemSpawners.{IsFresh};
ghost use Rattle.std.specs.Prelude.{IfSome, Some, length, [], ◌<◌, ◌≡◌};

use crate::device::TimedDevice;
use crate::devices::Devices;
use crate::folders::NotTaken;
use crate::live_devices::LiveDevices;
use crate::mem_spawner::MemSpawner;
use crate::notes::{Note, Notes};
use crate::paths::disk_path;
use crate::planned_spawner::PlannedSpawner;
use crate::real_clock::RealClock;
use crate::shared_area::SharedArea;
use crate::shared_spawner::{Census, SharedSpawner};
use crate::turn_gate::TurnGate;
use crate::words::MemWords;
use sl_area::MemArea;
use sl_io::{Failed, PlannedFaults};
use std::alloc::{AllocError, Global};
use std::marker::Model;
use std::sync::{Arc, Mutex, Wait};
use std::time::{Clock, Duration, Instant};

/// The last machine whose children a census counts.
const CENSUS_MACHINES: u32 = 2;

/// A disk in memory that areas share, and its path.
#[derive(Drop)]
struct SharedDisk {
    path: String,
    disk: Arc<Mutex<MemArea>>,
}

/// The calls of a worker's area that fail, counted from 1.
#[derive(Drop)]
pub struct AreaPlan {
    pub machine: u32,
    pub worker: u32,
    pub failing: Vec<u64>,
}

/// A start of a machine's children that takes its time: behind how many others it comes, and how long it takes.
#[derive(Clone, Copy)]
pub struct SlowStart {
    pub machine: u32,
    pub behind: u32,
    pub time: Duration,
}

/// What devices in memory are to do. A worker that no plan names has an area that fails at no planned call; a machine that none names has a
/// spawner with no room.
#[derive(Drop)]
pub struct SharedPlan<R> {
    pub areas: Vec<AreaPlan>,
    pub spawners: Vec<PlannedSpawner>,
    pub slow: Option<SlowStart>,
    /// What counts the children of machines 1 and 2.
    pub census: Option<Census<R>>,
    /// The calls of `make` that fail, counted from 1.
    pub makes: Vec<u64>,
    pub gate: Option<TurnGate<R>>,
}

/// Devices in memory. Contracts see the plan of `make`, with the faults, and what was handed out and what came back.
#[derive(Drop)]
pub struct SharedDevices<R> {
    rt: R,
    alloc: Global,
    start: Option<Instant>,
    disks: Vec<SharedDisk>,
    areas: Vec<AreaPlan>,
    spawners: Vec<PlannedSpawner>,
    slow: Option<SlowStart>,
    census: Option<Census<R>>,
    gate: Option<TurnGate<R>>,
    makes: PlannedFaults,
    notes: Notes,
}

impl<R> Model for SharedDevices<R> {
    ghost use Rattle.sl_outside.specs.SharedStates.{SharedState};

    ghost Value = { SharedState };

    ghost view = { λ d. record { makes = d.makes; notes = d.notes } };
}

/// A disk of so many zeros at the folder's text followed by the path.
fn zeros(alloc: Global, folder: &str, path: &str, size: u64) -> Result<SharedDisk, AllocError> {
    let area = MemArea::new(alloc, size as usize, Vec::new(alloc))?;
    Ok(SharedDisk {
        path: disk_path(alloc, folder, path)?,
        disk: Arc::new(alloc, Mutex::new(area))?,
    })
}

/// Where the disk at a path stands.
fn place_of(disks: &[SharedDisk], path: &str) -> Option<usize>
    ensures { IfSome result (λ at. at < length disks.now) }
{
    disks.iter().position(|disk| disk.path.as_str() == path)
}

/// Puts a disk at this place, in that of another, or behind all others.
fn put_at(
    disks: &mut Vec<SharedDisk>,
    at: Option<usize>,
    disk: SharedDisk,
) -> Result<(), AllocError>
    requires { IfSome at (λ at. at < length disks.old.items) }
{
    match at {
        Some(at) => disks[at] = disk,
        None => {
            disks.reserve(1)?;
            disks.push_reserved(disk);
        }
    }
    Ok(())
}

impl<R: Wait + Clock + Copy> SharedDevices<R> {
    /// Devices by this plan, with no disk yet. Clocks count from now on.
    pub fn new(rt: R, alloc: Global, plan: SharedPlan<R>) -> SharedDevices<R>
        ensures { result ≡ record { makes = record { made = 0; failing = plan.makes.items; faults = 0 }; notes = Some [] } }
    {
        let SharedPlan {
            areas,
            spawners,
            slow,
            census,
            makes,
            gate,
        } = plan;
        SharedDevices {
            rt,
            alloc,
            start: Instant::now(&rt).ok(),
            disks: Vec::new(alloc),
            areas,
            spawners,
            slow,
            census,
            gate,
            makes: PlannedFaults::new(makes),
            notes: Notes::new(alloc),
        }
    }

    /// The faults so far.
    pub fn faults(&self) -> u64
        ensures { result ≡ self.now.makes.faults }
    {
        self.makes.faults()
    }

    /// A share of the disk at a path, if there is one.
    fn share(&self, path: &str) -> Option<Arc<Mutex<MemArea>>> {
        let at = place_of(&self.disks, path)?;
        Arc::try_clone(&self.disks[at].disk).ok()
    }

    /// The calls that fail of a worker's area.
    fn failing(&mut self, machine: u32, worker: u32) -> Vec<u64>
        ensures { self.new ≡ self.old }
    {
        let of = |plan: &AreaPlan| plan.machine == machine && plan.worker == worker;
        match self.areas.iter().position(of) {
            Some(at) => self.areas.remove(at).failing,
            None => Vec::new(self.alloc),
        }
    }

    /// The children of a machine by its plan: none runs yet.
    fn children(&mut self, machine: u32) -> MemSpawner
        ensures same { self.new ≡ self.old }
        ensures fresh { IsFresh result }
    {
        match self.spawners.iter().position(|of| of.machine() == machine) {
            Some(at) => self.spawners.remove(at).into_spawner(),
            None => MemSpawner::idle(self.alloc),
        }
    }

    /// Behind how many others a start of this machine comes that takes its time, and how long it takes.
    fn slow(&self, machine: u32) -> Option<(u32, Duration)> {
        match self.slow {
            Some(slow) if slow.machine == machine => Some((slow.behind, slow.time)),
            _ => None,
        }
    }

    /// A share of the census, if there is one and the machine is of it.
    fn census(&self, machine: u32) -> Option<Census<R>> {
        match &self.census {
            Some(census) if machine <= CENSUS_MACHINES => census.share().ok(),
            _ => None,
        }
    }

    /// Puts a new disk in the place of the one at its path, if disks are made anew, or behind all others: whether it is put there.
    fn put(&mut self, disk: SharedDisk, anew: bool) -> bool
        ensures { self.new ≡ self.old }
    {
        match place_of(&self.disks, disk.path.as_str()) {
            Some(_) if !anew => false,
            at => put_at(&mut self.disks, at, disk).is_ok(),
        }
    }
}

impl<R: Wait + Clock + Copy + Drop> Devices for SharedDevices<R> {
    type Area = SharedArea<R>;

    ghost lendings = { λ d. d.notes };

    ghost faults = { λ d. d.makes.faults };

    fn area(&mut self, machine: u32, worker: u32, path: &str) -> SharedArea<R> {
        let failing = self.failing(machine, worker);
        self.notes.add_area(machine, worker, path);
        SharedArea::new(self.rt, self.share(path), failing)
    }

    fn back(&mut self, area: SharedArea<R>) {
        let faults = area.faults();
        self.notes.add(Note::AreaBack { faults });
        if faults > 0 {
            self.makes.raise();
        }
    }
}

impl<R: Wait + Clock + Copy + Drop + Send + Sync> LiveDevices for SharedDevices<R> {
    type Clock = RealClock<R>;

    type Spawner = SharedSpawner<R>;

    type Device = TimedDevice;

    type Words = MemWords;

    type Gate = Option<TurnGate<R>>;

    /// Nobody else takes a folder in memory.
    fn take(&mut self, _folder: &str) -> Result<(), NotTaken> {
        Ok(())
    }

    fn vacant(&mut self, path: &str) -> Result<(), Failed> {
        match place_of(&self.disks, path) {
            Some(_) => Err(self.makes.raise()),
            None => Ok(()),
        }
    }

    fn make(&mut self, folder: &str, path: &str, size: u64, anew: bool) -> Result<(), Failed> {
        self.makes.begin()?;
        let made = match zeros(self.alloc, folder, path, size) {
            Ok(disk) => self.put(disk, anew),
            Err(_) => false,
        };
        if made {
            Ok(())
        } else {
            Err(self.makes.raise())
        }
    }

    fn refused(&self, _path: &str) {}

    fn clock(&mut self, _machine: u32, _thread: u32) -> RealClock<R> {
        RealClock::new(self.rt, self.start)
    }

    fn spawner(&mut self, machine: u32) -> SharedSpawner<R> {
        let children = self.children(machine);
        self.notes.add(Note::SpawnerOut { machine });
        SharedSpawner::new(self.rt, children, self.slow(machine), self.census(machine))
    }

    fn spawner_back(&mut self, spawner: SharedSpawner<R>) {
        let acts = spawner.into_acts();
        self.notes.add(Note::SpawnerBack { acts });
    }

    fn device(&mut self, _machine: u32, now: u64, fire: u64) -> TimedDevice {
        TimedDevice::new(now, fire)
    }

    fn words(&mut self, machine: u32) -> MemWords {
        MemWords::new(Vec::new(self.alloc), u128::from(machine))
    }

    fn gate(&mut self) -> Option<TurnGate<R>> {
        self.gate.take()
    }
}
