//! Devices in memory: disks by their paths.
//!
//! A disk that is handed out is the disk itself, under a count of its own; an empty one stands in its place until it comes back. So one is
//! out at a time. A path at which no disk stands gives an area each of whose calls fails, as a missing file does.
//!
//! Their other parts are the forms in memory: clocks at 0, spawners with no room, a gate that is open.
ghost use Rattle.sl_io.specs.FaultCounts.{one_more};
ghost use Rattle.sl_outside.specs.Disks.{CountsBack, HandsOut, Stay, TakesBack, told_at};
ghost use Rattle.sl_outside.specs.MemDisks.{content_at, is_at, lent_in};
ghost use Rattle.std.specs.List.{position};
ghost use Rattle.std.specs.Prelude.{IfSome, None, Some, [], false, is_some, option_map, ◌≡◌};

use crate::device::TimedDevice;
use crate::devices::Devices;
use crate::folders::NotTaken;
use crate::gate::OpenGate;
use crate::live_devices::LiveDevices;
use crate::mem_spawner::MemSpawner;
use crate::paths::disk_path;
use crate::words::MemWords;
use sl_area::{Area, MemArea, Place};
use sl_io::{Failed, FaultCount};
use sl_text::FilePath;
use sl_time::MemClock;
use std::alloc::Global;
use std::marker::Model;
use std::mem;

/// A disk in memory, and its path.
#[derive(Drop)]
pub struct MemDisk {
    pub path: FilePath,
    pub area: MemArea,
}

/// A disk in memory that is handed out: it counts its faults from then on.
#[derive(Drop)]
pub struct LentDisk {
    area: MemArea,
    faults: FaultCount,
}

impl LentDisk {
    /// The disk, with no fault yet.
    fn new(area: MemArea) -> LentDisk
        ensures area { result.area ≡ area }
        ensures fresh { result.faults ≡ 0 }
    {
        LentDisk {
            area,
            faults: FaultCount::new(),
        }
    }
}

impl Area for LentDisk {
    ghost content = { λ d. Some d.area.content };

    ghost faults = { λ d. d.faults };

    fn read(&mut self, at: Place, n: u32, buffer: &mut [u8]) -> Result<(), Failed> {
        match self.area.read(at, n, buffer) {
            Ok(()) => Ok(()),
            Err(_) => Err(self.faults.raise()),
        }
    }

    fn write(&mut self, at: Place, sector: &[u8]) -> Result<(), Failed> {
        match self.area.write(at, sector) {
            Ok(()) => Ok(()),
            Err(_) => Err(self.faults.raise()),
        }
    }
}

/// Disks in memory, by their paths.
#[derive(Drop)]
pub struct MemDevices {
    alloc: Global,
    all: Vec<MemDisk>,
    out: Option<FilePath>,
    faults: FaultCount,
}

impl Model for MemDevices {
    ghost use Rattle.sl_outside.specs.MemDisks.{DevicesState};

    ghost Value = { DevicesState };

    ghost view = { λ d. record { all = d.all.items; out = d.out; faults = d.faults } };
}

/// Where the disk at a path stands among the disks.
fn slot_of(disks: &[MemDisk], path: &[u8]) -> Option<usize>
    ensures { result ≡ position (is_at path.now) disks.now }
{
    disks.iter().position(|disk| disk.path.as_slice() == path)
}

/// What the disk at a path has.
fn content_of<'a>(disks: &'a [MemDisk], path: &[u8]) -> Option<&'a [u8]>
    ensures { option_map (λ c. c.now) result ≡ content_at disks.entry.now path.now }
{
    let at = slot_of(disks, path)?;
    Some(disks[at].area.content())
}

/// Puts another disk in the place of the one at a path, and gives that one, with its path.
fn exchange(disks: &mut [MemDisk], path: &[u8], area: MemArea) -> Option<(FilePath, MemArea)>
    ensures taken { option_map (λ t. t.1.content) result ≡ content_at disks.old path.now }
    ensures path { IfSome result (λ t. t.0 ≡ path.now) }
    ensures put { TakesBack (told_at (content_at disks.old) path.now) (content_at disks.old) (content_at disks.new) (Some area.content) }
{
    let at = slot_of(disks, path)?;
    let disk = &mut disks[at];
    let path = disk.path;
    Some((path, mem::replace(&mut disk.area, area)))
}

/// Puts a disk in the place of the one at a path, which ends.
fn put_back(disks: &mut [MemDisk], path: &[u8], area: MemArea)
    ensures { TakesBack (told_at (content_at disks.old) path.now) (content_at disks.old) (content_at disks.new) (Some area.content) }
{
    let _ = exchange(disks, path, area);
}

impl MemDevices {
    /// These disks. Of two at one path the first counts.
    pub fn new(alloc: Global, disks: Vec<MemDisk>) -> MemDevices
        ensures { result ≡ record { all = disks.items; out = None; faults = 0 } }
    {
        MemDevices {
            alloc,
            all: disks,
            out: None,
            faults: FaultCount::new(),
        }
    }

    /// The faults so far.
    pub fn faults(&self) -> u64
        ensures { result ≡ self.now.faults }
    {
        self.faults.get()
    }

    /// What the disk at a path has.
    pub fn content(&self, path: &FilePath) -> Option<&[u8]>
        ensures { option_map (λ c. c.now) result ≡ content_at self.now.all path.now }
    {
        content_of(&self.all, path.as_slice())
    }
}

/// A disk with no room.
fn no_disk(alloc: Global) -> MemArea
    ensures { result.content ≡ [] }
{
    MemArea::of(Vec::new(alloc), Vec::new(alloc))
}

impl Devices for MemDevices {
    type Area = LentDisk;

    ghost disks = { λ d. content_at d.all };

    ghost lent = { lent_in };

    ghost faults = { λ d. d.faults };

    fn area(&mut self, _machine: u32, _worker: u32, path: &str) -> LentDisk {
        match exchange(&mut self.all, path.as_bytes(), no_disk(self.alloc)) {
            Some((path, area)) => {
                self.out = Some(path);
                LentDisk::new(area)
            }
            None => {
                self.out = None;
                LentDisk::new(no_disk(self.alloc))
            }
        }
    }

    fn back(&mut self, area: LentDisk) {
        let LentDisk { area, faults } = area;
        if faults.get() > 0 {
            self.faults.raise();
        }
        if let Some(path) = self.out {
            put_back(&mut self.all, path.as_slice(), area);
        }
    }
}

/// A disk of so many zeros at the folder's text followed by the path, if that is a disk's path and memory lasts.
fn zeros(alloc: Global, folder: &str, path: &str, size: u64) -> Option<MemDisk> {
    let whole = disk_path(alloc, folder, path).ok()?;
    Some(MemDisk {
        path: FilePath::new(whole.as_bytes())?,
        area: MemArea::new(alloc, size as usize, Vec::new(alloc)).ok()?,
    })
}

/// Puts a disk before all others; false for want of memory.
fn put_first(disks: &mut Vec<MemDisk>, disk: MemDisk) -> bool
    ensures { is_some (content_at disks.old.items disk.path) ≡ false → Stay (content_at disks.old.items) (content_at disks.new.items) }
{
    disks.insert(0, disk).is_ok()
}

impl MemDevices {
    /// Whether a disk stands at this path.
    fn has(&self, path: &[u8]) -> bool
        ensures { result ≡ is_some (content_at self.now.all path.now) }
    {
        content_of(&self.all, path).is_some()
    }

    /// Puts a disk before all others: whether it is there. It is not for want of memory, nor where one stands at its path that is not to be
    /// emptied.
    fn put(&mut self, disk: MemDisk, anew: bool) -> bool
        ensures faults { self.new.faults ≡ self.old.faults }
        ensures kept { anew ≡ false → Stay (content_at self.old.all) (content_at self.new.all) }
    {
        if !anew && self.has(disk.path.as_slice()) {
            return false;
        }
        put_first(&mut self.all, disk)
    }
}

impl LiveDevices for MemDevices {
    type Clock = MemClock;

    type Spawner = MemSpawner;

    type Device = TimedDevice;

    type Words = MemWords;

    type Gate = OpenGate;

    /// Nobody else takes a folder in memory.
    fn take(&mut self, _folder: &str) -> Result<(), NotTaken> {
        Ok(())
    }

    fn vacant(&mut self, path: &str) -> Result<(), Failed> {
        if self.has(path.as_bytes()) {
            Err(self.faults.raise())
        } else {
            Ok(())
        }
    }

    fn make(&mut self, folder: &str, path: &str, size: u64, anew: bool) -> Result<(), Failed> {
        let made = match zeros(self.alloc, folder, path, size) {
            Some(disk) => self.put(disk, anew),
            None => false,
        };
        if made {
            Ok(())
        } else {
            Err(self.faults.raise())
        }
    }

    fn refused(&self, _path: &str) {}

    fn clock(&mut self, _machine: u32, _thread: u32) -> MemClock {
        MemClock::new(Vec::new(self.alloc))
    }

    fn spawner(&mut self, _machine: u32) -> MemSpawner {
        MemSpawner::idle(self.alloc)
    }

    fn spawner_back(&mut self, _spawner: MemSpawner) {}

    fn device(&mut self, _machine: u32, now: u64, fire: u64) -> TimedDevice {
        TimedDevice::new(now, fire)
    }

    fn words(&mut self, machine: u32) -> MemWords {
        MemWords::new(Vec::new(self.alloc), u128::from(machine))
    }

    fn gate(&mut self) -> OpenGate {
        OpenGate
    }
}
