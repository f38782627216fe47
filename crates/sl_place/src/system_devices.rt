//! The system, for one machine in a process of its own or for all machines: the disk at a path is the file there, whose writes may have to reach the
//! storage; children are programs, the clock is the system's.
//!
//! Each process of one machine has the folder together with others of its kind, so that no program takes it for all machines; and it has a file of its
//! own there, which no disk can be called, since a space is in its name. Both are locked for as long as the process is there, whatever becomes of it.
//!
//! Nothing is told of what is in a file, since others write there too.
ghost use Rattle.std.specs.Prelude.{◌≡◌};

use crate::standing_devices::{NotClaimed, StandingDevices};
use crate::system_area::SystemArea;
use crate::system_watchdog::SystemWatchdog;
use crate::watched_device::WatchedDevice;
use sl_io::{Failed, FaultCount};
use sl_outside::{
    ChildSpawner, Devices, FileDevices, LiveDevices, NotTaken, OpenGate, RealClock, SystemWords,
    disk_path,
};
use std::alloc::Global;
use std::fs::{File, Files, OpenOptions, TryLockError, metadata};
use std::io;
use std::process::{Processes, SystemProcess};
use std::time::Clock;

/// The system that the program runs on.
#[derive(Drop)]
pub struct SystemDevices<R> {
    rt: R,
    alloc: Global,
    /// What all machines of a program take of it.
    files: FileDevices<R>,
    /// The folder that was claimed for a machine, open and locked together with others; and the machine's file in it, open and locked.
    folder: Option<File>,
    own: Option<File>,
    /// Whether writes wait for the storage.
    syncs: bool,
    /// A handle of the system's watchdog device, for keepalives.
    watchdog: Option<File>,
    faults: FaultCount,
}

impl<R: Files + Clock + Copy> SystemDevices<R> {
    /// What this handle opens and starts, with no fault yet. Clocks count from now on.
    pub fn new(rt: R, alloc: Global) -> SystemDevices<R>
        ensures { result.faults ≡ 0 }
    {
        SystemDevices {
            rt,
            alloc,
            files: FileDevices::new(rt, alloc),
            folder: None,
            own: None,
            syncs: false,
            watchdog: None,
            faults: FaultCount::new(),
        }
    }
}

/// Says on standard error which path the system refused, and why. Where that can't be said either, nothing is.
pub(crate) fn say<R: Eprint>(rt: &R, path: &str, error: &io::Error) {
    let _said = eprintln!(rt; "sanlock: {path}: {error}");
}

/// Opens a folder. A slash is put behind its text, so that nothing else is opened, as a pipe to which nobody writes.
fn open_folder<R: Files<File = File>>(rt: &R, alloc: Global, folder: &str) -> io::Result<File> {
    let text = disk_path(alloc, folder, "/")?;
    File::open(rt, text.as_str())
}

/// The folder itself, locked together with others, as long as it is open.
fn share_folder<R: Files<File = File>>(
    rt: &R,
    alloc: Global,
    folder: &str,
) -> Result<File, TryLockError> {
    let file = open_folder(rt, alloc, folder).map_err(TryLockError::Error)?;
    file.try_lock_shared()?;
    Ok(file)
}

/// The file of a machine in this folder, made if it is missing.
fn open_own<R: Files<File = File>>(
    rt: &R,
    alloc: Global,
    folder: &str,
    machine: u32,
) -> io::Result<File> {
    let path = format!(in alloc; "{folder}/machine {machine}")?;
    OpenOptions::new()
        .read(true)
        .write(true)
        .create(true)
        .open(rt, path.as_str())
}

/// .. locked as long as it is open.
fn lock_own<R: Files<File = File>>(
    rt: &R,
    alloc: Global,
    folder: &str,
    machine: u32,
) -> Result<File, TryLockError> {
    let file = open_own(rt, alloc, folder, machine).map_err(TryLockError::Error)?;
    file.try_lock()?;
    Ok(file)
}

/// The size of the file at this path, if one is there.
fn size_of<R: Files>(rt: &R, path: &str) -> Option<u64> {
    let found = metadata(rt, path).ok()?;
    if found.is_file() {
        Some(found.len())
    } else {
        None
    }
}

/// Why a lock can't be had: another has it, or it can't be tried, which whoever reads standard error is told.
fn not_locked<R: Eprint>(
    rt: &R,
    folder: &str,
    error: TryLockError,
    in_use: NotClaimed,
) -> NotClaimed {
    match error {
        TryLockError::WouldBlock => in_use,
        TryLockError::Error(error) => {
            say(rt, folder, &error);
            NotClaimed::Failed
        }
    }
}

/// Another handle of this file, if there is one. Where none can be had, nobody keeps the device from firing.
fn handle_of(file: &Option<File>) -> Option<File> {
    match file {
        Some(file) => file.try_clone().ok(),
        None => None,
    }
}

impl<R: Files + Drop> Devices for SystemDevices<R> {
    type Area = SystemArea<R::File>;

    ghost faults = { λ d. d.faults };

    /// The file at the path, opened to read and write. Where that fails, each call of the area is a fault.
    fn area(&mut self, _machine: u32, _worker: u32, path: &str) -> SystemArea<R::File> {
        SystemArea::open(&self.rt, path, self.syncs)
    }

    fn back(&mut self, area: SystemArea<R::File>) {
        if area.faults() > 0 {
            self.faults.raise();
        }
    }
}

impl<
    R: Files<File = File>
        + Processes<Started = SystemProcess>
        + Clock
        + Eprint
        + Copy
        + Drop
        + Send,
> LiveDevices for SystemDevices<R> {
    type Clock = RealClock<R>;

    type Spawner = ChildSpawner<R>;

    type Device = WatchedDevice;

    type Words = SystemWords<R>;

    type Gate = OpenGate;

    fn take(&mut self, folder: &str) -> Result<(), NotTaken> {
        match self.files.take(folder) {
            Ok(()) => Ok(()),
            Err(why) => {
                self.faults.raise();
                Err(why)
            }
        }
    }

    fn vacant(&mut self, path: &str) -> Result<(), Failed> {
        match self.files.vacant(path) {
            Ok(()) => Ok(()),
            Err(_) => Err(self.faults.raise()),
        }
    }

    fn make(&mut self, folder: &str, path: &str, size: u64, anew: bool) -> Result<(), Failed> {
        match self.files.make(folder, path, size, anew) {
            Ok(()) => Ok(()),
            Err(_) => Err(self.faults.raise()),
        }
    }

    fn refused(&self, path: &str) {
        self.files.refused(path);
    }

    fn clock(&mut self, machine: u32, thread: u32) -> RealClock<R> {
        self.files.clock(machine, thread)
    }

    fn spawner(&mut self, machine: u32) -> ChildSpawner<R> {
        self.files.spawner(machine)
    }

    fn spawner_back(&mut self, spawner: ChildSpawner<R>) {
        self.files.spawner_back(spawner);
    }

    fn device(&mut self, _machine: u32, now: u64, fire: u64) -> WatchedDevice {
        WatchedDevice::new(now, fire, handle_of(&self.watchdog))
    }

    fn words(&mut self, machine: u32) -> SystemWords<R> {
        self.files.words(machine)
    }

    fn gate(&mut self) -> OpenGate {
        self.files.gate()
    }
}

impl<
    R: Files<File = File>
        + Processes<Started = SystemProcess>
        + Clock
        + Eprint
        + Copy
        + Drop
        + Send,
> StandingDevices for SystemDevices<R> {
    type Watchdog = SystemWatchdog;

    fn claim(&mut self, folder: &str, machine: u32) -> Result<(), NotClaimed> {
        match share_folder(&self.rt, self.alloc, folder) {
            Ok(file) => self.folder = Some(file),
            Err(error) => {
                self.faults.raise();
                return Err(not_locked(&self.rt, folder, error, NotClaimed::FolderInUse));
            }
        }
        match lock_own(&self.rt, self.alloc, folder, machine) {
            Ok(file) => {
                self.own = Some(file);
                Ok(())
            }
            Err(error) => {
                self.faults.raise();
                Err(not_locked(&self.rt, folder, error, NotClaimed::MachineInUse))
            }
        }
    }

    fn size(&mut self, path: &str) -> Option<u64> {
        size_of(&self.rt, path)
    }

    fn sync_writes(&mut self) {
        self.syncs = true;
    }

    fn watch(&mut self, path: String) -> Result<SystemWatchdog, Failed> {
        match SystemWatchdog::open(&self.rt, path) {
            Some(watchdog) => {
                self.watchdog = watchdog.handle();
                Ok(watchdog)
            }
            None => Err(self.faults.raise()),
        }
    }
}
