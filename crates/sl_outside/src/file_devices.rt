//! Devices over the system: the disk at a path is the file there, children are programs, the clock is the system's.
//!
//! Nothing is told of what is in a file, since others write there too.

ghost use Rattle.std.specs.Prelude.{◌≡◌};

use crate::child_spawner::ChildSpawner;
use crate::device::TimedDevice;
use crate::devices::Devices;
use crate::folders::NotTaken;
use crate::gate::OpenGate;
use crate::live_devices::LiveDevices;
use crate::paths::disk_path;
use crate::real_clock::RealClock;
use crate::words::SystemWords;
use sl_area::FileArea;
use sl_io::{Failed, FaultCount};
use std::alloc::Global;
use std::fs::{File, Files, OpenFile, OpenOptions, TryLockError, create_dir, symlink_metadata};
use std::io::{self, Seek, SeekFrom, Write};
use std::process::{Processes, SystemProcess};
use std::time::{Clock, Instant};

/// The system that the program runs on.
#[derive(Drop)]
pub struct FileDevices<R> {
    rt: R,
    alloc: Global,
    start: Option<Instant>,
    /// The folder that was taken, open and locked.
    folder: Option<File>,
    faults: FaultCount,
}

impl<R: Files + Clock> FileDevices<R> {
    /// What this handle opens and starts, with no fault yet. Clocks count from now on.
    pub fn new(rt: R, alloc: Global) -> FileDevices<R>
        ensures { result.faults ≡ 0 }
    {
        let start = Instant::now(&rt).ok();
        FileDevices {
            rt,
            alloc,
            start,
            folder: None,
            faults: FaultCount::new(),
        }
    }
}

/// Makes a folder, if it is missing.
fn make_folder<R: Files>(rt: &R, path: &str) -> io::Result<()> {
    match create_dir(rt, path) {
        Ok(()) => Ok(()),
        Err(error) if error.kind() == io::ErrorKind::AlreadyExists => Ok(()),
        Err(error) => Err(error),
    }
}

/// Makes the folders that a path names from so many bytes on, if they are missing.
fn make_folders<R: Files>(rt: &R, path: &str, from: usize) -> io::Result<()> {
    for end in from..path.len() {
        match path.split_at_checked(end) {
            Some((folder, rest)) if end > from && rest.starts_with('/') => make_folder(rt, folder)?,
            _ => {}
        }
    }
    Ok(())
}

/// Opens a folder. A slash is put behind its text, so that nothing else is opened, as a pipe to which nobody writes.
fn open_folder<R: Files<File = File>>(rt: &R, alloc: Global, folder: &str) -> io::Result<File> {
    let text = disk_path(alloc, folder, "/")?;
    File::open(rt, text.as_str())
}

/// The folder itself, locked as long as it is open.
fn lock_folder<R: Files<File = File>>(
    rt: &R,
    alloc: Global,
    folder: &str,
) -> Result<File, TryLockError> {
    let file = open_folder(rt, alloc, folder).map_err(TryLockError::Error)?;
    file.try_lock()?;
    Ok(file)
}

/// Makes a file of so many zeros at the folder's text followed by the path, in place of an old one if it is made anew; the folder must be
/// there.
fn make_file<R: Files>(
    rt: &R,
    alloc: Global,
    folder: &str,
    path: &str,
    size: u64,
    anew: bool,
) -> io::Result<()> {
    let whole = disk_path(alloc, folder, path)?;
    make_folders(rt, whole.as_str(), folder.len())?;
    let file = if anew {
        File::create(rt, whole.as_str())?
    } else {
        File::create_new(rt, whole.as_str())?
    };
    file.set_len(size)
}

/// Writes the last bytes of a file once more, which are zeros: so it is found why the system takes no more of it.
fn write_end<R: Files<File = File>>(rt: &R, path: &str) -> io::Result<()> {
    let mut file = OpenOptions::new().write(true).open(rt, path)?;
    file.seek(SeekFrom::End(-512))?;
    file.write_all(&[0; 512])
}

/// Says on standard error which path the system refused, and why. Where that can't be said either, nothing is.
fn say<R: Eprint>(rt: &R, folder: &str, path: &str, error: &io::Error) {
    let _said = eprintln!(rt; "sanlock: {folder}{path}: {error}");
}

impl<R: Files + Drop> Devices for FileDevices<R> {
    type Area = FileArea<R::File>;

    ghost faults = { λ d. d.faults };

    /// The file at the path, opened to read and write. Where that fails, each call of the area is a fault.
    fn area(&mut self, _machine: u32, _worker: u32, path: &str) -> FileArea<R::File> {
        FileArea::open(&self.rt, path)
    }

    fn back(&mut self, area: FileArea<R::File>) {
        if area.faults() > 0 {
            self.faults.raise();
        }
    }
}

impl<
    R: Files<File = File>
        + Processes<Started = SystemProcess>
        + Clock
        + Eprint
        + Copy
        + Drop
        + Send,
> LiveDevices for FileDevices<R> {
    type Clock = RealClock<R>;

    type Spawner = ChildSpawner<R>;

    type Device = TimedDevice;

    type Words = SystemWords<R>;

    type Gate = OpenGate;

    fn take(&mut self, folder: &str) -> Result<(), NotTaken> {
        match lock_folder(&self.rt, self.alloc, folder) {
            Ok(file) => {
                self.folder = Some(file);
                Ok(())
            }
            Err(TryLockError::WouldBlock) => {
                self.faults.raise();
                Err(NotTaken::InUse)
            }
            Err(TryLockError::Error(error)) => {
                say(&self.rt, folder, "", &error);
                Err(NotTaken::from(self.faults.raise()))
            }
        }
    }

    fn vacant(&mut self, path: &str) -> Result<(), Failed> {
        match symlink_metadata(&self.rt, path) {
            Ok(_) => Err(self.faults.raise()),
            Err(_) => Ok(()),
        }
    }

    fn make(&mut self, folder: &str, path: &str, size: u64, anew: bool) -> Result<(), Failed> {
        match make_file(&self.rt, self.alloc, folder, path, size, anew) {
            Ok(()) => Ok(()),
            Err(error) => {
                say(&self.rt, folder, path, &error);
                Err(self.faults.raise())
            }
        }
    }

    fn refused(&self, path: &str) {
        if let Err(error) = write_end(&self.rt, path) {
            say(&self.rt, path, "", &error);
        }
    }

    fn clock(&mut self, _machine: u32, _thread: u32) -> RealClock<R> {
        RealClock::new(self.rt, self.start)
    }

    fn spawner(&mut self, _machine: u32) -> ChildSpawner<R> {
        ChildSpawner::new(self.rt, self.alloc)
    }

    fn spawner_back(&mut self, _spawner: ChildSpawner<R>) {}

    fn device(&mut self, _machine: u32, now: u64, fire: u64) -> TimedDevice {
        TimedDevice::new(now, fire)
    }

    fn words(&mut self, machine: u32) -> SystemWords<R> {
        SystemWords::new(self.rt, machine)
    }

    fn gate(&mut self) -> OpenGate {
        OpenGate
    }
}
