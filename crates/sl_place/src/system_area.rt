//! A disk in a file, whose writes may have to reach the storage before they are answered.
//!
//! Where they are to, each write is followed by a call that waits for the storage, through a second handle of the same file: the system keeps the
//! bytes of a file once, whichever handle they came by. A write whose bytes the storage did not take is answered failed, and its sector may have any
//! bytes.
ghost use Rattle.std.specs.Prelude.{◌≡◌};

use sl_area::{Area, FileArea, Place};
use sl_io::{Failed, FaultCount};
use std::fs::{OpenFile, OpenOptions};
use std::io::{Read, Seek, Write};
use std::rt::Files;

/// Whether writes wait for the storage.
#[derive(Drop)]
enum Storage<F> {
    /// They don't.
    Behind,
    /// They do, by this handle.
    Reached(F),
    /// They are to, and the handle can't be had: each is a fault.
    Lost,
}

/// A file that is read and written in whole sectors. It tells nothing of what is in it: others write there too.
#[derive(Drop)]
pub struct SystemArea<F> {
    file: FileArea<F>,
    storage: Storage<F>,
    faults: FaultCount,
}

/// The storage of the file at this path.
fn storage_of<R: Files>(rt: &R, path: &str) -> Storage<R::File> {
    match OpenOptions::new().read(true).write(true).open(rt, path) {
        Ok(file) => Storage::Reached(file),
        Err(_) => Storage::Lost,
    }
}

impl<F: Read + Write + Seek + OpenFile> SystemArea<F> {
    /// The file at this path, opened to read and write, with no fault yet; its writes wait for the storage, or don't. Where it can't be opened, each
    /// call will fail.
    pub fn open<R: Files<File = F>>(rt: &R, path: &str, syncs: bool) -> SystemArea<F>
        ensures { result.faults ≡ 0 }
    {
        let storage = if syncs {
            storage_of(rt, path)
        } else {
            Storage::Behind
        };
        SystemArea {
            file: FileArea::open(rt, path),
            storage,
            faults: FaultCount::new(),
        }
    }

    /// The faults so far.
    pub fn faults(&self) -> u64
        ensures { result ≡ self.now.faults }
    {
        self.faults.get()
    }

    /// Whether what was written is where it is to be.
    fn has_landed(&self) -> bool {
        match &self.storage {
            Storage::Behind => true,
            Storage::Reached(file) => file.sync_data().is_ok(),
            Storage::Lost => false,
        }
    }
}

impl<F: Read + Write + Seek + OpenFile + Drop> Area for SystemArea<F> {
    ghost faults = { λ a. a.faults };

    fn read(&mut self, at: Place, n: u32, buffer: &mut [u8]) -> Result<(), Failed> {
        match self.file.read(at, n, buffer) {
            Ok(()) => Ok(()),
            Err(_) => Err(self.faults.raise()),
        }
    }

    fn write(&mut self, at: Place, sector: &[u8]) -> Result<(), Failed> {
        let written = self.file.write(at, sector).is_ok();
        if written && self.has_landed() {
            Ok(())
        } else {
            Err(self.faults.raise())
        }
    }
}
