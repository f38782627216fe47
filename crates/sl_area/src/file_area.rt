//! A disk in a file.
//!
//! The file must exist; a write past its end extends it with zeros, and a read past it is a counted fault. Where it is missing, or cannot
//! be opened to read and write, each call is one.
//!
//! No clause of std says what a file has in it, so that a call read or wrote the right bytes is tested and not proved: all that is here
//! is a seek, and the loops of `sl_io`.
ghost use Rattle.std.specs.Prelude.{IsOk, IsTrue, ◌≡◌, ◌↔◌};
ghost use Rattle.sl_area.specs.FileArea.{file_faults};
ghost use Rattle.sl_io.specs.FaultCauses.{HasCause};

use crate::area::Area;
use crate::sector_place::Place;
use sl_io::{Failed, FaultCount, ReadSource, WriteSink, fill, write_all};
use std::fs::OpenOptions;
use std::io::{Read, Seek, SeekFrom, Write};
use std::rt::Files;

/// A file that is read and written in whole sectors. It tells nothing of what is in it: others write there too.
#[derive(Drop)]
pub struct FileArea<F> {
    file: Option<F>,
    faults: FaultCount,
}

impl<F: Read + Write + Seek> FileArea<F> {
    /// The file at this path, opened to read and write, with no fault yet. Where that fails, each call will.
    pub fn open<R: Files<File = F>>(rt: &R, path: &str) -> FileArea<F>
        ensures { file_faults result ≡ 0 }
    {
        let file = OpenOptions::new()
            .read(true)
            .write(true)
            .open(rt, path)
            .ok();
        FileArea {
            file,
            faults: FaultCount::new(),
        }
    }

    /// How many calls have failed so far: of the file, or past its end.
    pub fn faults(&self) -> u64
        ensures { result ≡ file_faults self.now }
    {
        self.faults.get()
    }

    /// The answer of a call that was done or not.
    fn answer(&mut self, done: bool) -> Result<(), Failed>
        ensures done { IsOk result ↔ IsTrue done }
        ensures cause { HasCause (file_faults self.old) (file_faults self.new) result }
    {
        if done {
            Ok(())
        } else {
            Err(self.faults.raise())
        }
    }
}

/// Fills the buffer from the offset on; false where that fails, or the file ends before.
fn read_at<F: Read + Seek>(file: &mut F, offset: u64, buffer: &mut [u8]) -> bool {
    if file.seek(SeekFrom::Start(offset)).is_err() {
        return false;
    }
    fill(&mut ReadSource::new(file), buffer) == Ok(true)
}

/// Writes the bytes from the offset on; false where that fails.
fn write_at<F: Write + Seek>(file: &mut F, offset: u64, bytes: &[u8]) -> bool {
    if file.seek(SeekFrom::Start(offset)).is_err() {
        return false;
    }
    let mut sink = WriteSink::new(file);
    write_all(&mut sink, bytes).is_ok() && sink.flush().is_ok()
}

impl<F: Read + Write + Seek + Drop> Area for FileArea<F> {
    ghost faults = { file_faults };

    fn read(&mut self, at: Place, n: u32, buffer: &mut [u8]) -> Result<(), Failed> {
        let done = match &mut self.file {
            Some(file) => read_at(file, at.offset(), buffer),
            None => false,
        };
        self.answer(done)
    }

    fn write(&mut self, at: Place, sector: &[u8]) -> Result<(), Failed> {
        let done = match &mut self.file {
            Some(file) => write_at(file, at.offset(), sector),
            None => false,
        };
        self.answer(done)
    }
}
