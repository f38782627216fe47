//! A disk in memory.
//!
//! Its room is taken when it is made, so that no call takes memory. A call that would reach past the room is a fault like any other. A
//! write that fails changes nothing.
ghost use Rattle.std.specs.Io.KnownBytes.{Keeps};
ghost use Rattle.std.specs.Prelude.{IfOk, IsErr, IsTrue, OnErr, OnOk, Some, length, replicate, ◌*◌, ◌+◌, ◌≡◌, ◌≤◌, ◌↔◌};
ghost use Rattle.sl_area.specs.MemArea.{after_read, after_write, fails_at};
ghost use Rattle.sl_area.specs.Sectors.{IsReadAt, KeepsOthers, Replaces, put_at};
ghost use Rattle.sl_io.specs.FaultCauses.{HasCause};

use crate::area::Area;
use crate::sector_place::Place;
use sl_io::{Failed, PlannedFaults};
use std::alloc::{AllocError, Global};
use std::marker::Model;

/// Bytes in memory, read and written in whole sectors.
#[derive(Drop)]
pub struct MemArea {
    bytes: Vec<u8>,
    calls: PlannedFaults,
}

impl Model for MemArea {
    ghost use Rattle.sl_area.specs.MemArea.{AreaState};

    ghost Value = { AreaState };

    ghost view = { λ a. record { content = a.bytes.items; calls = a.calls } };
}

impl MemArea {
    /// A disk of so many zeros. The calls numbered in `failing` fail, counted from 1. The only error is want of memory.
    pub fn new(alloc: Global, room: usize, failing: Vec<u64>) -> Result<MemArea, AllocError>
        ensures { IfOk result (λ a. a
            ≡ record { content = replicate room 0; calls = record { made = 0; failing = failing.items; faults = 0 } }) }
    {
        Ok(MemArea::of(vec![in alloc; 0; room]?, failing))
    }

    /// A disk of these bytes. The calls numbered in `failing` fail, counted from 1.
    pub fn of(bytes: Vec<u8>, failing: Vec<u64>) -> MemArea
        ensures { result ≡ record { content = bytes.items; calls = record { made = 0; failing = failing.items; faults = 0 } } }
    {
        MemArea {
            bytes,
            calls: PlannedFaults::new(failing),
        }
    }

    /// All bytes of the disk, as the writes so far have left them.
    pub fn content(&self) -> &[u8]
        ensures { result.now ≡ self.now.content }
    {
        &self.bytes
    }

    /// How many calls have failed so far: as planned, or past the disk's end.
    pub fn faults(&self) -> u64
        ensures { result ≡ self.now.calls.faults }
    {
        self.calls.faults()
    }

    /// Counts one more call, on so many bytes from an offset on, and answers where they begin. It fails where it was told to, and where
    /// there is no room for them.
    fn begin(&mut self, offset: u64, len: usize) -> Result<usize, Failed>
        ensures fails { IsErr result ↔ IsTrue (fails_at offset len self.old) }
        ensures at { IfOk result (λ at. at ≡ offset) }
        ensures exact { self.new ≡ after_read offset len self.old }
        ensures cause { HasCause self.old.calls.faults self.new.calls.faults result }
    {
        self.calls.begin()?;
        let room = self.bytes.len() as u64;
        if offset > room || len as u64 > room - offset {
            return Err(self.calls.raise());
        }
        Ok(offset as usize)
    }
}

/// Copies the bytes from a place on.
fn copy_from(bytes: &[u8], at: usize, buffer: &mut [u8])
    requires { at + length buffer.old ≤ length bytes.now }
    ensures { IsReadAt (Some bytes.now) at buffer.new }
{
    let end = at + buffer.len();
    buffer.copy_from_slice(&bytes[at..end]);
}

/// Replaces the bytes from a place on.
fn copy_to(bytes: &mut [u8], at: usize, sector: &[u8])
    requires { at + length sector.now ≤ length bytes.old }
    ensures { bytes.new ≡ put_at at sector.now bytes.old }
{
    let end = at + sector.len();
    bytes[at..end].copy_from_slice(sector);
}

impl Area for MemArea {
    ghost content = { λ a. Some a.content };

    ghost faults = { λ a. a.calls.faults };

    fn read(&mut self, at: Place, n: u32, buffer: &mut [u8]) -> Result<(), Failed>
        requires { length buffer.old ≡ n * at.size }
        ensures kept { Keeps (Some self.old.content) (Some self.new.content) }
        ensures bytes { OnOk result (IsReadAt (Some self.old.content) at.offset buffer.new) }
        ensures cause { HasCause self.old.calls.faults self.new.calls.faults result }
        ensures fails { IsErr result ↔ IsTrue (fails_at at.offset (length buffer.old) self.old) }
        ensures exact { self.new ≡ after_read at.offset (length buffer.old) self.old }
    {
        let at = self.begin(at.offset(), buffer.len())?;
        copy_from(&self.bytes, at, buffer);
        Ok(())
    }

    fn write(&mut self, at: Place, sector: &[u8]) -> Result<(), Failed>
        requires { length sector.now ≡ at.size }
        ensures ok { OnOk result (Replaces (Some self.old.content) (Some self.new.content) at.offset sector.now) }
        ensures failed { OnErr result (KeepsOthers (Some self.old.content) (Some self.new.content) at) }
        ensures cause { HasCause self.old.calls.faults self.new.calls.faults result }
        ensures fails { IsErr result ↔ IsTrue (fails_at at.offset (length sector.now) self.old) }
        ensures exact { self.new ≡ after_write at.offset sector.now self.old }
    {
        let at = self.begin(at.offset(), sector.len())?;
        copy_to(&mut self.bytes, at, sector);
        Ok(())
    }
}
