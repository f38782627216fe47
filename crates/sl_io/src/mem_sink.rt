//! A sink in memory.
//!
//! Its room is taken when it is made, so that no write takes memory. A write that finds no room is a fault like any other: it is
//! counted, and takes no byte.
ghost use Rattle.std.specs.Io.KnownBytes.{WriteAppends};
ghost use Rattle.std.specs.Prelude.{IfOk, IsErr, IsTrue, Some, [], length, ◌≡◌, ◌↔◌};
ghost use Rattle.sl_io.specs.MemStreams.{after_write, write_fails, write_len};
ghost use Rattle.sl_io.specs.TakenBytes.{TakesSome};
ghost use Rattle.sl_io.specs.FaultCauses.{HasCause};

use crate::faults::Failed;
use crate::mem_source::most_of;
use crate::planned::PlannedFaults;
use crate::sink::Sink;
use std::alloc::{AllocError, Global};
use std::marker::Model;

/// Keeps what is written to it, as long as there is room.
#[derive(Drop)]
pub struct MemSink {
    taken: Vec<u8>,
    room: usize,
    pieces: Vec<usize>,
    calls: PlannedFaults,
}

impl Model for MemSink {
    ghost use Rattle.std.specs.Prelude.{vec_capacity, vec_len, ◌+◌, ◌≤◌};
    ghost use Rattle.sl_io.specs.MemStreams.{SinkState};

    ghost Value = { SinkState };

    ghost view = { λ s. record { taken = s.taken.items; room = s.room; pieces = s.pieces.items; calls = s.calls } };

    ghost invariant = { λ s. vec_len s.taken + s.room ≤ vec_capacity s.taken };
}

impl MemSink {
    /// An empty sink with room for so many bytes. `pieces` has the most bytes of each write in order, of which the last goes for all
    /// later writes; with an empty list a write takes what there is room for, and a 0 stands for 1. The writes numbered in `failing`
    /// fail, counted from 1. The only error is want of memory.
    pub fn new(
        alloc: Global,
        room: usize,
        pieces: Vec<usize>,
        failing: Vec<u64>,
    ) -> Result<MemSink, AllocError>
        ensures { IfOk result (λ s. s
            ≡ record { taken = []; room = room; pieces = pieces.items; calls = record { made = 0; failing = failing.items; faults = 0 } }) }
    {
        Ok(MemSink {
            taken: Vec::with_capacity(alloc, room)?,
            room,
            pieces,
            calls: PlannedFaults::new(failing),
        })
    }

    /// The bytes taken so far, in the order in which they came.
    pub fn taken(&self) -> &[u8]
        ensures { result.now ≡ self.now.taken }
    {
        &self.taken
    }

    /// The bytes taken, and the end of the sink.
    pub fn into_taken(self) -> Vec<u8>
        ensures { result.items ≡ self.taken }
    {
        self.taken
    }

    /// How many more bytes there is room for.
    pub fn room(&self) -> usize
        ensures { result ≡ self.now.room }
    {
        self.room
    }

    /// How many writes have failed, each as it was planned.
    pub fn faults(&self) -> u64
        ensures { result ≡ self.now.calls.faults }
    {
        self.calls.faults()
    }
}

impl Sink for MemSink {
    ghost taken = { λ s. Some s.taken };

    ghost faults = { λ s. s.calls.faults };

    fn write(&mut self, piece: &[u8]) -> Result<usize, Failed>
        ensures some { TakesSome result piece.now }
        ensures bytes { WriteAppends (Some self.old.taken) (Some self.new.taken) result piece.now }
        ensures cause { HasCause self.old.calls.faults self.new.calls.faults result }
        ensures fails { IsErr result ↔ IsTrue (write_fails (length piece.now) self.old) }
        ensures count { IfOk result (λ n. n ≡ write_len (length piece.now) self.old) }
        ensures exact { self.new ≡ after_write piece.now self.old }
    {
        self.calls.begin()?;
        if !piece.is_empty() && self.room == 0 {
            return Err(self.calls.raise());
        }
        let most = most_of(&self.pieces, self.calls.made());
        let n = piece.len().min(self.room).min(most);
        match self.taken.extend_from_slice(&piece[..n]) {
            Ok(()) => {
                self.room -= n;
                Ok(n)
            }
            Err(_) => unreachable!(),
        }
    }
}
