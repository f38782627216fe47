//! A source over bytes in memory.
//!
//! It gives its bytes in pieces of lengths that it is told, and fails at calls that it is told, so that a reader can be tried at each
//! way in which an input may come. A piece has at least one byte while any is left: an answer of 0 would be taken for the end.
ghost use Rattle.std.specs.Io.KnownBytes.{ReadConsumes};
ghost use Rattle.std.specs.Io.{ReadsAtMost};
ghost use Rattle.std.specs.Prelude.{IfOk, IsErr, IsTrue, Some, length, min, take, ◌≡◌, ◌↔◌};
ghost use Rattle.sl_io.specs.MemStreams.{after_read, most_of, read_len};
ghost use Rattle.sl_io.specs.Planned.{fails_next};
ghost use Rattle.sl_io.specs.FaultCauses.{HasCause};

use crate::faults::Failed;
use crate::planned::PlannedFaults;
use crate::source::Source;
use std::marker::Model;

/// Bytes in memory, which come in pieces of planned lengths, with reads that fail as planned.
#[derive(Drop)]
pub struct MemSource {
    bytes: Vec<u8>,
    at: usize,
    pieces: Vec<usize>,
    calls: PlannedFaults,
}

impl Model for MemSource {
    ghost use Rattle.std.specs.Prelude.{drop, vec_len, ◌≤◌};
    ghost use Rattle.sl_io.specs.MemStreams.{SourceState};

    ghost Value = { SourceState };

    ghost view = { λ s. record { left = drop s.at s.bytes.items; pieces = s.pieces.items; calls = s.calls } };

    ghost invariant = { λ s. s.at ≤ vec_len s.bytes };
}

/// The most bytes that a call gives or takes, at least 1: `pieces` has the lengths of the calls in order, and the last one goes for all
/// later calls. Without any there is no limit. The first call has number 1.
pub(crate) fn most_of(pieces: &[usize], call: u64) -> usize
    ensures { result ≡ most_of pieces.now call }
{
    let last = pieces.len().min(call as usize).saturating_sub(1);
    pieces.get(last).copied().unwrap_or(usize::MAX).max(1)
}

/// Copies as many bytes as there are and as the buffer has room for to its front, but no more than `most`, and answers how many.
fn copy_front(bytes: &[u8], buffer: &mut [u8], most: usize) -> usize
    ensures count { result ≡ min (min (length buffer.old) (length bytes.now)) most }
    ensures copied { take result buffer.new ≡ take result bytes.now }
{
    let n = buffer.len().min(bytes.len()).min(most);
    buffer[..n].copy_from_slice(&bytes[..n]);
    n
}

impl MemSource {
    /// A source of these bytes. `pieces` has the most bytes of each read in order, of which the last goes for all later reads; with an
    /// empty list each read fills its buffer, and a 0 stands for 1. The reads numbered in `failing` fail, counted from 1.
    pub fn new(bytes: Vec<u8>, pieces: Vec<usize>, failing: Vec<u64>) -> MemSource
        ensures { result
            ≡ record { left = bytes.items; pieces = pieces.items; calls = record { made = 0; failing = failing.items; faults = 0 } } }
    {
        MemSource {
            bytes,
            at: 0,
            pieces,
            calls: PlannedFaults::new(failing),
        }
    }

    /// The bytes that were not read yet.
    pub fn left(&self) -> &[u8]
        ensures { result.now ≡ self.now.left }
    {
        &self.bytes[self.at..]
    }

    /// How many reads have failed, each as it was planned.
    pub fn faults(&self) -> u64
        ensures { result ≡ self.now.calls.faults }
    {
        self.calls.faults()
    }
}

impl Source for MemSource {
    ghost left = { λ s. Some s.left };

    ghost faults = { λ s. s.calls.faults };

    fn read(&mut self, buffer: &mut [u8]) -> Result<usize, Failed>
        ensures bound { ReadsAtMost result buffer.new }
        ensures bytes { ReadConsumes (Some self.old.left) (Some self.new.left) result buffer.new }
        ensures cause { HasCause self.old.calls.faults self.new.calls.faults result }
        ensures fails { IsErr result ↔ IsTrue (fails_next self.old.calls) }
        ensures count { IfOk result (λ n. n ≡ read_len (length buffer.old) self.old) }
        ensures exact { self.new ≡ after_read (length buffer.old) self.old }
    {
        self.calls.begin()?;
        let most = most_of(&self.pieces, self.calls.made());
        let n = copy_front(self.left(), buffer, most);
        self.at += n;
        Ok(n)
    }
}
