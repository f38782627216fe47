//! Bytes that a source gave and that no line has yet.

ghost use Rattle.sl_reader.specs.LineReads.{feed_of, with_feed};
ghost use Rattle.sl_text.specs.Forms.{is_free_of};
ghost use Rattle.sl_io.specs.FaultCauses.{HasCause};
ghost use Rattle.std.specs.Io.KnownBytes.{Consumes, IsAtEnd, Keeps};
ghost use Rattle.std.specs.List.{position};
ghost use Rattle.std.specs.Prelude.{IfOk, IsTrue, OnErr, drop, false, length, true, [], ◌++◌, ◌<◌, ◌==◌, ◌≡◌, ◌≤◌};

use memchr::memchr;
use sl_io::{Failed, Source};
use std::marker::Model;

/// How many bytes are asked for in one read.
const PIECE: usize = 4096;

/// What is left of the last piece that a source gave. Contracts see its bytes.
#[derive(Drop)]
pub struct Piece {
    bytes: [u8; PIECE],
    at: usize,
    end: usize,
}

impl Model for Piece {
    ghost use Rattle.std.specs.Prelude.{List, drop, take, ℕ, ◌-◌, ◌≤◌};

    ghost Value = { List ℕ };

    ghost view = { λ p. take (p.end - p.at) (drop p.at p.bytes) };

    ghost invariant = { λ p. (p.at ≤ p.end) × (p.end ≤ 4096) };
}

/// Where the first line feed stands. A line is long beside its words, so this looks at many bytes at a time.
#[tactic(auto, using(crate::proofs::FirstLines::feed_found))]
fn feed_in(bytes: &[u8]) -> Option<usize>
    ensures { result ≡ position (λ b. b == 10) bytes.now }
{
    memchr(b'\n', bytes)
}

impl Piece {
    /// An empty buffer.
    pub fn new() -> Piece
        ensures { result ≡ [] }
    {
        Piece {
            bytes: [0; PIECE],
            at: 0,
            end: 0,
        }
    }

    /// The bytes that were not taken away yet.
    fn left(&self) -> &[u8]
        ensures exact { result.now ≡ self.now }
        ensures few { length result.now ≤ 4096 }
    {
        &self.bytes[self.at..self.end]
    }

    /// The bytes up to the next line feed, and whether there is one.
    #[tactic(auto, using(crate::proofs::FirstLines::cutting, crate::proofs::FirstLines::feeds))]
    pub fn front(&self) -> (&[u8], bool)
        ensures free { IsTrue (is_free_of 10 result.0.now) }
        ensures cut { self.now ≡ result.0.now ++ (feed_of result.1 ++ drop (with_feed result.1 (length result.0.now)) self.now) }
        ensures all { result.1 ≡ false → result.0.now ≡ self.now }
        ensures few { length result.0.now ≤ 4096 }
    {
        let left = self.left();
        match feed_in(left) {
            Some(at) => (left.split_at(at).0, true),
            None => (left, false),
        }
    }

    /// Takes so many bytes away at the front: they were read.
    pub fn pass(&mut self, count: usize)
        requires { count ≤ length self.old }
        ensures exact { self.new ≡ drop count self.old }
        ensures few { length self.new ≤ 4096 }
    {
        self.at += count;
    }

    /// Takes the next piece of the source, where nothing is left of the last one; false at the source's end. After an `Err` nothing is there.
    pub fn refill<S: Source>(&mut self, source: &mut S) -> Result<bool, Failed>
        requires { self.old ≡ [] }
        ensures few { length self.new ≤ 4096 }
        ensures bytes { IfOk result (λ some. Consumes (S.left source.old) (S.left source.new) self.new) }
        ensures some { IfOk result (λ some. some ≡ true → 0 < length self.new) }
        ensures ended { IfOk result (λ some. some ≡ false → (self.new ≡ []) × IsAtEnd (S.left source.new)) }
        ensures err { OnErr result ((self.new ≡ []) × Keeps (S.left source.old) (S.left source.new)) }
        ensures cause { HasCause (S.faults source.old) (S.faults source.new) result }
    {
        let count = source.read(&mut self.bytes)?;
        self.at = 0;
        self.end = count;
        Ok(count > 0)
    }
}
