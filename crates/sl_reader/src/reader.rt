//! The lines of a source, read one at a time.

ghost use Rattle.sl_report.specs.Schedules.{greatest_source, longest_line};
ghost use Rattle.sl_schedule.specs.Lines.{line_seen};
ghost use Rattle.sl_reader.specs.LineReads.{EndStands, EndsWith, Fails, IsCutOff, IsFront, Judges, Reads, Takes, line_of, no_line, with_feed};
ghost use Rattle.sl_reader.specs.declared.reader.ReadError.TheVariants.{Failed as HasFailed};
ghost use Rattle.sl_io.specs.FaultCauses.{HasCause, Rose};
ghost use Rattle.std.specs.Io.KnownBytes.{Consumes, IsAtEnd, Keeps};
ghost use Rattle.std.specs.Prelude.{Err, IfOk, IfSome, IsTrue, List, OnErr, OnOk, false, length, true, [], ℕ, ◌++◌, ◌+◌, ◌<◌, ◌≡◌, ◌≤◌};

use crate::piece::Piece;
use sl_io::{Failed, Source};
use sl_run::Refusal;
use sl_schedule::{Line, line_refusal};
use std::alloc::{AllocError, Global};
use std::marker::Model;
use thiserror::Error;

/// The most bytes of a schedule.
const GREATEST_SOURCE: u64 = 1_000_000_000;

/// The most bytes of a line, without its line feed.
const LONGEST_LINE: usize = 4096;

/// What comes next in a source, once it was read so far.
#[derive(Clone, Copy)]
pub enum Next {
    /// A whole line, within its limit of length; `line` has it.
    Line,
    /// The source has ended: no line is left.
    End,
    /// A line that is refused before it is read: it is longer than 4096 bytes (`Syntax`), or holds a byte past the greatest number of bytes
    /// that a schedule may have (`LimitBytes`).
    Refused(Refusal),
}

/// Why nothing was read: the outside, or memory, was wanting. The lines before it were read.
#[derive(Clone, Copy, Debug, PartialEq, Eq, Error)]
pub enum ReadError {
    /// A read of the source failed, which its count of faults tells.
    #[error("the input failed")]
    Failed,
    /// There is no memory for a line.
    #[error("out of memory")]
    NoMemory,
}

impl From<AllocError> for ReadError {
    ghost use Rattle.sl_reader.specs.declared.reader.ReadError.TheVariants.{NoMemory};
    ghost use Rattle.std.specs.Prelude.{◌≡◌};

    ghost from_gives = { λ _ e. e ≡ NoMemory };

    fn from(_: AllocError) -> ReadError {
        ReadError::NoMemory
    }
}

impl From<Failed> for ReadError {
    ghost use Rattle.sl_reader.specs.declared.reader.ReadError.TheVariants.{Failed as HasFailed};
    ghost use Rattle.std.specs.Prelude.{◌≡◌};

    ghost from_gives = { λ _ e. e ≡ HasFailed };

    fn from(_: Failed) -> ReadError {
        ReadError::Failed
    }
}

/// What of the line was in a piece.
#[derive(Clone, Copy)]
enum Taken {
    /// All of the piece belongs to it.
    More,
    /// The line ends in the piece.
    Line,
    /// The line is refused by a byte of the piece, for this.
    Refused(Refusal),
}

/// A reader of lines. Contracts see the line, its place, and what the source gave behind it.
#[derive(Drop)]
pub struct LineReader {
    piece: Piece,
    line: Vec<u8>,
    start: u64,
    behind: u64,
    number: u64,
    ended: bool,
}

impl Model for LineReader {
    ghost use Rattle.sl_report.specs.Schedules.{greatest_source};
    ghost use Rattle.sl_reader.specs.LineReads.{ReaderState};
    ghost use Rattle.std.specs.Prelude.{length, ◌≤◌};

    ghost Value = { ReaderState };

    ghost view = { λ r. record { left = r.piece; line = r.line.items; start = r.start; behind = r.behind; number = r.number; ended = r.ended } };

    ghost invariant = { λ r. (r.behind ≤ greatest_source) × (r.number ≤ r.behind) × (length r.piece ≤ 4096) };
}

/// So many bytes, and one for a line feed.
fn with_feed(len: usize, ends: bool) -> usize
    requires { len ≤ 8192 }
    ensures { result ≡ with_feed ends len }
{
    if ends { len + 1 } else { len }
}

/// Why a line of so many bytes behind these is refused, of which so many were read, and its line feed or not.
fn refusal_at(start: u64, len: usize, ends: bool) -> Option<Refusal>
    requires { (start ≤ greatest_source) × (len ≤ 8192) }
    ensures { Judges start len ends result }
{
    let bytes = with_feed(len, ends);
    line_refusal(start, len, GREATEST_SOURCE < start + bytes as u64)
}

impl LineReader {
    /// A reader before the first line of a source. An `Err` is want of memory.
    pub fn new(alloc: Global) -> Result<LineReader, AllocError>
        ensures { IfOk result (λ r. r ≡ no_line) }
    {
        Ok(LineReader {
            piece: Piece::new(),
            line: Vec::with_capacity(alloc, LONGEST_LINE)?,
            start: 0,
            behind: 0,
            number: 0,
            ended: false,
        })
    }

    /// The line that was read last, with its number.
    pub fn line(&self) -> Line<'_>
        ensures { line_seen result ≡ line_of self.now }
    {
        Line {
            number: self.number,
            start: self.start,
            text: self.line.as_slice(),
            is_past: false,
        }
    }

    /// The number of the next line.
    pub fn next_number(&self) -> u64
        ensures exact { result ≡ self.now.number + 1 }
        ensures few { result ≤ 1000000001 }
    {
        self.number + 1
    }

    /// Takes what of the piece belongs to the line.
    fn take_piece(&mut self) -> Result<Taken, AllocError>
        requires { IsFront self.old.behind self.old.line }
        ensures ok { IfOk result (Takes self.old self.new) }
        ensures ended { self.new.ended ≡ self.old.ended }
    {
        let (front, ends) = self.piece.front();
        let len = self.line.len() + front.len();
        if let Some(why) = refusal_at(self.behind, len, ends) {
            return Ok(Taken::Refused(why));
        }
        let passed = with_feed(front.len(), ends);
        self.line.extend_from_slice(front)?;
        self.piece.pass(passed);
        if !ends {
            return Ok(Taken::More);
        }
        self.start = self.behind;
        self.behind += len as u64 + 1;
        self.number += 1;
        Ok(Taken::Line)
    }

    /// The source's next piece, where nothing is left of the last one; false at its end.
    fn refill<S: Source>(&mut self, source: &mut S) -> Result<bool, Failed>
        requires { self.old.left ≡ [] }
        ensures exact { self.new ≡ record self.old { left = self.new.left } }
        ensures few { length self.new.left ≤ 4096 }
        ensures bytes { IfOk result (λ some. Consumes (S.left source.old) (S.left source.new) self.new.left) }
        ensures some { IfOk result (λ some. some ≡ true → 0 < length self.new.left) }
        ensures ended { IfOk result (λ some. some ≡ false → (self.new.left ≡ []) × IsAtEnd (S.left source.new)) }
        ensures err { OnErr result (Keeps (S.left source.old) (S.left source.new)) }
        ensures cause { HasCause (S.faults source.old) (S.faults source.new) result }
    {
        self.piece.refill(source)
    }

    /// The next line begins.
    fn begin(&mut self)
        ensures exact { self.new ≡ record self.old { line = [] } }
        ensures few { length self.new.left ≤ 4096 }
        ensures inside { self.new.behind ≤ greatest_source }
    {
        self.line.clear();
    }

    /// Whether the source has ended.
    fn has_ended(&self) -> bool
        ensures { result ≡ self.now.ended }
    {
        self.ended
    }

    /// The source has ended: the line is the last one, or there is none.
    fn end(&mut self) -> Next
        requires { IsFront self.old.behind self.old.line }
        ensures { EndsWith self.old self.new result }
    {
        self.ended = true;
        if self.line.is_empty() {
            return Next::End;
        }
        self.start = self.behind;
        self.behind += self.line.len() as u64;
        self.number += 1;
        Next::Line
    }

    /// Reads the next line. The source is read as far as the piece in which the line ends, or is refused. After a refusal, and after an
    /// `Err`, no line stands.
    pub fn read_line<S: Source>(&mut self, source: &mut S) -> Result<Next, ReadError>
        requires { EndStands (S.left source.old) self.old }
        ensures ok { IfOk result (Reads (S.left source.old) (S.left source.new) self.old self.new) }
        ensures stands { EndStands (S.left source.new) self.new }
        ensures failed { result ≡ Err HasFailed → Fails (S.left source.old) (S.left source.new) self.old × Rose (S.faults source.old) (S.faults source.new) }
        ensures err { OnErr result (IsCutOff (S.left source.old) (S.left source.new) self.old) }
        ensures later { S.faults source.old ≤ S.faults source.new }
    {
        let ended = self.has_ended();
        self.begin();
        if ended {
            return Ok(Next::End);
        }
        loop {
            match self.take_piece()? {
                Taken::Line => return Ok(Next::Line),
                Taken::Refused(why) => return Ok(Next::Refused(why)),
                Taken::More => {}
            }
            if !self.refill(source)? {
                return Ok(self.end());
            }
        }
    }
}
