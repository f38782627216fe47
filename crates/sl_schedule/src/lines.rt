//! A line of a source, and what it is refused for before it is read.
//!
//! A line that holds the byte after the last one that a schedule may have is past the limit, and so is one that is longer than a line
//! may be; whichever of the two bytes comes first decides. So each line keeps where it starts and whether it is past the limit. Line
//! feeds count as bytes, except where the source ends without one: there the limit is at the source's own end.

ghost use Rattle.sl_report.specs.Schedules as schedules;
ghost use Rattle.sl_schedule.specs.Lines.{line_seen};
ghost use Rattle.std.specs.Prelude.{length, List, ℕ, ◌≡◌};

use sl_run::Refusal;

/// The most bytes of a schedule.
const GREATEST_SOURCE: u64 = 1_000_000_000;

/// The most bytes of a line.
const LONGEST_LINE: u64 = 4096;

/// A line of a source.
#[derive(Clone, Copy)]
pub struct Line<'a> {
    /// Its number, from 1 on.
    pub number: u64,
    /// How many bytes of the source come before it.
    pub start: u64,
    /// Its bytes, without the line feed.
    pub text: &'a [u8],
    /// Whether it holds the byte after the last one that a schedule may have.
    pub is_past: bool,
}

/// What a line is refused for before it is read: it is longer than 4096 bytes (`Syntax`), or past the limit of a source (`LimitBytes`).
/// The line starts behind `start` bytes and has `len` of its own.
pub fn line_refusal(start: u64, len: usize, is_past: bool) -> Option<Refusal>
    ensures { (text : List ℕ) (number : ℕ) → length text ≡ len
        → result ≡ schedules.line_refusal (record { number = number; start = start; text = text; is_past = is_past }) }
{
    if LONGEST_LINE < len as u64 && start <= GREATEST_SOURCE - LONGEST_LINE - 1 {
        return Some(Refusal::Syntax);
    }
    if is_past {
        return Some(Refusal::LimitBytes);
    }
    None
}

impl<'a> Line<'a> {
    /// What the line is refused for before it is read.
    pub fn refusal(&self) -> Option<Refusal>
        ensures { result ≡ schedules.line_refusal (line_seen self.now) }
    {
        line_refusal(self.start, self.text.len(), self.is_past)
    }
}
