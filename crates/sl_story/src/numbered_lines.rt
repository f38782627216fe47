//! The lines of a text, numbered, one after another, as the definitions cut them.

ghost use Rattle.sl_report.specs.Schedules as schedules;
ghost use Rattle.sl_schedule.specs.Lines.{line_seen};
ghost use Rattle.sl_words.specs.Words.{first_of_list};
ghost use Rattle.std.specs.Option.{option_map};
ghost use Rattle.std.specs.Prelude.{drop, min, nat_lt, IfSome, ◌^◌, ◌≡◌, ◌≤◌};

use sl_schedule::Line;
use sl_text::line::split_line;
use std::marker::Model;

/// The most bytes of a schedule.
const GREATEST_SOURCE: u64 = 1_000_000_000;

/// Whether the line that ends before the byte number `end` of a text of `total` bytes holds the byte past the limit.
fn is_past(total: u64, end: u64) -> bool
    ensures { result ≡ nat_lt schedules.greatest_source (min total end) }
{
    GREATEST_SOURCE < total && GREATEST_SOURCE < end
}

/// The lines of a text. Contracts see what is left of them.
#[derive(Drop)]
pub(crate) struct NumberedLines<'a> {
    rest: &'a [u8],
    total: u64,
    start: u64,
    number: u64,
}

impl<'a> Model for NumberedLines<'a> {
    ghost use Rattle.std.specs.Prelude.{List, length, ◌+◌, ◌<◌, ◌^◌, ◌≤◌};
    ghost use Rattle.sl_report.specs.Schedules.{NumberedLine, numbered_from};
    ghost use Rattle.sl_text.specs.Forms.{lines_of};

    ghost Value = { List NumberedLine };

    ghost view = { λ l. numbered_from l.total l.start l.number (lines_of l.rest.now) };

    ghost invariant = { λ l. (l.start ≤ l.total + 1) × (0 < length l.rest.now → l.start + length l.rest.now ≤ l.total)
        × (l.number ≤ l.start + 1) × (l.total < 2 ^ 63) };
}

impl<'a> NumberedLines<'a> {
    /// All lines of the text.
    pub(crate) fn new(text: &'a [u8]) -> NumberedLines<'a>
        ensures { result ≡ schedules.numbered_lines text.now }
    {
        NumberedLines {
            rest: text,
            total: text.len() as u64,
            start: 0,
            number: 1,
        }
    }

    /// The next line, if one is left.
    #[tactic(auto, using(crate::proofs::LineLaws::first_line_fits))]
    pub(crate) fn next_line(&mut self) -> Option<Line<'a>>
        ensures line { option_map line_seen result ≡ first_of_list self.old }
        ensures left { self.new ≡ drop 1 self.old }
        ensures bound { IfSome result (λ line. line.number ≤ 2 ^ 63) }
    {
        let (text, rest) = split_line(self.rest)?;
        let end = self.start + text.len() as u64 + 1;
        let line = Line {
            number: self.number,
            start: self.start,
            text,
            is_past: is_past(self.total, end),
        };
        self.rest = rest;
        self.start = end;
        self.number += 1;
        Some(line)
    }
}
