//! The header that a whole text begins with, read as a schedule's is.

ghost use Rattle.sl_report.specs.HeaderLines.{HeaderLine as Spelled};
ghost use Rattle.sl_report.specs.Languages.{whole_language};
ghost use Rattle.sl_report.specs.Schedules as schedules;
ghost use Rattle.sl_schedule.specs.HeadersSoFar.{Stands};
ghost use Rattle.sl_story.specs.HeaderReadings.{header_reading};
ghost use Rattle.std.specs.Prelude.{IfOk, List, [], ◌≡◌};

use crate::numbered_lines::NumberedLines;
use sl_run::{Header, Refusal};
use sl_schedule::{Added, HeaderReader};
use std::alloc::{AllocError, Global};

/// The header that the lines begin with behind those that the reader has, passing its lines.
fn pass_lines(
    reader: &mut HeaderReader,
    lines: &mut NumberedLines<'_>,
) -> Result<Result<Header, (u64, Refusal)>, AllocError>
    ensures { (ls : List Spelled) → Stands reader.old ls
        → IfOk result (λ read. header_reading read lines.new ≡ schedules.read_header whole_language ls 1 lines.old) }
{
    let mut next = 1;
    while let Some(line) = lines.next_line() {
        if let Some(why) = line.refusal() {
            return Ok(Err((line.number, why)));
        }
        match reader.add(line.text)? {
            Added::More => {}
            Added::Begun(header) => return Ok(Ok(header)),
            Added::Refused(why) => return Ok(Err((line.number, why))),
        }
        next = line.number + 1;
    }
    Ok(Err((next, Refusal::Syntax)))
}

/// The header that the lines begin with, passing its lines; or the number of the line that is refused, and why. An `Err` is want of memory.
pub(crate) fn read_header(
    alloc: Global,
    lines: &mut NumberedLines<'_>,
) -> Result<Result<Header, (u64, Refusal)>, AllocError>
    ensures { IfOk result (λ read. header_reading read lines.new ≡ schedules.read_header whole_language [] 1 lines.old) }
{
    let mut reader = HeaderReader::new(alloc);
    pass_lines(&mut reader, lines)
}
