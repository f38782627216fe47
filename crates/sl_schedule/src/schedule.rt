//! A line behind a schedule's header as an event.

ghost use Rattle.sl_report.specs.Languages.{whole_language};
ghost use Rattle.sl_report.specs.Schedules as schedules;
ghost use Rattle.sl_schedule.specs.Lines.{line_seen};
ghost use Rattle.std.specs.Prelude.{IfOk, ◌≡◌};

use crate::events::next_event;
use crate::header::is_skipped;
use crate::lines::Line;
use sl_run::{Event, Header, Refusal};
use std::alloc::{AllocError, Global};

/// A line's number, and its event or why it can't be read.
pub type EventLine = (u64, Result<Event, Refusal>);

/// The event of a line, or why it can't be read; None where the line is empty or a comment. An `Err` is want of memory.
pub fn event_line(
    alloc: Global,
    header: &Header,
    line: &Line,
) -> Result<Option<EventLine>, AllocError>
    ensures { IfOk result (λ event. event ≡ schedules.event_line whole_language header.now (line_seen line.now)) }
{
    if let Some(why) = line.refusal() {
        return Ok(Some((line.number, Err(why))));
    }
    if is_skipped(line.text) {
        return Ok(None);
    }
    let event = next_event(alloc, header.machines, header.geometry.sector(), line.text)?;
    Ok(Some((line.number, event.ok_or(Refusal::Syntax))))
}
