//! A schedule's bytes, as its header and its events, and the lines of a report that come from no host.
//!
//! A schedule is text: lines of words, each with one spelling. Its header gives the world at moment 0, and each line behind `begin` an
//! event. The first line that can't be read, or says what may not be, ends the schedule, and the report tells its number and why; so
//! everybody who reads a schedule must stop at the same line for the same reason. Each function here answers exactly what the language's
//! definitions say: `line_refusal` tells why a line is not read at all, `HeaderReader` takes a header line by line, `next_event` reads one
//! event, and `event_line` a line behind the header. Who reads a source, cuts it into lines and numbers them stands above (`sl_reader`). The
//! push functions write the lines of refusals, of watchdog tests, and the last one.
//!
//! Nothing is kept between two calls but what the types here hold, and after want of memory each is as it was.
#![tactic(auto)]

mod area_sizes;
mod events;
mod header;
pub mod header_line;
mod header_refusals;
mod lines;
mod parts;
mod report_lines;
mod schedule;

pub use events::next_event;
pub use header::{Added, HeaderReader, rank};
pub use lines::{Line, line_refusal};
pub use report_lines::{Counts, push_end_line, push_refusal_line, push_test_line};
pub use schedule::{EventLine, event_line};
