//! A schedule played from a source, line by line, in a world of many machines, and its report written to a sink.
//!
//! A `Play` is a world of many machines, whichever daemons run in it, with what the last line of the report will count. `happen` brings one
//! event to pass and writes its lines; `take_line` takes a line of a schedule with the asks of lvmlockd's locks behind it. `laws` says how a
//! report is proved from its end: whatever is left behind an event is left before it, with the event's lines in front. So a program that goes
//! from line to line never has to know the run that it makes.
//!
//! `play_schedule` reads a line into a buffer of its own; its event and the asks behind it come to pass, and their lines are written before the
//! next line is read. So what this takes is the world and two small buffers, however long the schedule is; and whoever watches the sink sees
//! each event when it has happened. A line that is refused ends the schedule: nothing behind it is read. What is written is the report of a
//! made run, and each status says how far it goes (`laws::replays`): all of it, to the source's end (`Done`) or to a refused line (`Refused`);
//! just the report of the lines that were read whole, where a read failed; a front of it where a write failed or memory ran out.
//!
//! Whatever header is read, a world may begin with it, and the commands that its daemons read are commands of its layout (`laws::headers`).
//! A header is read line by line, each tested against those before it alone. So what holds of a header holds of its lines in order: each was
//! taken behind those before it, none of a lesser rank follows one of a greater, and the size of areas, which disks' areas are
//! tested against, stands fixed behind the line that tells it.
#![tactic(auto)]

mod events;
pub mod laws;
mod lines;
mod play;
mod replay;
mod step_counts;
mod step_lines;

pub use play::Play;
pub use replay::{Played, play_schedule};
pub use step_counts::{PlayError, counted, no_counts};
pub use step_lines::push_event;
