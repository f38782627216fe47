//! The picture of a run: a timeline, one lane a machine, made of the lines of a schedule and of what the report tells of each.
//!
//! A `Picture` is kept along a run. `take` takes a line and its lines of the report; what is open on a machine, a command without an answer, a
//! call in flight, a connection, a holding, stands among the open bars until what happens ends it (`fates`). So each bar of a holding begins
//! where its grant is told and ends where its end is, or stands to the end of the picture. `said` reads the words of a line, `events` says what
//! a line of the schedule means, `tells` what a line of the report does, `kept` keeps bars, marks, columns and notes.
//!
//! The axis goes by events and by moments: each event takes one width, so that what happens at one moment can be told apart, and all time that
//! passes is drawn to one scale. The scale is known at the end alone, so `push_picture` writes the picture then (`layout`, `caption`, `bars`,
//! `signs`, `page`): caption, ground, legend, time, bars, signs, words. `laws` says that what is written is a well-formed picture, whatever is kept;
//! and that the open bars of holdings are what the lines of the report leave granted.
//!
//! How many bars are open is bounded by what a host may hold and have under way, so what a line costs does not grow with the run.
#![tactic(auto)]

mod bars;
mod caption;
mod events;
mod fates;
mod kept;
mod laws;
mod layout;
mod page;
mod said;
mod shapes;
mod signs;
mod tells;

pub use kept::{Part, Picture};
pub use laws::{bars_begin, kept_pictures_are_well_formed, lines_move_bars};
pub use shapes::{Bar, Column, Instant, Lane, Mark, Note, Shape, Sign, Text};
