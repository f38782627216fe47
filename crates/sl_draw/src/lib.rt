//! A schedule from a source, played and drawn.
//!
//! It is played as a replay plays it, line by line, and each line goes into the picture with its lines of the report, in the place of being
//! written. Comments before `begin` are kept as they are read (`header`) and stand above the picture. It is put out when the last line has been
//! played, or one is refused: its width is written in front of all else, and nobody knows it before.
#![tactic(auto)]

mod draw;
mod header;
pub mod laws;

pub use draw::draw_schedule;
