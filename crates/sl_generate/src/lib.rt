//! Schedules that a seed gives: `generate` makes one, plays it in the same call, and puts out its last line.
//!
//! Three draws make an event: they give a list of candidates, and the event is the first of them that the world allows, or else a time of 0
//! that passes, which each world allows that a run comes to (`laws::timely`). The event comes to pass at once, so the next one is drawn in the
//! world behind it. Nothing is kept of an event but what the world and the counts keep, however many there are; its lines are written into a
//! buffer that each event clears.
//!
//! What is written is told of a run that is shown to be drawn from its end: whatever is drawn behind an event is drawn before it.
#![tactic(auto)]

mod candidates;
mod draws;
mod generator;
mod header;
pub mod laws;
mod texts;

pub use generator::{Generated, generate};
