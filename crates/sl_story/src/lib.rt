//! Schedules that tell a story: `tell_schedule` writes one, drawn from a seed, in which hosts mostly do their work in time, and now and then hang, crash,
//! are reset, lose their storage or come back.
#![tactic(auto)]

mod acts;
mod cast;
mod commands;
mod draws;
mod header;
mod header_read;
mod heard;
pub mod laws;
mod lvm_lines;
mod mishaps;
mod numbered_lines;
mod place;
mod story;

pub use story::{Told, tell_schedule};
