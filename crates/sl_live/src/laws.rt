//! The steps of which the threads' turns are made.

pub use crate::disks::sector_step;
pub use crate::steps::{Gone, Told, child_step, device_step, give_step, spawned_step, start_step};
