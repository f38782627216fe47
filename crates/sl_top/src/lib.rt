//! The top call: the words of the command line, a source, a sink, devices, and the status that the process ends with.
//!
//! `run` does what the words say. `replay` reads the source line by line, plays it in a world of hosts and puts its report out to the sink;
//! `draw` puts out its picture, `gen` and `schedule` play what a seed gives; `direct` takes a disk of the devices, does its action there and gives the disk back; `live` runs machines with threads over files and child
//! programs; the help and the version are put out; words that say nothing are refused. What devices are is said in `sl_outside`, which has them in memory and over the system.
//!
//! The clause of `run` is one definition, `Owes` in specs/Runs.antt, by what the words say. `laws` reads the statuses off it: each comes
//! only with its cause.
#![tactic(auto)]

pub mod laws;
mod own;
mod status;
mod top;

pub use sl_outside::{Devices, FileDevices, LentDisk, LiveDevices, MemDevices, MemDisk};
pub use sl_place::{StandingDevices, SystemDevices};
pub use status::Status;
pub use top::{run, run_offline};
