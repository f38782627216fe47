//! What a machine in a process of its own takes from the outside, beside what all live machines take: its place in a folder where others run, disks
//! that stand, writes that reach the storage, and a watchdog device of the system.
//!
//! `StandingDevices` says what is asked of devices. `SystemDevices` are those over the system, which the program has for all its actions; nothing is
//! told of them, as nothing is of files. `MadeDevices` are disks in memory that were made here: of each the size is known.
#![tactic(auto)]

mod made_devices;
mod standing_devices;
mod system_area;
mod system_devices;
mod system_watchdog;
mod watchdog;
mod watched_device;

pub use made_devices::{MadeDevices, MadeWatchdog};
pub use standing_devices::{NotClaimed, StandingDevices};
pub use system_area::SystemArea;
pub use system_devices::SystemDevices;
pub use system_watchdog::SystemWatchdog;
pub use watchdog::Watchdog;
pub use watched_device::WatchedDevice;
