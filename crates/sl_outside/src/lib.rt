//! What a run takes from the outside: disks, and for live machines clocks, child programs, watchdog devices, names and a gate.
//!
//! Each part is a trait with a form in memory, of which all is told, and an adapter over the system, of which nothing is. The adapters are
//! the program's trusted edge: a few lines each, each with a case of the program `cases`.
#![tactic(auto)]

mod act;
mod child_spawner;
mod device;
mod devices;
mod file_devices;
mod folders;
mod gate;
mod live_devices;
mod mem_children;
mod mem_devices;
mod mem_spawner;
mod notes;
mod paths;
mod planned_spawner;
mod real_clock;
mod running_child;
mod shared_area;
mod shared_devices;
mod shared_spawner;
mod spawner;
mod started_child;
mod turn_gate;
mod words;

pub use act::Act;
pub use child_spawner::ChildSpawner;
pub use device::{Device, TimedDevice};
pub use devices::Devices;
pub use file_devices::FileDevices;
pub use folders::NotTaken;
pub use gate::{Gate, OpenGate};
pub use live_devices::LiveDevices;
pub use mem_devices::{LentDisk, MemDevices, MemDisk};
pub use mem_spawner::{MemPlan, MemSpawner};
pub use notes::Note;
pub use paths::disk_path;
pub use planned_spawner::PlannedSpawner;
pub use real_clock::RealClock;
pub use running_child::Program;
pub use shared_area::SharedArea;
pub use shared_devices::{AreaPlan, SharedDevices, SharedPlan, SlowStart};
pub use shared_spawner::{Census, SharedSpawner};
pub use spawner::Spawner;
pub use started_child::{MemLife, StartedChild};
pub use turn_gate::{Turn, TurnGate};
pub use words::{MemWords, SystemWords, Words};
