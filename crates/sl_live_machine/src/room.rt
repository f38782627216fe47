//! What the threads of a machine work on together.
//!
//! The order of locks is: lvmlockd's locks, which the line thread holds for all its life, then children, then the cell, then the post. But for
//! the first, none is held while a sector call or a start is made, or anything else that may take any time.

use sl_area::Geometry;
use sl_cell::{Front, HostCell, Station, Teller};
use sl_live::Carried;
use sl_locks::LvmLocks;
use sl_outside::Spawner;
use std::alloc::Global;
use std::sync::Mutex;
use std::time::Duration;

/// How often a machine's threads look by themselves.
#[derive(Clone, Copy)]
pub(crate) struct Pace {
    /// Between two wakes: a quarter of an io timeout.
    pub wake: Duration,
    /// Between two tests: a sixth of the time after which the device fires.
    pub test: Duration,
}

/// A machine's cell, its children with what was carried out of its history, and lvmlockd's locks there.
#[derive(Drop)]
pub(crate) struct Room<D: Teller, J: Station, P: Spawner> {
    pub alloc: Global,
    pub machine: u32,
    pub geometry: Geometry,
    pub pace: Pace,
    pub cell: HostCell<D, J>,
    /// The front of one who has seen nothing: a thread gets its seat by it.
    pub front: Front<J>,
    pub children: Mutex<Carried<P, J>>,
    pub locks: Mutex<LvmLocks>,
}
