//! What may be done to an area, and how it went.

ghost use Rattle.sl_direct.specs.Actions.{path_of};
ghost use Rattle.std.specs.Prelude.{◌≡◌};

use sl_area::Geometry;
use sl_text::FilePath;
use sl_time::Timing;
use sl_trace::{LockspaceArg, ResourceArg};

/// An action on an area. Paths name the file that is acted on; offsets are bytes from its start. The geometry says how long a sector and
/// an area are; its hosts are looked at only where an area is written.
#[derive(Clone, Copy)]
pub enum Action {
    /// Writes the sectors of a lockspace. The id of the argument is not looked at.
    InitLockspace {
        lockspace: LockspaceArg,
        geometry: Geometry,
    },
    /// Writes the sectors of a lockspace, and its label behind them, in the last sector of the area: the times of all its hosts, and how long a holder
    /// has between term and kill, in milliseconds, at most 600000.
    InitLabelled {
        lockspace: LockspaceArg,
        geometry: Geometry,
        timing: Timing,
        grace: u64,
    },
    /// Writes the sectors of a resource, each block with a pair of sectors where the geometry says so.
    InitResource {
        resource: ResourceArg,
        geometry: Geometry,
    },
    /// Tells the resource's leader.
    ReadLeader {
        resource: ResourceArg,
        geometry: Geometry,
    },
    /// Makes an area without pairs one with pairs, with the same leader and blocks. The geometry is that of the area with pairs.
    Upgrade {
        resource: ResourceArg,
        geometry: Geometry,
    },
    /// Tells each sector of so many bytes from an offset on.
    Dump {
        path: FilePath,
        offset: u64,
        size: u64,
        geometry: Geometry,
    },
}

impl Action {
    /// The path of the file that it is done to.
    pub fn path(&self) -> FilePath
        ensures { result ≡ path_of self.now }
    {
        match self {
            Action::InitLockspace {
                lockspace,
                geometry: _,
            } => lockspace.path,
            Action::InitLabelled {
                lockspace,
                geometry: _,
                timing: _,
                grace: _,
            } => lockspace.path,
            Action::InitResource {
                resource,
                geometry: _,
            } => resource.path,
            Action::ReadLeader {
                resource,
                geometry: _,
            } => resource.path,
            Action::Upgrade {
                resource,
                geometry: _,
            } => resource.path,
            Action::Dump {
                path,
                offset: _,
                size: _,
                geometry: _,
            } => *path,
        }
    }
}

/// How an action went.
#[derive(Clone, Copy, Debug, PartialEq, Eq)]
pub enum Directed {
    /// It was done, and its output is whole.
    Done,
    /// Writing the output failed.
    WriteFault,
    /// There is no memory.
    NoMemory,
    /// A read or a write of the area failed; the output ends with the line `area fault`.
    AreaFault,
    /// The leader's sector holds no leader of the resource: none, one of other names, or for an upgrade one of an area with pairs or for
    /// other hosts. The output says what it holds.
    NotTheLeader,
    /// A block of the area that was to be upgraded is torn; the output says whose.
    TornBlock,
}
