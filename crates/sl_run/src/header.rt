//! The world at moment 0, as a header gives it.

use sl_area::Geometry;
use sl_text::{FilePath, Name, Seq};
use sl_time::Timing;

/// What a machine's clock shows at moment 0, in milliseconds; 0 where no line says.
#[derive(Clone, Copy)]
pub struct FirstReading {
    pub machine: u32,
    pub reading: u64,
}

/// A disk, 1 to 64 times 2^20 bytes long; it has zeros but for the areas that stand on it.
#[derive(Clone, Copy)]
pub struct Disk {
    pub path: FilePath,
    pub mebibytes: u64,
}

/// A lockspace, whose area begins at this offset in bytes and is initialised at moment 0.
#[derive(Clone, Copy)]
pub struct LockspaceLine {
    pub name: Name,
    pub path: FilePath,
    pub offset: u64,
}

/// A resource, whose area begins at this offset in bytes and is initialised at moment 0.
#[derive(Clone, Copy)]
pub struct ResourceLine {
    pub lockspace: Name,
    pub name: Name,
    pub path: FilePath,
    pub offset: u64,
}

/// A session that is joined at moment 0.
#[derive(Clone, Copy)]
pub struct SessionLine {
    pub machine: u32,
    pub lockspace: Name,
    pub id: u32,
    pub name: Name,
}

/// The world at moment 0: the times of the run, `grace` in milliseconds between term and kill, 1 to 16 machines, and what stands on the
/// disks.
#[derive(Drop)]
pub struct Header {
    pub timing: Timing,
    pub grace: u64,
    pub machines: u32,
    pub geometry: Geometry,
    /// How often lvmlockd asks again for a lock that it lost against a rival: 0 to 8.
    pub retries: u32,
    pub clocks: Seq<FirstReading>,
    pub disks: Seq<Disk>,
    pub lockspaces: Seq<LockspaceLine>,
    pub resources: Seq<ResourceLine>,
    pub sessions: Seq<SessionLine>,
}
