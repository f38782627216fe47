//! The disk on which a host's calls are made.

ghost use Rattle.sl_run.specs.Headers.{IsHeader};
ghost use Rattle.std.specs.Prelude.{Contains};

use sl_area::{Geometry, MemArea};
use sl_direct::write_resource;
use sl_live::Disk;
use sl_live::laws::sector_step;
use sl_run::{Header, ResourceLine};
use sl_text::FilePath;
use sl_trace::{Answer, Call};
use std::alloc::{AllocError, Global};
use std::io;
use std::io::ErrorKind;

/// The bytes of the script's disk.
const ROOM: usize = 2 * 1_048_576;

/// A disk in memory, and the sizes of what stands on it.
#[derive(Drop)]
pub struct HostDisk {
    geometry: Geometry,
    disks: [Disk<MemArea>; 1],
}

impl HostDisk {
    /// Makes a call on it: its answer. An `Err` is want of memory, and nothing was done.
    pub fn answer(&mut self, alloc: Global, call: &Call) -> Result<Answer, AllocError> {
        sector_step(alloc, &self.geometry, call, &mut self.disks)
    }
}

/// Writes a resource, if it lies on the disk.
fn write_there(
    header: &Header,
    path: FilePath,
    line: &ResourceLine,
    area: &mut MemArea,
) -> io::Result<()>
    requires header { IsHeader header.now }
    requires line { Contains header.now.resources line.now }
{
    if line.path != path {
        return Ok(());
    }
    match write_resource(
        area,
        header.geometry,
        line.lockspace,
        line.name,
        line.offset,
    ) {
        Ok(()) => Ok(()),
        Err(_) => Err(io::Error::from(ErrorKind::Other)),
    }
}

/// The first disk of a header, with its resources as they stand at moment 0.
pub fn first_disk(alloc: Global, header: &Header) -> io::Result<HostDisk>
    requires { IsHeader header.now }
{
    let Some(line) = header.disks.as_slice().first() else {
        return Err(io::Error::from(ErrorKind::InvalidData));
    };
    let mut area = MemArea::new(alloc, ROOM, Vec::new(alloc))?;
    for resource in header.resources.as_slice() {
        write_there(header, line.path, resource, &mut area)?;
    }
    let path = line.path;
    Ok(HostDisk {
        geometry: header.geometry,
        disks: [Disk { path, area }],
    })
}
