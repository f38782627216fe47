//! What stands in the areas of a disk at moment 0, written through an area of it: each of their sectors once, and no other.

ghost use Rattle.sl_direct.specs.HalfDone.{Wrote};
ghost use Rattle.sl_live_run.specs.Areas.{delta_write, delta_writes, lockspace_writes_at, lockspaces_on, resource_writes_at, resources_on};
ghost use Rattle.sl_run.specs.Headers.{IsHeader};
ghost use Rattle.sl_io.specs.FaultCauses.{HasCause};
ghost use Rattle.std.specs.Prelude.{Contains, OnOk, [], ◌∷◌, ◌≤◌};

use sl_area::Area;
use sl_direct::{write_record, write_resource};
use sl_disks::initial_delta;
use sl_io::Failed;
use sl_run::{Header, LockspaceLine, ResourceLine};
use sl_sector::Rec;
use sl_text::FilePath;

/// Writes the record of an id.
fn write_delta<A: Area>(
    header: &Header,
    line: &LockspaceLine,
    id: u32,
    area: &mut A,
) -> Result<(), Failed>
    requires header { IsHeader header.now }
    requires line { Contains header.now.lockspaces line.now }
    requires id { (1 ≤ id) × (id ≤ header.now.geometry.hosts) }
    ensures ok { OnOk result (Wrote (delta_write header.now line.now id ∷ []) (A.content area.old) (A.content area.new)) }
    ensures cause { HasCause (A.faults area.old) (A.faults area.new) result }
{
    let at = header.geometry.delta_place(line.offset, id);
    write_record(area, at, &Rec::DeltaIs(initial_delta(header, line, id)))
}

/// Writes the records of all ids.
fn write_deltas<A: Area>(header: &Header, line: &LockspaceLine, area: &mut A) -> Result<(), Failed>
    requires header { IsHeader header.now }
    requires line { Contains header.now.lockspaces line.now }
    ensures ok { OnOk result (Wrote (delta_writes header.now line.now) (A.content area.old) (A.content area.new)) }
    ensures cause { HasCause (A.faults area.old) (A.faults area.new) result }
{
    for before in 0..header.geometry.hosts() {
        write_delta(header, line, before + 1, area)?;
    }
    Ok(())
}

/// Writes a lockspace, if it lies on the disk.
fn write_lockspace<A: Area>(
    header: &Header,
    path: FilePath,
    line: &LockspaceLine,
    area: &mut A,
) -> Result<(), Failed>
    requires header { IsHeader header.now }
    requires line { Contains header.now.lockspaces line.now }
    ensures ok { OnOk result (Wrote (lockspace_writes_at header.now path line.now) (A.content area.old) (A.content area.new)) }
    ensures cause { HasCause (A.faults area.old) (A.faults area.new) result }
{
    if line.path == path {
        write_deltas(header, line, area)
    } else {
        Ok(())
    }
}

/// Writes the lockspaces that lie on the disk at this path.
pub(crate) fn write_lockspaces<A: Area>(
    header: &Header,
    path: FilePath,
    area: &mut A,
) -> Result<(), Failed>
    requires { IsHeader header.now }
    ensures ok { OnOk result (Wrote (lockspaces_on header.now path) (A.content area.old) (A.content area.new)) }
    ensures cause { HasCause (A.faults area.old) (A.faults area.new) result }
{
    for line in header.lockspaces.as_slice() {
        write_lockspace(header, path, line, area)?;
    }
    Ok(())
}

/// Writes a resource, if it lies on the disk.
fn write_resource_at<A: Area>(
    header: &Header,
    path: FilePath,
    line: &ResourceLine,
    area: &mut A,
) -> Result<(), Failed>
    requires header { IsHeader header.now }
    requires line { Contains header.now.resources line.now }
    ensures ok { OnOk result (Wrote (resource_writes_at header.now path line.now) (A.content area.old) (A.content area.new)) }
    ensures cause { HasCause (A.faults area.old) (A.faults area.new) result }
{
    if line.path == path {
        write_resource(
            area,
            header.geometry,
            line.lockspace,
            line.name,
            line.offset,
        )
    } else {
        Ok(())
    }
}

/// Writes the resources that lie on the disk at this path.
pub(crate) fn write_resources<A: Area>(
    header: &Header,
    path: FilePath,
    area: &mut A,
) -> Result<(), Failed>
    requires { IsHeader header.now }
    ensures ok { OnOk result (Wrote (resources_on header.now path) (A.content area.old) (A.content area.new)) }
    ensures cause { HasCause (A.faults area.old) (A.faults area.new) result }
{
    for line in header.resources.as_slice() {
        write_resource_at(header, path, line, area)?;
    }
    Ok(())
}
