//! All areas of a disk, compared with a header.

ghost use Rattle.sl_run.specs.Headers.{IsHeader};
ghost use Rattle.sl_standing.specs.Standing.{AreStanding, HasLabelOn, HasLeaderOn, StandsNot};
ghost use Rattle.std.specs.Io.KnownBytes.{Keeps};
ghost use Rattle.std.specs.Prelude.{All, Contains, IfErr, OnOk, ◌≤◌};

use crate::labels::check_lockspace;
use crate::leaders::check_resource;
use crate::not_standing::NotStanding;
use sl_area::Area;
use sl_run::{Header, LockspaceLine, ResourceLine};
use sl_text::FilePath;
use std::alloc::Global;

/// Bytes of the longest sector.
pub(crate) const LONGEST_SECTOR: usize = 4096;

/// .. of a lockspace, if it lies on the disk.
fn check_lockspace_at<A: Area>(
    alloc: Global,
    header: &Header,
    path: FilePath,
    line: &LockspaceLine,
    area: &mut A,
) -> Result<(), NotStanding>
    requires header { IsHeader header.now }
    requires line { Contains header.now.lockspaces line.now }
    ensures kept { Keeps (A.content area.old) (A.content area.new) }
    ensures ok { OnOk result (HasLabelOn header.now path (A.content area.old) line.now) }
    ensures lacks { IfErr result (StandsNot header.now path (A.content area.old) (A.faults area.old) (A.faults area.new)) }
    ensures later { A.faults area.old ≤ A.faults area.new }
{
    if line.path == path {
        check_lockspace(alloc, header, line, area)
    } else {
        Ok(())
    }
}

/// .. of a resource, if it lies on the disk.
fn check_resource_at<A: Area>(
    header: &Header,
    path: FilePath,
    line: &ResourceLine,
    area: &mut A,
) -> Result<(), NotStanding>
    requires header { IsHeader header.now }
    requires line { Contains header.now.resources line.now }
    ensures kept { Keeps (A.content area.old) (A.content area.new) }
    ensures ok { OnOk result (HasLeaderOn header.now path (A.content area.old) line.now) }
    ensures lacks { IfErr result (StandsNot header.now path (A.content area.old) (A.faults area.old) (A.faults area.new)) }
    ensures later { A.faults area.old ≤ A.faults area.new }
{
    if line.path == path {
        check_resource(header, line, area)
    } else {
        Ok(())
    }
}

/// Sees that all lockspaces on the disk at this path have their labels.
fn check_lockspaces<A: Area>(
    alloc: Global,
    header: &Header,
    path: FilePath,
    area: &mut A,
) -> Result<(), NotStanding>
    requires { IsHeader header.now }
    ensures kept { Keeps (A.content area.old) (A.content area.new) }
    ensures ok { OnOk result (All (HasLabelOn header.now path (A.content area.old)) header.now.lockspaces) }
    ensures lacks { IfErr result (StandsNot header.now path (A.content area.old) (A.faults area.old) (A.faults area.new)) }
    ensures later { A.faults area.old ≤ A.faults area.new }
{
    for line in header.lockspaces.as_slice() {
        check_lockspace_at(alloc, header, path, line, area)?;
    }
    Ok(())
}

/// Sees that where resources on the disk at this path have their leaders no others stand.
fn check_resources<A: Area>(
    header: &Header,
    path: FilePath,
    area: &mut A,
) -> Result<(), NotStanding>
    requires { IsHeader header.now }
    ensures kept { Keeps (A.content area.old) (A.content area.new) }
    ensures ok { OnOk result (All (HasLeaderOn header.now path (A.content area.old)) header.now.resources) }
    ensures lacks { IfErr result (StandsNot header.now path (A.content area.old) (A.faults area.old) (A.faults area.new)) }
    ensures later { A.faults area.old ≤ A.faults area.new }
{
    for line in header.resources.as_slice() {
        check_resource_at(header, path, line, area)?;
    }
    Ok(())
}

/// Compares what stands on the disk at this path with what a header says of it, through an area of it. Nothing is written.
///
/// An `Err` is the first difference, of lockspaces first, each in the order of the header; a sector that can't be read; or want of memory.
pub fn check_disk<A: Area>(
    alloc: Global,
    header: &Header,
    path: FilePath,
    area: &mut A,
) -> Result<(), NotStanding>
    requires { IsHeader header.now }
    ensures kept { Keeps (A.content area.old) (A.content area.new) }
    ensures ok { OnOk result (AreStanding header.now path (A.content area.old)) }
    ensures lacks { IfErr result (StandsNot header.now path (A.content area.old) (A.faults area.old) (A.faults area.new)) }
    ensures later { A.faults area.old ≤ A.faults area.new }
{
    check_lockspaces(alloc, header, path, area)?;
    check_resources(header, path, area)
}
