//! The header of the schedules that are generated.

ghost use Rattle.sl_generate.specs.HeaderLines.{gen_session};
ghost use Rattle.sl_report.specs.GeneratedSchedules.{gen_header, gen_path, gen_resource};
ghost use Rattle.sl_text.specs.Names.{is_name};
ghost use Rattle.std.specs.List.{range_with_len};
ghost use Rattle.std.specs.Prelude.{IfOk, codes, decimal, map, true, [], ◌++◌, ◌∷◌, ◌≡◌, ◌≤◌};

use sl_area::Geometry;
use sl_run::{Disk, Header, LockspaceLine, ResourceLine, SessionLine};
use sl_text::{FilePath, Name, Seq};
use sl_time::Timing;
use std::alloc::{AllocError, Global};

/// Bytes of a sector.
const SECTOR: u32 = 512;

/// Bytes of an area.
const AREA: u64 = 1_048_576;

/// How many resources there are.
const RESOURCES: u64 = 4;

/// The path of the disk.
fn path() -> FilePath
    ensures { result ≡ gen_path }
{
    match FilePath::new(b"/d") {
        Some(path) => path,
        None => unreachable!(),
    }
}

/// The name of the lockspace.
fn lockspace() -> Name
    ensures { result ≡ codes "ls" }
{
    match Name::new(b"ls") {
        Some(name) => name,
        None => unreachable!(),
    }
}

/// A letter and a number, as a name.
fn numbered(alloc: Global, letter: &str, number: u64) -> Result<Name, AllocError>
    requires { is_name (letter.now ++ decimal number) ≡ true }
    ensures { IfOk result (λ name. name ≡ letter.now ++ decimal number) }
{
    let text = format!(in alloc; "{letter}{number}")?;
    match Name::new(text.as_bytes()) {
        Some(name) => Ok(name),
        None => unreachable!(),
    }
}

/// The times of a run.
fn timing() -> Timing
    ensures { result ≡ record { io = 100; fire = 600; land = 100; rho = 0 } }
{
    match Timing::new(100, 600, 100, 0) {
        Ok(timing) => timing,
        Err(_) => unreachable!(),
    }
}

/// The areas of a run of so many hosts, 1 to 16, with pairs or without.
fn geometry(hosts: u32, paired: bool) -> Geometry
    requires { (1 ≤ hosts) × (hosts ≤ 16) }
    ensures { result ≡ record { sector = 512; area = 1048576; hosts = hosts; paired = paired } }
{
    match Geometry::sized(SECTOR, AREA, hosts, paired) {
        Ok(geometry) => geometry,
        Err(_) => unreachable!(),
    }
}

/// The resources.
fn resources(alloc: Global) -> Result<Vec<ResourceLine>, AllocError>
    ensures { IfOk result (λ rs. rs.items ≡ map gen_resource (range_with_len 1 4)) }
{
    let mut lines = Vec::new(alloc);
    let mut number = 0;
    while number < RESOURCES {
        number += 1;
        lines.push(ResourceLine {
            lockspace: lockspace(),
            name: numbered(alloc, "r", number)?,
            path: path(),
            offset: number * AREA,
        })?;
    }
    Ok(lines)
}

/// The sessions: each machine has joined under its own number.
fn sessions(alloc: Global, hosts: u32) -> Result<Vec<SessionLine>, AllocError>
    requires { hosts ≤ 16 }
    ensures { IfOk result (λ lines. lines.items ≡ map gen_session (range_with_len 1 hosts)) }
{
    let mut lines = Vec::new(alloc);
    let mut machine = 0;
    while machine < hosts {
        machine += 1;
        lines.push(SessionLine {
            machine,
            lockspace: lockspace(),
            id: machine,
            name: numbered(alloc, "h", u64::from(machine))?,
        })?;
    }
    Ok(lines)
}

/// One element, alone.
fn alone<T: Drop>(alloc: Global, item: T) -> Result<Seq<T>, AllocError>
    ensures { IfOk result (λ items. items ≡ item ∷ []) }
{
    let mut items = Vec::new(alloc);
    items.push(item)?;
    Ok(Seq::new(items))
}

/// The header for so many machines, 1 to 16, whose areas have pairs or not. An `Err` is want of memory.
pub(crate) fn header(alloc: Global, hosts: u32, paired: bool) -> Result<Header, AllocError>
    requires { (1 ≤ hosts) × (hosts ≤ 16) }
    ensures { IfOk result (λ h. h ≡ gen_header hosts paired) }
{
    Ok(Header {
        timing: timing(),
        grace: 300,
        machines: hosts,
        geometry: geometry(hosts, paired),
        retries: 0,
        clocks: Seq::new(Vec::new(alloc)),
        disks: alone(
            alloc,
            Disk {
                path: path(),
                mebibytes: 8,
            },
        )?,
        lockspaces: alone(
            alloc,
            LockspaceLine {
                name: lockspace(),
                path: path(),
                offset: 0,
            },
        )?,
        resources: Seq::new(resources(alloc)?),
        sessions: Seq::new(sessions(alloc, hosts)?),
    })
}
