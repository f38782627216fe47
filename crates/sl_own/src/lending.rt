//! The areas of a machine's workers, on disks that stand: compared with the header before any of them is used.

ghost use Rattle.sl_live_run.specs.Areas.{faults_in};
ghost use Rattle.sl_own.specs.OwnGrounds.{AreLeft, Finds, FindsNot, FindsOn, NotLent};
ghost use Rattle.sl_own.specs.declared.no_place.NoPlace.TheVariants.{NotStanding as NotStandingPlace};
ghost use Rattle.sl_own.specs.declared.no_place.NoPlace.{NoPlace as NoPlaceOf};
ghost use Rattle.sl_run.specs.Headers.{IsHeader};
ghost use Rattle.sl_standing.specs.Standing.{StandsNot};
ghost use Rattle.sl_standing.specs.declared.not_standing.NotStanding.TheVariants.{AreaFault};
ghost use Rattle.std.specs.Io.KnownBytes.{Keeps};
ghost use Rattle.std.specs.Prelude.{Err, IfErr, IfOk, OnOk, [], ◌+◌, ◌<◌, ◌≡◌, ◌≤◌};

use crate::no_place::NoPlace;
use sl_area::Area;
use sl_cell::Part;
use sl_live::Disk;
use sl_live_run::{take_back, worker_of};
use sl_outside::disk_path;
use sl_place::StandingDevices;
use sl_run::Header;
use sl_standing::{NotStanding, check_disk};
use sl_text::FilePath;
use std::alloc::Global;

/// Sees that what a header has on the disk at this path stands on it, for the worker of the ids' records.
fn see_to<A: Area>(
    alloc: Global,
    header: &Header,
    path: FilePath,
    part: Part,
    area: &mut A,
) -> Result<(), NotStanding>
    requires { IsHeader header.now }
    ensures kept { Keeps (A.content area.old) (A.content area.new) }
    ensures ok { OnOk result (Finds header.now part path (A.content area.old)) }
    ensures not { IfErr result (FindsNot header.now part path (A.content area.old) (A.faults area.old) (A.faults area.new)) }
    ensures later { A.faults area.old ≤ A.faults area.new }
{
    match part {
        Part::Delta => check_disk(alloc, header, path, area),
        Part::Resource => Ok(()),
    }
}

/// Hands out an area of each disk to a worker, and puts it behind these. The one of the ids' records compares what stands there. After an `Err` all that
/// was handed out stands there.
fn lend_each<V: StandingDevices>(
    alloc: Global,
    header: &Header,
    folder: &str,
    machine: u32,
    part: Part,
    devices: &mut V,
    disks: &mut Vec<Disk<V::Area>>,
) -> Result<(), NoPlace>
    requires header { IsHeader header.now }
    requires first { disks.old.items ≡ [] }
    ensures ok { OnOk result (AreLeft V.Area.content (FindsOn (V.Devices.disks devices.old) folder.now header.now part) folder.now machine part header.now.disks disks.new.items (V.Devices.lendings devices.old) (V.Devices.lendings devices.new)) }
    ensures not { IfErr result (NotLent (V.Devices.disks devices.old) folder.now header.now part 0 (faults_in V.Area.faults disks.new.items)) }
    ensures count { V.Devices.faults devices.new ≡ V.Devices.faults devices.old }
{
    for disk in header.disks.as_slice() {
        disks.reserve(1)?;
        let whole = disk_path(alloc, folder, disk.path.as_str())?;
        let mut area = devices.area(machine, worker_of(part), whole.as_str());
        let stands = see_to(alloc, header, disk.path, part, &mut area);
        disks.push_reserved(Disk {
            path: disk.path,
            area,
        });
        stands?;
    }
    Ok(())
}

/// The areas of a worker, one of each disk. After an `Err` none is handed out.
pub(crate) fn lend<V: StandingDevices>(
    alloc: Global,
    header: &Header,
    folder: &str,
    machine: u32,
    part: Part,
    devices: &mut V,
) -> Result<Vec<Disk<V::Area>>, NoPlace>
    requires { IsHeader header.now }
    ensures ok { IfOk result (λ disks. AreLeft V.Area.content (FindsOn (V.Devices.disks devices.old) folder.now header.now part) folder.now machine part header.now.disks disks.items (V.Devices.lendings devices.old) (V.Devices.lendings devices.new)) }
    ensures not { IfErr result (NotLent (V.Devices.disks devices.old) folder.now header.now part (V.Devices.faults devices.old) (V.Devices.faults devices.new)) }
    ensures later { V.Devices.faults devices.old ≤ V.Devices.faults devices.new }
{
    let mut disks = Vec::new(alloc);
    match lend_each(alloc, header, folder, machine, part, devices, &mut disks) {
        Ok(()) => Ok(disks),
        Err(why) => {
            take_back(disks, devices);
            Err(why)
        }
    }
}
