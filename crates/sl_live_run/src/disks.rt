//! The disks of a run: made, handed out to workers, and taken back.

ghost use Rattle.sl_direct.specs.HalfDone.{Wrote};
ghost use Rattle.sl_live_run.specs.Areas as areas;
ghost use Rattle.sl_live_run.specs.Areas.{AreBack, AreLent, faults_in, first_writes};
ghost use Rattle.sl_live_run.specs.Causes.{Explains};
ghost use Rattle.sl_live_run.specs.declared.ground.NoGround.TheVariants.{AreaFault};
ghost use Rattle.sl_outside.specs.Disks.{CountsBack, Stay};
ghost use Rattle.sl_outside.specs.Lendings.{Lending};
ghost use Rattle.sl_run.specs.Headers.{IsHeader};
ghost use Rattle.sl_io.specs.FaultCauses.{HasCause};
ghost use Rattle.std.specs.Prelude.{Err, IfErr, IfOk, List, OnOk, Option, [], false, ◌<◌, ◌+◌, ◌≡◌, ◌≤◌};

use crate::ground::NoGround;
use crate::initial::{write_lockspaces, write_resources};
use sl_area::Area;
use sl_cell::Part;
use sl_io::Failed;
use sl_live::Disk;
use sl_outside::{Devices, LiveDevices, disk_path};
use sl_run::Header;
use sl_text::FilePath;
use std::alloc::Global;

/// The unit of a disk's size, in bytes.
const MEBIBYTE: u64 = 1_048_576;

/// The machine through whose areas the sectors of moment 0 are written.
const FIRST_MACHINE: u32 = 1;

/// Makes the disks, each of zeros; one that stands there is emptied if they are made anew, and is a fault else. After an `Err` those before
/// the one that failed are made.
pub(crate) fn make_disks<V: LiveDevices>(
    header: &Header,
    folder: &str,
    anew: bool,
    devices: &mut V,
) -> Result<(), Failed>
    requires { IsHeader header.now }
    ensures cause { HasCause (V.Devices.faults devices.old) (V.Devices.faults devices.new) result }
    ensures kept { anew ≡ false → Stay (V.Devices.disks devices.old) (V.Devices.disks devices.new) }
    ensures lendings { V.Devices.lendings devices.new ≡ V.Devices.lendings devices.old }
{
    for disk in header.disks.as_slice() {
        let size = disk.mebibytes * MEBIBYTE;
        devices.make(folder, disk.path.as_str(), size, anew)?;
    }
    Ok(())
}

/// The number of a part's worker.
pub fn worker_of(part: Part) -> u32
    ensures { result ≡ areas.worker_of part }
{
    match part {
        Part::Delta => 1,
        Part::Resource => 2,
    }
}

/// Writes what is to be written through this worker's area of a disk before the run: the lockspaces or the resources there, if the machine is
/// the first.
fn write_first<A: Area>(
    header: &Header,
    machine: u32,
    part: Part,
    path: FilePath,
    area: &mut A,
) -> Result<(), Failed>
    requires { IsHeader header.now }
    ensures ok { OnOk result (Wrote (first_writes header.now machine part path) (A.content area.old) (A.content area.new)) }
    ensures cause { HasCause (A.faults area.old) (A.faults area.new) result }
{
    if machine != FIRST_MACHINE {
        return Ok(());
    }
    match part {
        Part::Delta => write_lockspaces(header, path, area),
        Part::Resource => write_resources(header, path, area),
    }
}

/// .. and where a sector can't be written, whoever reads standard error may be told of which file.
fn write_or_say<V: LiveDevices>(
    header: &Header,
    machine: u32,
    part: Part,
    path: FilePath,
    area: &mut V::Area,
    file: &str,
    devices: &V,
) -> Result<(), Failed>
    requires { IsHeader header.now }
    ensures ok { OnOk result (Wrote (first_writes header.now machine part path) (V.Area.content area.old) (V.Area.content area.new)) }
    ensures cause { HasCause (V.Area.faults area.old) (V.Area.faults area.new) result }
{
    match write_first(header, machine, part, path, area) {
        Ok(()) => Ok(()),
        Err(failed) => {
            devices.refused(file);
            Err(failed)
        }
    }
}

/// Hands out an area of each disk to a worker, and puts it behind these. After an `Err` all that was handed out stands there.
fn lend_each<V: LiveDevices>(
    alloc: Global,
    header: &Header,
    folder: &str,
    machine: u32,
    part: Part,
    devices: &mut V,
    disks: &mut Vec<Disk<V::Area>>,
) -> Result<(), NoGround>
    requires header { IsHeader header.now }
    requires first { disks.old.items ≡ [] }
    ensures ok { OnOk result (AreLent V.Area.content folder.now header.now machine part header.now.disks disks.new.items (V.Devices.lendings devices.old) (V.Devices.lendings devices.new)) }
    ensures fault { result ≡ Err AreaFault → 0 < faults_in V.Area.faults disks.new.items }
    ensures count { V.Devices.faults devices.new ≡ V.Devices.faults devices.old }
{
    for disk in header.disks.as_slice() {
        disks.reserve(1)?;
        let whole = disk_path(alloc, folder, disk.path.as_str())?;
        let mut area = devices.area(machine, worker_of(part), whole.as_str());
        let written = write_or_say::<V>(
            header,
            machine,
            part,
            disk.path,
            &mut area,
            whole.as_str(),
            devices,
        );
        disks.push_reserved(Disk {
            path: disk.path,
            area,
        });
        written?;
    }
    Ok(())
}

/// The areas of a worker, one of each disk. Those of the first machine have what stands there at moment 0. After an `Err` none is handed out.
pub(crate) fn lend<V: LiveDevices>(
    alloc: Global,
    header: &Header,
    folder: &str,
    machine: u32,
    part: Part,
    devices: &mut V,
) -> Result<Vec<Disk<V::Area>>, NoGround>
    requires { IsHeader header.now }
    ensures ok { IfOk result (λ disks. AreLent V.Area.content folder.now header.now machine part header.now.disks disks.items (V.Devices.lendings devices.old) (V.Devices.lendings devices.new)) }
    ensures err { IfErr result (Explains (V.Devices.faults devices.old) (V.Devices.faults devices.new)) }
    ensures later { V.Devices.faults devices.old ≤ V.Devices.faults devices.new }
{
    let mut disks = Vec::new(alloc);
    match lend_each(alloc, header, folder, machine, part, devices, &mut disks) {
        Ok(()) => Ok(disks),
        Err(why) => {
            take_back(disks, devices);
            Err(why)
        }
    }
}

/// Takes areas back, those that were handed out last first.
pub fn take_back<V: Devices>(disks: Vec<Disk<V::Area>>, devices: &mut V)
    ensures count { CountsBack (faults_in V.Area.faults disks.items) (V.faults devices.old) (V.faults devices.new) }
    ensures back { AreBack V.Area.content V.Area.faults disks.items (V.lendings devices.old) (V.lendings devices.new) }
{
    let mut disks = disks;
    while let Some(disk) = disks.pop() {
        devices.back(disk.area);
    }
}

/// The areas of a machine's workers go back to the devices, once its threads have ended. The devices' count rises exactly where an area has
/// counted a fault. While machines run such a fault is an answer to the machine's daemon: it is no reason for the run to end.
pub fn give_back<V: Devices>(
    delta: Vec<Disk<V::Area>>,
    resource: Vec<Disk<V::Area>>,
    devices: &mut V,
)
    ensures count { CountsBack (faults_in V.Area.faults delta.items + faults_in V.Area.faults resource.items) (V.faults devices.old) (V.faults devices.new) }
    ensures back { (between : Option (List Lending)) × AreBack V.Area.content V.Area.faults resource.items (V.lendings devices.old) between × AreBack V.Area.content V.Area.faults delta.items between (V.lendings devices.new) }
{
    take_back(resource, devices);
    take_back(delta, devices);
}
