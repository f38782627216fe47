//! The place of a machine: the folder, claimed for it, and the disks that stand there.

ghost use Rattle.sl_own.specs.OwnGrounds.{Bars, HasSize, SizeDiffers, size_refusal};
ghost use Rattle.sl_own.specs.declared.no_place.NoPlace.TheVariants.{NotStanding};
ghost use Rattle.sl_run.specs.Headers.{IsHeader};
ghost use Rattle.sl_run.specs.declared.header.Header.{Header as HeaderOf};
ghost use Rattle.sl_standing.specs.declared.not_standing.NotStanding.TheVariants.{NoMemory};
ghost use Rattle.std.specs.Prelude.{All, Contains, IfErr, OnOk, ◌≡◌, ◌≤◌, ◌⊎◌};

use crate::no_place::NoPlace;
use sl_outside::disk_path;
use sl_place::StandingDevices;
use sl_run::{Disk, Header};
use std::alloc::Global;

/// The unit of a disk's size, in bytes.
const MEBIBYTE: u64 = 1_048_576;

/// Compares what a disk has, so many bytes if it stands, with its size by the header.
fn compare_size(disk: &Disk, size: Option<u64>) -> Result<(), NoPlace>
    requires { disk.now.mebibytes ≤ 64 }
    ensures { result ≡ size_refusal disk.now size }
{
    match size {
        None => Err(NoPlace::NoDisk { path: disk.path }),
        Some(bytes) => {
            if bytes == disk.mebibytes * MEBIBYTE {
                Ok(())
            } else {
                Err(NoPlace::OtherSize {
                    path: disk.path,
                    bytes,
                })
            }
        }
    }
}

/// Sees that a disk stands, with its size.
fn look_at<V: StandingDevices>(
    alloc: Global,
    folder: &str,
    disk: &Disk,
    devices: &mut V,
) -> Result<(), NoPlace>
    requires small { disk.now.mebibytes ≤ 64 }
    ensures ok { OnOk result (HasSize (V.Devices.disks devices.old) folder.now disk.now) }
    ensures differs { (h : HeaderOf) → Contains h.disks disk.now → IfErr result (λ why. (why ≡ NotStanding NoMemory) ⊎ SizeDiffers (V.Devices.disks devices.old) folder.now h why) }
    ensures same { V.Devices.disks devices.new ≡ V.Devices.disks devices.old }
    ensures lendings { V.Devices.lendings devices.new ≡ V.Devices.lendings devices.old }
    ensures count { V.Devices.faults devices.new ≡ V.Devices.faults devices.old }
{
    let whole = disk_path(alloc, folder, disk.path.as_str())?;
    compare_size(disk, devices.size(whole.as_str()))
}

/// Sees that all disks stand, each with its size.
fn look_at_each<V: StandingDevices>(
    alloc: Global,
    folder: &str,
    header: &Header,
    devices: &mut V,
) -> Result<(), NoPlace>
    requires { IsHeader header.now }
    ensures ok { OnOk result (All (HasSize (V.Devices.disks devices.old) folder.now) header.now.disks) }
    ensures differs { IfErr result (λ why. (why ≡ NotStanding NoMemory) ⊎ SizeDiffers (V.Devices.disks devices.old) folder.now header.now why) }
    ensures same { V.Devices.disks devices.new ≡ V.Devices.disks devices.old }
    ensures lendings { V.Devices.lendings devices.new ≡ V.Devices.lendings devices.old }
    ensures count { V.Devices.faults devices.new ≡ V.Devices.faults devices.old }
{
    for disk in header.disks.as_slice() {
        look_at(alloc, folder, disk, devices)?;
    }
    Ok(())
}

/// Claims a machine in a folder, and sees that the header's disks stand there. It makes nothing but the machine's own file.
pub(crate) fn take_place<V: StandingDevices>(
    alloc: Global,
    folder: &str,
    header: &Header,
    machine: u32,
    devices: &mut V,
) -> Result<(), NoPlace>
    requires { IsHeader header.now }
    ensures ok { OnOk result (All (HasSize (V.Devices.disks devices.old) folder.now) header.now.disks) }
    ensures bars { IfErr result (Bars (V.Devices.disks devices.old) folder.now header.now machine (V.Devices.faults devices.old) (V.Devices.faults devices.new)) }
    ensures same { V.Devices.disks devices.new ≡ V.Devices.disks devices.old }
    ensures lendings { V.Devices.lendings devices.new ≡ V.Devices.lendings devices.old }
    ensures later { V.Devices.faults devices.old ≤ V.Devices.faults devices.new }
{
    match devices.claim(folder, machine) {
        Ok(()) => look_at_each(alloc, folder, header, devices),
        Err(why) => Err(NoPlace::of_claim(machine, why)),
    }
}
