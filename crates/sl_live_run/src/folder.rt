//! The folder of a run: taken for as long as the run goes on, and without disks, unless they are to be made anew.

ghost use Rattle.sl_live_run.specs.Folders.{Bars, BarsDisk, IsVacant};
ghost use Rattle.std.specs.Prelude.{IfErr, None, OnOk, false, ◌++◌, ◌≡◌, ◌≤◌};

use sl_io::Failed;
use sl_outside::{LiveDevices, NotTaken, disk_path};
use sl_run::{Disk, Header};
use sl_text::FilePath;
use std::alloc::{AllocError, Global};

/// Why the folder of live machines can't be entered.
#[derive(Clone, Copy)]
pub enum NoEntry {
    /// It can't be opened, or can't be locked.
    AreaFault,
    /// Another program that runs has taken it.
    InUse,
    /// A disk of the header stands there already: the one with this path.
    DiskThere { path: FilePath },
    /// There is no memory to look.
    NoMemory,
}

impl From<NotTaken> for NoEntry {
    ghost use Rattle.sl_live_run.specs.Folders.{entry_of};
    ghost use Rattle.std.specs.Prelude.{◌≡◌};

    ghost from_gives = { λ why e. e ≡ entry_of why };

    fn from(why: NotTaken) -> NoEntry {
        match why {
            NotTaken::InUse => NoEntry::InUse,
            NotTaken::Failed => NoEntry::AreaFault,
        }
    }
}

impl From<AllocError> for NoEntry {
    ghost use Rattle.sl_live_run.specs.declared.folder.NoEntry.TheVariants.{NoMemory};
    ghost use Rattle.std.specs.Prelude.{◌≡◌};

    ghost from_gives = { λ _ e. e ≡ NoMemory };

    fn from(_: AllocError) -> NoEntry {
        NoEntry::NoMemory
    }
}

/// Sees that a disk doesn't stand in the folder.
fn look_at<V: LiveDevices>(
    alloc: Global,
    disk: &Disk,
    folder: &str,
    devices: &mut V,
) -> Result<(), NoEntry>
    ensures free { OnOk result (V.Devices.disks devices.old (folder.now ++ disk.now.path) ≡ None) }
    ensures bars { IfErr result (BarsDisk disk.now.path (V.Devices.faults devices.old) (V.Devices.faults devices.new)) }
    ensures same { V.Devices.disks devices.new ≡ V.Devices.disks devices.old }
    ensures lendings { V.Devices.lendings devices.new ≡ V.Devices.lendings devices.old }
    ensures later { V.Devices.faults devices.old ≤ V.Devices.faults devices.new }
{
    let whole = disk_path(alloc, folder, disk.path.as_str())?;
    match devices.vacant(whole.as_str()) {
        Ok(()) => Ok(()),
        Err(Failed) => Err(NoEntry::DiskThere { path: disk.path }),
    }
}

/// Sees that no disk of the header stands in the folder.
fn look_at_each<V: LiveDevices>(
    alloc: Global,
    header: &Header,
    folder: &str,
    devices: &mut V,
) -> Result<(), NoEntry>
    ensures vacant { OnOk result (IsVacant (record { path = folder.now; anew = false; disks = V.Devices.disks devices.old }) header.now) }
    ensures bars { IfErr result (Bars false header.now (V.Devices.faults devices.old) (V.Devices.faults devices.new)) }
    ensures same { V.Devices.disks devices.new ≡ V.Devices.disks devices.old }
    ensures lendings { V.Devices.lendings devices.new ≡ V.Devices.lendings devices.old }
    ensures later { V.Devices.faults devices.old ≤ V.Devices.faults devices.new }
{
    for disk in header.disks.as_slice() {
        look_at(alloc, disk, folder, devices)?;
    }
    Ok(())
}

/// Takes the folder for a run of this header, and sees that no disk of it stands there, unless disks are made anew. It makes nothing.
///
/// An `Err` is a folder that another program has, a disk that stands, a fault of the devices, whose count then rose, as it did in these
/// cases too; or want of memory.
pub fn enter<V: LiveDevices>(
    alloc: Global,
    header: &Header,
    folder: &str,
    anew: bool,
    devices: &mut V,
) -> Result<(), NoEntry>
    ensures vacant { OnOk result (IsVacant (record { path = folder.now; anew = anew; disks = V.Devices.disks devices.old }) header.now) }
    ensures bars { IfErr result (Bars anew header.now (V.Devices.faults devices.old) (V.Devices.faults devices.new)) }
    ensures same { V.Devices.disks devices.new ≡ V.Devices.disks devices.old }
    ensures lendings { V.Devices.lendings devices.new ≡ V.Devices.lendings devices.old }
    ensures later { V.Devices.faults devices.old ≤ V.Devices.faults devices.new }
{
    devices.take(folder)?;
    if anew {
        Ok(())
    } else {
        look_at_each(alloc, header, folder, devices)
    }
}
