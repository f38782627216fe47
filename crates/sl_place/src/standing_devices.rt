//! What a machine in a process of its own takes beside what all live machines take: a folder where others run, disks that stand, and a watchdog
//! device of the system.
ghost use Rattle.sl_io.specs.FaultCauses.{HasCause};
ghost use Rattle.sl_place.specs.Standing.{IsSizeOf};
ghost use Rattle.std.specs.Prelude.{IfOk, false, string_bytes, ◌≡◌};

use crate::watchdog::Watchdog;
use sl_io::Failed;
use sl_outside::LiveDevices;

/// Why a machine can't be claimed: a fault, which was counted.
#[derive(Clone, Copy, Debug, PartialEq, Eq)]
pub enum NotClaimed {
    /// A program that runs all machines has the folder.
    FolderInUse,
    /// Another process has this machine.
    MachineInUse,
    /// The folder or the machine's file can't be opened, or can't be locked.
    Failed,
}

impl From<Failed> for NotClaimed {
    ghost use Rattle.sl_place.specs.declared.standing_devices.NotClaimed.{NotClaimed};
    ghost use Rattle.std.specs.Prelude.{◌≡◌};

    ghost from_gives = { λ _ e. e ≡ NotClaimed.Failed };

    fn from(_: Failed) -> NotClaimed {
        NotClaimed::Failed
    }
}

/// Devices for one machine among others that run elsewhere. None of its calls makes a disk, or writes to one.
pub trait StandingDevices: LiveDevices {
    type Watchdog: Watchdog;

    /// Claims the machine of this number in the folder of this text, for as long as these devices are there: till then no other process has it, and no
    /// program that takes the folder for all machines.
    fn claim(&mut self, folder: &str, machine: u32) -> Result<(), NotClaimed>
        ensures cause { HasCause (Self.faults self.old) (Self.faults self.new) result }
        ensures same { Self.disks self.new ≡ Self.disks self.old }
        ensures lendings { Self.lendings self.new ≡ Self.lendings self.old };

    /// How many bytes the disk at this path has, a folder's text followed by that of a disk, if one stands there.
    fn size(&mut self, path: &str) -> Option<u64>
        ensures size { IsSizeOf (Self.disks self.old path.now) result }
        ensures same { Self.disks self.new ≡ Self.disks self.old }
        ensures lendings { Self.lendings self.new ≡ Self.lendings self.old }
        ensures count { Self.faults self.new ≡ Self.faults self.old };

    /// Areas that are handed out from now on answer a write once the storage has it.
    fn sync_writes(&mut self)
        ensures same { Self.disks self.new ≡ Self.disks self.old }
        ensures lendings { Self.lendings self.new ≡ Self.lendings self.old }
        ensures count { Self.faults self.new ≡ Self.faults self.old };

    /// Opens the watchdog device of the system at this path. It stands beside the machine's device that is made next, which gives it a byte where a
    /// keepalive passes.
    fn watch(&mut self, path: String) -> Result<Self::Watchdog, Failed>
        ensures path { IfOk result (λ w. Self.Watchdog.path w ≡ string_bytes path) }
        ensures awake { IfOk result (λ w. Self.Watchdog.rested w ≡ false) }
        ensures cause { HasCause (Self.faults self.old) (Self.faults self.new) result }
        ensures same { Self.disks self.new ≡ Self.disks self.old }
        ensures lendings { Self.lendings self.new ≡ Self.lendings self.old };
}
