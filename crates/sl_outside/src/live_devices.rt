//! What a live run takes beside disks.
ghost use Rattle.sl_io.specs.FaultCauses.{HasCause};
ghost use Rattle.sl_outside.specs.Acts.{Grows, Tells};
ghost use Rattle.sl_outside.specs.Disks.{Stay};
ghost use Rattle.sl_outside.specs.Lendings.{SpawnerBack, SpawnerOut};
ghost use Rattle.std.specs.Prelude.{None, OnOk, [], false, ◌∷◌, ◌≡◌};

use crate::device::Device;
use crate::devices::Devices;
use crate::folders::NotTaken;
use crate::gate::Gate;
use crate::spawner::Spawner;
use crate::words::Words;
use sl_io::Failed;
use sl_time::Clock;

/// Devices that hand out all that machines run on. What they hand out has counted no fault; areas and spawners come back.
pub trait LiveDevices: Devices {
    type Clock: Clock + Send;

    type Spawner: Spawner + Send;

    type Device: Device + Send;

    type Words: Words + Send;

    type Gate: Gate + Drop + Send + Sync;

    /// Takes the folder of this text, for as long as these devices are there: till then it is in use for all others that would take it.
    fn take(&mut self, folder: &str) -> Result<(), NotTaken>
        ensures cause { HasCause (Self.faults self.old) (Self.faults self.new) result }
        ensures same { Self.disks self.new ≡ Self.disks self.old }
        ensures lendings { Self.lendings self.new ≡ Self.lendings self.old };

    /// Sees that nothing stands at this path, a folder's text followed by that of a disk. It is a fault where something does, whatever it is.
    fn vacant(&mut self, path: &str) -> Result<(), Failed>
        ensures free { OnOk result (Self.disks self.old path.now ≡ None) }
        ensures cause { HasCause (Self.faults self.old) (Self.faults self.new) result }
        ensures same { Self.disks self.new ≡ Self.disks self.old }
        ensures lendings { Self.lendings self.new ≡ Self.lendings self.old };

    /// Makes the disk whose path is the folder's text followed by this path, of so many bytes, whose last sector is zeros. An old one is
    /// emptied if disks are made anew; else it is a fault that one stands there. Folders below this folder that are missing are made.
    fn make(&mut self, folder: &str, path: &str, size: u64, anew: bool) -> Result<(), Failed>
        ensures kept { anew ≡ false → Stay (Self.disks self.old) (Self.disks self.new) }
        ensures cause { HasCause (Self.faults self.old) (Self.faults self.new) result }
        ensures lendings { Self.lendings self.new ≡ Self.lendings self.old };

    /// A sector of the disk at this path could not be written: whoever reads standard error may be told.
    fn refused(&self, path: &str);

    /// A clock for a thread of a machine.
    fn clock(&mut self, machine: u32, thread: u32) -> Self::Clock
        ensures count { Self.faults self.new ≡ Self.faults self.old }
        ensures lendings { Self.lendings self.new ≡ Self.lendings self.old };

    /// The spawner of a machine, of which no child runs yet, and which was asked for nothing.
    fn spawner(&mut self, machine: u32) -> Self::Spawner
        ensures fresh { Self.Spawner.faults result ≡ 0 }
        ensures idle { Self.Spawner.running result ≡ [] }
        ensures unasked { Tells (Self.Spawner.acts result) [] }
        ensures lendings { Grows (Self.lendings self.old) (Self.lendings self.new) (SpawnerOut machine ∷ []) }
        ensures count { Self.faults self.new ≡ Self.faults self.old };

    /// Takes a spawner back, of a machine that has ended: the one that was handed out, or a starter of it. A fault that it counted was an answer to the
    /// machine's daemon, and is none of the devices.
    fn spawner_back(&mut self, spawner: Self::Spawner)
        ensures lendings { Grows (Self.lendings self.old) (Self.lendings self.new) (SpawnerBack (Self.Spawner.acts spawner) ∷ []) }
        ensures count { Self.faults self.new ≡ Self.faults self.old };

    /// The watchdog device of a machine, which fires so many milliseconds after this reading if no keepalive comes.
    fn device(&mut self, machine: u32, now: u64, fire: u64) -> Self::Device
        ensures last { Self.Device.last result ≡ now }
        ensures fire { Self.Device.fire result ≡ fire }
        ensures count { Self.faults self.new ≡ Self.faults self.old }
        ensures lendings { Self.lendings self.new ≡ Self.lendings self.old };

    /// Where the default name of a machine comes from.
    fn words(&mut self, machine: u32) -> Self::Words
        ensures count { Self.faults self.new ≡ Self.faults self.old }
        ensures lendings { Self.lendings self.new ≡ Self.lendings self.old };

    /// The gate of the run: one for all machines.
    fn gate(&mut self) -> Self::Gate
        ensures count { Self.faults self.new ≡ Self.faults self.old }
        ensures lendings { Self.lendings self.new ≡ Self.lendings self.old };
}
