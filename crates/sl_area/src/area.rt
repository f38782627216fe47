//! The sectors of a disk.
ghost use Rattle.std.specs.Io.KnownBytes.{Keeps};
ghost use Rattle.std.specs.Prelude.{List, None, OnErr, OnOk, Option, length, ℕ, ◌*◌, ◌≡◌};
ghost use Rattle.sl_area.specs.Sectors.{IsReadAt, KeepsOthers, Replaces};
ghost use Rattle.sl_io.specs.FaultCauses.{HasCause};

use crate::sector_place::Place;
use sl_io::Failed;

/// A disk that is read and written in whole sectors.
pub trait Area: Drop {
    /// What the disk has, where the area tells it. One over the outside tells nothing.
    ghost content: { Self → Option (List ℕ) } = { λ _. None };

    /// How many calls have failed so far; it never falls. A call answers `Failed` only where it rose.
    ghost faults: { Self → ℕ };

    /// Reads so many sectors from a place on, which fill the buffer. It changes nothing, whether it fails or not; after a failure
    /// nothing is known of the buffer.
    fn read(&mut self, at: Place, n: u32, buffer: &mut [u8]) -> Result<(), Failed>
        requires { length buffer.old ≡ n * at.size }
        ensures kept { Keeps (content self.old) (content self.new) }
        ensures bytes { OnOk result (IsReadAt (content self.old) at.offset buffer.new) }
        ensures cause { HasCause (faults self.old) (faults self.new) result };

    /// Writes the sector at a place. After a failure that sector may have any bytes, as after a write that is torn, and every other one is
    /// as it was.
    fn write(&mut self, at: Place, sector: &[u8]) -> Result<(), Failed>
        requires { length sector.now ≡ at.size }
        ensures ok { OnOk result (Replaces (content self.old) (content self.new) at.offset sector.now) }
        ensures failed { OnErr result (KeepsOthers (content self.old) (content self.new) at) }
        ensures cause { HasCause (faults self.old) (faults self.new) result };
}
