//! What a program reads its input from.
ghost use Rattle.std.specs.Prelude.{List, None, Option, ℕ};
ghost use Rattle.std.specs.Io.{ReadsAtMost};
ghost use Rattle.std.specs.Io.KnownBytes.{ReadConsumes};
ghost use Rattle.sl_io.specs.FaultCauses.{HasCause};

use crate::faults::Failed;

/// Bytes that are read from front to end, in whatever pieces they come.
pub trait Source {
    /// The bytes left, where the source tells them. One over the outside tells none.
    ghost left: { Self → Option (List ℕ) } = { λ _. None };

    /// How many reads have failed so far; it never falls. A read answers `Failed` only where it rose.
    ghost faults: { Self → ℕ };

    /// Reads the next bytes into the front of the buffer, and answers how many. 0 for a buffer that isn't empty is the end: where the
    /// bytes left are told, it comes exactly where there is none. A failed read takes no byte.
    fn read(&mut self, buffer: &mut [u8]) -> Result<usize, Failed>
        ensures bound { ReadsAtMost result buffer.new }
        ensures bytes { ReadConsumes (left self.old) (left self.new) result buffer.new }
        ensures cause { HasCause (faults self.old) (faults self.new) result };
}
