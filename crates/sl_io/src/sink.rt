//! What a program writes its output to.
ghost use Rattle.std.specs.Prelude.{List, None, Option, ℕ};
ghost use Rattle.std.specs.Io.KnownBytes.{WriteAppends};
ghost use Rattle.sl_io.specs.TakenBytes.{TakesSome};
ghost use Rattle.sl_io.specs.FaultCauses.{HasCause};

use crate::faults::Failed;

/// Takes bytes one after another, in whatever pieces it likes.
pub trait Sink {
    /// The bytes taken so far, where the sink tells them. One over the outside tells none.
    ghost taken: { Self → Option (List ℕ) } = { λ _. None };

    /// How many writes have failed so far; it never falls. A write answers `Failed` only where it rose.
    ghost faults: { Self → ℕ };

    /// Takes bytes from the front of the piece, and answers how many: at least one, if there is one, and never more than there are. A
    /// failed write takes none.
    fn write(&mut self, piece: &[u8]) -> Result<usize, Failed>
        ensures some { TakesSome result piece.now }
        ensures bytes { WriteAppends (taken self.old) (taken self.new) result piece.now }
        ensures cause { HasCause (faults self.old) (faults self.new) result };
}
