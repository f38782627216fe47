//! What a cell asks of a daemon, beside what a world asks.

ghost use Rattle.sl_cell.specs.Copies.{AreShort};
ghost use Rattle.sl_trace.specs.Traces.{Setting, Trace};
ghost use Rattle.sl_trace.specs.declared.effects.Entry.{Entry};
ghost use Rattle.std.specs.Prelude.{◌∷◌};

use sl_world_state::Daemon;

/// A daemon of a cell. Each step is written down twice, so there must be memory for what its replies list before it is made.
pub trait Teller: Daemon {
    /// Of the replies of its next step one has a list at most, of so many elements at most.
    fn longest(&self) -> usize
        ensures { (st : Setting) → (es : Trace) → (later : Self) → (e : Entry) → Self.stands self.now st es → Self.stands later st (e ∷ es)
            → AreShort result e.effects.replies };
}
