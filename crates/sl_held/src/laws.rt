//! What the lines of a run tell.

ghost use Rattle.sl_held.specs.HeldLaws.{LinesTellHoldings};

/// The lines that a run tells leave just what is held.
pub fn lines_tell_holdings()
    ensures { LinesTellHoldings }
{}
