//! Where a script's lines begin.

use std::marker::Brand;

/// What was left of a source behind the piece in which its header ends, how many faults it had counted, what its reader had then, what of the
/// header the lines are read by, and whether the script goes on behind a line that is refused. Each run picks it.
pub trait Origin {
    ghost use Rattle.sl_reader.specs.declared.scope.Scope.{Scope};
    ghost use Rattle.sl_reader.specs.LineReads.{ReaderState};
    ghost use Rattle.std.specs.Prelude.{Bool, List, Option, ℕ};

    ghost left: { Option (List ℕ) };

    ghost faults: { ℕ };

    ghost began: { ReaderState };

    ghost scope: { Scope };

    ghost keeps: { Bool };
}

impl Origin for Brand {
    ghost use Rattle.sl_reader.specs.Origins.{any_scope};
    ghost use Rattle.sl_reader.specs.LineReads.{no_line};
    ghost use Rattle.std.specs.Prelude.{None, false};

    ghost left = { None };

    ghost faults = { 0 };

    ghost began = { no_line };

    ghost scope = { any_scope };

    ghost keeps = { false };
}
