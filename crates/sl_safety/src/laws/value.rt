//! What every lawful run keeps of the values of resources.

ghost use Rattle.sl_run.specs.Values.{ValueTheorem};
ghost use Rattle.sl_safety.specs.Value.ValueWrites.{HoldersKeepValues, OneWritesValue};

/// At most one write of a resource's value is in flight.
pub fn one_writes_value()
    ensures { OneWritesValue }
{}

/// Beside a session that holds the resource no other has one in flight.
pub fn holders_keep_values()
    ensures { HoldersKeepValues }
{}

/// Each value that a reader is given is the last that was answered ok before its answer, or a later one.
pub fn values_are_last()
    ensures { ValueTheorem }
{}
