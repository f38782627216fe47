//! What a daemon is asked beside its steps, by what its host keeps.

ghost use Rattle.sl_host_step.specs.ExpectedInputs.{ExpectedIs};

/// Whether an input may come is asked of what is kept.
pub fn expected_is()
    ensures { ExpectedIs }
{}
