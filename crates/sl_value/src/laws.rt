//! The newest write of a value is all that the next one asks for.

ghost use Rattle.sl_value.specs.Laws as laws;

/// Of a session whose instances never fall the newest write is all that the next seq asks for.
pub fn newest_is_enough()
    ensures { laws.NewestIsEnough }
{}
