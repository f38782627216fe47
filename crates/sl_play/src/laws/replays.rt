//! What a replay owes, whatever is read and written.

ghost use Rattle.sl_play.specs.Replays.{ReplaysAreOwed};

use sl_world_state::Daemon;

/// What is written is what is owed of made runs, by the status; and a status has its cause.
pub fn replays_are_owed<D: Daemon>()
    ensures { ReplaysAreOwed D.commands D.stands }
{}
