//! What a drawing owes, whatever is read and written.

ghost use Rattle.sl_draw.specs.Draws.{DrawingsAreOwed};

use sl_world_state::Daemon;

/// What is written is what is owed of made runs, by the status; and a status has its cause.
pub fn drawings_are_owed<D: Daemon>()
    ensures { DrawingsAreOwed D.commands D.stands }
{}
