//! A report is proved from its end.

pub mod headers;
pub mod replays;

ghost use Rattle.sl_play.specs.RunEndings.{AsksLeadBack, EndsFinish, EventsLeadBack, LeadingIsChained};
ghost use Rattle.sl_play.specs.PlayIsOwed.{EachStood, PlayIsOwed};

use sl_world_state::Daemon;

/// What is left behind a line's event is left before it.
pub fn events_lead_back<D: Daemon>()
    ensures { EventsLeadBack (EachStood D.stands) }
{}

/// What is left behind an ask is left before it.
pub fn asks_lead_back<D: Daemon>()
    ensures { AsksLeadBack (EachStood D.stands) }
{}

/// The lines that lead a header go along one behind the other, too.
pub fn leading_is_chained<D: Daemon>()
    ensures { LeadingIsChained (EachStood D.stands) }
{}

/// A schedule ends at its end, or at a line that is refused, and may break off anywhere.
pub fn ends_finish<D: Daemon>()
    ensures { EndsFinish (EachStood D.stands) }
{}

/// What finishes from the header's world on is the report of a made run; what breaks off is a front of one's.
pub fn play_is_owed<D: Daemon>()
    ensures { PlayIsOwed D.stands }
{}
