//! What is promised of made runs.

pub mod reports;

ghost use Rattle.sl_sound.specs.SoundLaws.{MadeReplaysAreSound, MadeRunsAreSound, SafeRunsCountNone, SoundRunsAreServed};

use sl_world_state::Daemon;

/// No conflict is counted in a run in which none stands after an event.
pub fn safe_runs_count_none()
    ensures { SafeRunsCountNone }
{}

/// Where daemons of this kind do what is due, and what is due is lawful, a run made of them is sound.
pub fn made_runs_are_sound<D: Daemon>()
    ensures { MadeRunsAreSound D.stands }
{}

/// What is owed of made runs is then owed of sound ones.
pub fn made_replays_are_sound<D: Daemon>()
    ensures { MadeReplaysAreSound D.stands }
{}

/// A sound run is a lawful one, so both invariants hold in it, values are the last, and volumes exclude each other.
pub fn sound_runs_are_served()
    ensures { SoundRunsAreServed }
{}
