//! For which world what is kept stands, event by event, whichever daemons run.

ghost use Rattle.sl_world_law.specs.WorldsStand.{BeginningsAreSettings, BeginningsStand, EachStood, EndsStand, FirstSettings, FirstWorldsStand, OwnStands, PureWorldsStand, RefusalsStand, StepsAreReady, StepsFit, StepsStand};

use sl_world_state::Daemon;

/// An event is refused by what is kept as the world refuses it.
pub fn refusals_stand<D: Daemon>()
    ensures { RefusalsStand D.commands D.stands }
{}

/// Where an event gives an input, a daemon runs to which it may come, while numbers are left.
pub fn steps_are_ready<D: Daemon>()
    ensures { StepsAreReady D.commands D.stands }
{}

/// Its step is one that what is kept can take up.
pub fn steps_fit<D: Daemon>()
    ensures { StepsFit D.commands D.stands }
{}

/// That daemon's step leaves what stands for the world after the event.
pub fn steps_stand<D: Daemon>()
    ensures { StepsStand D.commands D.stands }
{}

/// So does an event that no daemon takes, where none begins or ends.
pub fn own_stands<D: Daemon>()
    ensures { OwnStands D.commands D.stands }
{}

/// So does the end of a daemon.
pub fn ends_stand<D: Daemon>()
    ensures { EndsStand D.commands D.stands }
{}

/// A daemon may begin with any name that is one.
pub fn beginnings_are_settings<D: Daemon>()
    ensures { BeginningsAreSettings D.commands D.stands }
{}

/// So does the beginning of a daemon.
pub fn beginnings_stand<D: Daemon>()
    ensures { BeginningsStand D.commands D.stands }
{}

/// What is kept at first, and the daemons of the session lines, stand for the header's world.
pub fn first_worlds_stand<D: Daemon>()
    ensures { FirstWorldsStand D.commands D.stands }
{}

/// A daemon stood for the trace of each daemon that ever ran.
pub fn each_stood<D: Daemon>()
    ensures { EachStood D.commands D.stands }
{}

/// The session lines of a header make settings that a daemon may have.
pub fn first_settings()
    ensures { FirstSettings }
{}

/// Of each good header there is a world that is stood for.
pub fn pure_worlds_stand()
    ensures { PureWorldsStand }
{}
