//! What an event is to a play: whether it is an ask, and what is answered where the world doesn't apply it.

ghost use Rattle.sl_play.specs.Plays.{after_error};
ghost use Rattle.sl_run.specs.Inputs as inputs;
ghost use Rattle.std.specs.Prelude.{◌≡◌};

use crate::step_counts::PlayError;
use sl_run::{Event, Refusal};
use sl_world::ApplyError;

/// Whether the event gives an ask, which is not counted as an event.
pub(crate) fn is_ask(event: &Event) -> bool
    ensures { result ≡ inputs.is_ask event.now }
{
    match event {
        Event::GiveAsk { .. } => true,
        _ => false,
    }
}

/// What is answered where the world doesn't apply an event.
pub(crate) fn after_error(error: ApplyError) -> Result<Option<Refusal>, PlayError>
    ensures { result ≡ after_error error }
{
    match error {
        ApplyError::Refused(why) => Ok(Some(why)),
        ApplyError::OutOfMemory => Err(PlayError::NoMemory),
    }
}
