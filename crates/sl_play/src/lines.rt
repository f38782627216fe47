//! A schedule's line played: its event, and the asks behind it.

ghost use Rattle.sl_play.specs.Plays.{GoesOn, IsAsking, IsPlaying, PlaysOn, AsksLeft, TakesLines, state_of};
ghost use Rattle.sl_report.specs.Languages.{whole_language};
ghost use Rattle.sl_report.specs.Schedules as schedules;
ghost use Rattle.sl_run.specs.Worlds as worlds;
ghost use Rattle.sl_schedule.specs.Lines.{line_seen};
ghost use Rattle.std.specs.Option.{option_to_list};
ghost use Rattle.std.specs.Prelude.{IfOk, Ok, OnOk, [], ℕ, ◌∷◌};

use crate::play::Play;
use crate::step_counts::PlayError;
use sl_machine::LockTable;
use sl_run::{Event, Refusal};
use sl_schedule::{Line, event_line};
use sl_world_state::Daemon;

/// How many asks follow an event at most: an acquire is asked up to nine times, and the value is read behind it.
const MOST_ASKS: u32 = 10;

impl<D: Daemon, L: LockTable> Play<D, L> {
    /// The asks that are due come to pass, one after another, until none is due.
    fn take_asks(&mut self, out: &mut Vec<u8>) -> Result<(), PlayError>
        requires { IsAsking D.commands D.stands (state_of L.locks self.old) 10 }
        ensures { OnOk result ((w : worlds.World) → (m : ℕ) → AsksLeft D.commands D.stands (state_of L.locks self.old) w m 10
            → GoesOn D.commands D.stands w (state_of L.locks self.old) [] out.old.items (state_of L.locks self.new) out.new.items) }
    {
        let mut left = MOST_ASKS;
        while let Some(machine) = self.world.asking() {
            left -= 1;
            match self.happen(out, Event::GiveAsk { machine })? {
                None => {}
                Some(_) => unreachable!(),
            }
        }
        Ok(())
    }

    /// A line's event comes to pass, and then the asks that are due, one after another; or it is refused, and nothing has changed: why.
    pub fn take_event(
        &mut self,
        out: &mut Vec<u8>,
        event: Event,
    ) -> Result<Option<Refusal>, PlayError>
        requires { IsPlaying D.commands D.stands (state_of L.locks self.old) }
        ensures { IfOk result (λ why. (w : worlds.World) → PlaysOn D.commands D.stands (state_of L.locks self.old) w → (number : ℕ)
            → TakesLines D.commands D.stands w (state_of L.locks self.old) ((number, Ok event) ∷ []) number out.old.items (state_of L.locks self.new) out.new.items why) }
    {
        if let Some(why) = self.happen(out, event)? {
            return Ok(Some(why));
        }
        self.take_asks(out)?;
        Ok(None)
    }

    /// What was read of a line comes to pass, or the line is refused, and nothing has changed: why.
    fn take_read(
        &mut self,
        out: &mut Vec<u8>,
        read: Result<Event, Refusal>,
    ) -> Result<Option<Refusal>, PlayError>
        requires { IsPlaying D.commands D.stands (state_of L.locks self.old) }
        ensures { IfOk result (λ why. (w : worlds.World) → PlaysOn D.commands D.stands (state_of L.locks self.old) w → (number : ℕ)
            → TakesLines D.commands D.stands w (state_of L.locks self.old) ((number, read) ∷ []) number out.old.items (state_of L.locks self.new) out.new.items why) }
    {
        match read {
            Ok(event) => self.take_event(out, event),
            Err(why) => Ok(Some(why)),
        }
    }

    /// A line's event comes to pass with the asks behind it and its report is written behind `out`, or the line says nothing; or it is
    /// refused, and nothing has changed: why.
    pub fn take_line(
        &mut self,
        out: &mut Vec<u8>,
        line: &Line,
    ) -> Result<Option<Refusal>, PlayError>
        requires { IsPlaying D.commands D.stands (state_of L.locks self.old) }
        ensures { IfOk result (λ why. (w : worlds.World) → PlaysOn D.commands D.stands (state_of L.locks self.old) w
            → TakesLines D.commands D.stands w (state_of L.locks self.old)
            (option_to_list (schedules.event_line whole_language (state_of L.locks self.old).kept.header (line_seen line.now))) (line_seen line.now).number
            out.old.items (state_of L.locks self.new) out.new.items why) }
    {
        match event_line(*out.allocator(), self.world.header(), line)? {
            None => Ok(None),
            Some((_, read)) => self.take_read(out, read),
        }
    }
}
