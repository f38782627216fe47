//! A world in which a schedule is played, and what the last line of the report will count.
//!
//! An event comes to pass in the world, its lines are written and it is counted; or it is refused, and nothing has changed. A line's event is
//! followed at once, at the same reading, by the asks of lvmlockd's locks that are due then, one after another; so between two lines no ask is
//! due. After an `Err` a play is at its end: its world stands, but what was counted and written may lack the last event.

ghost use Rattle.sl_world.specs.ConflictCounts.{IsCalm};

use crate::events::{after_error, is_ask};
use crate::step_counts::{PlayError, counted, granted, no_counts, one_more};
use crate::step_lines::{push_event, push_test};
use sl_locks::StepTold;
use sl_machine::{LockTable, machine_of};
use sl_run::{Event, Header, Refusal};
use sl_schedule::Counts;
use sl_world::{World, is_untold};
use sl_world_state::Daemon;
use std::alloc::{AllocError, Global};

/// A world, with the daemons that run in it, and what is counted.
#[derive(Drop)]
pub struct Play<D: Daemon, L: LockTable> {
    pub(crate) world: World<D, L>,
    pub(crate) counts: Counts,
    /// Whether it is known that no two uses conflict.
    calm: bool,
    ghost known: { IsCalm calm world.kept },
}

impl<D: Daemon, L: LockTable> Play<D, L> {
    ghost use Rattle.sl_world_state.specs.SaneWorlds.{ReadsCommands, WorldStands};
    ghost use Rattle.sl_machine.specs.EventTests.{is_tear};
    ghost use Rattle.sl_play.specs.Plays.{Answers, Begins, PassesCounts, StandsFor, state_of, test_told};
    ghost use Rattle.sl_play.specs.ToldSteps.{AreCounted, counts_with, one_more, tests_told, told_view};
    ghost use Rattle.sl_play.specs.declared.step_counts.PlayError.TheVariants.{NoMemory, TooMany};
    ghost use Rattle.sl_report.specs.Reports as reports;
    ghost use Rattle.sl_run.specs.Refusals as refusals;
    ghost use Rattle.sl_run.specs.Headers.{IsHeader};
    ghost use Rattle.sl_run.specs.Worlds as worlds;
    ghost use Rattle.sl_run.specs.declared.event.Refusal.{Refusal as RefusalOf};
    ghost use Rattle.sl_text.specs.Forms.{as_bytes};
    ghost use Rattle.sl_world.specs.ToldEvents.{is_untold};
    ghost use Rattle.std.specs.Prelude.{Err, IfOk, None, Ok, OnErr, OnOk, Some, false, true, ◌++◌, ◌≡◌, ◌⊎◌};

    /// A play of a header's world at moment 0, with nothing counted. An `Err` is want of memory.
    pub fn new(alloc: Global, header: Header) -> Result<Play<D, L>, AllocError>
        requires { IsHeader header × ReadsCommands D.commands header }
        ensures { IfOk result (λ p. Begins D.commands D.stands header (state_of L.locks p)) }
    {
        Ok(Play {
            world: World::new(alloc, header)?,
            counts: no_counts(),
            calm: false,
        })
    }

    /// The world as it stands now, to be asked.
    pub fn world(&self) -> &World<D, L>
        ensures { result.now ≡ self.now.world }
    {
        &self.world
    }

    /// What was counted of the events so far, for the last line.
    pub fn counts(&self) -> &Counts
        ensures { result.now ≡ (state_of L.locks self.now).counts }
    {
        &self.counts
    }

    /// How a test of the watchdog daemon will come out, where the event is one.
    fn test_of(&self, event: &Event) -> Option<bool>
        ensures { result ≡ test_told (state_of L.locks self.now).kept event.now }
    {
        match event {
            Event::Test { .. } => Some(self.world.test_holds(event)),
            _ => None,
        }
    }

    /// Counts an event that has come to pass and left so many conflicts, and writes the lines of its step. After an `Err` nothing was written
    /// and nothing is counted.
    fn tell(
        &mut self,
        out: &mut Vec<u8>,
        machine: u32,
        ask: bool,
        told: &StepTold,
        conflicts: u64,
    ) -> Result<(), PlayError>
        ensures counts { OnOk result (self.new.counts ≡ counts_with ask told.now conflicts self.old.counts) }
        ensures text { OnOk result (out.new.items ≡ out.old.items ++ as_bytes (reports.step_lines machine (told_view told.now) ++ tests_told machine None)) }
        ensures world { self.new.world ≡ self.old.world }
        ensures many { result ≡ Err TooMany → AreCounted (counts_with ask told.now conflicts self.old.counts) → ⊥ }
        ensures err { OnErr result (out.new.items ≡ out.old.items) }
    {
        let counts = counted(*out.allocator(), &self.counts, ask, told, conflicts)?;
        push_event(out, machine, told, None)?;
        self.counts = counts;
        Ok(())
    }

    /// Counts an event of which nothing is told, and writes the line of a test, if it was one. After an `Err` nothing was written and nothing
    /// is counted.
    fn tell_test(
        &mut self,
        out: &mut Vec<u8>,
        machine: u32,
        test: Option<bool>,
    ) -> Result<(), PlayError>
        ensures counts { OnOk result (self.new.counts ≡ one_more self.old.counts) }
        ensures text { OnOk result (out.new.items ≡ out.old.items ++ as_bytes (tests_told machine test)) }
        ensures world { self.new.world ≡ self.old.world }
        ensures many { result ≡ Err TooMany → AreCounted (one_more self.old.counts) → ⊥ }
        ensures err { OnErr result (out.new.items ≡ out.old.items) }
    {
        let counts = one_more(&self.counts)?;
        push_test(out, machine, test)?;
        self.counts = counts;
        Ok(())
    }

    /// The same as `happen`, of an event of which nothing is told: it grants nothing, so as many uses conflict behind it as before.
    fn happen_untold(
        &mut self,
        out: &mut Vec<u8>,
        event: Event,
    ) -> Result<Option<Refusal>, PlayError>
        requires stands { StandsFor D.commands D.stands (state_of L.locks self.old) }
        requires untold { is_untold event ≡ true }
        ensures ok { IfOk result (Answers D.commands D.stands (state_of L.locks self.old) event out.old.items (state_of L.locks self.new) out.new.items) }
        ensures refused { (w : worlds.World) → WorldStands D.commands D.stands (state_of L.locks self.old).kept (state_of L.locks self.old).hosts w → (why : RefusalOf)
            → refusals.refusal_of w event ≡ Some why → (result ≡ Ok (Some why)) ⊎ ((is_tear event ≡ true) × (result ≡ Err NoMemory)) }
        ensures many { result ≡ Err TooMany → PassesCounts D.commands D.stands (state_of L.locks self.old) event }
        ensures stands { StandsFor D.commands D.stands (state_of L.locks self.new) }
        ensures err { OnErr result (out.new.items ≡ out.old.items) }
    {
        let machine = machine_of(&event);
        let test = self.test_of(&event);
        match self.world.apply_untold(event) {
            Err(error) => after_error(error),
            Ok(()) => {
                self.tell_test(out, machine, test)?;
                Ok(None)
            }
        }
    }

    /// The same as `happen`, of an event of which something is told.
    fn happen_told(&mut self, out: &mut Vec<u8>, event: Event) -> Result<Option<Refusal>, PlayError>
        requires stands { StandsFor D.commands D.stands (state_of L.locks self.old) }
        requires told { is_untold event ≡ false }
        ensures ok { IfOk result (Answers D.commands D.stands (state_of L.locks self.old) event out.old.items (state_of L.locks self.new) out.new.items) }
        ensures refused { (w : worlds.World) → WorldStands D.commands D.stands (state_of L.locks self.old).kept (state_of L.locks self.old).hosts w → (why : RefusalOf)
            → refusals.refusal_of w event ≡ Some why → (result ≡ Ok (Some why)) ⊎ ((is_tear event ≡ true) × (result ≡ Err NoMemory)) }
        ensures many { result ≡ Err TooMany → PassesCounts D.commands D.stands (state_of L.locks self.old) event }
        ensures stands { StandsFor D.commands D.stands (state_of L.locks self.new) }
        ensures err { OnErr result (out.new.items ≡ out.old.items) }
    {
        let machine = machine_of(&event);
        let ask = is_ask(&event);
        let mut told = StepTold::nothing(*out.allocator());
        match self.world.apply(event, &mut told) {
            Err(error) => after_error(error),
            Ok(()) => {
                let left = self
                    .world
                    .conflicts_left(machine, granted(&told), self.calm);
                self.calm = left.calm;
                self.tell(out, machine, ask, &told, left.count)?;
                self.world.take_back(machine, &mut told);
                Ok(None)
            }
        }
    }

    /// The event comes to pass, its lines are written and it is counted; or it is refused, and nothing has changed: why.
    pub fn happen(&mut self, out: &mut Vec<u8>, event: Event) -> Result<Option<Refusal>, PlayError>
        requires { StandsFor D.commands D.stands (state_of L.locks self.old) }
        ensures ok { IfOk result (Answers D.commands D.stands (state_of L.locks self.old) event out.old.items (state_of L.locks self.new) out.new.items) }
        ensures refused { (w : worlds.World) → WorldStands D.commands D.stands (state_of L.locks self.old).kept (state_of L.locks self.old).hosts w → (why : RefusalOf)
            → refusals.refusal_of w event ≡ Some why → (result ≡ Ok (Some why)) ⊎ ((is_tear event ≡ true) × (result ≡ Err NoMemory)) }
        ensures many { result ≡ Err TooMany → PassesCounts D.commands D.stands (state_of L.locks self.old) event }
        ensures stands { StandsFor D.commands D.stands (state_of L.locks self.new) }
        ensures err { OnErr result (out.new.items ≡ out.old.items) }
    {
        if is_untold(&event) {
            self.happen_untold(out, event)
        } else {
            self.happen_told(out, event)
        }
    }
}
