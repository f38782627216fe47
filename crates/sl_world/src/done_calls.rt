//! Answers: of a call as it stands, and of one that is done in the same event.

ghost use Rattle.sl_world_state.specs.Daemons.{read_of};
ghost use Rattle.sl_world_state.specs.KeptWorld.{FlightState, flight_of_machine};
ghost use Rattle.sl_world_state.specs.Inputs.{rest_in};
ghost use Rattle.sl_world_state.specs.Refusals.{left_in};
ghost use Rattle.sl_machine.specs.CallWrites.{LeavesWhole};
ghost use Rattle.std.specs.Arc.{arc_value};
ghost use Rattle.std.specs.Option.{option_copied};
ghost use Rattle.sl_machine.specs.KeptParts.{kept_state};
ghost use Rattle.sl_run.specs.declared.event.Event.TheVariants.{AnswerCall, Do};
ghost use Rattle.sl_world.specs.AllowedEvents.{IsAllowed, MayGive};
ghost use Rattle.sl_world.specs.GivenSteps.{HasSampled, IsLeft, IsSame, written_by};
ghost use Rattle.sl_world.specs.ToldEvents.{ComesTold, GivesTold};
ghost use Rattle.std.specs.Prelude.{IfOk, IfSome, OnErr, OnOk, Some, false, is_none, is_some, length, option_map, true, ◌≡◌};

use crate::world::{World, has_numbers, reading};
use sl_locks::{LockInput, StepTold};
use sl_machine::{Flight, Kept, Landing, LockTable, hear_read};
use sl_sector::Images;
use sl_trace::{Answer, Input};
use sl_world_state::Daemon;
use std::alloc::AllocError;

/// What a call has sampled, if it reads. An `Err` is want of memory.
fn sampled<L: LockTable>(
    kept: &Kept<L>,
    machine: u32,
    call: u64,
) -> Result<Option<Images>, AllocError>
    ensures { IfOk result (λ o. (f : FlightState) → flight_of_machine (kept_state L.locks kept.now) machine call ≡ Some f → HasSampled f f.sampled (option_map (λ s. s.bytes) o)) }
{
    let alloc = *kept.machines.allocator();
    match kept.flight(machine, call) {
        None => Err(AllocError),
        Some(flight) => {
            if flight.writes() {
                Ok(None)
            } else {
                Ok(Some(flight.images(alloc, &[])?))
            }
        }
    }
}

/// How many sectors a read hasn't sampled; `None` of a write, or of no call.
fn left_of(flight: Option<&Flight>) -> Option<u64>
    ensures { (f : FlightState) → option_copied flight.entry ≡ Some f → IsLeft f result }
{
    match flight {
        None => None,
        Some(flight) => {
            if flight.writes() {
                None
            } else {
                Some(flight.left())
            }
        }
    }
}

/// What a read has once the rest of it is sampled, if it reads. An `Err` is want of memory. Nothing that is seen changes.
fn gathered<L: LockTable>(
    kept: &mut Kept<L>,
    machine: u32,
    call: u64,
) -> Result<Option<Images>, AllocError>
    ensures bytes { IfOk result (λ o. (f : FlightState) → flight_of_machine (kept_state L.locks kept.old) machine call ≡ Some f
        → HasSampled f (rest_in (kept_state L.locks kept.old) f (left_in f)) (option_map (λ s. s.bytes) o)) }
    ensures same { kept_state L.locks kept.new ≡ kept_state L.locks kept.old }
{
    let alloc = *kept.machines.allocator();
    let left = left_of(kept.flight(machine, call));
    match left {
        None => Ok(None),
        Some(left) => {
            let more = kept.next_sectors(machine, call, left)?;
            match kept.flight(machine, call) {
                None => Err(AllocError),
                Some(flight) => Ok(Some(flight.images(alloc, &more)?)),
            }
        }
    }
}

/// What a write leaves, if it hasn't taken effect. An `Err` is want of memory.
fn unlanded<L: LockTable>(
    kept: &Kept<L>,
    machine: u32,
    call: u64,
) -> Result<Option<Landing>, AllocError>
    ensures none { IfOk result (λ o. (f : FlightState) → flight_of_machine (kept_state L.locks kept.now) machine call ≡ Some f → is_none o ≡ true → f.flying ≡ false) }
    ensures some { IfOk result (λ o. IfSome o (λ l. LeavesWhole (kept_state L.locks kept.now) machine call l.place (arc_value l.image))) }
    ensures flies { IfOk result (λ o. (f : FlightState) → flight_of_machine (kept_state L.locks kept.now) machine call ≡ Some f → is_none o ≡ false → f.flying ≡ true) }
{
    match kept.flight(machine, call) {
        None => Ok(None),
        Some(flight) => {
            if flight.is_flying() {
                kept.landing(machine, call)
            } else {
                Ok(None)
            }
        }
    }
}

/// What a write leaves is put on its disk, if there is something. It takes no memory.
fn put<L: LockTable>(kept: &mut Kept<L>, landing: Option<Landing>)
    requires { IfSome landing (λ l. length (arc_value l.image) ≡ (kept_state L.locks kept.old).header.geometry.sector) }
    ensures { kept_state L.locks kept.new ≡ written_by landing (kept_state L.locks kept.old) }
{
    if let Some(landing) = landing {
        kept.write(landing.place, landing.image);
    }
}

impl<D: Daemon, L: LockTable> World<D, L> {
    /// The daemon of a machine takes a step at the answer ok of a read, and it is told. An `Err` is want of memory or of numbers, and changes nothing that
    /// is seen.
    fn give_read(
        &mut self,
        machine: u32,
        call: u64,
        sectors: &Images,
        told: &mut StepTold,
    ) -> Result<(), AllocError>
        requires { MayGive D.stands (kept_state L.locks self.old.kept) self.old.hosts machine (read_of call sectors.now) }
        ensures ok { OnOk result (GivesTold D.stands D.makes (kept_state L.locks self.old.kept) self.old.hosts machine (read_of call sectors.now) (kept_state L.locks self.new.kept) self.new.hosts told.new) }
        ensures err { OnErr result (IsSame (kept_state L.locks self.old.kept) self.old.hosts (kept_state L.locks self.new.kept) self.new.hosts) }
    {
        let left = has_numbers(&self.kept, machine);
        if !left {
            return Err(AllocError);
        }
        let index = machine as usize - 1;
        let now = reading(&self.kept, machine);
        let most = self.hosts.most(index);
        let heard = hear_read(call);
        self.kept.reserve(machine, &most)?;
        let effects = self.hosts.read(index, now, call, sectors)?;
        told.effects = effects;
        self.kept.step(machine, heard, LockInput::Nothing, told);
        Ok(())
    }

    /// A call is answered failed.
    fn fail(&mut self, machine: u32, call: u64, told: &mut StepTold) -> Result<(), AllocError>
        requires { IsAllowed D.commands D.stands (kept_state L.locks self.old.kept) self.old.hosts (AnswerCall machine call false) }
        ensures ok { OnOk result (ComesTold D.commands D.stands (kept_state L.locks self.old.kept) self.old.hosts (AnswerCall machine call false) (kept_state L.locks self.new.kept) self.new.hosts told.new) }
        ensures err { OnErr result (IsSame (kept_state L.locks self.old.kept) self.old.hosts (kept_state L.locks self.new.kept) self.new.hosts) }
    {
        self.give(
            machine,
            Input::Answer {
                call,
                answer: Answer::Failed,
            },
            told,
        )
    }

    /// A call is answered ok as it stands.
    fn answer_ok(&mut self, machine: u32, call: u64, told: &mut StepTold) -> Result<(), AllocError>
        requires { IsAllowed D.commands D.stands (kept_state L.locks self.old.kept) self.old.hosts (AnswerCall machine call true) }
        ensures ok { OnOk result (ComesTold D.commands D.stands (kept_state L.locks self.old.kept) self.old.hosts (AnswerCall machine call true) (kept_state L.locks self.new.kept) self.new.hosts told.new) }
        ensures err { OnErr result (IsSame (kept_state L.locks self.old.kept) self.old.hosts (kept_state L.locks self.new.kept) self.new.hosts) }
    {
        let sectors = sampled(&self.kept, machine, call)?;
        match sectors {
            Some(sectors) => self.give_read(machine, call, &sectors, told),
            None => self.give(
                machine,
                Input::Answer {
                    call,
                    answer: Answer::Written,
                },
                told,
            ),
        }
    }

    /// A call is answered, ok as it stands or failed.
    pub(crate) fn answer(
        &mut self,
        machine: u32,
        call: u64,
        ok: bool,
        told: &mut StepTold,
    ) -> Result<(), AllocError>
        requires { IsAllowed D.commands D.stands (kept_state L.locks self.old.kept) self.old.hosts (AnswerCall machine call ok) }
        ensures ok { OnOk result (ComesTold D.commands D.stands (kept_state L.locks self.old.kept) self.old.hosts (AnswerCall machine call ok) (kept_state L.locks self.new.kept) self.new.hosts told.new) }
        ensures err { OnErr result (IsSame (kept_state L.locks self.old.kept) self.old.hosts (kept_state L.locks self.new.kept) self.new.hosts) }
    {
        if ok {
            self.answer_ok(machine, call, told)
        } else {
            self.fail(machine, call, told)
        }
    }

    /// A write is answered ok that may still have to take effect: it does so in the same event.
    fn do_write(&mut self, machine: u32, call: u64, told: &mut StepTold) -> Result<(), AllocError>
        requires allowed { IsAllowed D.commands D.stands (kept_state L.locks self.old.kept) self.old.hosts (Do machine call) }
        requires writes { (f : FlightState) → flight_of_machine (kept_state L.locks self.old.kept) machine call ≡ Some f → is_some f.write ≡ true }
        ensures ok { OnOk result (ComesTold D.commands D.stands (kept_state L.locks self.old.kept) self.old.hosts (Do machine call) (kept_state L.locks self.new.kept) self.new.hosts told.new) }
        ensures err { OnErr result (IsSame (kept_state L.locks self.old.kept) self.old.hosts (kept_state L.locks self.new.kept) self.new.hosts) }
    {
        let landing = unlanded(&self.kept, machine, call)?;
        self.give(
            machine,
            Input::Answer {
                call,
                answer: Answer::Written,
            },
            told,
        )?;
        put(&mut self.kept, landing);
        Ok(())
    }

    /// The rest of a call is sampled or landed, and it is answered ok.
    pub(crate) fn do_call(
        &mut self,
        machine: u32,
        call: u64,
        told: &mut StepTold,
    ) -> Result<(), AllocError>
        requires { IsAllowed D.commands D.stands (kept_state L.locks self.old.kept) self.old.hosts (Do machine call) }
        ensures ok { OnOk result (ComesTold D.commands D.stands (kept_state L.locks self.old.kept) self.old.hosts (Do machine call) (kept_state L.locks self.new.kept) self.new.hosts told.new) }
        ensures err { OnErr result (IsSame (kept_state L.locks self.old.kept) self.old.hosts (kept_state L.locks self.new.kept) self.new.hosts) }
    {
        let sectors = gathered(&mut self.kept, machine, call)?;
        match sectors {
            Some(sectors) => self.give_read(machine, call, &sectors, told),
            None => self.do_write(machine, call, told),
        }
    }
}
