//! Why an event may not happen, by all that is kept.

ghost use Rattle.sl_world_state.specs.Changes.{torn_by};
ghost use Rattle.sl_world_state.specs.Refusals.{is_shaped_in, on_flight_in, on_kept, writes_in};
ghost use Rattle.sl_machine.specs.CallWrites.{LeavesTorn};
ghost use Rattle.sl_machine.specs.KeptParts.{kept_state};
ghost use Rattle.sl_machine.specs.Machines.{machine_state};
ghost use Rattle.sl_machine.specs.EventTests.{is_tear, land_tests, machine_tests, refusal_with, start_tests, tear_tests, tests_with};
ghost use Rattle.sl_run.specs.Inputs as inputs;
ghost use Rattle.sl_run.specs.Worlds.{first_that};
ghost use Rattle.sl_run.specs.declared.event.Refusal.TheVariants.{MissingReset, MissingUp, PremiseName};
ghost use Rattle.std.specs.Arc.{arc_value};
ghost use Rattle.std.specs.Int.{is_in_range};
ghost use Rattle.std.specs.Prelude.{IfErr, IfOk, None, OnErr, OnOk, Some, [], length, nat_le, not, true, ◌+◌, ◌==◌, ◌∷◌, ◌≡◌};

use crate::calls::Landing;
use crate::flight::Outcome;
use crate::kept_world::Kept;
use crate::locks::LockTable;
use crate::names::has_name;
use sl_run::{Event, Header, Refusal};
use sl_text::{Bytes, Name, Seq};
use std::alloc::AllocError;

/// The machine of an event; a time that passes has none.
pub fn machine_of(event: &Event) -> u32
    ensures { result ≡ inputs.machine_of event.now }
{
    match event {
        Event::Pass { .. } => 0,
        Event::WakeUp { machine } => *machine,
        Event::GiveCommand { machine, .. } => *machine,
        Event::GiveLvm { machine, .. } => *machine,
        Event::GiveAsk { machine } => *machine,
        Event::Sample { machine, .. } => *machine,
        Event::Land { machine, .. } => *machine,
        Event::Tear { machine, .. } => *machine,
        Event::AnswerCall { machine, .. } => *machine,
        Event::Do { machine, .. } => *machine,
        Event::DropWrite { machine, .. } => *machine,
        Event::Test { machine } => *machine,
        Event::ExitOf { machine, .. } => *machine,
        Event::SpawnedOf { machine, .. } => *machine,
        Event::StartDaemon { machine, .. } => *machine,
        Event::Crash { machine } => *machine,
        Event::Reset { machine } => *machine,
        Event::Restart { machine } => *machine,
    }
}

/// Whether there are as many clocks as machines.
fn fits(machines: u32, growths: &Option<Seq<u64>>) -> bool
    ensures { result ≡ elim growths.now [ None ↦ true | Some gs ↦ length gs == machines ] }
{
    match growths {
        None => true,
        Some(growths) => growths.len() == machines as usize,
    }
}

/// Whether this is the number of a process.
fn is_process(process: u32) -> bool
    ensures { result ≡ is_in_range 1 2000000 process }
{
    1 <= process && process <= 2_000_000
}

/// Whether so many bytes and these are no more than a sector has.
fn is_within(kept: u32, bytes: &Bytes, sector: u32) -> bool
    ensures { result ≡ nat_le (kept + length bytes.now) sector }
{
    (kept as u128) + (bytes.len() as u128) <= u128::from(sector)
}

/// Whether the event is one that a line may spell.
fn is_shaped(header: &Header, event: &Event) -> bool
    ensures { result ≡ is_shaped_in header.now event.now }
{
    match event {
        Event::Pass { growths, .. } => fits(header.machines, growths),
        Event::WakeUp { .. } => true,
        Event::GiveCommand { .. } => true,
        Event::GiveLvm { .. } => true,
        Event::GiveAsk { .. } => true,
        Event::Sample { sectors, .. } => 0 < *sectors,
        Event::Land { .. } => true,
        Event::Tear { kept, bytes, .. } => is_within(*kept, bytes, header.geometry.sector()),
        Event::AnswerCall { .. } => true,
        Event::Do { .. } => true,
        Event::DropWrite { .. } => true,
        Event::Test { .. } => true,
        Event::ExitOf { process, .. } => is_process(*process),
        Event::SpawnedOf { process, .. } => is_process(*process),
        Event::StartDaemon { .. } => true,
        Event::Crash { .. } => true,
        Event::Reset { .. } => true,
        Event::Restart { .. } => true,
    }
}

/// Why a daemon may not begin: the first test that fails.
fn start_reason(up: bool, used: bool, named: bool) -> Option<Refusal>
    ensures { result ≡ first_that ((not up, MissingUp) ∷ (used, MissingReset) ∷ (named, PremiseName) ∷ []) }
{
    if !up {
        Some(Refusal::MissingUp)
    } else if used {
        Some(Refusal::MissingReset)
    } else if named {
        Some(Refusal::PremiseName)
    } else {
        None
    }
}

impl<L: LockTable> Kept<L> {
    /// Why an event may not happen, as far as its machine tells. For a command `locks` tells whether it is for lvmlockd's process.
    pub fn machine_refusal(&self, event: &Event, locks: bool) -> Option<Refusal>
        ensures { result ≡ first_that (on_kept (kept_state L.locks self.now) (inputs.machine_of event.now) (machine_tests locks event.now)) }
    {
        match self.machine(machine_of(event)) {
            None => Some(Refusal::MissingMachine),
            Some(machine) => machine.refusal(event, locks),
        }
    }

    /// Why a write may not take effect.
    pub fn land_refusal(&self, machine: u32, call: u64) -> Option<Refusal>
        ensures { result ≡ first_that (on_kept (kept_state L.locks self.now) machine (λ s. on_flight_in s call writes_in land_tests)) }
    {
        match self.machine(machine) {
            None => Some(Refusal::MissingMachine),
            Some(machine) => machine.land_refusal(call),
        }
    }

    /// Why a daemon may not begin on a machine under a name.
    #[tactic(auto, unfolding(crate::specs::Machines::machine_state, crate::specs::KeptParts::kept_state))]
    pub fn start_refusal(&self, machine: u32, name: Name) -> Option<Refusal>
        ensures { result ≡ first_that (on_kept (kept_state L.locks self.now) machine (start_tests (kept_state L.locks self.now) name)) }
    {
        let named = has_name(&self.names, name);
        match self.machine(machine) {
            None => Some(Refusal::MissingMachine),
            Some(machine) => start_reason(machine.up, machine.used, named),
        }
    }

    /// What a write leaves that takes effect in part, or why it may not: its bytes may spell no record, so they are made and read. That is done anew at
    /// each call: for whether the event may happen, and when it happens. An `Err` is want of memory. Nothing that is seen changes.
    pub fn tearing(
        &mut self,
        machine: u32,
        call: u64,
        kept: u32,
        given: &Bytes,
    ) -> Result<Result<Landing, Refusal>, AllocError>
        ensures refused { IfOk result (λ x. IfErr x (λ r. first_that (tear_tests (kept_state L.locks self.old) machine call kept given.now) ≡ Some r)) }
        ensures allowed { IfOk result (λ x. IfOk x (λ l. first_that (tear_tests (kept_state L.locks self.old) machine call kept given.now) ≡ None)) }
        ensures torn { IfOk result (λ x. IfOk x (λ l. LeavesTorn (kept_state L.locks self.old) machine call kept given.now l.place (arc_value l.image))) }
        ensures same { kept_state L.locks self.new ≡ kept_state L.locks self.old }
        ensures disks { self.new.disks ≡ self.old.disks }
    {
        if let Some(why) = self.land_refusal(machine, call) {
            return Ok(Err(why));
        }
        match self.torn(machine, call, kept, given)? {
            None => unreachable!(),
            Some(landing) => {
                if landing.image.record().is_ok() {
                    return Ok(Err(Refusal::PremiseTorn));
                }
                Ok(Ok(landing))
            }
        }
    }

    /// Why an event may not happen, once it is one that a line may spell.
    fn reason(&mut self, event: &Event, locks: bool) -> Result<Option<Refusal>, AllocError>
        ensures exact { IfOk result (λ r. r ≡ first_that (tests_with locks (kept_state L.locks self.old) event.now)) }
        ensures total { OnErr result (is_tear event.now ≡ true) }
        ensures same { kept_state L.locks self.new ≡ kept_state L.locks self.old }
        ensures disks { self.new.disks ≡ self.old.disks }
    {
        match event {
            Event::Pass { time, growths } => Ok(self.pass_refusal(*time, growths)),
            Event::Tear {
                machine,
                call,
                kept,
                bytes,
            } => match self.tearing(*machine, *call, *kept, bytes)? {
                Err(why) => Ok(Some(why)),
                Ok(_) => Ok(None),
            },
            Event::StartDaemon { machine, name } => Ok(self.start_refusal(*machine, *name)),
            _ => Ok(self.machine_refusal(event, locks)),
        }
    }

    /// Why an event may not happen. For a command `locks` tells whether it is for lvmlockd's process. An `Err` is want of memory, at a tear
    /// alone: whether its bytes spell something is told by the bytes. Nothing that is seen changes.
    pub fn refusal(&mut self, event: &Event, locks: bool) -> Result<Option<Refusal>, AllocError>
        ensures exact { IfOk result (λ r. r ≡ refusal_with locks (kept_state L.locks self.old) event.now) }
        ensures total { OnErr result (is_tear event.now ≡ true) }
        ensures same { kept_state L.locks self.new ≡ kept_state L.locks self.old }
    {
        if !self.has_shape(event) {
            return Ok(Some(Refusal::Syntax));
        }
        self.reason(event, locks)
    }

    /// Whether the event is one that a line of this world may spell.
    #[tactic(auto, unfolding(crate::specs::KeptParts::kept_state))]
    fn has_shape(&self, event: &Event) -> bool
        ensures { result ≡ is_shaped_in (kept_state L.locks self.now).header event.now }
    {
        is_shaped(self.disks.header(), event)
    }

    /// A write takes effect in part, or why it may not. An `Err` is want of memory. Only where it takes effect something changes.
    pub fn tear(
        &mut self,
        machine: u32,
        call: u64,
        kept: u32,
        given: &Bytes,
    ) -> Result<Result<(), Refusal>, AllocError>
        ensures refused { IfOk result (λ x. IfErr x (λ r. first_that (tear_tests (kept_state L.locks self.old) machine call kept given.now) ≡ Some r)) }
        ensures allowed { IfOk result (λ x. OnOk x (first_that (tear_tests (kept_state L.locks self.old) machine call kept given.now) ≡ None)) }
        ensures torn { IfOk result (λ x. OnOk x (kept_state L.locks self.new ≡ torn_by machine call kept given.now (kept_state L.locks self.old))) }
        ensures same { IfOk result (λ x. OnErr x (kept_state L.locks self.new ≡ kept_state L.locks self.old)) }
        ensures err { OnErr result (kept_state L.locks self.new ≡ kept_state L.locks self.old) }
    {
        match self.tearing(machine, call, kept, given)? {
            Err(why) => Ok(Err(why)),
            Ok(landing) => {
                self.put(machine, call, landing, Outcome::Torn);
                Ok(Ok(()))
            }
        }
    }
}
