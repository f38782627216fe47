//! A machine's children beside the front of the history whose effects were carried out.
//!
//! Each turn lends them under one lock: it applies its input to the cell, and carries out then and there what the step asks for. So the entries come
//! here one after another, each next behind the front: what was signalled and what is awaited is what the history makes of it (`AreCarried`). That an
//! entry is the next one is compared, by the lengths of two fronts. Where it is not, which can't be, all this is given up for good: the run then has no
//! whole history (`is_whole`).
//!
//! A start is dealt with in two turns: the starter takes it (`take`), makes it with no lock held, and tells what it came to (`tell_start`). It takes
//! starts in the order in which they were ordered, since it has dealt with as many as are counted here.

ghost use Rattle.sl_book.specs.Logs.{entries};
ghost use Rattle.sl_cell.specs.Told.{IsTested};
ghost use Rattle.sl_live.specs.CarriedOut.{FollowsStart, FollowsTurn, HasSignalled, IsApart, IsTakenStart, due_in, is_childless, is_for, is_next};
ghost use Rattle.sl_live.specs.Turns.{Does, GivesUp, Guards, Looks, MakesTurn, TellsStart, doomed, is_lapsed, kill_of};
ghost use Rattle.sl_outside.specs.Acts.{Tells};
ghost use Rattle.sl_world_state.specs.Daemons.{read_of};
ghost use Rattle.std.specs.Prelude.{Bool, IfOk, IfSome, IsFalse, IsTrue, OnErr, OnOk, false, is_some, length, map, true, [], ℕ, ◌&&◌, ◌+◌, ◌==◌, ◌||◌, ◌≡◌, ◌≤◌};
ghost use mathlib.Core.List.{IsPrefix};

use crate::children::{Awaited, Children};
use crate::steps::{Gone, Told, child_step, device_step, give_step, spawned_step};
use sl_cell::{Broken, Front, HostCell, Seat, Station, Teller};
use sl_outside::{Device, Spawner, StartedChild};
use sl_sector::Images;
use sl_time::Clock;
use sl_trace::{Effects, Input};
use std::alloc::{AllocError, Global};
use std::marker::Model;
use std::sync::Wait;

/// A start that is to be made next, and whether all children were killed by then.
#[derive(Clone, Copy)]
pub struct Due {
    pub awaited: Awaited,
    pub killed: bool,
}

/// Whether the input tells nothing of a child.
fn is_childless(input: &Input) -> bool
    ensures { result ≡ is_childless input.now }
{
    match input {
        Input::Line(_) => true,
        Input::Number(_) => true,
        Input::Answer { .. } => true,
        Input::Wake => true,
        Input::Exit { .. } => false,
        Input::Spawned { .. } => false,
    }
}

/// Whether both are so.
fn both(one: bool, other: bool) -> bool
    ensures { result ≡ (one && other) }
{
    one && other
}

/// Whether one of them is so.
fn either(one: bool, other: bool) -> bool
    ensures { result ≡ (one || other) }
{
    one || other
}

/// Whether a step was made.
fn is_made(effects: &Option<Effects>) -> bool
    ensures { result ≡ is_some effects.now }
{
    effects.is_some()
}

/// Whether the second count is the one behind the first.
fn is_one_more(before: u64, now: u64) -> bool
    ensures { result ≡ (now == before + 1) }
{
    now > before && now - before == 1
}

/// Moves a front to what the seat has seen: whether that is one entry more.
fn follow<J: Station>(front: &mut Front<J>, seat: &Seat<J>) -> bool
    ensures moved { front.new ≡ seat.now.front }
    ensures behind { IsTrue result → IsPrefix front.old seat.now.front }
    ensures next { result ≡ is_next front.old seat.now.front }
{
    let seen = seat.front();
    let next = front.is_behind(seen) && is_one_more(front.len(), seen.len());
    *front = seen.again();
    next
}

/// Whether an awaited start, if there is one, is of this process.
fn is_of(awaited: Option<Awaited>, process: u32) -> bool
    ensures { result ≡ is_for process awaited }
{
    match awaited {
        Some(awaited) => awaited.start.process == process,
        None => false,
    }
}

/// The children of a machine, with the front of its history up to which its signals and starts were carried out. It takes no memory beside theirs.
#[derive(Drop)]
pub struct Carried<P: Spawner, J: Station> {
    children: Children<P>,
    front: Front<J>,
    /// How many starts of the history were dealt with.
    taken: u64,
    /// Whether all children were killed at some time.
    killed: bool,
    /// Whether what is said here is so.
    whole: bool,
}

impl<P: Spawner, J: Station> Model for Carried<P, J> {
    ghost use Rattle.sl_live.specs.CarriedOut.{CarriedState, IsCarried};

    ghost Value = { CarriedState P };

    ghost view = { λ c. record { children = c.children; front = c.front; taken = c.taken; killed = c.killed; whole = c.whole } };

    ghost invariant = { λ c. IsCarried P.acts (record { children = c.children; front = c.front; taken = c.taken; killed = c.killed; whole = c.whole }) };
}

impl<P: Spawner, J: Station> Carried<P, J> {
    /// The children of a spawner that was asked for nothing yet, for one who has seen nothing.
    pub fn new(alloc: Global, spawner: P, front: Front<J>) -> Carried<P, J>
        requires spawner { Tells (P.acts spawner) [] }
        requires front { front ≡ [] }
        ensures { result ≡ record { children = record { spawner = spawner; numbers = []; awaited = [] }; front = []; taken = 0; killed = false; whole = true } }
    {
        Carried {
            children: Children::new(alloc, spawner),
            front,
            taken: 0,
            killed: false,
            whole: true,
        }
    }

    /// Whether none runs, and none is awaited.
    pub fn is_idle(&self) -> bool
        ensures { result ≡ (length self.now.children.numbers == 0) }
    {
        self.children.is_idle()
    }

    /// Whether all children were killed at some time: the watchdog device had fired, or the run had failed.
    pub fn has_killed(&self) -> bool
        ensures { result ≡ self.now.killed }
    {
        self.killed
    }

    /// Whether the signals that were sent are those of this front's history: else another entry came between, which can't be.
    pub fn is_whole(&self, mine: &Front<J>) -> bool
        ensures signals { IsTrue result → HasSignalled (entries mine.now) self.now.killed (P.acts self.now.children.spawner) }
        ensures whole { IsTrue result → (self.now.whole ≡ true) × (self.now.front ≡ mine.now) }
        ensures apart { IsFalse result → self.now.whole ≡ true → self.now.front ≡ mine.now → ⊥ }
    {
        self.whole && self.front.is_same(mine)
    }

    /// The spawner, with all that it was asked for.
    pub fn into_spawner(self) -> P
        ensures { result ≡ self.children.spawner }
    {
        self.children.into_spawner()
    }

    /// Takes the start that is to be made next, if there is one, for a thread that took all before it. `Broken` says that it took others, or that it
    /// has seen what did not come here, or that this is not whole. The seat is as it was then.
    pub fn take(&self, seat: &mut Seat<J>) -> Result<Option<Due>, Broken>
        ensures taken { IfOk result (λ o. IsTakenStart seat.old seat.new o) }
        ensures due { IfOk result (λ o. o ≡ due_in self.now) }
        ensures broken { OnErr result (seat.new ≡ seat.old) }
        ensures apart { OnErr result (IsApart self.now seat.old) }
    {
        let Some(awaited) = self.children.next() else {
            return Ok(None);
        };
        let before = seat.taken();
        if !self.whole {
            return Err(Broken);
        }
        if before != self.taken {
            return Err(Broken);
        }
        if before == u64::MAX {
            return Err(Broken);
        }
        if !seat.is_behind(&self.front) {
            return Err(Broken);
        }
        seat.see(&self.front, before + 1);
        Ok(Some(Due {
            awaited,
            killed: self.killed,
        }))
    }

    /// Gives an input that tells nothing of a child, as `give_step` does.
    pub fn give<D: Teller, R: Wait, C: Clock>(
        &mut self,
        rt: &R,
        cell: &HostCell<D, J>,
        seat: &mut Seat<J>,
        clock: &mut C,
        input: Input,
        sectors: Option<&Images>,
    ) -> Result<Option<Effects>, AllocError>
        requires { IfSome sectors (λ i. (call : ℕ) × (input ≡ read_of call i.now)) }
        ensures ok { IfOk result (λ fx. MakesTurn P.acts P.faults P.running J.setting (C.last clock.new) fx input self.old.children self.new.children seat.old seat.new) }
        ensures err { OnErr result (GivesUp (C.last clock.new) input self.old.children self.new.children seat.old seat.new) }
        ensures beside { FollowsTurn (λ fx. is_childless input) seat.new.front self.old self.new result }
        ensures clock { C.last clock.old ≤ C.last clock.new }
    {
        let childless = is_childless(&input);
        let before = both(self.whole, childless);
        match give_step(rt, cell, seat, clock, &mut self.children, input, sectors) {
            Ok(Some(effects)) => {
                let next = follow(&mut self.front, seat);
                let whole = both(next, before);
                self.whole = whole;
                Ok(Some(effects))
            }
            Ok(None) => Ok(None),
            Err(error) => {
                self.whole = false;
                Err(error)
            }
        }
    }

    /// Takes in what the start of a process came to, and tells it, as `spawned_step` does.
    pub fn tell_start<D: Teller, R: Wait, C: Clock>(
        &mut self,
        rt: &R,
        cell: &HostCell<D, J>,
        seat: &mut Seat<J>,
        clock: &mut C,
        process: u32,
        child: Option<StartedChild>,
    ) -> Result<Told, AllocError>
        ensures ok { IfOk result (λ t. TellsStart P.acts P.faults P.running process child t.ok
            (MakesTurn P.acts P.faults P.running J.setting (C.last clock.new) t.effects) self.old.children self.new.children seat.old seat.new) }
        ensures err { OnErr result ((ok : Bool) × TellsStart P.acts P.faults P.running process child ok (GivesUp (C.last clock.new))
            self.old.children self.new.children seat.old seat.new) }
        ensures beside { FollowsStart process seat.old seat.new.front self.old self.new result }
        ensures clock { C.last clock.old ≤ C.last clock.new }
    {
        let taken = seat.taken();
        let first = is_of(self.children.next(), process);
        let counted = is_one_more(self.taken, taken);
        let due = both(first, counted);
        match spawned_step(rt, cell, seat, clock, &mut self.children, process, child) {
            Ok(told) => {
                let next = follow(&mut self.front, seat);
                let made = is_made(&told.effects);
                let fits = both(due, made);
                let before = both(self.whole, fits);
                let whole = both(next, before);
                self.whole = whole;
                self.taken = taken;
                Ok(told)
            }
            Err(error) => {
                self.whole = false;
                Err(error)
            }
        }
    }

    /// Tells the exit of one child, if one has exited, as `child_step` does.
    pub fn tell_exit<D: Teller, R: Wait, C: Clock>(
        &mut self,
        rt: &R,
        cell: &HostCell<D, J>,
        seat: &mut Seat<J>,
        clock: &mut C,
    ) -> Result<Option<Gone>, AllocError>
        ensures looks { Looks P.acts P.faults P.running J.setting (C.last clock.new) self.old.children self.new.children seat.old seat.new result }
        ensures beside { FollowsTurn (λ gone. is_some gone.effects) seat.new.front self.old self.new result }
        ensures clock { C.last clock.old ≤ C.last clock.new }
    {
        match child_step(rt, cell, seat, clock, &mut self.children) {
            Ok(Some(gone)) => {
                let next = follow(&mut self.front, seat);
                let made = is_made(&gone.effects);
                let before = both(self.whole, made);
                let whole = both(next, before);
                self.whole = whole;
                Ok(Some(gone))
            }
            Ok(None) => Ok(None),
            Err(error) => {
                self.whole = false;
                Err(error)
            }
        }
    }

    /// Tests the machine's connections, as `device_step` does.
    pub fn test<D: Teller, R: Wait, C: Clock, V: Device>(
        &mut self,
        rt: &R,
        cell: &HostCell<D, J>,
        seat: &mut Seat<J>,
        clock: &mut C,
        device: &mut V,
    ) -> Result<(), AllocError>
        ensures ok { OnOk result ((answer : Bool) × IsTested J.setting seat.old seat.new (C.last clock.new) answer
            × Guards P.acts P.faults P.running (C.last clock.new) (V.last device.old) (V.last device.new) (V.fire device.old)
            self.old.children self.new.children answer) }
        ensures killed { OnOk result (self.new.killed ≡ (self.old.killed || is_lapsed (V.last device.new) (V.fire device.old) (C.last clock.new))) }
        ensures err { OnErr result ((seat.new ≡ seat.old) × (self.new ≡ self.old) × (V.last device.new ≡ V.last device.old)) }
        ensures beside { (self.new.front ≡ self.old.front) × (self.new.taken ≡ self.old.taken) × (self.new.whole ≡ self.old.whole) }
        ensures fire { V.fire device.new ≡ V.fire device.old }
        ensures clock { C.last clock.old ≤ C.last clock.new }
    {
        let killed = device_step(rt, cell, seat, clock, device, &mut self.children)?;
        let killed = either(self.killed, killed);
        self.killed = killed;
        Ok(())
    }

    /// Sends a kill to each child, and marks each awaited start.
    pub fn kill(&mut self)
        ensures does { Does P.acts P.faults P.running self.old.children.spawner self.new.children.spawner (map kill_of self.old.children.numbers) }
        ensures numbers { self.new.children.numbers ≡ self.old.children.numbers }
        ensures awaited { self.new.children.awaited ≡ map doomed self.old.children.awaited }
        ensures killed { self.new.killed ≡ true }
        ensures beside { (self.new.front ≡ self.old.front) × (self.new.taken ≡ self.old.taken) × (self.new.whole ≡ self.old.whole) }
    {
        self.children.kill();
        self.killed = true;
    }
}
