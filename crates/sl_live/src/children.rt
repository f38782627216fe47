//! A machine's children: its spawner, their numbers, and the starts that are awaited.
//!
//! A start may take any time, so it is ordered here and made elsewhere, with no lock held; what it came to is taken in here. A number stands
//! here from the order on, until its start has failed or the spawner tells that the child has exited. So a kill of all reaches each child that
//! runs. One that is awaited is marked by it, as by any signal: a marked start is not made, and where it is under way, the child is killed as
//! it comes.

ghost use Rattle.sl_live.specs.Turns.{Carries, Does, IsQuiet, TakesIn, doomed, is_doomed, kill_of, marked, names, number_of, ordered, sent_by, told_off, without};
ghost use Rattle.sl_io.specs.FaultCauses.{Rose};
ghost use Rattle.sl_outside.specs.Acts.{Grows, IsTold};
ghost use Rattle.std.specs.Prelude.{IfNone, IfSome, OnErr, OnOk, false, if◌then◌else◌, length, map, position, slice_get, true, vec_capacity, vec_len, [], ◌&&◌, ◌++◌, ◌+◌, ◌<◌, ◌==◌, ◌∷◌, ◌≡◌, ◌≤◌};

use sl_outside::{Spawner, StartedChild};
use sl_trace::{Effects, Sent, Signal, Start};
use std::alloc::{AllocError, Global};
use std::marker::Model;

/// A start that was ordered and came to nothing yet, and whether a signal was sent to its process since.
#[derive(Clone, Copy)]
pub struct Awaited {
    pub start: Start,
    pub signalled: bool,
}

/// Sends the signals of a step.
fn send_all<P: Spawner>(spawner: &mut P, signals: &[Sent])
    ensures { Does P.acts P.faults P.running spawner.old spawner.new (map sent_by signals.now) }
{
    for sent in signals {
        spawner.signal(sent.process, sent.signal);
    }
}

/// Sends a kill to each of these.
fn kill_all<P: Spawner>(spawner: &mut P, numbers: &[u32])
    ensures { Does P.acts P.faults P.running spawner.old spawner.new (map kill_of numbers.now) }
{
    for number in numbers {
        spawner.signal(*number, Signal::Kill);
    }
}

/// Whether one of these signals is sent to this process.
fn names(signals: &[Sent], process: u32) -> bool
    ensures { result ≡ names signals.now process }
{
    signals.iter().any(|sent| sent.process == process)
}

/// The start, marked where one of these signals is sent to its process.
fn marked(waiting: Awaited, signals: &[Sent]) -> Awaited
    ensures { result ≡ marked signals.now waiting }
{
    Awaited {
        start: waiting.start,
        signalled: waiting.signalled || names(signals, waiting.start.process),
    }
}

/// Marks the starts to whose processes these signals are sent.
fn mark(awaited: &mut [Awaited], signals: &[Sent])
    ensures { awaited.new ≡ map (marked signals.now) awaited.old }
{
    for waiting in awaited.iter_mut() {
        *waiting = marked(*waiting, signals);
    }
}

/// The start, marked: it is not made, or its child is killed as it comes.
fn doomed(waiting: Awaited) -> Awaited
    ensures { result ≡ doomed waiting }
{
    Awaited {
        start: waiting.start,
        signalled: true,
    }
}

/// Marks all of these starts.
fn mark_all(awaited: &mut [Awaited])
    ensures { awaited.new ≡ map doomed awaited.old }
{
    for waiting in awaited.iter_mut() {
        *waiting = doomed(*waiting);
    }
}

/// Awaits the starts of a step, behind those before them.
fn await_all(numbers: &mut Vec<u32>, awaited: &mut Vec<Awaited>, starts: &[Start])
    requires numbers { vec_len numbers.old + length starts.now ≤ vec_capacity numbers.old }
    requires awaited { vec_len awaited.old + length starts.now ≤ vec_capacity awaited.old }
    ensures numbers { numbers.new.items ≡ numbers.old.items ++ map number_of starts.now }
    ensures awaited { awaited.new.items ≡ awaited.old.items ++ map ordered starts.now }
{
    for start in starts {
        numbers.push_reserved(start.process);
        awaited.push_reserved(Awaited {
            start: *start,
            signalled: false,
        });
    }
}

/// The place of the first of this number.
fn place_of(numbers: &[u32], number: u32) -> Option<usize>
    ensures exact { result ≡ position (λ k. k == number) numbers.now }
    ensures within { IfSome result (λ k. k < length numbers.now) }
{
    numbers.iter().position(|other| *other == number)
}

/// Takes the first of this number out of these.
#[tactic(auto, using(crate::proofs::TurnLaws::without_some, crate::proofs::TurnLaws::without_none))]
fn remove(numbers: &mut Vec<u32>, number: u32)
    ensures { numbers.new.items ≡ without number numbers.old.items }
{
    match place_of(numbers, number) {
        Some(place) => {
            numbers.remove(place);
        }
        None => {}
    }
}

/// Whether a signal was sent to this process while its start was awaited.
fn is_doomed(awaited: &[Awaited], process: u32) -> bool
    ensures { result ≡ is_doomed process awaited.now }
{
    awaited.iter().any(|waiting| waiting.start.process == process && waiting.signalled)
}

/// The place of the first start of this process.
fn awaited_at(awaited: &[Awaited], process: u32) -> Option<usize>
    ensures exact { result ≡ position (λ (w : Awaited). w.start.process == process) awaited.now }
    ensures within { IfSome result (λ k. k < length awaited.now) }
{
    awaited
        .iter()
        .position(|waiting| waiting.start.process == process)
}

/// Takes the first start of this process out of these.
#[tactic(auto, using(crate::proofs::TurnLaws::off_some, crate::proofs::TurnLaws::off_none))]
fn tell_off(awaited: &mut Vec<Awaited>, process: u32)
    ensures { awaited.new.items ≡ told_off process awaited.old.items }
{
    match awaited_at(awaited, process) {
        Some(place) => {
            awaited.remove(place);
        }
        None => {}
    }
}

/// Takes in a child under its number, and kills it where it is to end at once: whether it was taken in.
fn add<P: Spawner>(spawner: &mut P, process: u32, child: StartedChild, ends: bool) -> bool
    ensures grows { Grows (P.acts spawner.old) (P.acts spawner.new) (if result && ends then kill_of process ∷ [] else []) }
    ensures later { P.faults spawner.old ≤ P.faults spawner.new }
    ensures runs { P.running spawner.new ≡ P.running spawner.old ++ (if result then process ∷ [] else []) }
    ensures failed { result ≡ false → Rose (P.faults spawner.old) (P.faults spawner.new) }
{
    if spawner.add(process, child).is_err() {
        return false;
    }
    if ends {
        spawner.signal(process, Signal::Kill);
    }
    true
}

/// A machine's spawner, with the numbers of its children and the starts that are awaited.
#[derive(Drop)]
pub struct Children<P: Spawner> {
    spawner: P,
    numbers: Vec<u32>,
    awaited: Vec<Awaited>,
}

impl<P: Spawner> Model for Children<P> {
    ghost use Rattle.sl_live.specs.Turns.{ChildrenState};

    ghost Value = { ChildrenState P };

    ghost view = { λ c. record { spawner = c.spawner; numbers = c.numbers.items; awaited = c.awaited.items } };
}

impl<P: Spawner> Children<P> {
    /// The children of a spawner that has none.
    pub fn new(alloc: Global, spawner: P) -> Children<P>
        ensures { result ≡ record { spawner = spawner; numbers = []; awaited = [] } }
    {
        Children {
            spawner,
            numbers: Vec::new(alloc),
            awaited: Vec::new(alloc),
        }
    }

    /// A spawner that starts the children's programs. It has no child, and has counted no fault.
    pub fn starter(&mut self) -> P
        ensures fresh { P.faults result ≡ 0 }
        ensures idle { P.running result ≡ [] }
        ensures runs { P.running self.new.spawner ≡ P.running self.old.spawner }
        ensures quiet { IsQuiet P.acts P.faults self.old.spawner self.new.spawner }
        ensures numbers { self.new.numbers ≡ self.old.numbers }
        ensures awaited { self.new.awaited ≡ self.old.awaited }
    {
        self.spawner.starter()
    }

    /// The spawner back, when the machine's run is over.
    pub(crate) fn into_spawner(self) -> P
        ensures { result ≡ self.spawner }
    {
        self.spawner
    }

    /// Whether none runs, and none is awaited.
    pub fn is_idle(&self) -> bool
        ensures { result ≡ (length self.now.numbers == 0) }
    {
        self.numbers.is_empty()
    }

    /// The start that was ordered first of those that are awaited, if there is one.
    pub fn next(&self) -> Option<Awaited>
        ensures { result ≡ slice_get self.now.awaited 0 }
    {
        self.awaited.first().copied()
    }

    /// Does all that a step asks of the children: sends its signals, and orders its starts. An `Err` is want of memory, and nothing was done.
    pub(crate) fn carry_out(&mut self, effects: &Effects) -> Result<(), AllocError>
        ensures ok { OnOk result (Carries P.acts P.faults P.running effects.now self.old self.new) }
        ensures err { OnErr result (self.new ≡ self.old) }
    {
        let signals = effects.signals.as_slice();
        let starts = effects.starts.as_slice();
        self.numbers.reserve(starts.len())?;
        self.awaited.reserve(starts.len())?;
        send_all(&mut self.spawner, signals);
        mark(&mut self.awaited, signals);
        await_all(&mut self.numbers, &mut self.awaited, starts);
        Ok(())
    }

    /// Takes in what the start of this process came to: whether the child runs. One to which a signal was sent meanwhile is killed.
    pub(crate) fn take_in(&mut self, process: u32, child: Option<StartedChild>) -> bool
        ensures { TakesIn P.acts P.faults P.running process child self.old self.new result }
    {
        let ends = is_doomed(&self.awaited, process);
        tell_off(&mut self.awaited, process);
        let runs = match child {
            Some(child) => add(&mut self.spawner, process, child, ends),
            None => false,
        };
        if !runs {
            remove(&mut self.numbers, process);
        }
        runs
    }

    /// A child that has exited and was not told before, if there is one.
    pub(crate) fn poll(&mut self) -> Option<u32>
        ensures told { IsTold result (P.running self.old.spawner) (P.running self.new.spawner) }
        ensures gone { IfSome result (λ p. self.new.numbers ≡ without p self.old.numbers) }
        ensures none { IfNone result (self.new.numbers ≡ self.old.numbers) }
        ensures awaited { self.new.awaited ≡ self.old.awaited }
        ensures quiet { IsQuiet P.acts P.faults self.old.spawner self.new.spawner }
    {
        let exited = self.spawner.poll();
        if let Some(number) = exited {
            remove(&mut self.numbers, number);
        }
        exited
    }

    /// Sends a kill to each child, and marks each awaited start.
    pub fn kill(&mut self)
        ensures does { Does P.acts P.faults P.running self.old.spawner self.new.spawner (map kill_of self.old.numbers) }
        ensures numbers { self.new.numbers ≡ self.old.numbers }
        ensures awaited { self.new.awaited ≡ map doomed self.old.awaited }
    {
        kill_all(&mut self.spawner, &self.numbers);
        mark_all(&mut self.awaited);
    }
}
