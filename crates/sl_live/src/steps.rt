//! What the threads of a machine do in a turn: give an input with all that follows of it, make a start and tell what it came to, tell an exit,
//! test the connections.
//!
//! An input is given at a reading of the thread's clock. What its step asks of the children is done then and there: its signals are sent, and its
//! starts are ordered. A start is made by a thread that holds no lock meanwhile. What it came to is taken in and told in one turn, for which the
//! children are lent, so no exit comes before its start is told.

ghost use Rattle.sl_cell.specs.Told.{IsTested};
ghost use Rattle.sl_live.specs.Turns.{GivesUp, Guards, Looks, MakesTurn, Starts, TellsStart, is_lapsed};
ghost use Rattle.sl_world_state.specs.Daemons.{read_of};
ghost use Rattle.std.specs.Prelude.{Bool, IfOk, IfSome, OnErr, OnOk, ℕ, ◌≡◌, ◌≤◌};

use crate::children::{Awaited, Children};
use sl_cell::{HostCell, NotApplied, Seat, Station, Teller};
use sl_outside::{Device, Spawner, StartedChild};
use sl_sector::Images;
use sl_time::Clock;
use sl_trace::{Effects, Input};
use std::alloc::AllocError;
use std::sync::Wait;

/// Gives an input, and does what its step asks of the children: the step's effects, or none where the input answers nothing that is open. An `Err` is
/// want of memory, or a history that is not the daemon's any more: nothing was done then, though the step may have been made. The sectors of a read
/// may be given beside its answer.
pub fn give_step<D: Teller, J: Station, R: Wait, C: Clock, P: Spawner>(
    rt: &R,
    cell: &HostCell<D, J>,
    seat: &mut Seat<J>,
    clock: &mut C,
    children: &mut Children<P>,
    input: Input,
    sectors: Option<&Images>,
) -> Result<Option<Effects>, AllocError>
    requires { IfSome sectors (λ i. (call : ℕ) × (input ≡ read_of call i.now)) }
    ensures ok { IfOk result (λ fx. MakesTurn P.acts P.faults P.running J.setting (C.last clock.new) fx input children.old children.new seat.old seat.new) }
    ensures err { OnErr result (GivesUp (C.last clock.new) input children.old children.new seat.old seat.new) }
    ensures clock { C.last clock.old ≤ C.last clock.new }
{
    let now = clock.now();
    match cell.apply(rt, seat, now, input, sectors) {
        Ok(effects) => {
            children.carry_out(&effects)?;
            Ok(Some(effects))
        }
        Err(NotApplied::Unasked) => Ok(None),
        Err(NotApplied::NoMemory) => Err(AllocError),
        Err(NotApplied::Broken) => Err(AllocError),
    }
}

/// What came of a start that was told: whether the child runs, and the effects of the step.
#[derive(Drop)]
pub struct Told {
    pub ok: bool,
    pub effects: Option<Effects>,
}

/// A child that has exited, and the effects of the step at its exit.
#[derive(Drop)]
pub struct Gone {
    pub process: u32,
    pub effects: Option<Effects>,
}

/// Makes a start that is awaited: the child, if it came to one. Where a signal was sent to its process before, nothing is started.
pub fn start_step<P: Spawner>(starter: &mut P, awaited: &Awaited) -> Option<StartedChild>
    ensures starts { Starts P.acts P.faults awaited.now starter.old starter.new result }
    ensures runs { P.running starter.new ≡ P.running starter.old }
{
    if awaited.signalled {
        return None;
    }
    starter
        .start(awaited.start.process, awaited.start.program.as_str())
        .ok()
}

/// Takes in what the start of a process came to, and tells it: whether it runs, and the step's effects. An `Err` is of the turn that tells it, as
/// above.
pub fn spawned_step<D: Teller, J: Station, R: Wait, C: Clock, P: Spawner>(
    rt: &R,
    cell: &HostCell<D, J>,
    seat: &mut Seat<J>,
    clock: &mut C,
    children: &mut Children<P>,
    process: u32,
    child: Option<StartedChild>,
) -> Result<Told, AllocError>
    ensures ok { IfOk result (λ t. TellsStart P.acts P.faults P.running process child t.ok
        (MakesTurn P.acts P.faults P.running J.setting (C.last clock.new) t.effects) children.old children.new seat.old seat.new) }
    ensures err { OnErr result ((ok : Bool) × TellsStart P.acts P.faults P.running process child ok (GivesUp (C.last clock.new))
        children.old children.new seat.old seat.new) }
    ensures clock { C.last clock.old ≤ C.last clock.new }
{
    let ok = children.take_in(process, child);
    let input = Input::Spawned { process, ok };
    match give_step(rt, cell, seat, clock, children, input, None) {
        Ok(effects) => Ok(Told { ok, effects }),
        Err(error) => Err(error),
    }
}

/// Polls the children once, and tells the exit of one, if one has exited and was not told before: which, and the step's effects. An `Err` is of the
/// turn that tells it.
pub fn child_step<D: Teller, J: Station, R: Wait, C: Clock, P: Spawner>(
    rt: &R,
    cell: &HostCell<D, J>,
    seat: &mut Seat<J>,
    clock: &mut C,
    children: &mut Children<P>,
) -> Result<Option<Gone>, AllocError>
    ensures looks { Looks P.acts P.faults P.running J.setting (C.last clock.new) children.old children.new seat.old seat.new result }
    ensures clock { C.last clock.old ≤ C.last clock.new }
{
    let Some(process) = children.poll() else {
        return Ok(None);
    };
    let input = Input::Exit { process };
    match give_step(rt, cell, seat, clock, children, input, None) {
        Ok(effects) => Ok(Some(Gone { process, effects })),
        Err(error) => Err(error),
    }
}

/// Tests the machine's connections at the clock's reading, and keeps the device from firing exactly where the test holds. Where the device
/// has fired by then, each child is killed and each awaited start marked, and nowhere else: whether it has. An `Err` is a history that is not the daemon's any more:
/// nothing was done then.
pub fn device_step<D: Teller, J: Station, R: Wait, C: Clock, P: Spawner, V: Device>(
    rt: &R,
    cell: &HostCell<D, J>,
    seat: &mut Seat<J>,
    clock: &mut C,
    device: &mut V,
    children: &mut Children<P>,
) -> Result<bool, AllocError>
    ensures ok { OnOk result ((answer : Bool) × IsTested J.setting seat.old seat.new (C.last clock.new) answer
        × Guards P.acts P.faults P.running (C.last clock.new) (V.last device.old) (V.last device.new) (V.fire device.old)
        children.old children.new answer) }
    ensures killed { IfOk result (λ killed. killed ≡ is_lapsed (V.last device.new) (V.fire device.old) (C.last clock.new)) }
    ensures err { OnErr result ((seat.new ≡ seat.old) × (children.new ≡ children.old) × (V.last device.new ≡ V.last device.old)) }
    ensures fire { V.fire device.new ≡ V.fire device.old }
    ensures clock { C.last clock.old ≤ C.last clock.new }
{
    let now = clock.now();
    let Ok(holds) = cell.test(rt, seat, now) else {
        return Err(AllocError);
    };
    if holds {
        device.keepalive(now);
    }
    let lapsed = device.lapsed(now);
    if lapsed {
        children.kill();
    }
    Ok(lapsed)
}
