//! The thread that starts programs. A start may take any time, as where a program lies on storage that hangs; so it is made with no lock held, and
//! all else goes on beside it: wakes and renewals, tests, signals and exits. Only other starts wait.

ghost use Rattle.sl_live.specs.CarriedOut.{IsTakenStart};
ghost use Rattle.sl_live.specs.Turns.{IsStarterThread, MakesTurn, TellsStart};
ghost use Rattle.sl_live_machine.specs.ServedActs.{StartsOn};
ghost use Rattle.sl_live_machine.specs.ThreadTurns.{OnChildren};
ghost use Rattle.sl_live_machine.specs.declared.turn.Happened.TheVariants.{Started};
ghost use Rattle.sl_outside.specs.declared.act.Act.{Act};
ghost use Rattle.std.specs.Prelude.{Bool, IfOk, List, OnErr, OnOk, Option, false, ◌||◌, ◌≡◌};

use crate::room::Room;
use crate::script_waits::Post;
use crate::thread_numbers::STARTER;
use crate::turn::{Happened, Turn};
use sl_cell::{Seat, Station, Teller};
use sl_live::Due;
use sl_live::laws::{Told, start_step};
use sl_outside::{Spawner, StartedChild};
use sl_time::Clock;
use std::alloc::AllocError;
use std::sync::Wait;

/// A spawner that makes a machine's starts, and whether all children of the machine were killed before it took the last one.
#[derive(Drop)]
pub(crate) struct Starter<P: Spawner> {
    pub spawner: P,
    pub killed: bool,
}

impl<P: Spawner> Starter<P> {
    /// A starter that has taken no start yet.
    pub(crate) fn new(spawner: P) -> Starter<P>
        ensures spawner { result.spawner ≡ spawner }
        ensures killed { result.killed ≡ false }
    {
        Starter {
            spawner,
            killed: false,
        }
    }

    /// Notes whether all children were killed by now.
    fn note(&mut self, killed: bool)
        ensures killed { self.new.killed ≡ (self.old.killed || killed) }
        ensures spawner { self.new.spawner ≡ self.old.spawner }
    {
        self.killed = self.killed || killed;
    }
}

/// Takes the start that is to be made next, if there is one. An `Err` is a count that differs, which can't be.
fn take<D: Teller, J: Station, R: Wait, P: Spawner>(
    rt: &R,
    room: &Room<D, J, P>,
    seat: &mut Seat<J>,
) -> Result<Option<Due>, AllocError>
    ensures taken { IfOk result (λ o. IsTakenStart seat.old seat.new o) }
    ensures broken { OnErr result (seat.new ≡ seat.old) }
{
    match room.children.lock(rt).take(seat) {
        Ok(due) => Ok(due),
        Err(_) => Err(AllocError),
    }
}

/// Takes in what a start came to, and tells it. An `Err` is want of memory.
fn tell<D: Teller, J: Station, R: Wait, C: Clock, P: Spawner>(
    rt: &R,
    room: &Room<D, J, P>,
    seat: &mut Seat<J>,
    clock: &mut C,
    process: u32,
    child: Option<StartedChild>,
) -> Result<Turn, AllocError>
    ensures tells { IfOk result (λ t. (ok : Bool) × (t.happened ≡ Started process ok) × OnChildren (λ before after.
        TellsStart P.acts P.faults P.running process child ok (MakesTurn P.acts P.faults P.running J.setting (C.last clock.new) t.effects)
        before after seat.old seat.new)) }
    ensures thread { OnOk result (IsStarterThread seat.old → IsStarterThread seat.new) }
{
    let mut children = room.children.lock(rt);
    let told = children.tell_start(rt, &room.cell, seat, clock, process, child)?;
    let Told { ok, effects } = told;
    Ok(Turn {
        happened: Happened::Started { process, ok },
        effects,
    })
}

/// Makes the start that is next, if there is one, and tells what it came to: the turn, if there was one. An `Err` is want of memory.
fn serve<D: Teller, J: Station, R: Wait, C: Clock, P: Spawner>(
    rt: &R,
    room: &Room<D, J, P>,
    seat: &mut Seat<J>,
    clock: &mut C,
    starter: &mut Starter<P>,
) -> Result<Option<Turn>, AllocError>
    ensures thread { OnOk result (IsStarterThread seat.old → IsStarterThread seat.new) }
    ensures starts { OnOk result ((before : Option (List Act)) → StartsOn J.setting starter.old.killed before (P.acts starter.old.spawner) seat.old
        → StartsOn J.setting starter.new.killed before (P.acts starter.new.spawner) seat.new) }
{
    let Some(due) = take(rt, room, seat)? else {
        return Ok(None);
    };
    starter.note(due.killed);
    let child = start_step(&mut starter.spawner, &due.awaited);
    let process = due.awaited.start.process;
    let turn = tell(rt, room, seat, clock, process, child)?;
    Ok(Some(turn))
}

/// A turn that has begun: whether there was a start to make. An `Err` is want of memory.
fn turn<D: Teller, J: Station, R: Wait, C: Clock, P: Spawner>(
    rt: &R,
    room: &Room<D, J, P>,
    post: &Post,
    seat: &mut Seat<J>,
    clock: &mut C,
    starter: &mut Starter<P>,
) -> Result<bool, AllocError>
    ensures thread { OnOk result (IsStarterThread seat.old → IsStarterThread seat.new) }
    ensures starts { OnOk result ((before : Option (List Act)) → StartsOn J.setting starter.old.killed before (P.acts starter.old.spawner) seat.old
        → StartsOn J.setting starter.new.killed before (P.acts starter.new.spawner) seat.new) }
{
    let served = serve(rt, room, seat, clock, starter)?;
    post.end_turn_of(rt, &served)?;
    Ok(served.is_some())
}

/// Makes starts until the machine ends. An `Err` is want of memory.
fn start_each<D: Teller, J: Station, R: Wait, C: Clock, P: Spawner>(
    rt: &R,
    room: &Room<D, J, P>,
    post: &Post,
    seat: &mut Seat<J>,
    clock: &mut C,
    starter: &mut Starter<P>,
) -> Result<(), AllocError>
    ensures thread { OnOk result (IsStarterThread seat.old → IsStarterThread seat.new) }
    ensures starts { OnOk result ((before : Option (List Act)) → StartsOn J.setting starter.old.killed before (P.acts starter.old.spawner) seat.old
        → StartsOn J.setting starter.new.killed before (P.acts starter.new.spawner) seat.new) }
{
    for _ in rt.forever() {
        let seen = post.starter.moves(rt);
        if !post.begin_turn(rt) {
            break;
        }
        if !turn(rt, room, post, seat, clock, starter)? {
            post.starter.wait_past(rt, seen);
        }
    }
    Ok(())
}

/// The thread's whole course: what it told, and the starts that it made. An `Err` is want of memory.
#[tactic(auto, using(crate::proofs::SeatLaws::starts_none))]
pub(crate) fn start_programs<D: Teller, J: Station, R: Wait, C: Clock, P: Spawner>(
    rt: &R,
    room: &Room<D, J, P>,
    post: &Post,
    mut clock: C,
    starter: &mut Starter<P>,
) -> Result<Seat<J>, AllocError>
    ensures thread { IfOk result (λ s. IsStarterThread s) }
    ensures starts { IfOk result (λ s. StartsOn J.setting starter.new.killed (P.acts starter.old.spawner) (P.acts starter.new.spawner) s) }
{
    let mut seat = room.cell.seat(STARTER, &room.front);
    start_each(rt, room, post, &mut seat, &mut clock, starter)?;
    Ok(seat)
}
