//! The thread that tells the daemon which children have exited. No wait of the system's is for any one of several children, so it asks at
//! intervals while one runs: each twice as long as the one before, from 1 to 16 milliseconds, and the shortest again once a child has exited.

ghost use Rattle.sl_live.specs.Turns.{IsChildThread};
ghost use Rattle.sl_live_machine.specs.ThreadTurns.{LooksTurn, OnChildren, exit_turn, outcome};
ghost use Rattle.std.specs.Prelude.{IfOk, OnOk, ◌≡◌};

use crate::room::Room;
use crate::script_waits::Post;
use crate::thread_numbers::CHILDREN;
use crate::turn::{Happened, Turn};
use sl_cell::{Seat, Station, Teller};
use sl_live::laws::Gone;
use sl_outside::Spawner;
use sl_time::Clock;
use std::alloc::AllocError;
use std::sync::Wait;
use std::time;
use std::time::Duration;

/// The shortest interval, in milliseconds, and the longest.
const SHORTEST: u64 = 1;

const LONGEST: u64 = 16;

/// What a look for an exited child has found.
#[derive(Clone, Copy)]
enum Found {
    Exited,
    AllRun,
    NoneRuns,
}

/// The turn that told an exit.
fn turn_of(gone: Gone) -> Turn
    ensures { result ≡ exit_turn gone }
{
    let Gone { process, effects } = gone;
    Turn {
        happened: Happened::Exited { process },
        effects,
    }
}

/// What a look came to that told an exit or found none, and that left no child or did: what was found, and the turn.
fn outcome(gone: Option<Gone>, idle: bool) -> (Found, Option<Turn>)
    ensures { result ≡ outcome gone idle }
{
    match gone {
        Some(gone) => (Found::Exited, Some(turn_of(gone))),
        None => (if idle { Found::NoneRuns } else { Found::AllRun }, None),
    }
}

/// Tells the exit of one of the children that stand under their lock, if one has exited: what was found, and the turn. An `Err` is want of memory.
#[tactic(auto, using(crate::proofs::SeatLaws::looks_on))]
fn look<D: Teller, J: Station, R: Wait, C: Clock, P: Spawner>(
    rt: &R,
    room: &Room<D, J, P>,
    seat: &mut Seat<J>,
    clock: &mut C,
) -> Result<(Found, Option<Turn>), AllocError>
    ensures looks { OnChildren (λ before after. LooksTurn P.acts P.faults P.running J.setting (C.last clock.new) before after seat.old seat.new result) }
    ensures thread { OnOk result (IsChildThread seat.old → IsChildThread seat.new) }
{
    let mut children = room.children.lock(rt);
    match children.tell_exit(rt, &room.cell, seat, clock) {
        Ok(gone) => Ok(outcome(gone, children.is_idle())),
        Err(error) => Err(error),
    }
}

/// A turn that has begun: what its look has found. An `Err` is want of memory.
fn turn<D: Teller, J: Station, R: Wait, C: Clock, P: Spawner>(
    rt: &R,
    room: &Room<D, J, P>,
    post: &Post,
    seat: &mut Seat<J>,
    clock: &mut C,
) -> Result<Found, AllocError>
    ensures { OnOk result (IsChildThread seat.old → IsChildThread seat.new) }
{
    let (found, turn) = look(rt, room, seat, clock)?;
    post.end_turn_of(rt, &turn)?;
    Ok(found)
}

/// Waits for the next look, after one that found this: the interval behind that.
fn wait<R: Wait + time::Clock>(rt: &R, post: &Post, seen: u64, found: Found, interval: u64) -> u64 {
    match found {
        Found::Exited => SHORTEST,
        Found::AllRun => {
            let most = Duration::from_millis(interval);
            post.children.wait_at_most(rt, seen, most);
            interval.saturating_mul(2).min(LONGEST)
        }
        Found::NoneRuns => {
            post.children.wait_past(rt, seen);
            SHORTEST
        }
    }
}

/// Tells exits until the machine ends. An `Err` is want of memory.
#[tactic(auto, using(crate::proofs::SeatLaws::exits_none))]
pub(crate) fn tell_exits<D: Teller, J: Station, R: Wait + time::Clock, C: Clock, P: Spawner>(
    rt: &R,
    room: &Room<D, J, P>,
    post: &Post,
    mut clock: C,
) -> Result<Seat<J>, AllocError>
    ensures { IfOk result (λ s. IsChildThread s) }
{
    let mut seat = room.cell.seat(CHILDREN, &room.front);
    let mut interval = SHORTEST;
    for _ in rt.forever() {
        let seen = post.children.moves(rt);
        if !post.begin_turn(rt) {
            break;
        }
        let found = turn(rt, room, post, &mut seat, &mut clock)?;
        interval = wait(rt, post, seen, found, interval);
    }
    Ok(seat)
}
