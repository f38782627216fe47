//! The thread that gives the daemon the script's lines, in their order. No other thread gives a line.
//!
//! A line for lvmlockd is given as one that takes a number; then each ask that the locks make of it is given as a line of the host's, when the
//! reply to the one before has come. The reply comes by a step of any thread, and is noted on the post.

ghost use Rattle.sl_live.specs.Turns.{IsLine, IsLineThread};
ghost use Rattle.std.specs.Prelude.{IfOk, OnOk, [], ◌≡◌};

use crate::board::Next;
use crate::room::Room;
use crate::script_waits::Post;
use crate::thread_numbers::LINES;
use crate::turn::{Turn, give};
use sl_cell::{Seat, Station, Teller};
use sl_live_lines::GivenLine;
use sl_locks::{LockInput, LvmLocks, StepTold};
use sl_outside::Spawner;
use sl_text::{Bytes, Seq};
use sl_time::Clock;
use sl_trace::{Effects, Input, JobReply};
use std::alloc::{AllocError, Global};
use std::sync::Wait;

/// A list of nothing.
fn none<T>(alloc: Global) -> Seq<T>
    ensures { result ≡ [] }
{
    Seq::new(Vec::new(alloc))
}

/// Effects that are these replies alone.
fn effects_of(alloc: Global, replies: Vec<JobReply>) -> Effects {
    Effects {
        ends: none(alloc),
        signals: none(alloc),
        moves: none(alloc),
        grants: none(alloc),
        starts: none(alloc),
        replies: Seq::new(replies),
        calls: none(alloc),
    }
}

/// The locks make a turn by an input and replies. An `Err` is want of memory.
fn turn(
    alloc: Global,
    locks: &mut LvmLocks,
    number: u64,
    input: LockInput,
    replies: Vec<JobReply>,
) -> Result<(), AllocError> {
    locks.reserve()?;
    let mut told = StepTold {
        effects: effects_of(alloc, replies),
        line: None,
    };
    locks.turn(number, input, &mut told);
    Ok(())
}

/// Locks leave the table whose holdings a turn has ended. A holding of lvmlockd's process ends by its own asks alone: it is no child that could exit.
fn leave(locks: &mut LvmLocks, turn: &Turn) {
    if let Some(effects) = &turn.effects {
        locks.leave(effects);
    }
}

/// Gives a line, in a turn that has begun. An `Err` is want of memory.
fn give_line<D: Teller, J: Station, R: Wait, C: Clock, P: Spawner>(
    rt: &R,
    room: &Room<D, J, P>,
    post: &Post,
    seat: &mut Seat<J>,
    clock: &mut C,
    input: Input,
) -> Result<Turn, AllocError>
    requires { IsLine input }
    ensures { OnOk result (IsLineThread seat.old → IsLineThread seat.new) }
{
    let turn = give(rt, room, seat, clock, input, None)?;
    post.end_turn(rt, &turn)?;
    Ok(turn)
}

/// Gives an ask, and waits for its reply, by which the locks go on: whether the machine runs still. An `Err` is want of memory.
fn ask<D: Teller, J: Station, R: Wait, C: Clock, P: Spawner>(
    rt: &R,
    room: &Room<D, J, P>,
    post: &Post,
    seat: &mut Seat<J>,
    clock: &mut C,
    locks: &mut LvmLocks,
    text: Bytes,
) -> Result<bool, AllocError>
    ensures { OnOk result (IsLineThread seat.old → IsLineThread seat.new) }
{
    let Some(number) = post.begin_ask(rt) else {
        return Ok(false);
    };
    let given = give_line(rt, room, post, seat, clock, Input::Line(text))?;
    leave(locks, &given);
    turn(
        room.alloc,
        locks,
        number,
        LockInput::Line,
        Vec::new(room.alloc),
    )?;
    let Some(reply) = post.await_reply(rt) else {
        return Ok(false);
    };
    let mut replies = Vec::new(room.alloc);
    replies.push(JobReply { job: number, reply })?;
    turn(room.alloc, locks, number, LockInput::Nothing, replies)?;
    Ok(true)
}

/// Gives the ask that is due, if one is, and waits for its reply: whether another may be due behind it. An `Err` is want of memory.
fn give_ask<D: Teller, J: Station, R: Wait, C: Clock, P: Spawner>(
    rt: &R,
    room: &Room<D, J, P>,
    post: &Post,
    seat: &mut Seat<J>,
    clock: &mut C,
    locks: &mut LvmLocks,
) -> Result<bool, AllocError>
    ensures { OnOk result (IsLineThread seat.old → IsLineThread seat.new) }
{
    match locks.ask_text(room.alloc)? {
        Some(text) => ask(rt, room, post, seat, clock, locks, text),
        None => Ok(false),
    }
}

/// Gives the asks of a line for lvmlockd, one after another, until the line is answered or the machine ends. An `Err` is want of memory.
fn give_asks<D: Teller, J: Station, R: Wait, C: Clock, P: Spawner>(
    rt: &R,
    room: &Room<D, J, P>,
    post: &Post,
    seat: &mut Seat<J>,
    clock: &mut C,
    locks: &mut LvmLocks,
) -> Result<(), AllocError>
    ensures { OnOk result (IsLineThread seat.old → IsLineThread seat.new) }
{
    for _ in rt.forever() {
        if !give_ask(rt, room, post, seat, clock, locks)? {
            break;
        }
    }
    Ok(())
}

/// Gives a line to lvmlockd, in a turn that has begun, with all its asks. An `Err` is want of memory.
fn give_locks<D: Teller, J: Station, R: Wait, C: Clock, P: Spawner>(
    rt: &R,
    room: &Room<D, J, P>,
    post: &Post,
    seat: &mut Seat<J>,
    clock: &mut C,
    locks: &mut LvmLocks,
    line: Bytes,
) -> Result<(), AllocError>
    ensures { OnOk result (IsLineThread seat.old → IsLineThread seat.new) }
{
    let copy = Bytes::from_slice(room.alloc, line.as_slice())?;
    give_line(rt, room, post, seat, clock, Input::Number(line))?;
    // The number of the line itself is told by none of the asks.
    turn(
        room.alloc,
        locks,
        0,
        LockInput::Number(copy),
        Vec::new(room.alloc),
    )?;
    give_asks(rt, room, post, seat, clock, locks)?;
    post.end_line(rt);
    Ok(())
}

/// Gives a line, in a turn that has begun. An `Err` is want of memory.
fn serve<D: Teller, J: Station, R: Wait, C: Clock, P: Spawner>(
    rt: &R,
    room: &Room<D, J, P>,
    post: &Post,
    seat: &mut Seat<J>,
    clock: &mut C,
    locks: &mut LvmLocks,
    line: GivenLine,
) -> Result<(), AllocError>
    ensures { OnOk result (IsLineThread seat.old → IsLineThread seat.new) }
{
    match line {
        GivenLine::ForHost(text) => {
            give_line(rt, room, post, seat, clock, Input::Line(text))?;
            Ok(())
        }
        GivenLine::ForLocks(line) => give_locks(rt, room, post, seat, clock, locks, line),
    }
}

/// Gives the lines until no more come, or the machine ends. An `Err` is want of memory.
fn give_each<D: Teller, J: Station, R: Wait, C: Clock, P: Spawner>(
    rt: &R,
    room: &Room<D, J, P>,
    post: &Post,
    seat: &mut Seat<J>,
    clock: &mut C,
    locks: &mut LvmLocks,
) -> Result<(), AllocError>
    ensures { OnOk result (IsLineThread seat.old → IsLineThread seat.new) }
{
    for _ in rt.forever() {
        let seen = post.lines.moves(rt);
        match post.next_line(rt) {
            Next::Line(line) => serve(rt, room, post, seat, clock, locks, line)?,
            Next::Wait => post.lines.wait_past(rt, seen),
            Next::End => break,
        }
    }
    Ok(())
}

/// The thread's whole course: what it gave. An `Err` is want of memory.
#[tactic(auto, using(crate::proofs::SeatLaws::lines_none))]
pub(crate) fn give_lines<D: Teller, J: Station, R: Wait, C: Clock, P: Spawner>(
    rt: &R,
    room: &Room<D, J, P>,
    post: &Post,
    mut clock: C,
) -> Result<Seat<J>, AllocError>
    ensures { IfOk result (λ s. IsLineThread s) }
{
    let mut seat = room.cell.seat(LINES, &room.front);
    let mut locks = room.locks.lock(rt);
    give_each(rt, room, post, &mut seat, &mut clock, &mut *locks)?;
    Ok(seat)
}
