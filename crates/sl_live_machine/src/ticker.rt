//! The thread that wakes the daemon, and that finds the end: when no line comes any more and nothing is left to be done, it makes no further
//! turn, so nothing new can come.

ghost use Rattle.sl_live.specs.Turns.{IsTicker};
ghost use Rattle.std.specs.Prelude.{IfOk, OnOk};

use crate::room::Room;
use crate::script_waits::Post;
use crate::thread_numbers::TICKER;
use crate::turn::give;
use sl_cell::{Seat, Station, Teller};
use sl_outside::Spawner;
use sl_time::Clock;
use sl_trace::Input;
use std::alloc::AllocError;
use std::sync::Wait;
use std::time;

/// Wakes the daemon once. An `Err` is want of memory.
fn wake<D: Teller, J: Station, R: Wait, C: Clock, P: Spawner>(
    rt: &R,
    room: &Room<D, J, P>,
    post: &Post,
    seat: &mut Seat<J>,
    clock: &mut C,
) -> Result<(), AllocError>
    ensures { OnOk result (IsTicker seat.old → IsTicker seat.new) }
{
    let turn = give(rt, room, seat, clock, Input::Wake, None)?;
    post.end_turn(rt, &turn)
}

/// Wakes the daemon again and again until the machine ends. An `Err` is want of memory.
#[tactic(auto, using(crate::proofs::SeatLaws::ticker_none))]
pub(crate) fn tick<D: Teller, J: Station, R: Wait + time::Clock, C: Clock, P: Spawner>(
    rt: &R,
    room: &Room<D, J, P>,
    post: &Post,
    mut clock: C,
) -> Result<Seat<J>, AllocError>
    ensures { IfOk result (λ s. IsTicker s) }
{
    let mut seat = room.cell.seat(TICKER, &room.front);
    for _ in rt.forever() {
        let seen = post.ticker.moves(rt);
        if !post.begin_wake(rt) {
            break;
        }
        wake(rt, room, post, &mut seat, &mut clock)?;
        post.ticker.wait_at_most(rt, seen, room.pace.wake);
    }
    Ok(seat)
}
