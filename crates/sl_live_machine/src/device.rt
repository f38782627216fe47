//! The thread that tests the machine's connections and keeps its watchdog device from firing while they hold.

ghost use Rattle.sl_cell.specs.Told.{IsTested};
ghost use Rattle.sl_live.specs.Turns.{Guards, IsDeviceThread};
ghost use Rattle.sl_live_machine.specs.ThreadTurns.{OnChildren};
ghost use Rattle.std.specs.Prelude.{Bool, IfOk, OnErr, OnOk, ◌≡◌};

use crate::room::Room;
use crate::script_waits::Post;
use crate::thread_numbers::DEVICE;
use sl_cell::{Seat, Station, Teller};
use sl_outside::{Device, Spawner};
use sl_time::Clock;
use std::alloc::AllocError;
use std::sync::Wait;
use std::time;

/// Tests once, and gives nothing: the device is kept from firing exactly where the test holds, and the children that stand under their lock are killed
/// exactly where it has fired. An `Err` is a history that is not the daemon's any more.
#[tactic(auto, using(crate::proofs::SeatLaws::tests_on))]
fn test<D: Teller, J: Station, R: Wait, C: Clock, P: Spawner, V: Device>(
    rt: &R,
    room: &Room<D, J, P>,
    seat: &mut Seat<J>,
    clock: &mut C,
    device: &mut V,
) -> Result<(), AllocError>
    ensures tested { OnOk result ((answer : Bool) × IsTested J.setting seat.old seat.new (C.last clock.new) answer
        × OnChildren (λ before after. Guards P.acts P.faults P.running (C.last clock.new) (V.last device.old) (V.last device.new)
        (V.fire device.old) before after answer)) }
    ensures err { OnErr result ((seat.new ≡ seat.old) × (V.last device.new ≡ V.last device.old)) }
    ensures fire { V.fire device.new ≡ V.fire device.old }
    ensures thread { OnOk result (IsDeviceThread seat.old → IsDeviceThread seat.new) }
{
    let mut children = room.children.lock(rt);
    children.test(rt, &room.cell, seat, clock, device)
}

/// Tests again and again until the machine ends. An `Err` is want of memory.
fn test_each<D: Teller, J: Station, R: Wait + time::Clock, C: Clock, P: Spawner, V: Device>(
    rt: &R,
    room: &Room<D, J, P>,
    post: &Post,
    seat: &mut Seat<J>,
    clock: &mut C,
    device: &mut V,
) -> Result<(), AllocError>
    ensures { OnOk result (IsDeviceThread seat.old → IsDeviceThread seat.new) }
{
    for _ in rt.forever() {
        let seen = post.device.moves(rt);
        if !post.runs(rt) {
            break;
        }
        test(rt, room, seat, clock, device)?;
        post.device.wait_at_most(rt, seen, room.pace.test);
    }
    Ok(())
}

/// The thread's whole course: what it tested. An `Err` is want of memory.
pub(crate) fn keep_alive<
    D: Teller,
    J: Station,
    R: Wait + time::Clock,
    C: Clock,
    P: Spawner,
    V: Device,
>(
    rt: &R,
    room: &Room<D, J, P>,
    post: &Post,
    mut clock: C,
    mut device: V,
) -> Result<Seat<J>, AllocError>
    ensures { IfOk result (λ s. IsDeviceThread s) }
{
    let mut seat = room.cell.seat(DEVICE, &room.front);
    test_each(rt, room, post, &mut seat, &mut clock, &mut device)?;
    Ok(seat)
}
