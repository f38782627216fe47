//! A gate that holds a call of one thread until another's has left, and a disk in memory that both share.

use crate::areas::small;
use crate::told::Told;
use sl_area::Area;
use sl_outside::{AreaPlan, Devices, Gate, LiveDevices, SharedDevices, SharedPlan, Turn, TurnGate};
use std::alloc::{AllocError, Global};
use std::sync::Wait;
use std::thread::{Threads, join_mut};
use std::time::Clock;

/// Reads the first sector of a disk; false where that fails.
fn read_first<A: Area>(area: &mut A, sector: &mut [u8; 512]) -> bool {
    match small() {
        Some(run) => area.read(run.delta_place(0, 1), 1, sector).is_ok(),
        None => false,
    }
}

/// Writes the first sector of a disk; false where that fails.
fn write_first<A: Area>(area: &mut A, sector: &[u8; 512]) -> bool {
    match small() {
        Some(run) => area.write(run.delta_place(0, 1), sector).is_ok(),
        None => false,
    }
}

/// Reads the first sector behind the gate: whether that went well.
fn read_behind<A: Area, G: Gate>(gate: &G, area: &mut A, sector: &mut [u8; 512]) -> bool {
    gate.enter(1, 1);
    read_first(area, sector)
}

/// Writes fives to the first sector, and tells the gate: whether that went well.
fn write_before<A: Area, G: Gate>(gate: &G, area: &mut A) -> bool {
    let done = write_first(area, &[5; 512]);
    gate.left(2, 1);
    done
}

/// Reads behind the gate, and writes before it, in two threads: whether each went well.
fn both<R: Wait + Threads + Sync, A: Area + Send, G: Gate + Sync>(
    rt: &R,
    gate: &G,
    first: &mut A,
    second: &mut A,
    sector: &mut [u8; 512],
) -> (bool, bool) {
    join_mut(
        rt,
        &mut || read_behind(gate, first, sector),
        &mut || write_before(gate, second),
    )
}

/// The first call of an area of the first machine's second worker fails.
fn failing_areas(alloc: Global) -> Result<Vec<AreaPlan>, AllocError> {
    let failing = AreaPlan {
        machine: 1,
        worker: 2,
        failing: vec![in alloc; 1]?,
    };
    Ok(vec![in alloc; failing]?)
}

/// Devices with a disk, a gate, and such an area.
fn devices<R: Wait + Clock + Copy + Drop + Send + Sync>(
    rt: R,
    alloc: Global,
    seen: &TurnGate<R>,
) -> Result<SharedDevices<R>, AllocError> {
    let areas = failing_areas(alloc)?;
    let plan = SharedPlan {
        areas,
        spawners: Vec::new(alloc),
        slow: None,
        census: None,
        makes: Vec::new(alloc),
        gate: Some(seen.share()?),
    };
    Ok(SharedDevices::new(rt, alloc, plan))
}

/// A gate that holds the first call of machine 1 until that of machine 2 has left.
fn turn_gate<R: Wait + Clock + Copy>(rt: R, alloc: Global) -> Result<TurnGate<R>, AllocError> {
    let held = Turn {
        machine: 1,
        call: 1,
    };
    let awaited = Turn {
        machine: 2,
        call: 1,
    };
    TurnGate::new(rt, alloc, held, awaited)
}

/// Has two threads share two areas of one disk, with the gate: whether the read and the write went well, and whether what was read is what
/// was written.
fn tell_shared<R: Wait + Threads + Sync, A: Area + Send, G: Gate + Sync>(
    rt: &R,
    told: &mut Told,
    gate: &G,
    first: &mut A,
    second: &mut A,
) {
    let mut sector = [9; 512];
    let (read, written) = both(rt, gate, first, second, &mut sector);
    told.truth(read);
    told.truth(written);
    told.truth(sector == [5; 512]);
}

/// How two reads of an area went whose first call fails, and its faults.
fn fails_once<R: Wait + Clock + Copy + Drop>(told: &mut Told, devices: &mut SharedDevices<R>) {
    let mut area = devices.area(1, 2, "f/d");
    let mut sector = [9; 512];
    told.truth(read_first(&mut area, &mut sector));
    told.truth(read_first(&mut area, &mut sector));
    told.number(area.faults());
}

/// Makes the disk, and has two threads share it: whether it was made, and what comes of it.
fn in_two_threads<R: Wait + Threads + Clock + Copy + Drop + Send + Sync>(
    rt: &R,
    told: &mut Told,
    devices: &mut SharedDevices<R>,
) {
    told.truth(devices.make("f", "/d", 2048, false).is_ok());
    let gate = devices.gate();
    let mut first = devices.area(1, 1, "f/d");
    let mut second = devices.area(2, 1, "f/d");
    tell_shared(rt, told, &gate, &mut first, &mut second);
}

/// What comes of devices with this gate.
fn of_gate<R: Wait + Threads + Clock + Copy + Drop + Send + Sync>(
    rt: R,
    told: &mut Told,
    seen: &TurnGate<R>,
) {
    match devices(rt, told.alloc, seen) {
        Ok(mut devices) => {
            in_two_threads(&rt, told, &mut devices);
            told.truth(seen.was_held());
            told.truth(seen.gave_up());
            fails_once(told, &mut devices);
        }
        Err(_) => told.need(false),
    }
}

/// The call of machine 1 is held until that of machine 2 has left: what comes of the disk, whether the gate held the call, and gave up; and
/// how two reads of an area went whose first call fails, and its faults.
pub fn two_threads<R: Wait + Threads + Clock + Copy + Drop + Send + Sync>(rt: R, told: &mut Told) {
    match turn_gate(rt, told.alloc) {
        Ok(seen) => of_gate(rt, told, &seen),
        Err(_) => told.need(false),
    }
}
