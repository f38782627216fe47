//! What neither a clause nor a text shows: each adapter over the system once, and the loops of a stream with a fault in their middle.
//!
//! What comes of a case is a word or a number for each thing that is looked at; each case says which.

use crate::told::Told;
use crate::{areas, faulty_adapters, gates, outside, planned, streams};
use sl_outside::LiveDevices;
use std::process::{Processes, SystemProcess};
use std::rt::Files;
use std::sync::Wait;
use std::thread::Threads;
use std::time::Clock;

/// Tells what comes of a case in memory; whether it is one.
fn is_in_memory(told: &mut Told, case: &str) -> bool {
    match case {
        "each read fails in turn" => streams::each_read_fails(told),
        "each write fails in turn" => streams::each_write_fails(told),
        "a full sink fails" => streams::a_full_sink(told),
        "an interrupted read" => faulty_adapters::an_interrupted_read(told),
        "a write of nothing" => faulty_adapters::a_write_of_nothing(told),
        "each call of an area fails in turn" => areas::each_call_fails(told),
        "a call past the room" => areas::past_the_room(told),
        "a planned spawner" => planned::a_planned_spawner(told),
        _ => return false,
    }
    true
}

/// Tells what comes of a case of files; whether it is one.
fn is_of_files<R: Files + AllocGlobal>(rt: &R, told: &mut Told, case: &str) -> bool {
    match case {
        "files of the system" => streams::files_of_the_system(rt, told),
        "a missing file" => areas::a_missing_file(rt, told),
        "a short file" => areas::a_short_file(rt, told),
        _ => return false,
    }
    true
}

/// Tells what comes of a case of child programs; whether it is one.
fn is_of_children<
    R: Files + Processes<Started = SystemProcess> + Clock + Wait + AllocGlobal + Copy + Drop,
>(rt: &R, told: &mut Told, case: &str) -> bool {
    match case {
        "a child ends" => outside::a_child_ends(rt, told),
        "children are signalled" => outside::children_are_signalled(rt, told),
        "children are guarded" => outside::children_are_guarded(rt, told),
        _ => return false,
    }
    true
}

/// Tells what comes of a case of other devices.
fn of_devices<
    R: Files + Clock + Wait + Threads + AllocGlobal + Copy + Drop + Send + Sync,
    D: LiveDevices,
>(rt: &R, devices: &mut D, told: &mut Told, case: &str) {
    match case {
        "files are made" => outside::files_are_made(rt, devices, told),
        "the clock goes on" => outside::the_clock_goes_on(rt, devices, told),
        "words differ" => outside::words_differ(devices, told),
        "a gate and a disk of two threads" => gates::two_threads(*rt, told),
        _ => told.word("no such case"),
    }
}

/// Tells what comes of a case.
pub fn tell<
    R: Files
        + Processes<Started = SystemProcess>
        + Clock
        + Wait
        + Threads
        + AllocGlobal
        + Copy
        + Drop
        + Send
        + Sync,
    D: LiveDevices,
>(rt: &R, devices: &mut D, told: &mut Told, case: &str) {
    if is_in_memory(told, case) || is_of_files(rt, told, case) || is_of_children(rt, told, case) {
        return;
    }
    of_devices(rt, devices, told, case);
}
