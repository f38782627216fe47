//! Child programs, files, clocks and randomness of the system.

ghost use Rattle.std.specs.Prelude.{◌≡◌};

use crate::areas::{reads, small, writes};
use crate::planned::start;
use crate::told::Told;
use sl_area::{Area, Place};
use sl_outside::{ChildSpawner, LiveDevices, NotTaken, Spawner, Words};
use sl_time::Clock;
use sl_trace::Signal;
use std::fs::Permissions;
use std::os::unix::fs::PermissionsExt;
use std::process::{Processes, SystemProcess};
use std::rt::Files;
use std::sync::Wait;
use std::thread::sleep;
use std::time::Duration;
use std::{fs, time};

/// How often one looks for a child that has exited, a millisecond apart.
const LOOKS: u32 = 2000;

/// The next child that has exited, if one does in so many looks, else 0.
fn next_exit<R: Processes<Started = SystemProcess> + Wait + time::Clock + Copy + Drop>(
    rt: &R,
    spawner: &mut ChildSpawner<R>,
) -> u32 {
    for _ in 0..LOOKS {
        if let Some(process) = spawner.poll() {
            return process;
        }
        sleep(rt, Duration::from_millis(1));
    }
    0
}

/// Whether a program starts, whether a missing one does, the faults, the child that exits, and whether another does.
fn tell_ends<R: Processes<Started = SystemProcess> + Wait + time::Clock + Copy + Drop>(
    rt: &R,
    told: &mut Told,
    spawner: &mut ChildSpawner<R>,
) {
    let mut starter = spawner.starter();
    told.truth(start(&mut starter, spawner, 1_000_001, "/bin/true").is_ok());
    told.truth(start(&mut starter, spawner, 1_000_002, "/no/such/program").is_ok());
    told.number(starter.faults());
    told.short(next_exit(rt, spawner));
    told.truth(spawner.poll().is_some());
}

/// Children of which one ends by itself.
pub fn a_child_ends<R: Processes<Started = SystemProcess> + Wait + time::Clock + Copy + Drop>(
    rt: &R,
    told: &mut Told,
) {
    tell_ends(rt, told, &mut ChildSpawner::new(*rt, told.alloc));
}

/// Whether two children that sleep start, and whether one has exited by itself.
fn tell_sleepers<S: Spawner>(told: &mut Told, spawner: &mut S) {
    let mut starter = spawner.starter();
    told.truth(start(&mut starter, spawner, 7, "./sleeper").is_ok());
    told.truth(start(&mut starter, spawner, 9, "./sleeper").is_ok());
    told.truth(spawner.poll().is_some());
}

/// Whether two children that sleep start, whether one has exited by itself, which exits once it is killed, and which once it is termed; and
/// the faults, also of a signal to none.
fn two_sleepers<R: Processes<Started = SystemProcess> + Wait + time::Clock + Copy + Drop>(
    rt: &R,
    told: &mut Told,
    spawner: &mut ChildSpawner<R>,
) {
    tell_sleepers(told, spawner);
    spawner.signal(9, Signal::Kill);
    told.short(next_exit(rt, spawner));
    spawner.signal(7, Signal::Term);
    told.short(next_exit(rt, spawner));
    spawner.signal(7, Signal::Kill);
    told.number(spawner.faults());
}

/// Makes the program that tells its number of the system and sleeps.
fn make_sleeper<R: Files>(rt: &R, told: &mut Told) {
    let text = b"#!/bin/sh\necho $$ > number\nexec sleep 30\n";
    told.done(fs::write(rt, "sleeper", text.as_slice()));
    told.done(fs::set_permissions(rt, "sleeper", Permissions::from_mode(0o755)));
}

/// Makes the program that sleeps, and takes it away in the end.
pub fn children_are_signalled<
    R: Files + Processes<Started = SystemProcess> + Wait + time::Clock + Copy + Drop,
>(rt: &R, told: &mut Told) {
    make_sleeper(rt, told);
    two_sleepers(rt, told, &mut ChildSpawner::new(*rt, told.alloc));
    told.done(fs::remove_file(rt, "sleeper"));
    told.done(fs::remove_file(rt, "number"));
}

/// What a child by this number of the system runs; nothing once it has exited.
fn words_of<R: Files + AllocGlobal>(rt: &R, number: &str) -> Option<Vec<u8>> {
    let path = format!(in rt.alloc(); "/proc/{number}/cmdline").ok()?;
    fs::read(rt, path.as_str()).ok()
}

/// The number of the system that the program that sleeps has told, if it has by now.
fn number_told<R: Files + AllocGlobal>(rt: &R) -> Option<String> {
    let text = fs::read_to_string(rt, "number").ok()?;
    let number = text.as_str().strip_suffix("\n")?;
    String::from_str(rt.alloc(), number).ok()
}

/// Whether the child that tells its number runs by then, in so many looks.
fn comes_to_run<R: Files + Wait + time::Clock + AllocGlobal>(rt: &R) -> bool {
    for _ in 0..LOOKS {
        if number_told(rt).is_some() {
            return true;
        }
        sleep(rt, Duration::from_millis(1));
    }
    false
}

/// Whether the child that told its number has exited, in so many looks.
fn comes_to_end<R: Files + Wait + time::Clock + AllocGlobal>(rt: &R) -> bool {
    let Some(number) = number_told(rt) else {
        return false;
    };
    for _ in 0..LOOKS {
        match words_of(rt, number.as_str()) {
            Some(words) if !words.is_empty() => sleep(rt, Duration::from_millis(1)),
            _ => return true,
        }
    }
    false
}

/// Whether a child that sleeps starts, and runs. What holds it is dropped then, as if this program had ended.
fn start_and_drop<
    R: Files + Processes<Started = SystemProcess> + Wait + time::Clock + AllocGlobal + Copy + Drop,
>(rt: &R, told: &mut Told) {
    let mut spawner = ChildSpawner::new(*rt, told.alloc);
    let mut starter = spawner.starter();
    told.truth(start(&mut starter, &mut spawner, 7, "./sleeper").is_ok());
    told.truth(comes_to_run(rt));
}

/// Whether a child that sleeps starts, whether it runs, and whether it has come to its end once nothing holds it.
pub fn children_are_guarded<
    R: Files + Processes<Started = SystemProcess> + Wait + time::Clock + AllocGlobal + Copy + Drop,
>(rt: &R, told: &mut Told) {
    make_sleeper(rt, told);
    start_and_drop(rt, told);
    told.truth(comes_to_end(rt));
    told.done(fs::remove_file(rt, "sleeper"));
    told.done(fs::remove_file(rt, "number"));
}

/// Whether a sector is zeros, whether sevens are written to it, and whether they are read back.
fn tell_sevens<A: Area>(told: &mut Told, area: &mut A, at: Place)
    requires { at.size ≡ 512 }
{
    told.truth(reads(area, at, 0));
    told.truth(writes(area, at, 7));
    told.truth(reads(area, at, 7));
}

/// Makes a disk, and writes a sector of sevens to it: whether it was made, whether the sector was zeros, whether it is written, and read back.
fn tell_made<D: LiveDevices>(devices: &mut D, told: &mut Told, anew: bool) {
    told.truth(devices.make("made", "/a/b/disk", 4096, anew).is_ok());
    let Some(run) = small() else {
        return told.need(false);
    };
    let mut area = devices.area(1, 1, "made/a/b/disk");
    tell_sevens(told, &mut area, run.delta_place(0, 3));
    devices.back(area);
}

/// How long a file is.
fn tell_len<R: Files>(rt: &R, told: &mut Told, path: &str) {
    match fs::metadata(rt, path) {
        Ok(data) => told.number(data.len()),
        Err(_) => told.need(false),
    }
}

/// What comes of a disk once it stands: whether it is seen, whether it is made where it is not to be made anew, and where it is, which
/// empties it.
fn tell_standing<D: LiveDevices>(devices: &mut D, told: &mut Told) {
    told.truth(devices.vacant("made/a/b/disk").is_ok());
    told.truth(devices.make("made", "/a/b/disk", 4096, false).is_ok());
    tell_made(devices, told, true);
}

/// Whether a folder is taken that isn't there, and one that is; and whether that one is taken once more.
fn tell_taken<D: LiveDevices>(devices: &mut D, told: &mut Told) {
    told.truth(devices.take("no_folder").is_ok());
    told.truth(devices.take("made").is_ok());
    told.truth(devices.take("made") == Err(NotTaken::InUse));
}

/// Whether a disk is made in a folder that isn't there; whether folders are taken; what comes of a disk that is made, which is not there before,
/// and of one that stands; and how long its file is.
pub fn files_are_made<R: Files + AllocGlobal, D: LiveDevices>(
    rt: &R,
    devices: &mut D,
    told: &mut Told,
) {
    told.truth(devices.make("no_folder", "/a/disk", 4096, false).is_ok());
    told.done(fs::create_dir(rt, "made"));
    tell_taken(devices, told);
    told.truth(devices.vacant("made/a/b/disk").is_ok());
    tell_made(devices, told, false);
    tell_standing(devices, told);
    tell_len(rt, told, "made/a/b/disk");
    told.done(fs::remove_dir_all(rt, "made"));
}

/// Whether 20 milliseconds have passed after a sleep of so many, by the clock of another thread; and whether the first is not behind it.
fn tell_clocks<R: Wait + time::Clock, C: Clock>(
    rt: &R,
    told: &mut Told,
    clock: &mut C,
    other: &mut C,
) {
    let first = clock.now();
    sleep(rt, Duration::from_millis(20));
    let second = other.now();
    told.truth(second >= first.saturating_add(20));
    told.truth(clock.now() >= second);
}

/// The clocks of two threads.
pub fn the_clock_goes_on<R: Wait + time::Clock, D: LiveDevices>(
    rt: &R,
    devices: &mut D,
    told: &mut Told,
) {
    let mut clock = devices.clock(1, 1);
    let mut other = devices.clock(1, 2);
    tell_clocks(rt, told, &mut clock, &mut other);
}

/// Whether two lots of 128 bits differ.
pub fn words_differ<D: LiveDevices>(devices: &mut D, told: &mut Told) {
    let mut words = devices.words(1);
    let first = words.bits();
    told.truth(first != words.bits());
}
