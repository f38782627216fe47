//! A clock, times, a watchdog daemon, a recovery.

use crate::told::Told;
use crate::word_values::{number_at, number_of, numbers_from, part, short_of, word};
use sl_alone::Recovery;
use sl_text::Name;
use sl_time::{Clock, MemClock, Timing, TimingBad};
use sl_trace::{Sent, Signal};
use sl_wdmd::Wdmd;

/// Tells the times that follow from the four numbers.
fn times(told: &mut Told, timing: &Timing) {
    told.said("renew", timing.renew());
    told.said("fail", timing.fail());
    told.said("gone", timing.gone());
    told.said("dead", timing.dead());
    told.said("join_max", timing.join_max());
    told.said("take", timing.take());
}

/// Which number makes no times.
fn bad_text(bad: TimingBad) -> &'static str {
    match bad {
        TimingBad::Io => "bad io",
        TimingBad::Fire => "bad fire",
        TimingBad::Land => "bad land",
        TimingBad::Rho => "bad rho",
    }
}

/// The times that four numbers make: io, fire, land and rho.
pub fn timing(told: &mut Told, text: &str) {
    match Timing::new(
        number_at(text, 0),
        number_at(text, 1),
        number_at(text, 2),
        number_at(text, 3),
    ) {
        Ok(timing) => times(told, &timing),
        Err(bad) => told.word(bad_text(bad)),
    }
}

/// What a clock tells at each word.
fn readings(told: &mut Told, clock: &mut MemClock, text: &str) {
    for _ in text.split(' ') {
        told.number(clock.now());
    }
    told.end(" ");
}

/// What a clock tells whose readings are these.
pub fn clock(told: &mut Told, text: &str) {
    let readings_told = numbers_from(told, text, 0);
    readings(told, &mut MemClock::new(readings_told), text);
}

/// Registers a name.
fn register(told: &mut Told, wdmd: &mut Wdmd, name: Name, expiry: u64) {
    told.need(wdmd.register(name, expiry).is_ok());
    told.word("-");
}

/// Moves the expiry of a name.
fn renew(told: &mut Told, wdmd: &mut Wdmd, name: Name, expiry: u64) {
    wdmd.renew(name, expiry);
    told.word("-");
}

/// Unregisters a name.
fn unregister(told: &mut Told, wdmd: &mut Wdmd, name: Name) {
    wdmd.unregister(name);
    told.word("-");
}

/// Whether a connection of a name stands.
fn is_registered(wdmd: &Wdmd, name: Name) -> bool {
    for place in 0..wdmd.len() {
        if let Some(connection) = wdmd.get(place) {
            if connection.name == name {
                return true;
            }
        }
    }
    false
}

/// What a watchdog daemon does with a name: it is registered with an expiry, moved, unregistered; whether it is registered, or whether the
/// test at the reading that it is holds.
fn of_name(told: &mut Told, wdmd: &mut Wdmd, kind: &str, name: Name, expiry: u64) {
    match kind {
        "register" => register(told, wdmd, name, expiry),
        "renew" => renew(told, wdmd, name, expiry),
        "unregister" => unregister(told, wdmd, name),
        "is_registered" => told.truth(is_registered(wdmd, name)),
        _ => told.truth(wdmd.test(number_of(name.as_str()))),
    }
}

/// What a watchdog daemon does at a word: `register:NAME:EXPIRY`, `renew:NAME:EXPIRY`, `unregister:NAME`, `is_registered:NAME`, `test:NOW`.
fn watched(told: &mut Told, wdmd: &mut Wdmd, word: &str) {
    let expiry = number_of(part(word, ':', 2));
    match Name::new(part(word, ':', 1).as_bytes()) {
        Some(name) => of_name(told, wdmd, part(word, ':', 0), name, expiry),
        None => told.word("no name"),
    }
}

/// What a watchdog daemon does at each word.
fn all_watched(told: &mut Told, wdmd: &mut Wdmd, text: &str) {
    for word in text.split(' ') {
        watched(told, wdmd, word);
    }
    told.end(" ");
}

/// What a watchdog daemon does.
pub fn wdmd(told: &mut Told, text: &str) {
    all_watched(told, &mut Wdmd::new(told.alloc), text);
}

/// The word of a signal.
fn signal_text(signal: Signal) -> &'static str {
    match signal {
        Signal::Term => "term",
        Signal::Kill => "kill",
    }
}

/// A signal with its process.
fn sent_text(told: &mut Told, sent: Option<Sent>) {
    match sent {
        Some(sent) => told.said(signal_text(sent.signal), u64::from(sent.process)),
        None => told.word("-"),
    }
}

/// The recovery hears of a process that has exited.
fn exited(told: &mut Told, recovery: &mut Recovery, process: u32) {
    recovery.exited(process);
    told.word("-");
}

/// What a recovery does at a word: `step:NOW`, `exited:PROCESS`, `clear`.
fn recovered(told: &mut Told, recovery: &mut Recovery, word: &str) {
    match part(word, ':', 0) {
        "step" => sent_text(told, recovery.step(number_of(part(word, ':', 1)))),
        "exited" => exited(told, recovery, short_of(part(word, ':', 1))),
        _ => told.truth(recovery.clear()),
    }
    told.end(",");
}

/// The processes that the parts of a word are.
fn holders_of(told: &mut Told, word: &str) -> Vec<u32> {
    let mut holders = Vec::new(told.alloc);
    for holder in word.split(',') {
        told.need(holders.push(short_of(holder)).is_ok());
    }
    holders
}

/// What a recovery does at each word behind the third.
fn all_recovered(told: &mut Told, recovery: &mut Recovery, text: &str) {
    for word in text.split(' ').skip(3) {
        recovered(told, recovery, word);
    }
    told.end(" ");
}

/// What a recovery does with this grace, from this reading on, with these holders; a step in front of it does nothing.
pub fn recovery(told: &mut Told, text: &str) {
    let holders = holders_of(told, word(text, 2));
    let now = number_at(text, 1);
    let mut recovery = Recovery::new(told.alloc, number_at(text, 0));
    told.truth(recovery.step(now).is_none() && recovery.clear());
    told.need(recovery.begin(now, &holders).is_ok());
    all_recovered(told, &mut recovery, text);
}
