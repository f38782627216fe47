//! Prints what is read of texts: each line of standard input is a kind and a text, and is printed again with what that kind makes of the
//! text. So a case is a line of data, and its answer a line of the file that the output is compared with; answers come from outside.
//! The text of the kind `edge` is the name of a case of the system.
//!
//! - `texts`: words with their columns, numbers, hexadecimal digits, names and paths.
//! - `records`: sectors, told by the places and digits of their bytes, the rest being zeros; places of an area; values and requests.
//! - `readings`: a sector read many times, and its digest taken as often.
//! - `commands`: commands, replies and default names.
//! - `lines`: lines of schedules, and what is refused of them.
//! - `ballots`: ballots, with blocks as `host/lver/mbal/bal/inp`, a list's parts set apart by commas, and `-` where a block is torn.
//! - `edges`: adapters over the system, and streams with faults: `areas`, `faulty_adapters`, `gates`, `outside`, `planned`, `streams`.
//! - `machines`: a clock, times, a watchdog daemon, a recovery, a watch, a delta lease.
//!
//! `word_values` has what the others read of words, and `told` how they print words and numbers.
//!
//! In a text of several words single spaces keep them apart; a word that is left out is read as the empty word or as 0.
#![tactic(auto)]

mod areas;
mod ballots;
mod commands;
mod deltas;
mod edges;
mod faulty_adapters;
mod gates;
mod lines;
mod machines;
mod outside;
mod planned;
mod readings;
mod records;
mod replies;
mod streams;
mod texts;
mod told;
mod watches;
mod word_values;

use crate::told::Told;
use sl_outside::{FileDevices, LiveDevices};
use std::io;
use std::process::{Processes, SystemProcess};
use std::rt::Files;
use std::sync::Wait;
use std::thread::Threads;
use std::time::Clock;

/// Tells what a kind of text, or of what follows here, makes of a text.
fn texts_of(told: &mut Told, kind: &str, text: &str) {
    match kind {
        "words" => texts::words(told, text),
        "number" => texts::number(told, text),
        "within" => texts::within(told, text),
        "multiple" => texts::multiple(told, text),
        "hex" => texts::hex(told, text),
        "hex_bytes" => texts::hex_bytes(told, text),
        "name" => texts::name(told, text),
        "path" => texts::path(told, text),
        "before" => texts::before(told, text),
        _ => records_of(told, kind, text),
    }
}

/// What a kind of record, or of what follows here, makes of a text.
fn records_of(told: &mut Told, kind: &str, text: &str) {
    match kind {
        "sector" => records::sector(told, text),
        "large" => records::large(told, text),
        "decode" => readings::decoded(told, text),
        "digest" => readings::digested(told, text),
        "block_of" => records::block_of(told, text),
        "pair_of" => records::pair_of(told, text),
        "leader_of" => records::leader_of(told, text),
        "value" => records::value(told, text),
        "next_seq" => records::next_seq(told, text),
        _ => areas_of(told, kind, text),
    }
}

/// What a kind of area, of request or of what follows here makes of a text.
fn areas_of(told: &mut Told, kind: &str, text: &str) {
    match kind {
        "geometry" => records::geometry(told, text),
        "places" => records::places(told, text),
        "paired" => records::paired(told, text),
        "pairs" => records::pairs(told, text),
        "place" => records::place(told, text),
        "asked" => records::asked(told, text),
        "bits" => records::bits(told, text),
        _ => lines_of(told, kind, text),
    }
}

/// What a kind of line, of a command or of what follows here makes of a text.
fn lines_of(told: &mut Told, kind: &str, text: &str) {
    match kind {
        "command" => commands::command(told, text),
        "default_name" => commands::default_name(told, text),
        "reply" => replies::reply(told, text),
        "event" => lines::event(told, text),
        "header" => lines::header(told, text),
        "line" => lines::line(told, text),
        "refusals" => lines::refusals(told),
        "test" => lines::test(told, text),
        _ => machines_of(told, kind, text),
    }
}

/// What a kind of machine, or of what follows here, makes of a text.
fn machines_of(told: &mut Told, kind: &str, text: &str) {
    match kind {
        "timing" => machines::timing(told, text),
        "clock" => machines::clock(told, text),
        "wdmd" => machines::wdmd(told, text),
        "recovery" => machines::recovery(told, text),
        "watch" => watches::watch(told, text),
        "delta" => deltas::delta(told, text),
        _ => ballots_of(told, kind, text),
    }
}

/// What a kind of ballot makes of a text.
fn ballots_of(told: &mut Told, kind: &str, text: &str) {
    match kind {
        "ballot" => ballots::ballot(told, text),
        "begin" => ballots::begin(told, text),
        "mbal" => ballots::mbal(told, text),
        "stop" => ballots::stop(told, text),
        "accepted" => ballots::accepted(told, text),
        "instance" => ballots::instance(told, text),
        _ => told.word("a kind of no text"),
    }
}

/// Tells what a line's kind makes of its text.
fn tell<
    R: Files
        + Processes<Started = SystemProcess>
        + Clock
        + Wait
        + Threads
        + AllocGlobal
        + Copy
        + Drop
        + Send
        + Sync,
    D: LiveDevices,
>(rt: &R, devices: &mut D, told: &mut Told, line: &str) {
    match line.split_once(' ') {
        Some(("edge", case)) => edges::tell(rt, devices, told, case),
        Some((kind, text)) => texts_of(told, kind, text),
        None => texts_of(told, line, ""),
    }
}

fn main(rt: HostRuntime) -> io::Result<()> {
    let mut devices = FileDevices::new(rt, rt.alloc());
    for line in rt.lines(rt.alloc()) {
        let line = line?;
        let mut told = Told::new(rt.alloc());
        tell(&rt, &mut devices, &mut told, line.as_str());
        println!(rt; "{line}:{}", told.whole()?)?;
    }
    Ok(())
}
