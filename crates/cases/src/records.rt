//! Sectors, areas, values, requests.

use crate::texts::digits;
use crate::told::Told;
use crate::word_values::{number_at, number_of, part, short_at, short_of, word};
use sl_area::{Geometry, Place};
use sl_request::{Act, Bitmap, check_request};
use sl_sector::{
    Bad, Rec, block_in, decode, leader_in, pair_in, pair_leader_in, push_bad_text,
    push_record_text, value_in,
};
use sl_text::hex::read_hex;
use sl_value::Version;

/// Puts digits' bytes into a sector.
fn put(sector: &mut [u8], at: u64, digits: &str) {
    if let Some(data) = read_hex(digits.as_bytes()) {
        let mut place = at as usize;
        for byte in data.as_slice() {
            if let Some(old) = sector.get_mut(place) {
                *old = *byte;
            }
            place = place.saturating_add(1);
        }
    }
}

/// Puts bytes into a sector, `place:digits`, which commas set apart; later ones count.
fn put_spans(sector: &mut [u8], text: &str) {
    for span in text.split(',') {
        put(sector, number_of(part(span, ':', 0)), part(span, ':', 1));
    }
}

/// The sector whose bytes are zeros but for these spans.
pub fn sector_of(text: &str) -> [u8; 512] {
    let mut sector = [0; 512];
    put_spans(&mut sector, text);
    sector
}

/// Such a sector of 4096 bytes.
fn large_of(text: &str) -> [u8; 4096] {
    let mut sector = [0; 4096];
    put_spans(&mut sector, text);
    sector
}

/// What is printed of a record.
fn record_text(told: &mut Told, read: Result<Rec, Bad>, is_written: bool) {
    let mut text = Vec::new(told.alloc);
    let done = match read {
        Ok(record) => push_record_text(&mut text, &record),
        Err(bad) => push_bad_text(&mut text, bad),
    };
    told.need(done.is_ok());
    told.bytes(&text);
    told.end(if is_written {
        ""
    } else {
        ", written otherwise"
    });
}

/// What a sector has, and whether its record is written as it was read; or why there is none.
pub fn sector(told: &mut Told, text: &str) {
    let sector = sector_of(text);
    let mut again = sector;
    let read = decode(&sector);
    if let Ok(record) = &read {
        again = [0xff; 512];
        record.encode_into(&mut again);
    }
    record_text(told, read, again == sector);
}

/// The text of a record's sector, of 4096 bytes.
pub fn large(told: &mut Told, text: &str) {
    let sector = large_of(text);
    let mut again = sector;
    let read = decode(&sector);
    if let Ok(record) = &read {
        again = [0xff; 4096];
        record.encode_into(&mut again);
    }
    record_text(told, read, again == sector);
}

/// Whether a sector has a block of this host.
pub fn block_of(told: &mut Told, text: &str) {
    let sector = sector_of(word(text, 1));
    match block_in(short_at(text, 0), decode(&sector)) {
        Some(block) => told.said("host", u64::from(block.host)),
        None => told.word("none"),
    }
}

/// Whether a sector has a block of this host's pair, as its first or its second sector.
pub fn pair_of(told: &mut Told, text: &str) {
    let sector = sector_of(word(text, 2));
    match pair_in(short_at(text, 0), word(text, 1) == "first", decode(&sector)) {
        Some(pair) => told.said("turn", pair.turn),
        None => told.word("none"),
    }
}

/// Which leader a sector has: that of an area with pairs, or that of one without.
pub fn leader_of(told: &mut Told, text: &str) {
    let sector = sector_of(text);
    if let Some(leader) = pair_leader_in(decode(&sector)) {
        return told.said("of pairs, lver", leader.lver);
    }
    match leader_in(decode(&sector)) {
        Some(leader) => told.said("of blocks, lver", leader.lver),
        None => told.word("none"),
    }
}

/// The value that a sector's bytes spell, with its version.
pub fn value(told: &mut Told, text: &str) {
    let Some(record) = value_in(decode(&sector_of(text))) else {
        return told.word("none");
    };
    let value = sl_alone::get(&record);
    told.said("lver", value.version.lver);
    told.said("seq", value.version.seq);
    told.word("bytes");
    digits(told, value.bytes.as_slice());
}

/// The seq of the next value under an instance, behind a version, lver and seq, or behind none.
pub fn next_seq(told: &mut Told, text: &str) {
    let last = if word(text, 1).is_empty() {
        None
    } else {
        Some(Version {
            lver: number_at(text, 1),
            seq: number_at(text, 2),
        })
    };
    told.number_or_none(sl_value::next_seq(last, number_at(text, 0)));
}

/// Whether these are a sector's size, an area's and a number of hosts.
pub fn geometry(told: &mut Told, text: &str) {
    told.truth(run_of(text).is_some());
}

/// A run with sectors of this size, areas of this size, and so many hosts.
fn run_of(text: &str) -> Option<Geometry> {
    Geometry::new(short_at(text, 0), number_at(text, 1), short_at(text, 2)).ok()
}

/// Whether these are a sector's size, an area's and a number of hosts with pairs.
pub fn paired(told: &mut Told, text: &str) {
    told.truth(paired_run_of(text).is_some());
}

/// A run with pairs.
fn paired_run_of(text: &str) -> Option<Geometry> {
    Geometry::new2(short_at(text, 0), number_at(text, 1), short_at(text, 2)).ok()
}

/// Where a sector stands.
fn said_at(told: &mut Told, word: &str, place: Place) {
    told.said(word, place.offset());
}

/// Where the two sectors of a host's pair stand.
fn pair_places(told: &mut Told, run: Geometry, base: u64, id: u32) {
    if run.is_paired() && run.is_base(base) && 1 <= id && id <= run.hosts() {
        said_at(told, "first", run.pair_place(base, id, true));
        said_at(told, "second", run.turn_place(base, id, 2));
    } else {
        told.word("none");
    }
}

/// Places of the area with pairs at this offset, where one begins: those of host `id`.
pub fn pairs(told: &mut Told, text: &str) {
    match paired_run_of(text) {
        Some(run) => pair_places(told, run, number_at(text, 3), short_at(text, 4)),
        None => told.word("no run"),
    }
}

/// Where the sectors of an area stand: a host's delta record and block, the leader, the request and the value.
fn area_places(told: &mut Told, run: Geometry, base: u64, id: u32) {
    if run.is_base(base) && 1 <= id && id <= run.hosts() {
        said_at(told, "delta", run.delta_place(base, id));
        said_at(told, "leader", run.leader_place(base));
        said_at(told, "asked", run.request_place(base));
        said_at(told, "block", run.block_place(base, id));
        said_at(told, "value", run.value_place(base));
    } else {
        told.word("none");
    }
}

/// Places of the area at this offset, where one begins: those of host `id`.
pub fn places(told: &mut Told, text: &str) {
    match run_of(text) {
        Some(run) => area_places(told, run, number_at(text, 3), short_at(text, 4)),
        None => told.word("no run"),
    }
}

/// Where a sector stands, and its size.
fn place_text(told: &mut Told, place: Place) {
    told.number(place.offset());
    told.said("of", u64::from(place.size()));
}

/// The sector that begins at this offset.
pub fn place(told: &mut Told, text: &str) {
    let place = match run_of(text) {
        Some(run) => run.place(number_at(text, 3)),
        None => None,
    };
    match place {
        Some(place) => place_text(told, place),
        None => told.word("none"),
    }
}

/// What becomes of a request for an instance with a force, where one is held and one is stored.
pub fn asked(told: &mut Told, text: &str) {
    let (asked, force) = (number_at(text, 2), short_at(text, 3));
    if force == 0 && asked > 0 {
        return told.word("none");
    }
    match check_request(number_at(text, 0), number_at(text, 1), asked, force) {
        Ok(Act::Set) => told.word("set"),
        Ok(Act::Clear) => told.word("clear"),
        Err(old) => told.said_two("old", old.held, old.stored),
    }
}

/// Changes a bitmap by a word: `+` sets a host's bit, `-` clears it.
fn change(bits: &mut Bitmap, word: &str) {
    let host = short_of(word.get(1..).unwrap_or(""));
    if 1 <= host && host <= 2000 {
        if word.starts_with('+') {
            bits.set(host);
        } else {
            bits.clear(host);
        }
    }
}

/// A byte that isn't 0, with its place.
fn byte_text(told: &mut Told, place: usize, byte: u8) {
    if byte != 0 {
        told.number(place as u64);
        told.number_behind(":", u64::from(byte));
    }
}

/// The bytes of a bitmap that aren't 0, with their places, after bits were set and cleared.
pub fn bits(told: &mut Told, text: &str) {
    let mut bits = Bitmap::none();
    for word in text.split(' ') {
        change(&mut bits, word);
    }
    for (place, byte) in bits.bytes().iter().enumerate() {
        byte_text(told, place, *byte);
    }
    told.end(" ");
}
