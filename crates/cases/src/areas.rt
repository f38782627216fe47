//! The area in memory with each call failing in turn, and the area over files of the system.

ghost use Rattle.std.specs.Prelude.{IfSome, false, ◌≡◌};

use crate::told::Told;
use sl_area::{Area, FileArea, Geometry, MemArea, Place};
use std::alloc::{AllocError, Global};
use std::fs;
use std::io::{Read, Seek, Write};
use std::rt::Files;

/// Sectors of 512 bytes and areas of a mebibyte, for three hosts.
pub fn small() -> Option<Geometry>
    ensures { IfSome result (λ g. g ≡ record { sector = 512; area = 1048576; hosts = 3; paired = false }) }
{
    Geometry::new(512, 1_048_576, 3).ok()
}

/// Writes a sector of one byte: whether that went well.
pub fn writes<A: Area>(area: &mut A, at: Place, byte: u8) -> bool
    requires { at.size ≡ 512 }
{
    area.write(at, &[byte; 512]).is_ok()
}

/// Reads a sector: whether that went well.
fn is_read<A: Area>(area: &mut A, at: Place) -> bool
    requires { at.size ≡ 512 }
{
    area.read(at, 1, &mut [9; 512]).is_ok()
}

/// Reads a sector: whether that went well, and each of its bytes is this one.
pub fn reads<A: Area>(area: &mut A, at: Place, byte: u8) -> bool
    requires { at.size ≡ 512 }
{
    let mut read = [9; 512];
    area.read(at, 1, &mut read).is_ok() && read == [byte; 512]
}

/// How many of two writes and a read of both went well, and the first and last byte of both sectors that were read.
#[derive(Clone, Copy)]
struct Round {
    done: u64,
    ends: [u8; 4],
}

/// Writes two sectors, of ones and of twos, and reads both back into nines.
fn write_and_read<A: Area>(area: &mut A, run: Geometry) -> Round
    requires { run ≡ record { sector = 512; area = 1048576; hosts = 3; paired = false } }
{
    let mut read = [9; 1024];
    let first = writes(area, run.request_place(0), 1);
    let second = writes(area, run.block_place(0, 1), 2);
    let both = area.read(run.request_place(0), 2, &mut read).is_ok();
    Round {
        done: u64::from(first) + u64::from(second) + u64::from(both),
        ends: [read[0], read[511], read[512], read[1023]],
    }
}

/// Adds the bytes of a round.
fn tell_ends(told: &mut Told, ends: &[u8; 4]) {
    for end in ends.iter() {
        told.number(u64::from(*end));
    }
}

/// A round in an area of three sectors, of which a call fails: how many calls went well, the faults, the first and last byte of both sectors
/// that were read; and whether the first sector of the area is zeros still.
fn tell_round(told: &mut Told, area: &mut MemArea) {
    let Some(run) = small() else {
        return told.need(false);
    };
    let round = write_and_read(area, run);
    told.number(round.done);
    told.number(area.faults());
    tell_ends(told, &round.ends);
    told.truth(area.content().starts_with(&[0; 512]));
    told.end(";");
}

/// An area of three sectors, of which a call fails.
fn failing_area(alloc: Global, call: u64) -> Result<MemArea, AllocError> {
    MemArea::new(alloc, 1536, vec![in alloc; call]?)
}

/// A round in such an area.
fn a_call_fails(told: &mut Told, call: u64) {
    match failing_area(told.alloc, call) {
        Ok(mut area) => tell_round(told, &mut area),
        Err(_) => told.need(false),
    }
}

/// A round for each of four calls that fails.
pub fn each_call_fails(told: &mut Told) {
    for call in 1..=4u64 {
        a_call_fails(told, call);
    }
}

/// An area that is a byte short of its third sector.
fn short_area(alloc: Global) -> Result<MemArea, AllocError> {
    Ok(MemArea::of(vec![in alloc; 0; 1535]?, Vec::new(alloc)))
}

/// A round in such an area: how many calls went well, the faults, and the first byte; how a read of another sector went, and the faults.
fn tell_short_round(told: &mut Told, area: &mut MemArea) {
    let Some(run) = small() else {
        return told.need(false);
    };
    let round = write_and_read(area, run);
    told.number(round.done);
    told.number(area.faults());
    told.number(u64::from(round.ends[0]));
    told.truth(is_read(area, run.value_place(0)));
    told.number(area.faults());
}

/// A round in an area that is a byte short of its third sector.
pub fn past_the_room(told: &mut Told) {
    match short_area(told.alloc) {
        Ok(mut area) => tell_short_round(told, &mut area),
        Err(_) => told.need(false),
    }
}

/// In a file that isn't there: the faults, how many calls of a round went well, and the faults then.
fn tell_missing<F: Read + Write + Seek + Drop>(told: &mut Told, area: &mut FileArea<F>) {
    told.number(area.faults());
    match small() {
        Some(run) => told.number(write_and_read(area, run).done),
        None => told.need(false),
    }
    told.number(area.faults());
}

/// What calls on the area of a file that isn't there come to: each is a fault.
pub fn a_missing_file<R: Files>(rt: &R, told: &mut Told) {
    tell_missing(told, &mut FileArea::open(rt, "no_such_area"));
}

/// Whether the bytes are these: 700 sevens, zeros up to 1536, and 512 fives.
fn is_extended(bytes: &[u8]) -> bool {
    let mut expected = [0; 2048];
    expected[..700].copy_from_slice(&[7; 700]);
    expected[1536..].copy_from_slice(&[5; 512]);
    bytes == expected.as_slice()
}

/// In a file of 700 sevens: whether its first sector is read; whether the next, which it ends in, and the fourth are; and the faults.
fn while_short<F: Read + Write + Seek + Drop>(
    told: &mut Told,
    area: &mut FileArea<F>,
    run: Geometry,
)
    requires { run ≡ record { sector = 512; area = 1048576; hosts = 3; paired = false } }
{
    told.truth(reads(area, run.leader_place(0), 7));
    told.truth(is_read(area, run.request_place(0)));
    told.truth(is_read(area, run.block_place(0, 3)));
    told.number(area.faults());
}

/// Whether a write of the fourth sector extended the file of 700 sevens with zeros before it.
fn tell_extended<R: Files + AllocGlobal>(rt: &R, told: &mut Told) {
    match fs::read(rt, "short_area") {
        Ok(bytes) => told.truth(is_extended(&bytes)),
        Err(_) => told.need(false),
    }
}

/// Once the fourth sector is written: whether it is read; and a round with its faults.
fn once_extended<F: Read + Write + Seek + Drop>(
    told: &mut Told,
    area: &mut FileArea<F>,
    run: Geometry,
)
    requires { run ≡ record { sector = 512; area = 1048576; hosts = 3; paired = false } }
{
    told.truth(reads(area, run.block_place(0, 2), 5));
    let round = write_and_read(area, run);
    told.number(round.done);
    told.number(u64::from(round.ends[0]));
    told.number(u64::from(round.ends[3]));
    told.number(area.faults());
}

/// What comes of the reads and writes of a file of 700 sevens. Between those before it is extended and those after it: whether a write of the
/// fourth sector goes well, and extends it with zeros.
fn of_short_file<R: Files + AllocGlobal, F: Read + Write + Seek + Drop>(
    rt: &R,
    told: &mut Told,
    area: &mut FileArea<F>,
) {
    let Some(run) = small() else {
        return told.need(false);
    };
    while_short(told, area, run);
    told.truth(writes(area, run.block_place(0, 2), 5));
    tell_extended(rt, told);
    once_extended(told, area, run);
}

/// Makes a file of 700 sevens, and takes it away in the end.
pub fn a_short_file<R: Files + AllocGlobal>(rt: &R, told: &mut Told) {
    told.done(fs::write(rt, "short_area", [7; 700].as_slice()));
    of_short_file(rt, told, &mut FileArea::open(rt, "short_area"));
    told.done(fs::remove_file(rt, "short_area"));
}
