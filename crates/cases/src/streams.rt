//! The loops that read and write whole streams, with each call failing in turn, and the adapters over files of the system.

use crate::told::Told;
use sl_io::{Failed, MemSink, MemSource, ReadSource, Sink, WriteSink, fill, write_all};
use std::alloc::{AllocError, Global};
use std::fs::File;
use std::io::Write;
use std::rt::Files;

/// The word of how filling a buffer ended: the source was read to its end, or it has more.
fn read_word(filled: &Result<bool, Failed>) -> &'static str {
    match filled {
        Ok(false) => "whole",
        Ok(true) => "longer",
        Err(_) => "failed",
    }
}

/// The word of how a write went.
pub fn went<T, E>(done: &Result<T, E>) -> &'static str {
    if done.is_ok() { "ok" } else { "failed" }
}

/// Three bytes that come one at a time, of which one read fails.
fn failing_source(alloc: Global, call: u64) -> Result<MemSource, AllocError> {
    let bytes = b"abc".to_vec(alloc)?;
    Ok(MemSource::new(bytes, vec![in alloc; 1]?, vec![in alloc; call]?))
}

/// How all of such a source is read, the faults, and how many bytes are left.
fn tell_read(told: &mut Told, source: &mut MemSource) {
    told.word(read_word(&fill(source, &mut [0; 9])));
    told.number(source.faults());
    told.number(source.left().len() as u64);
    told.end(";");
}

/// Reads three bytes of which one read fails.
fn a_read_fails(told: &mut Told, call: u64) {
    match failing_source(told.alloc, call) {
        Ok(mut source) => tell_read(told, &mut source),
        Err(_) => told.need(false),
    }
}

/// Three bytes for each of four reads that fails.
pub fn each_read_fails(told: &mut Told) {
    for call in 1..=4u64 {
        a_read_fails(told, call);
    }
}

/// Room for nine bytes, which are taken two at a time, and of which one write fails.
fn failing_sink(alloc: Global, call: u64) -> Result<MemSink, AllocError> {
    MemSink::new(alloc, 9, vec![in alloc; 2]?, vec![in alloc; call]?)
}

/// How all of five bytes is written to such a sink, the faults, how many bytes were taken, and how another is written and how many are
/// taken then.
fn tell_writes(told: &mut Told, sink: &mut MemSink) {
    told.word(went(&write_all(sink, b"block")));
    told.number(sink.faults());
    told.number(sink.taken().len() as u64);
    told.word(went(&write_all(sink, b"!")));
    told.number(sink.taken().len() as u64);
    told.end(";");
}

/// Writes five bytes of which one write fails.
fn a_write_fails(told: &mut Told, call: u64) {
    match failing_sink(told.alloc, call) {
        Ok(mut sink) => tell_writes(told, &mut sink),
        Err(_) => told.need(false),
    }
}

/// Five bytes for each of three writes that fails.
pub fn each_write_fails(told: &mut Told) {
    for call in 1..=3u64 {
        a_write_fails(told, call);
    }
}

/// The number of what was taken, or that it failed.
pub fn tell_count<E>(told: &mut Told, taken: &Result<usize, E>) {
    match taken {
        Ok(count) => told.number(*count as u64),
        Err(_) => told.word("failed"),
    }
}

/// Writes pieces of 2, 3, 0, 1 and 1 bytes to a sink: what was taken of each, the faults, the room and whether it has the first four bytes.
fn tell_taken(told: &mut Told, sink: &mut MemSink) {
    for piece in ["ab", "cde", "", "e", "e"].iter() {
        tell_count(told, &sink.write(piece.as_bytes()));
    }
    told.number(sink.faults());
    told.number(sink.room() as u64);
    told.truth(sink.taken() == b"abcd".as_slice());
}

/// Pieces to a sink that has room for four bytes.
pub fn a_full_sink(told: &mut Told) {
    match MemSink::new(told.alloc, 4, Vec::new(told.alloc), Vec::new(told.alloc)) {
        Ok(mut sink) => tell_taken(told, &mut sink),
        Err(_) => told.need(false),
    }
}

/// Writes three bytes: how it went, how the flush went, and the faults.
fn tell_flushed<W: Write>(told: &mut Told, sink: &mut WriteSink<W>) {
    told.word(went(&write_all(sink, b"abc")));
    told.word(went(&sink.flush()));
    told.number(sink.faults());
}

/// What comes of writes to a file of the system.
fn tell_written<R: Files>(rt: &R, told: &mut Told, path: &str) {
    match File::options().write(true).open(rt, path) {
        Ok(file) => tell_flushed(told, &mut WriteSink::new(file)),
        Err(_) => told.need(false),
    }
}

/// How reading the empty file of the system ended.
fn tell_empty<R: Files>(rt: &R, told: &mut Told) {
    match File::open(rt, "/dev/null") {
        Ok(file) => told.word(read_word(&fill(&mut ReadSource::new(file), &mut [0; 1]))),
        Err(_) => told.need(false),
    }
}

/// How reading the empty file of the system ended, and how writes to the full one and to the empty one went.
pub fn files_of_the_system<R: Files>(rt: &R, told: &mut Told) {
    tell_empty(rt, told);
    tell_written(rt, told, "/dev/full");
    tell_written(rt, told, "/dev/null");
}
