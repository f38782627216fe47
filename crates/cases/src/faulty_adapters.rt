//! Adapters over a reader and a writer that misbehave.

use crate::streams::{tell_count, went};
use crate::told::Told;
use sl_io::{ReadSource, Sink, Source, WriteSink, write_all};
use std::io;
use std::io::{ErrorKind, Read, Write};

/// Is interrupted at its first call, and fails at its third.
#[derive(Drop)]
struct Restless(u32);

impl Read for Restless {
    fn read(&mut self, buf: &mut [u8]) -> io::Result<usize> {
        self.0 = self.0.saturating_add(1);
        if self.0 == 1 {
            return Err(io::Error::from(ErrorKind::Interrupted));
        }
        if self.0 == 3 || buf.is_empty() {
            return Err(io::Error::from(ErrorKind::Other));
        }
        buf[0] = b'x';
        Ok(1)
    }
}

/// Is interrupted at its first call, takes two bytes at its second, and none from then on.
#[derive(Drop)]
struct Stuck(u32);

impl Write for Stuck {
    fn write(&mut self, buf: &[u8]) -> io::Result<usize> {
        self.0 = self.0.saturating_add(1);
        if self.0 == 1 {
            return Err(io::Error::from(ErrorKind::Interrupted));
        }
        Ok(if self.0 == 2 { buf.len().min(2) } else { 0 })
    }

    fn flush(&mut self) -> io::Result<()> {
        Err(io::Error::from(ErrorKind::Other))
    }
}

/// Reads once: what came of it, with the faults behind it.
fn tell_read(told: &mut Told, source: &mut ReadSource<Restless>, buffer: &mut [u8]) {
    tell_count(told, &source.read(buffer));
    told.number(source.faults());
}

/// Three reads: what came of each, with the faults behind it; the first is interrupted within, the second fails.
pub fn an_interrupted_read(told: &mut Told) {
    let mut source = ReadSource::new(Restless(0));
    let mut buffer = [0; 4];
    tell_read(told, &mut source, &mut buffer);
    tell_read(told, &mut source, &mut buffer);
    tell_read(told, &mut source, &mut buffer);
    told.word(if buffer[0] == b'x' { "x" } else { "?" });
}

/// A write of three bytes and one of none: what came of each, and the faults. Then one that takes none, and a flush: what came of each,
/// with the faults behind it.
fn tell_taken(told: &mut Told, sink: &mut WriteSink<Stuck>) {
    tell_count(told, &sink.write(b"abc"));
    tell_count(told, &sink.write(b""));
    told.number(sink.faults());
    told.word(went(&write_all(sink, b"c")));
    told.number(sink.faults());
    told.word(went(&sink.flush()));
    told.number(sink.faults());
}

/// A write of three bytes and one of none; then one that takes none, and a flush.
pub fn a_write_of_nothing(told: &mut Told) {
    tell_taken(told, &mut WriteSink::new(Stuck(0)));
}
