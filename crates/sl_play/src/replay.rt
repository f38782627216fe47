//! The replay of a schedule.

ghost use Rattle.sl_world_state.specs.SaneWorlds.{ReadsCommands};
ghost use Rattle.sl_play.specs.Plays.{IsPlaying, state_of};
ghost use Rattle.sl_play.specs.Replays.{MayPlay, Puts, Replays, Running};
ghost use Rattle.sl_play.specs.declared.replay.Played.TheVariants as played;
ghost use Rattle.sl_report.specs.Reports.{end_line};
ghost use Rattle.sl_report.specs.RefusalLines.{refusal_line};
ghost use Rattle.sl_run.specs.declared.header.Header.{Header as HeaderOf};
ghost use Rattle.sl_run.specs.Headers.{IsHeader};
ghost use Rattle.sl_reader.specs.HeaderBegins.{HeaderBegins};
ghost use Rattle.sl_reader.specs.LineReads.{EndStands};
ghost use Rattle.sl_text.specs.Forms.{as_bytes};
ghost use Rattle.std.specs.Prelude.{List, OnOk, Option, [], ℕ, ◌∷◌, ◌≡◌};

use crate::Play;
use sl_io::{Sink, Source, write_all};
use sl_machine::LockTable;
use sl_reader::{LineReader, Next, ReadError, read_header};
use sl_run::{Header, Refusal};
use sl_schedule::{Counts, push_end_line, push_refusal_line};
use sl_world_state::Daemon;
use std::alloc::{AllocError, Global};

/// How a replay ended; each goes with a status of its own.
#[derive(Clone, Copy, Debug, PartialEq, Eq)]
pub enum Played {
    /// The source was read to its end, and each line's event happened; the report is whole.
    Done,
    /// A line was refused; the report ends with its refusal.
    Refused,
    /// A read failed. The report of the lines before it is written.
    ReadFault,
    /// A write failed. What is written begins the report.
    WriteFault,
    /// There was no memory, or no number for a call, a job or a count. What is written begins the report.
    NoMemory,
}

/// Puts out a text that stands, or found no memory.
fn put<K: Sink>(sink: &mut K, pushed: Result<(), AllocError>, text: &[u8], whole: Played) -> Played
    ensures { (all : List ℕ) → OnOk pushed (text.now ≡ all) → Puts (K.taken sink.old) (K.taken sink.new) (K.faults sink.old) (K.faults sink.new) all whole result }
{
    match pushed {
        Err(_) => Played::NoMemory,
        Ok(()) => match write_all(sink, text) {
            Ok(()) => whole,
            Err(_) => Played::WriteFault,
        },
    }
}

/// Puts out the last line of a whole report.
fn finish<K: Sink>(sink: &mut K, out: &mut Vec<u8>, counts: &Counts) -> Played
    ensures { Puts (K.taken sink.old) (K.taken sink.new) (K.faults sink.old) (K.faults sink.new) (as_bytes (end_line counts.now ∷ [])) played.Done result }
{
    out.clear();
    let pushed = push_end_line(out, counts);
    put(sink, pushed, out, Played::Done)
}

/// Puts out the line of a refusal.
fn refuse<K: Sink>(sink: &mut K, out: &mut Vec<u8>, number: u64, why: Refusal) -> Played
    ensures { Puts (K.taken sink.old) (K.taken sink.new) (K.faults sink.old) (K.faults sink.new) (as_bytes (refusal_line number why ∷ [])) played.Refused result }
{
    out.clear();
    let pushed = push_refusal_line(out, number, why);
    put(sink, pushed, out, Played::Refused)
}

/// Plays the lines of the source, and writes each one's report before the next is read.
fn play_lines<S: Source, K: Sink, D: Daemon, L: LockTable>(
    source: &mut S,
    sink: &mut K,
    reader: &mut LineReader,
    play: &mut Play<D, L>,
    out: &mut Vec<u8>,
) -> Played
    requires ends { EndStands (S.left source.old) reader.old }
    requires plays { IsPlaying D.commands D.stands (state_of L.locks play.old) }
    ensures { (h : HeaderOf) → (first : Option (List ℕ)) → (taken : Option (List ℕ))
        → Running D.commands D.stands h first (S.left source.old) taken (K.taken sink.old) reader.old (state_of L.locks play.old)
        → Replays D.commands D.stands first (S.left source.new) taken (K.taken sink.new) (S.faults source.old) (S.faults source.new) (K.faults sink.old) (K.faults sink.new) result }
{
    loop {
        match reader.read_line(source) {
            Err(ReadError::Failed) => return Played::ReadFault,
            Err(ReadError::NoMemory) => return Played::NoMemory,
            Ok(Next::End) => return finish(sink, out, play.counts()),
            Ok(Next::Refused(why)) => return refuse(sink, out, reader.next_number(), why),
            Ok(Next::Line) => {}
        }
        out.clear();
        let line = reader.line();
        match play.take_line(out, &line) {
            Err(_) => return Played::NoMemory,
            Ok(Some(why)) => return refuse(sink, out, line.number, why),
            Ok(None) => {}
        }
        match write_all(sink, out) {
            Err(_) => return Played::WriteFault,
            Ok(()) => {}
        }
    }
}

/// Plays the lines behind a header.
fn play_header<S: Source, K: Sink, D: Daemon, L: LockTable>(
    alloc: Global,
    source: &mut S,
    sink: &mut K,
    reader: &mut LineReader,
    header: Header,
) -> Played
    requires header { IsHeader header × ReadsCommands D.commands header }
    requires ends { EndStands (S.left source.old) reader.old }
    ensures { (first : Option (List ℕ)) → HeaderBegins first (S.left source.old) reader.old header
        → Replays D.commands D.stands first (S.left source.new) (K.taken sink.old) (K.taken sink.new) (S.faults source.old) (S.faults source.new) (K.faults sink.old) (K.faults sink.new) result }
{
    let mut out = Vec::new(alloc);
    match Play::<D, L>::new(alloc, header) {
        Err(_) => Played::NoMemory,
        Ok(mut play) => play_lines(source, sink, reader, &mut play, &mut out),
    }
}

/// Reads a schedule from the source, plays it in a world of these daemons and locks, and writes its report to the sink, each line's before the
/// next line is read.
///
/// A schedule has a header and, behind its line `begin`, an event a line. A line of more than 4096 bytes is refused as soon as the byte behind
/// these is read, and so is a line that holds a byte behind the first 1000000000 of the source; once a line is refused, the source is read no
/// further.
pub fn play_schedule<S: Source, K: Sink, D: Daemon, L: LockTable>(
    alloc: Global,
    source: &mut S,
    sink: &mut K,
) -> Played
    requires { MayPlay D.commands }
    ensures { Replays D.commands D.stands (S.left source.old) (S.left source.new) (K.taken sink.old) (K.taken sink.new) (S.faults source.old) (S.faults source.new)
        (K.faults sink.old) (K.faults sink.new) result }
{
    let mut reader = match LineReader::new(alloc) {
        Ok(reader) => reader,
        Err(_) => return Played::NoMemory,
    };
    match read_header(alloc, source, &mut reader) {
        Err(ReadError::Failed) => Played::ReadFault,
        Err(ReadError::NoMemory) => Played::NoMemory,
        Ok(Err((number, why))) => refuse(sink, &mut Vec::new(alloc), number, why),
        Ok(Ok(header)) => play_header::<S, K, D, L>(alloc, source, sink, &mut reader, header),
    }
}
