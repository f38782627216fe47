//! The lines of a schedule played and drawn.

ghost use Rattle.sl_draw.specs.Captions.{IsCaption};
ghost use Rattle.sl_draw.specs.Draws.{Drawing, Draws};
ghost use Rattle.sl_picture.specs.Kept.{first_kept};
ghost use Rattle.sl_picture.specs.Page.{picture_of};
ghost use Rattle.sl_picture.specs.declared.kept.Part.{Part as PartOf};
ghost use Rattle.sl_play.specs.Plays.{IsPlaying, state_of};
ghost use Rattle.sl_play.specs.Replays.{MayPlay, Puts};
ghost use Rattle.sl_play.specs.declared.replay.Played.TheVariants as played;
ghost use Rattle.sl_reader.specs.HeaderBegins.{HeaderBegins};
ghost use Rattle.sl_reader.specs.LineReads.{EndStands};
ghost use Rattle.sl_report.specs.RefusalLines.{refusal_line};
ghost use Rattle.sl_report.specs.Reports.{end_line};
ghost use Rattle.sl_run.specs.Headers.{IsHeader};
ghost use Rattle.sl_run.specs.declared.header.Header.{Header as HeaderOf};
ghost use Rattle.sl_text.specs.Forms.{as_bytes};
ghost use Rattle.sl_world_state.specs.SaneWorlds.{ReadsCommands};
ghost use Rattle.std.specs.Prelude.{List, OnOk, Option, [], ℕ, ◌∷◌, ◌≡◌};

use crate::header::read_header;
use sl_io::{Sink, Source, write_all};
use sl_machine::LockTable;
use sl_picture::{Part, Picture};
use sl_play::{Play, Played};
use sl_reader::{LineReader, Next, ReadError};
use sl_run::{Header, Refusal};
use sl_schedule::{Counts, push_end_line, push_refusal_line};
use sl_text::Bytes;
use sl_world_state::Daemon;
use std::alloc::{AllocError, Global};

/// Puts out a text that stands, or found no memory.
fn put<K: Sink>(sink: &mut K, pushed: Result<(), AllocError>, text: &[u8], whole: Played) -> Played
    ensures { (all : List ℕ) → OnOk pushed (text.now ≡ all) → Puts (K.taken sink.old) (K.taken sink.new) (K.faults sink.old) (K.faults sink.new) all whole result }
{
    match pushed {
        Err(_) => Played::NoMemory,
        Ok(()) => match write_all(sink, text) {
            Ok(()) => whole,
            Err(_) => Played::WriteFault,
        },
    }
}

/// Puts out the picture below this caption, with this last line.
fn put_picture<K: Sink>(
    alloc: Global,
    sink: &mut K,
    caption: &[Bytes],
    picture: &Picture,
    last: &[u8],
    whole: Played,
) -> Played
    ensures { Puts (K.taken sink.old) (K.taken sink.new) (K.faults sink.old) (K.faults sink.new) (picture_of caption.now picture.now last.now) whole result }
{
    let mut text = Vec::new(alloc);
    let drawn = picture.push_picture(&mut text, caption, last);
    put(sink, drawn, &text, whole)
}

/// Puts out the picture with a last line that stands, or found no memory.
fn put_last<K: Sink>(
    sink: &mut K,
    caption: &[Bytes],
    picture: &Picture,
    pushed: Result<(), AllocError>,
    last: &Vec<u8>,
    whole: Played,
) -> Played
    ensures { (line : List ℕ) → OnOk pushed (last.now.items ≡ line)
        → Puts (K.taken sink.old) (K.taken sink.new) (K.faults sink.old) (K.faults sink.new) (picture_of caption.now picture.now line) whole result }
{
    match pushed {
        Err(_) => Played::NoMemory,
        Ok(()) => put_picture(*last.allocator(), sink, caption, picture, last, whole),
    }
}

/// Puts out the picture of a whole run.
fn finish<K: Sink>(
    sink: &mut K,
    caption: &[Bytes],
    picture: &Picture,
    last: &mut Vec<u8>,
    counts: &Counts,
) -> Played
    ensures { Puts (K.taken sink.old) (K.taken sink.new) (K.faults sink.old) (K.faults sink.new) (picture_of caption.now picture.now (as_bytes (end_line counts.now ∷ []))) played.Done result }
{
    last.clear();
    let pushed = push_end_line(last, counts);
    put_last(sink, caption, picture, pushed, last, Played::Done)
}

/// Puts out the picture of a run that was refused at this line.
fn refuse<K: Sink>(
    sink: &mut K,
    caption: &[Bytes],
    picture: &Picture,
    last: &mut Vec<u8>,
    number: u64,
    why: Refusal,
) -> Played
    ensures { Puts (K.taken sink.old) (K.taken sink.new) (K.faults sink.old) (K.faults sink.new) (picture_of caption.now picture.now (as_bytes (refusal_line number why ∷ []))) played.Refused result }
{
    last.clear();
    let pushed = push_refusal_line(last, number, why);
    put_last(sink, caption, picture, pushed, last, Played::Refused)
}

/// Plays the lines of the source and takes each into the picture, and then puts that out.
fn draw_lines<S: Source, K: Sink, D: Daemon, L: LockTable>(
    source: &mut S,
    sink: &mut K,
    reader: &mut LineReader,
    play: &mut Play<D, L>,
    caption: &[Bytes],
    picture: &mut Picture,
    out: &mut Vec<u8>,
) -> Played
    requires ends { EndStands (S.left source.old) reader.old }
    requires plays { IsPlaying D.commands D.stands (state_of L.locks play.old) }
    ensures { (h : HeaderOf) → (first : Option (List ℕ)) → (part : PartOf) → Drawing D.commands D.stands part h first (S.left source.old) reader.old (state_of L.locks play.old) caption.now picture.old
        → Draws D.commands D.stands part first (S.left source.new) (K.taken sink.old) (K.taken sink.new) (S.faults source.old) (S.faults source.new) (K.faults sink.old) (K.faults sink.new) result }
{
    loop {
        match reader.read_line(source) {
            Err(ReadError::Failed) => return Played::ReadFault,
            Err(ReadError::NoMemory) => return Played::NoMemory,
            Ok(Next::End) => return finish(sink, caption, picture, out, play.counts()),
            Ok(Next::Refused(why)) => {
                return refuse(sink, caption, picture, out, reader.next_number(), why);
            }
            Ok(Next::Line) => {}
        }
        out.clear();
        let line = reader.line();
        match play.take_line(out, &line) {
            Err(_) => return Played::NoMemory,
            Ok(Some(why)) => return refuse(sink, caption, picture, out, line.number, why),
            Ok(None) => {}
        }
        match picture.take(line.number, line.text, out) {
            Err(_) => return Played::NoMemory,
            Ok(()) => {}
        }
    }
}

/// Plays and draws the lines behind a header, whose picture was begun.
fn draw_begun<S: Source, K: Sink, D: Daemon, L: LockTable>(
    alloc: Global,
    source: &mut S,
    sink: &mut K,
    reader: &mut LineReader,
    header: Header,
    caption: &[Bytes],
    picture: &mut Picture,
) -> Played
    requires header { IsHeader header × ReadsCommands D.commands header }
    requires ends { EndStands (S.left source.old) reader.old }
    ensures { (first : Option (List ℕ)) → (part : PartOf) → (b : HeaderBegins first (S.left source.old) reader.old header) → IsCaption b.consumed reader.old caption.now → picture.old ≡ first_kept part header
        → Draws D.commands D.stands part first (S.left source.new) (K.taken sink.old) (K.taken sink.new) (S.faults source.old) (S.faults source.new) (K.faults sink.old) (K.faults sink.new) result }
{
    let mut out = Vec::new(alloc);
    match Play::<D, L>::new(alloc, header) {
        Err(_) => Played::NoMemory,
        Ok(mut play) => draw_lines(source, sink, reader, &mut play, caption, picture, &mut out),
    }
}

/// Plays and draws the lines behind a header.
fn draw_header<S: Source, K: Sink, D: Daemon, L: LockTable>(
    alloc: Global,
    part: Part,
    source: &mut S,
    sink: &mut K,
    reader: &mut LineReader,
    header: Header,
    caption: &[Bytes],
) -> Played
    requires header { IsHeader header × ReadsCommands D.commands header }
    requires ends { EndStands (S.left source.old) reader.old }
    ensures { (first : Option (List ℕ)) → (b : HeaderBegins first (S.left source.old) reader.old header) → IsCaption b.consumed reader.old caption.now
        → Draws D.commands D.stands part first (S.left source.new) (K.taken sink.old) (K.taken sink.new) (S.faults source.old) (S.faults source.new) (K.faults sink.old) (K.faults sink.new) result }
{
    match Picture::new(alloc, part, &header) {
        Err(_) => Played::NoMemory,
        Ok(mut picture) => {
            draw_begun::<S, K, D, L>(alloc, source, sink, reader, header, caption, &mut picture)
        }
    }
}

/// Puts out the line of a header's refusal.
fn refuse_header<K: Sink>(alloc: Global, sink: &mut K, number: u64, why: Refusal) -> Played
    ensures { Puts (K.taken sink.old) (K.taken sink.new) (K.faults sink.old) (K.faults sink.new) (as_bytes (refusal_line number why ∷ [])) played.Refused result }
{
    let mut line = Vec::new(alloc);
    let pushed = push_refusal_line(&mut line, number, why);
    put(sink, pushed, &line, Played::Refused)
}

/// Reads a schedule from the source, plays it in a world of these daemons and locks, and puts out the picture of this part of its lines: with
/// the header's comments above it, and the report's last line below, which is the refusal of a line where one is refused. A header that is
/// refused has no picture: its refusal is put out, as by a replay. Where a read fails, nothing is.
pub fn draw_schedule<S: Source, K: Sink, D: Daemon, L: LockTable>(
    alloc: Global,
    part: Part,
    source: &mut S,
    sink: &mut K,
) -> Played
    requires { MayPlay D.commands }
    ensures { Draws D.commands D.stands part (S.left source.old) (S.left source.new) (K.taken sink.old) (K.taken sink.new) (S.faults source.old) (S.faults source.new)
        (K.faults sink.old) (K.faults sink.new) result }
{
    let mut reader = match LineReader::new(alloc) {
        Ok(reader) => reader,
        Err(_) => return Played::NoMemory,
    };
    let mut caption = Vec::new(alloc);
    match read_header(alloc, source, &mut reader, &mut caption) {
        Err(ReadError::Failed) => Played::ReadFault,
        Err(ReadError::NoMemory) => Played::NoMemory,
        Ok(Err((number, why))) => refuse_header(alloc, sink, number, why),
        Ok(Ok(header)) => {
            draw_header::<S, K, D, L>(alloc, part, source, sink, &mut reader, header, &caption)
        }
    }
}
