//! The thread that puts out what a machine replies, as it comes.
//!
//! It takes the entries that the cell hands out, goes along them with fresh locks of lvmlockd, and drops them: what it keeps is what is open. Each
//! line of the history is compared with the next one that the script gave, or, while a line for lvmlockd runs, with its next ask; where it is another
//! one, the machines end.

ghost use Rattle.sl_live_lines.specs.AuditedHistory.{IsOther, KeepsAsk, due_line, own_lines};
ghost use Rattle.sl_live_lines.specs.EventTexts.{Telling};
ghost use Rattle.sl_live_lines.specs.LocksAlong.{AlongState, line_given};
ghost use Rattle.sl_live_lines.specs.declared.given_lines.GivenLine.{GivenLine as GivenLineOf};
ghost use Rattle.sl_live_machine.specs.Printing.{IsPrinting, Meets, line_of};
ghost use Rattle.sl_book.specs.Logs.{entries};
ghost use Rattle.sl_trace.specs.declared.effects.Entry.{Entry as EntryOf};
ghost use Rattle.std.specs.Prelude.{IfOk, IsFalse, IsTrue, List, None, OnOk, Some, [], ◌++◌, ◌+◌, ◌∷◌, ◌≡◌};

use crate::mail::Mail;
use crate::room::Room;
use crate::script_waits::Post;
use sl_book::{Posted, Reader, Shelf};
use sl_cell::{Front, Station, Teller};
use sl_io::Sink;
use sl_live_lines::{Audit, GivenLine};
use sl_output::{Output, Press, Seat as Writer};
use sl_outside::Spawner;
use sl_text::Bytes;
use sl_trace::Entry;
use std::alloc::{AllocError, Global};
use std::sync::Wait;
use std::{mem, time};

/// Where a machine's printer gets the script's lines, where it puts out what it tells, and whether it tells events beside replies.
#[derive(Clone, Copy)]
pub struct Desk<'a, K: Sink, O: Press, T: Shelf> {
    pub mail: &'a Mail<T>,
    pub output: &'a Output<K, O>,
    pub events: bool,
}

/// The script's line that is due at this entry, if the entry has one of the script's, and one is there.
fn next_line<T: Shelf, R: Wait>(
    rt: &R,
    mail: &Mail<T>,
    audit: &Audit,
    reader: &mut Reader<T, GivenLine>,
    entry: &Entry,
) -> Option<Posted<T, GivenLine>>
    ensures meets { Meets audit.now.locks entry.now reader.old reader.new result }
    ensures by { reader.new.by ≡ reader.old.by }
{
    if !audit.has_own_line(entry) {
        return None;
    }
    let posted = mail.next(rt)?;
    if reader.take(&posted) {
        Some(posted)
    } else {
        None
    }
}

/// Whether the entry's line, if it has one, is the one that is due, where this is the script's next. An `Err` is want of memory.
fn fits<T: Shelf>(
    audit: &Audit,
    entry: &Entry,
    next: &Option<Posted<T, GivenLine>>,
) -> Result<bool, AllocError>
    ensures ask { IfOk result (λ b. IsTrue b → KeepsAsk audit.now.locks entry.now) }
    ensures own { IfOk result (λ b. IsTrue b → (l : GivenLineOf) → own_lines audit.now.locks entry.now ≡ l ∷ [] → line_of next.now ≡ Some l) }
    ensures other { IfOk result (λ b. IsFalse b → IsOther (line_given entry.now.input) (due_line audit.now.locks (line_of next.now))) }
{
    match next {
        Some(posted) => audit.fits(entry, Some(posted.element())),
        None => audit.fits(entry, None),
    }
}

/// The number of the entry behind so many. An `Err` is want of a number for it.
fn number_behind(entries: u64) -> Result<u64, AllocError>
    ensures { IfOk result (λ n. n ≡ entries + 1) }
{
    entries.checked_add(1).ok_or(AllocError)
}

/// A machine's printer: how much of the history it has seen, what it found along it, the script's lines that it met there, the pieces that it put
/// out, and the text that it has not put out yet, with the jobs whose replies are in it.
#[derive(Drop)]
pub(crate) struct Printer<J: Station, O: Press, T: Shelf> {
    pub mine: Front<J>,
    pub audit: Audit,
    pub reader: Reader<T, GivenLine>,
    pub writer: Writer<O>,
    text: Vec<u8>,
    jobs: Vec<u64>,
    /// The number of the entry whose line is not the one that was due, counted from 1. Behind it nothing is told.
    pub wrong: Option<u64>,
}

impl<J: Station, O: Press, T: Shelf> Printer<J, O, T> {
    /// One that has seen this of the history.
    pub(crate) fn new(
        alloc: Global,
        mine: Front<J>,
        audit: Audit,
        reader: Reader<T, GivenLine>,
        writer: Writer<O>,
    ) -> Printer<J, O, T>
        ensures mine { result.mine ≡ mine }
        ensures audit { result.audit ≡ audit }
        ensures reader { result.reader ≡ reader }
        ensures writer { result.writer ≡ writer }
        ensures text { result.text.items ≡ [] }
        ensures wrong { result.wrong ≡ None }
    {
        Printer {
            mine,
            audit,
            reader,
            writer,
            text: Vec::new(alloc),
            jobs: Vec::new(alloc),
            wrong: None,
        }
    }

    /// The script's lines that it met, and the pieces that it put out.
    pub(crate) fn into_parts(self) -> (Reader<T, GivenLine>, Writer<O>)
        ensures reader { result.0 ≡ self.reader }
        ensures writer { result.1 ≡ self.writer }
    {
        let Printer {
            mine: _,
            audit: _,
            reader,
            writer,
            text: _,
            jobs: _,
            wrong: _,
        } = self;
        (reader, writer)
    }

    /// Goes on by an entry. After an `Err`, which is want of memory, or of a number for a count, it is of no use.
    fn go_on<R: Wait>(
        &mut self,
        rt: &R,
        mail: &Mail<T>,
        machine: usize,
        entry: &Entry,
    ) -> Result<(), AllocError>
        ensures goes { (t : Telling) → (a : AlongState) → (h : List EntryOf) → machine ≡ self.old.reader.by + 1 → IsPrinting t a h self.old
            → OnOk result (IsPrinting t a (h ++ entry.now ∷ []) self.new) }
        ensures mine { self.new.mine ≡ self.old.mine }
        ensures by { self.new.reader.by ≡ self.old.reader.by }
        ensures seat { self.new.writer.by ≡ self.old.writer.by }
    {
        if self.wrong.is_some() {
            return Ok(());
        }
        let next = next_line(rt, mail, &self.audit, &mut self.reader, entry);
        let fit = fits(&self.audit, entry, &next)?;
        if fit {
            self.audit
                .step(&mut self.text, &mut self.jobs, machine, entry)?;
            return Ok(());
        }
        let number = number_behind(self.audit.entries())?;
        self.wrong = Some(number);
        Ok(())
    }

    /// Goes on by these, one after another.
    fn go_on_each<R: Wait>(
        &mut self,
        rt: &R,
        mail: &Mail<T>,
        machine: usize,
        entries: &[Entry],
    ) -> Result<(), AllocError>
        ensures goes { (t : Telling) → (a : AlongState) → (h : List EntryOf) → machine ≡ self.old.reader.by + 1 → IsPrinting t a h self.old
            → OnOk result (IsPrinting t a (h ++ entries.now) self.new) }
        ensures mine { self.new.mine ≡ self.old.mine }
        ensures by { self.new.reader.by ≡ self.old.reader.by }
        ensures seat { self.new.writer.by ≡ self.old.writer.by }
    {
        for index in 0..entries.len() {
            self.go_on(rt, mail, machine, &entries[index])?;
        }
        Ok(())
    }

    /// Puts out the text that it has. An `Err` is an output of which nobody knows any more what was put there.
    fn put<K: Sink, R: Wait>(&mut self, rt: &R, output: &Output<K, O>) -> Result<(), AllocError>
        ensures goes { (t : Telling) → (a : AlongState) → (h : List EntryOf) → IsPrinting t a h self.old → OnOk result (IsPrinting t a h self.new × (self.new.text.items ≡ [])) }
        ensures mine { self.new.mine ≡ self.old.mine }
        ensures by { self.new.reader.by ≡ self.old.reader.by }
        ensures seat { self.new.writer.by ≡ self.old.writer.by }
    {
        if self.text.is_empty() {
            return Ok(());
        }
        let none = Vec::new(*self.text.allocator());
        let text = mem::replace(&mut self.text, none);
        match output.put(rt, &mut self.writer, Bytes::new(text)) {
            Ok(()) => Ok(()),
            Err(_) => Err(AllocError),
        }
    }

    /// Takes what the cell hands out, and puts out what is told of it. An `Err` is want of memory, or a history that is longer than the daemon's.
    pub(crate) fn print<D: Teller, K: Sink, R: Wait, P: Spawner>(
        &mut self,
        rt: &R,
        room: &Room<D, J, P>,
        post: &Post,
        desk: &Desk<'_, K, O, T>,
    ) -> Result<(), AllocError>
        ensures goes { (t : Telling) → (a : AlongState) → IsPrinting t a (entries self.old.mine) self.old → OnOk result (IsPrinting t a (entries self.new.mine) self.new × (self.new.text.items ≡ [])) }
        ensures by { self.new.reader.by ≡ self.old.reader.by }
        ensures seat { self.new.writer.by ≡ self.old.writer.by }
    {
        let Ok(handed) = room.cell.hand_out(rt, &mut self.mine) else {
            return Err(AllocError);
        };
        let machine = self.reader.by() as usize + 1;
        self.go_on_each(rt, desk.mail, machine, &handed)?;
        self.put(rt, desk.output)?;
        post.printed(rt, &self.jobs);
        self.jobs.clear();
        Ok(())
    }
}

/// Prints until the machine ends, or a line is not the one due. An `Err` is want of memory, or a history that is longer than the daemon's.
pub(crate) fn print_replies<
    D: Teller,
    J: Station,
    K: Sink,
    O: Press,
    T: Shelf,
    R: Wait + time::Clock,
    P: Spawner,
>(
    rt: &R,
    room: &Room<D, J, P>,
    post: &Post,
    desk: &Desk<'_, K, O, T>,
    printer: &mut Printer<J, O, T>,
) -> Result<(), AllocError>
    ensures goes { (t : Telling) → (a : AlongState) → IsPrinting t a (entries printer.old.mine) printer.old → OnOk result (IsPrinting t a (entries printer.new.mine) printer.new) }
    ensures by { printer.new.reader.by ≡ printer.old.reader.by }
    ensures seat { printer.new.writer.by ≡ printer.old.writer.by }
{
    for _ in rt.forever() {
        let seen = post.printer.moves(rt);
        printer.print(rt, room, post, desk)?;
        if printer.wrong.is_some() || !post.runs(rt) {
            break;
        }
        post.printer.wait_at_most(rt, seen, room.pace.wake);
    }
    Ok(())
}
