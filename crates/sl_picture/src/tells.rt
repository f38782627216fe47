//! What a line of a report tells for the picture, and a whole line of a schedule with what is told of it.

ghost use Rattle.sl_picture.specs.Tells as tells;
ghost use Rattle.std.specs.Prelude.{OnOk, ◌≡◌};

use crate::fates::{Act, Deed, deed_on};
use crate::kept::Picture;
use crate::said::{is, number_at, text_behind, word_at};
use crate::shapes::{Bar, Column, Instant, Note, Shape, Sign};
use sl_drawing::plus;
use sl_text::line::split_line;
use std::alloc::AllocError;

/// What a line of a report tells.
#[derive(Clone, Copy)]
pub(crate) enum Told {
    End,
    Signal,
    Connection,
    Grant,
    Reply,
    Call,
    Test,
    Other,
}

/// What the second word of a line of a report says that it tells.
#[tactic(auto, unfolding(crate::specs::Tells::told_of))]
fn told_of(word: &[u8]) -> Told
    ensures { result ≡ tells.told_of word.now }
{
    if is(word, b"end") {
        Told::End
    } else if is(word, b"signal") {
        Told::Signal
    } else if is(word, b"wdmd") {
        Told::Connection
    } else if is(word, b"grant") {
        Told::Grant
    } else if is(word, b"reply") {
        Told::Reply
    } else if is(word, b"call") {
        Told::Call
    } else if is(word, b"test") {
        Told::Test
    } else {
        Told::Other
    }
}

/// Whether a line of a schedule says nothing: it is empty or a comment.
fn is_silent(line: &[u8]) -> bool
    ensures { result ≡ tells.is_silent line.now }
{
    match line.first() {
        Some(byte) => *byte == b'#',
        None => true,
    }
}

/// The sign of a signal.
fn signal_of(word: &[u8]) -> Sign
    ensures { result ≡ tells.signal_of word.now }
{
    if is(word, b"kill") {
        Sign::Kill
    } else {
        Sign::Term
    }
}

/// The shape of a holding, by the word of its mode.
fn mode_of(word: &[u8]) -> Shape
    ensures { result ≡ tells.mode_of word.now }
{
    if is(word, b"sh") {
        Shape::Shared
    } else {
        Shape::Exclusive
    }
}

/// The shape of a call, by its word.
fn call_of(word: &[u8]) -> Shape
    ensures { result ≡ tells.call_of word.now }
{
    if is(word, b"write") {
        Shape::Write
    } else {
        Shape::Read
    }
}

/// The sign of a test, by the word of how it came out.
fn test_of(word: &[u8]) -> Sign
    ensures { result ≡ tells.test_of word.now }
{
    if is(word, b"ok") {
        Sign::TestHeld
    } else {
        Sign::TestFailed
    }
}

impl Picture {
    /// A connection to the watchdog daemon is renewed.
    fn renew(&mut self, machine: u64, lockspace: &[u8], until: u64) -> Result<(), AllocError>
        ensures { OnOk result (self.new ≡ tells.renewed machine lockspace.now until self.old) }
    {
        let renewed = deed_on(Deed::Renewed, machine, 0);
        self.happen(Act { until, ..renewed }, lockspace)
    }

    /// A connection to the watchdog daemon begins, is renewed or is removed.
    fn connect(&mut self, line: &[u8]) -> Result<(), AllocError>
        ensures { OnOk result (self.new ≡ tells.connected line.now self.old) }
    {
        let machine = number_at(line, 0);
        let lockspace = word_at(line, 3);
        let until = number_at(line, 4);
        if is(word_at(line, 2), b"register") {
            self.begin_link(machine, Shape::Joining, lockspace, until)
        } else if is(word_at(line, 2), b"renew") {
            self.renew(machine, lockspace, until)
        } else {
            self.happen(deed_on(Deed::Removed, machine, 0), lockspace)
        }
    }

    /// A holding begins.
    fn grant(&mut self, line: &[u8]) -> Result<(), AllocError>
        ensures { OnOk result (self.new ≡ tells.granted line.now self.old) }
    {
        self.begin_holding(
            number_at(line, 0),
            mode_of(word_at(line, 4)),
            number_at(line, 2),
            word_at(line, 3),
            number_at(line, 5),
        )
    }

    /// A call is submitted.
    fn submit(&mut self, line: &[u8]) -> Result<(), AllocError>
        ensures { OnOk result (self.new ≡ tells.submitted line.now self.old) }
    {
        let name = self.keep(text_behind(line, 3))?;
        let bar = self.bar(number_at(line, 0), call_of(word_at(line, 3)));
        self.begin(Bar {
            number: number_at(line, 2),
            name,
            ..bar
        })
    }

    /// A command is answered.
    fn reply(&mut self, line: &[u8]) -> Result<(), AllocError>
        ensures { OnOk result (self.new ≡ tells.replied line.now self.old) }
    {
        self.answer(
            number_at(line, 0),
            number_at(line, 2),
            is(word_at(line, 3), b"ok"),
            text_behind(line, 3),
        )
    }

    /// What a line of the report tells.
    #[tactic(auto, unfolding(crate::specs::Tells::told))]
    fn tell(&mut self, line: &[u8]) -> Result<(), AllocError>
        ensures { OnOk result (self.new ≡ tells.told line.now self.old) }
    {
        let machine = number_at(line, 0);
        match told_of(word_at(line, 1)) {
            Told::End => self.end_holding(machine, number_at(line, 2), word_at(line, 3)),
            Told::Signal => self.mark(machine, signal_of(word_at(line, 3))),
            Told::Connection => self.connect(line),
            Told::Grant => self.grant(line),
            Told::Reply => self.reply(line),
            Told::Call => self.submit(line),
            Told::Test => self.mark(machine, test_of(word_at(line, 2))),
            Told::Other => Ok(()),
        }
    }

    /// What the lines of the report tell.
    fn tell_all(&mut self, report: &[u8]) -> Result<(), AllocError>
        ensures { OnOk result (self.new ≡ tells.all_told report.now self.old) }
    {
        let mut rest = report;
        while let Some((line, behind)) = split_line(rest) {
            self.tell(line)?;
            rest = behind;
        }
        Ok(())
    }

    /// A comment.
    fn note(&mut self, text: &[u8]) -> Result<(), AllocError>
        ensures { OnOk result (self.new ≡ tells.noted text.now self.old) }
    {
        let text = self.keep(text)?;
        let note = Note {
            at: self.here,
            text,
        };
        self.notes.push(note)?;
        Ok(())
    }

    /// The next event stands behind this one.
    fn step(&mut self)
        ensures { self.new ≡ tells.stepped self.old }
    {
        self.here = Instant {
            events: plus(self.here.events, 1),
            moment: self.here.moment,
        };
    }

    /// An event is shown where a reader points at it.
    fn column(&mut self, number: u64, line: &[u8], report: &[u8]) -> Result<(), AllocError>
        ensures { OnOk result (self.new ≡ tells.with_column number line.now report.now self.old) }
    {
        let text = self.keep(line)?;
        let report = self.keep(report)?;
        let column = Column {
            machine: number_at(line, 1),
            at: self.here,
            number,
            line: text,
            report,
        };
        self.columns.push(column)?;
        self.step();
        Ok(())
    }

    /// A line that says something, with what the report tells of it. Time that passes is shown by its width, and any other event takes a place.
    fn happening(&mut self, number: u64, line: &[u8], report: &[u8]) -> Result<(), AllocError>
        ensures { OnOk result (self.new ≡ tells.happening number line.now report.now self.old) }
    {
        self.see(line)?;
        self.tell_all(report)?;
        if is(word_at(line, 0), b"pass") {
            return Ok(());
        }
        self.column(number, line, report)
    }

    /// A line that says nothing: a comment is kept.
    fn silence(&mut self, line: &[u8]) -> Result<(), AllocError>
        ensures { OnOk result (self.new ≡ tells.silence line.now self.old) }
    {
        if line.is_empty() {
            return Ok(());
        }
        self.note(line.split_at(1).1)
    }

    /// A line within what is drawn or before it, with what the report tells of it.
    fn line(&mut self, number: u64, line: &[u8], report: &[u8]) -> Result<(), AllocError>
        ensures { OnOk result (self.new ≡ tells.with_line number line.now report.now self.old) }
    {
        if is_silent(line) {
            self.silence(line)
        } else {
            self.happening(number, line, report)
        }
    }

    /// A line of the schedule behind its header, with its number and what the report tells of it: its event's lines, and those of the asks
    /// behind it. A line behind the part that is drawn changes nothing. An `Err` is want of memory, and the picture is at its end then.
    #[tactic(auto, unfolding(crate::specs::Tells::taken))]
    pub fn take(&mut self, number: u64, line: &[u8], report: &[u8]) -> Result<(), AllocError>
        ensures { OnOk result (self.new ≡ tells.taken number line.now report.now self.old) }
    {
        if self.part.last < number {
            return Ok(());
        }
        self.line(number, line, report)?;
        if number < self.part.first {
            return self.hide();
        }
        Ok(())
    }
}
