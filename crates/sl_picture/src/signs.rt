//! The signs, the events and the comments of a picture.

ghost use Rattle.sl_picture.specs.Signs as signs;
ghost use Rattle.std.specs.Prelude.{IfOk, OnOk, length, ◌++◌, ◌<◌, ◌≡◌};

use crate::bars::push_numbered;
use crate::kept::{Picture, text_at};
use crate::layout::{
    LEFT, Layout, Place, TOP, bottom_of, calls_top, held_top, links_top, place_of, x_of,
};
use crate::shapes::{Column, Mark, Note, Sign};
use sl_drawing::{
    Area, Class, Symbol, letters, minus, plus, push_label, push_rect, push_symbol, push_titled,
    times,
};
use sl_text::number::push_number;
use std::alloc::AllocError;

/// Adds a line over a machine at an instant, with a word.
fn push_line(
    out: &mut Vec<u8>,
    place: Place,
    class: Class,
    x: u64,
    word: &[u8],
) -> Result<(), AllocError>
    ensures { OnOk result (out.new.items ≡ out.old.items ++ signs.line_text place class x word.now) }
{
    let area = Area {
        x,
        y: place.top,
        width: 3,
        height: minus(bottom_of(place), place.top),
    };
    push_rect(out, class, area)?;
    push_label(out, Class::Bad, plus(x, 5), plus(links_top(place), 6), word)
}

/// Adds a sign with a word.
fn push_sign(
    out: &mut Vec<u8>,
    symbol: Symbol,
    x: u64,
    y: u64,
    class: Class,
    word: &[u8],
) -> Result<(), AllocError>
    ensures { OnOk result (out.new.items ≡ out.old.items ++ signs.sign_text symbol x y class word.now) }
{
    push_symbol(out, symbol, plus(x, 5), y)?;
    push_label(out, class, plus(x, 12), plus(y, 8), word)
}

/// Adds a sign of a machine at its place.
#[tactic(auto, unfolding(crate::specs::Signs::mark_there))]
fn push_mark_there(out: &mut Vec<u8>, place: Place, x: u64, sign: Sign) -> Result<(), AllocError>
    ensures { OnOk result (out.new.items ≡ out.old.items ++ signs.mark_there place x sign) }
{
    let calls = calls_top(place);
    let links = links_top(place);
    let held = plus(held_top(place), 1);
    match sign {
        Sign::TestHeld => push_symbol(out, Symbol::Held, plus(x, 3), minus(links, 4)),
        Sign::TestFailed => push_symbol(out, Symbol::Failed, plus(x, 3), links),
        Sign::Torn => push_sign(out, Symbol::Torn, x, calls, Class::Bad, b"torn"),
        Sign::CallFailed => push_symbol(out, Symbol::Torn, plus(x, 4), calls),
        Sign::Dropped => push_symbol(out, Symbol::Dropped, plus(x, 4), calls),
        Sign::Term => push_sign(out, Symbol::Term, x, held, Class::Inside, b"term"),
        Sign::Kill => push_sign(out, Symbol::Kill, x, held, Class::Inside, b"kill"),
        Sign::Start => push_line(out, place, Class::Up, x, b"daemon"),
        Sign::Crash => push_line(out, place, Class::Crash, x, b"crash"),
        Sign::Reset => push_line(out, place, Class::Reset, x, b"reset"),
        Sign::Restart => push_line(out, place, Class::Up, x, b"up"),
    }
}

/// Adds a sign of a machine at an instant.
fn push_mark(out: &mut Vec<u8>, layout: &Layout, mark: Mark) -> Result<(), AllocError>
    ensures { OnOk result (out.new.items ≡ out.old.items ++ signs.mark_text layout.now mark) }
{
    let x = x_of(layout.scale, mark.at);
    push_mark_there(out, place_of(&layout.places, mark.machine), x, mark.sign)
}

/// Adds the signs.
pub(crate) fn push_marks(
    out: &mut Vec<u8>,
    layout: &Layout,
    marks: &[Mark],
) -> Result<(), AllocError>
    ensures { OnOk result (out.new.items ≡ out.old.items ++ signs.marks_text layout.now marks.now) }
{
    for mark in marks {
        push_mark(out, layout, *mark)?;
    }
    Ok(())
}

/// Where a reader points at to see an event.
fn column_area(layout: &Layout, column: Column) -> Area
    ensures { result ≡ signs.column_area layout.now column }
{
    let place = place_of(&layout.places, column.machine);
    Area {
        x: x_of(layout.scale, column.at),
        y: place.top,
        width: layout.scale.event,
        height: minus(bottom_of(place), place.top),
    }
}

/// Adds a comment's number to the axis.
fn push_note_sign(out: &mut Vec<u8>, x: u64, number: &[u8], free: u64) -> Result<(), AllocError>
    ensures { OnOk result (out.new.items ≡ out.old.items ++ signs.note_sign x number.now free) }
{
    push_symbol(out, Symbol::Note, x, TOP - 18)?;
    if x < free {
        return Ok(());
    }
    push_label(out, Class::Dim, minus(x, 2), TOP - 3, number)
}

/// Where the next number has room behind that of a comment.
fn note_end(x: u64, number: &[u8], free: u64) -> u64
    ensures { result ≡ signs.note_end x number.now free }
{
    if x < free {
        free
    } else {
        plus(x, plus(letters(number.len()), 2))
    }
}

impl Picture {
    /// Adds an event's line with its number, and its lines of the report.
    fn push_event(&self, out: &mut Vec<u8>, column: Column) -> Result<(), AllocError>
        ensures { OnOk result (out.new.items ≡ out.old.items ++ signs.event_words self.now column) }
    {
        push_numbered(out, b"line ", column.number)?;
        out.extend_from_slice(b": ")?;
        out.extend_from_slice(text_at(&self.texts, column.line))?;
        out.extend_from_slice(b"\n")?;
        out.extend_from_slice(text_at(&self.texts, column.report))
    }

    /// Adds an event, which a reader sees who points at its place.
    fn push_column(
        &self,
        out: &mut Vec<u8>,
        layout: &Layout,
        column: Column,
    ) -> Result<(), AllocError>
        ensures { OnOk result (out.new.items ≡ out.old.items ++ signs.column_text self.now layout.now column) }
    {
        let mut title = Vec::new(self.alloc());
        self.push_event(&mut title, column)?;
        push_titled(out, Class::Hit, column_area(layout, column), &title)
    }

    /// Adds the events.
    pub(crate) fn push_columns(&self, out: &mut Vec<u8>, layout: &Layout) -> Result<(), AllocError>
        ensures { OnOk result (out.new.items ≡ out.old.items ++ signs.columns_text self.now layout.now) }
    {
        for column in &self.columns {
            self.push_column(out, layout, *column)?;
        }
        Ok(())
    }

    /// A comment, by its index.
    fn note_at(&self, index: usize) -> Note
        requires { index < length self.now.notes }
        ensures { result ≡ signs.note_at self.now index }
    {
        self.notes[index]
    }

    /// Adds a comment below the machines, behind its number.
    fn push_note_words(
        &self,
        out: &mut Vec<u8>,
        layout: &Layout,
        index: usize,
        number: &[u8],
    ) -> Result<(), AllocError>
        requires { index < length self.now.notes }
        ensures { OnOk result (out.new.items ≡ out.old.items ++ signs.note_words self.now layout.now index number.now) }
    {
        let note = self.note_at(index);
        let y = plus(plus(layout.bottom, 18), times(index as u64, 13));
        push_label(out, Class::Dim, LEFT - 20, y, number)?;
        push_label(out, Class::Dim, LEFT, y, text_at(&self.texts, note.text))
    }

    /// Adds a comment, and its number on the axis where there is room; the answer is where the next number has room.
    fn push_note(
        &self,
        out: &mut Vec<u8>,
        layout: &Layout,
        index: usize,
        free: u64,
    ) -> Result<u64, AllocError>
        requires { index < length self.now.notes }
        ensures text { OnOk result (out.new.items ≡ out.old.items ++ signs.note_text self.now layout.now index free) }
        ensures end { IfOk result (λ end. end ≡ signs.note_free self.now layout.now index free) }
    {
        let x = plus(x_of(layout.scale, self.note_at(index).at), 4);
        let mut number = Vec::new(self.alloc());
        push_number(&mut number, plus(index as u64, 1))?;
        self.push_note_words(out, layout, index, &number)?;
        push_note_sign(out, x, &number, free)?;
        Ok(note_end(x, &number, free))
    }

    /// Adds the comments.
    pub(crate) fn push_notes(&self, out: &mut Vec<u8>, layout: &Layout) -> Result<(), AllocError>
        ensures { OnOk result (out.new.items ≡ out.old.items ++ signs.notes_text self.now layout.now) }
    {
        let mut free = 0;
        for index in 0..self.notes.len() {
            free = self.push_note(out, layout, index, free)?;
        }
        Ok(())
    }
}
