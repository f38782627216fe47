//! The whole picture, as a text.

ghost use Rattle.sl_picture.specs.Layout.{all_bars, plan_of};
ghost use Rattle.sl_picture.specs.Page as page;
ghost use Rattle.std.specs.Prelude.{IfOk, OnOk, length, ◌++◌, ◌<◌, ◌≡◌};

use crate::bars::{Layer, push_numbered};
use crate::caption::push_above;
use crate::kept::{Picture, text_at};
use crate::layout::{
    LEFT, Layout, Place, TOP, bottom_of, calls_top, commands_top, held_top, links_top,
};
use crate::said::behind_colon;
use crate::shapes::Bar;
use crate::signs::push_marks;
use sl_drawing::{Area, Class, letters, minus, plus, push_label, push_rect, push_tail, times};
use sl_text::Bytes;
use sl_text::number::push_number;
use std::alloc::AllocError;

/// The resources of a legend, as many as have room.
const MOST_KEYS: usize = 12;

/// Adds the names of a machine's upper rows.
#[tactic(auto, unfolding(crate::specs::Page::upper_rows))]
fn push_upper_rows(out: &mut Vec<u8>, place: Place) -> Result<(), AllocError>
    ensures { OnOk result (out.new.items ≡ out.old.items ++ page.upper_rows place) }
{
    let commands = plus(commands_top(place), 9);
    let calls = plus(calls_top(place), 9);
    push_label(out, Class::Dim, LEFT - 54, commands, b"commands")?;
    push_label(out, Class::Dim, LEFT - 32, calls, b"disk")
}

/// .. and of its lower ones.
#[tactic(auto, unfolding(crate::specs::Page::lower_rows))]
fn push_lower_rows(out: &mut Vec<u8>, place: Place) -> Result<(), AllocError>
    ensures { OnOk result (out.new.items ≡ out.old.items ++ page.lower_rows place) }
{
    let links = plus(links_top(place), 6);
    let held = plus(held_top(place), 9);
    push_label(out, Class::Dim, LEFT - 48, links, b"session")?;
    push_label(out, Class::Dim, LEFT - 37, held, b"holds")
}

/// Adds the names of a machine's rows.
fn push_rows(out: &mut Vec<u8>, place: Place) -> Result<(), AllocError>
    ensures { OnOk result (out.new.items ≡ out.old.items ++ page.rows_text place) }
{
    push_upper_rows(out, place)?;
    push_lower_rows(out, place)
}

/// Adds a key of the legend at a place of the axis; the answer is where the next one stands.
#[tactic(auto, unfolding(crate::specs::Page::key_text))]
fn push_key(out: &mut Vec<u8>, class: Class, x: u64, text: &[u8]) -> Result<u64, AllocError>
    ensures text { OnOk result (out.new.items ≡ out.old.items ++ page.key_text class x text.now) }
    ensures end { IfOk result (λ end. end ≡ page.key_end x text.now) }
{
    let area = Area {
        x,
        y: 4,
        width: 10,
        height: 9,
    };
    push_rect(out, class, area)?;
    push_label(out, Class::Plain, plus(x, 14), 12, text)?;
    Ok(plus(x, plus(letters(text.len()), 28)))
}

/// Adds the keys of what looks the same for each resource; the answer is where the next one stands.
fn push_shapes(out: &mut Vec<u8>, x: u64) -> Result<u64, AllocError>
    ensures text { OnOk result (out.new.items ≡ out.old.items ++ page.shapes_text x) }
    ensures end { IfOk result (λ end. end ≡ page.shapes_end x) }
{
    push_key(out, Class::Held { colour: 0 }, x, b"")?;
    let fails = push_key(out, Class::Shared, x, b"shared")?;
    let end = push_key(out, Class::Expired, fails, b"watchdog's test fails")?;
    Ok(end)
}

/// Adds the unit of the moments.
#[tactic(auto, unfolding(crate::specs::Page::unit_text))]
fn push_unit(out: &mut Vec<u8>) -> Result<(), AllocError>
    ensures { OnOk result (out.new.items ≡ out.old.items ++ page.unit_text) }
{
    push_label(out, Class::Dim, LEFT - 16, TOP - 24, b"ms")
}

/// Adds the ground of a machine, with its number and the names of its rows.
fn push_lane(
    out: &mut Vec<u8>,
    layout: &Layout,
    place: Place,
    digits: &[u8],
) -> Result<(), AllocError>
    ensures { OnOk result (out.new.items ≡ out.old.items ++ page.lane_text layout.now digits.now place) }
{
    let area = Area {
        x: 4,
        y: place.top,
        width: minus(layout.width, 8),
        height: minus(bottom_of(place), place.top),
    };
    push_rect(out, Class::Lane, area)?;
    push_label(out, Class::Number, 10, plus(place.top, 18), digits)?;
    push_rows(out, place)
}

impl Picture {
    /// Adds the colours of the resources; the answer is where the next key stands.
    fn push_resources(&self, out: &mut Vec<u8>) -> Result<u64, AllocError>
        ensures text { OnOk result (out.new.items ≡ out.old.items ++ (page.resources_row self.now).text) }
        ensures end { IfOk result (λ end. end ≡ (page.resources_row self.now).free) }
    {
        let mut free = LEFT;
        for index in 0..self.resources.len().min(MOST_KEYS) {
            let name = behind_colon(text_at(&self.texts, self.resources[index]));
            let class = Class::Held {
                colour: index as u64 % 8,
            };
            free = push_key(out, class, free, name)?;
        }
        Ok(free)
    }

    /// Adds the key of late calls.
    fn push_late_key(&self, out: &mut Vec<u8>, x: u64) -> Result<u64, AllocError>
        ensures text { OnOk result (out.new.items ≡ out.old.items ++ page.late_key self.now x) }
        ensures end { IfOk result (λ end. end ≡ page.late_end self.now x) }
    {
        let mut late = Vec::new(self.alloc());
        push_numbered(&mut late, b"call above ms ", self.io)?;
        push_key(out, Class::Late, x, &late)
    }

    /// Adds the key of time that passes.
    fn push_time_key(&self, out: &mut Vec<u8>, x: u64) -> Result<u64, AllocError>
        ensures { OnOk result (out.new.items ≡ out.old.items ++ page.time_key self.now x) }
    {
        let mut dead = Vec::new(self.alloc());
        push_numbered(
            &mut dead,
            b"time passes; a host counts as over after ms ",
            self.dead,
        )?;
        push_key(out, Class::Passing, x, &dead)
    }

    /// Adds the keys of what is not a resource, from a place on.
    fn push_keys(&self, out: &mut Vec<u8>, x: u64) -> Result<(), AllocError>
        ensures { OnOk result (out.new.items ≡ out.old.items ++ page.keys_text self.now x) }
    {
        let late = push_shapes(out, x)?;
        let passing = self.push_late_key(out, late)?;
        self.push_time_key(out, passing)?;
        push_unit(out)
    }

    /// Adds the ground of a machine that has this index.
    fn push_lane_at(
        &self,
        out: &mut Vec<u8>,
        layout: &Layout,
        index: usize,
    ) -> Result<(), AllocError>
        requires { index < length layout.now.places }
        ensures { OnOk result (out.new.items ≡ out.old.items ++ page.lane_at layout.now index) }
    {
        let mut digits = Vec::new(self.alloc());
        push_number(&mut digits, plus(index as u64, 1))?;
        push_lane(out, layout, layout.places[index], &digits)
    }

    /// Adds the grounds of the machines.
    fn push_lanes(&self, out: &mut Vec<u8>, layout: &Layout) -> Result<(), AllocError>
        ensures { OnOk result (out.new.items ≡ out.old.items ++ page.lanes_to layout.now (length layout.now.places)) }
    {
        for index in 0..layout.places.len() {
            self.push_lane_at(out, layout, index)?;
        }
        Ok(())
    }

    /// Adds the last line of the report.
    fn push_last(&self, out: &mut Vec<u8>, layout: &Layout, last: &[u8]) -> Result<(), AllocError>
        ensures { OnOk result (out.new.items ≡ out.old.items ++ page.last_text self.now layout.now last.now) }
    {
        let y = plus(plus(layout.bottom, 24), times(self.notes.len() as u64, 13));
        push_label(out, Class::Plain, LEFT, y, last)
    }

    /// Adds the legend and the grounds of the machines.
    fn push_ground(&self, out: &mut Vec<u8>, layout: &Layout) -> Result<(), AllocError>
        ensures { OnOk result (out.new.items ≡ out.old.items ++ page.ground_text self.now layout.now) }
    {
        let x = self.push_resources(out)?;
        self.push_keys(out, x)?;
        self.push_lanes(out, layout)
    }

    /// Adds the layers below the words.
    fn push_layers(
        &self,
        out: &mut Vec<u8>,
        layout: &Layout,
        bars: &[Bar],
    ) -> Result<(), AllocError>
        ensures { OnOk result (out.new.items ≡ out.old.items ++ page.layers_text self.now layout.now bars.now) }
    {
        self.push_bars(out, layout, bars, Layer::Time)?;
        self.push_moments(out, layout, bars)?;
        self.push_columns(out, layout)?;
        self.push_bars(out, layout, bars, Layer::Machine)?;
        self.push_bars(out, layout, bars, Layer::Work)
    }

    /// Adds the words, the signs and the last line.
    fn push_labels(
        &self,
        out: &mut Vec<u8>,
        layout: &Layout,
        bars: &[Bar],
        last: &[u8],
    ) -> Result<(), AllocError>
        ensures { OnOk result (out.new.items ≡ out.old.items ++ page.words_text self.now layout.now bars.now last.now) }
    {
        self.push_commands(out, layout, bars)?;
        push_marks(out, layout, &self.marks)?;
        self.push_notes(out, layout)?;
        self.push_last(out, layout, last)
    }

    /// Adds all of a picture of these bars, laid out so.
    fn push_planned(
        &self,
        out: &mut Vec<u8>,
        caption: &[Bytes],
        layout: &Layout,
        bars: &[Bar],
        last: &[u8],
    ) -> Result<(), AllocError>
        ensures { OnOk result (out.new.items ≡ out.old.items ++ page.planned_text caption.now self.now layout.now bars.now last.now) }
    {
        push_above(out, layout, caption)?;
        self.push_ground(out, layout)?;
        self.push_layers(out, layout, bars)?;
        self.push_labels(out, layout, bars, last)?;
        push_tail(out)?;
        push_tail(out)
    }

    /// Adds the picture as a text to the end of this one, below the lines of this caption and with this last line of the report. After an `Err`,
    /// which is want of memory, a part of it may stand there.
    #[tactic(auto, unfolding(crate::specs::Page::picture_of))]
    pub fn push_picture(
        &self,
        out: &mut Vec<u8>,
        caption: &[Bytes],
        last: &[u8],
    ) -> Result<(), AllocError>
        ensures { OnOk result (out.new.items ≡ out.old.items ++ page.picture_of caption.now self.now last.now) }
    {
        let bars = self.all_bars()?;
        let layout = self.lay_out(&bars)?;
        self.push_planned(out, caption, &layout, &bars, last)
    }
}
