//! The bars of a picture.

ghost use Rattle.sl_picture.specs.Bars as shown;
ghost use Rattle.std.specs.Prelude.{IfOk, OnOk, decimal, length, ◌++◌, ◌≡◌};

use crate::fates::is_command;
use crate::kept::{Picture, text_at};
use crate::layout::{
    COMMAND, HELD, LINK, Layout, Place, TOP, bottom_of, calls_top, commands_top, held_top,
    links_top, place_of, x_of,
};
use crate::said::{behind_colon, word_at};
use crate::shapes::{Bar, Shape};
use sl_drawing::{Area, Class, letters, minus, plus, push_label, push_rect, push_titled, times};
use sl_text::number::push_number;
use std::alloc::AllocError;

/// The least width of a bar.
const LEAST: u64 = 3;

/// The layers of bars, the lowest first.
#[derive(Clone, Copy)]
pub(crate) enum Layer {
    Time,
    Machine,
    Work,
}

/// Whether it is the lowest layer, the next one, the highest.
fn is_time(layer: Layer) -> bool
    ensures { result ≡ shown.is_time layer }
{
    matches!(layer, Layer::Time)
}

fn is_machine(layer: Layer) -> bool
    ensures { result ≡ shown.is_machine layer }
{
    matches!(layer, Layer::Machine)
}

fn is_work(layer: Layer) -> bool
    ensures { result ≡ shown.is_work layer }
{
    matches!(layer, Layer::Work)
}

/// Whether a bar lies in a layer.
fn is_in_layer(layer: Layer, shape: Shape) -> bool
    ensures { result ≡ shown.is_in_layer layer shape }
{
    match shape {
        Shape::Passing => is_time(layer),
        Shape::Down | Shape::Idle => is_machine(layer),
        _ => is_work(layer),
    }
}

/// How long a bar lasts, in milliseconds.
fn time_of(bar: Bar) -> u64
    ensures { result ≡ shown.time_of bar }
{
    minus(bar.to.moment, bar.from.moment)
}

/// The class of a call that is in flight: it may take `io` milliseconds.
fn call_class(bar: Bar, io: u64) -> Class
    ensures { result ≡ shown.call_class bar io }
{
    if io < time_of(bar) {
        Class::Late
    } else {
        Class::Flying
    }
}

/// The class of a bar.
#[tactic(auto, unfolding(crate::specs::Bars::class_of))]
fn class_of(bar: Bar, io: u64) -> Class
    ensures { result ≡ shown.class_of bar io }
{
    match bar.shape {
        Shape::Passing => Class::Passing,
        Shape::Down => Class::Down,
        Shape::Idle => Class::Idle,
        Shape::Waiting => Class::Waiting,
        Shape::Accepted => Class::Accepted,
        Shape::Refused => Class::Refused,
        Shape::Unclear => Class::Unclear,
        Shape::Read => call_class(bar, io),
        Shape::Write => call_class(bar, io),
        Shape::Orphan => Class::Orphan,
        Shape::Joining => Class::Joining,
        Shape::Joined => Class::Joined,
        Shape::Left => Class::Left,
        Shape::Expired => Class::Expired,
        Shape::Exclusive => Class::Held {
            colour: bar.colour % 8,
        },
        Shape::Shared => Class::Held {
            colour: bar.colour % 8,
        },
        Shape::Gap => Class::Gap,
        Shape::Wanted => Class::Wanted,
    }
}

/// How high a bar of a machine stands.
#[tactic(auto, unfolding(crate::specs::Bars::bar_top))]
fn bar_top(place: Place, bar: Bar) -> u64
    ensures { result ≡ shown.bar_top place bar }
{
    match bar.shape {
        Shape::Passing | Shape::Down | Shape::Idle => place.top,
        Shape::Waiting | Shape::Accepted | Shape::Refused | Shape::Unclear => {
            plus(commands_top(place), times(bar.row, COMMAND))
        }
        Shape::Read | Shape::Write | Shape::Orphan => plus(calls_top(place), 5),
        Shape::Joining | Shape::Joined | Shape::Left | Shape::Expired => {
            plus(links_top(place), times(bar.row, LINK))
        }
        Shape::Exclusive | Shape::Shared => plus(held_top(place), times(bar.row, HELD)),
        Shape::Gap | Shape::Wanted => plus(plus(held_top(place), times(bar.row, HELD)), 5),
    }
}

/// How high it is.
#[tactic(auto, unfolding(crate::specs::Bars::bar_height))]
fn bar_height(place: Place, bar: Bar) -> u64
    ensures { result ≡ shown.bar_height place bar }
{
    match bar.shape {
        Shape::Passing | Shape::Down | Shape::Idle => minus(bottom_of(place), place.top),
        Shape::Waiting | Shape::Accepted | Shape::Refused | Shape::Unclear => COMMAND - 2,
        Shape::Read | Shape::Write | Shape::Orphan => 3,
        Shape::Joining | Shape::Joined | Shape::Left | Shape::Expired => 6,
        Shape::Exclusive | Shape::Shared => HELD - 3,
        Shape::Gap | Shape::Wanted => 2,
    }
}

/// Where a bar stands.
#[tactic(auto, unfolding(crate::specs::Bars::area_of))]
fn area_of(layout: &Layout, bar: Bar) -> Area
    ensures { result ≡ shown.area_of layout.now bar }
{
    let x = x_of(layout.scale, bar.from);
    let width = minus(x_of(layout.scale, bar.to), x).max(LEAST);
    if bar.machine == 0 {
        return Area {
            x,
            y: TOP - 20,
            width,
            height: minus(layout.bottom, TOP - 20),
        };
    }
    let place = place_of(&layout.places, bar.machine);
    Area {
        x,
        y: bar_top(place, bar),
        width,
        height: bar_height(place, bar),
    }
}

/// Adds a text and a number.
pub(crate) fn push_numbered(out: &mut Vec<u8>, text: &[u8], number: u64) -> Result<(), AllocError>
    ensures { OnOk result (out.new.items ≡ out.old.items ++ text.now ++ decimal number) }
{
    out.extend_from_slice(text)?;
    push_number(out, number)
}

/// Adds three texts.
fn push_three(out: &mut Vec<u8>, a: &[u8], b: &[u8], c: &[u8]) -> Result<(), AllocError>
    ensures { OnOk result (out.new.items ≡ out.old.items ++ a.now ++ b.now ++ c.now) }
{
    out.extend_from_slice(a)?;
    out.extend_from_slice(b)?;
    out.extend_from_slice(c)
}

/// Adds a text, another one, and a number.
fn push_until(out: &mut Vec<u8>, a: &[u8], b: &[u8], number: u64) -> Result<(), AllocError>
    ensures { OnOk result (out.new.items ≡ out.old.items ++ a.now ++ b.now ++ decimal number) }
{
    out.extend_from_slice(a)?;
    push_numbered(out, b, number)
}

/// Adds a resource, how it is held, by whom, and in which instance.
#[tactic(auto, unfolding(crate::specs::Bars::held_words))]
fn push_held(out: &mut Vec<u8>, name: &[u8], held: &[u8], bar: Bar) -> Result<(), AllocError>
    ensures { OnOk result (out.new.items ≡ out.old.items ++ shown.held_words name.now held.now bar) }
{
    push_until(out, name, held, bar.number)?;
    push_numbered(out, b", instance ", bar.until)
}

/// Adds the number of a call and what it does.
fn push_call(out: &mut Vec<u8>, what: &[u8], bar: Bar, name: &[u8]) -> Result<(), AllocError>
    ensures { OnOk result (out.new.items ≡ out.old.items ++ shown.call_words what.now bar name.now) }
{
    push_numbered(out, what, bar.number)?;
    out.extend_from_slice(b" ")?;
    out.extend_from_slice(name)
}

/// What a title says behind the name or the text that it begins with.
#[tactic(auto, unfolding(crate::specs::Bars::middle_words))]
fn middle_words(shape: Shape) -> &'static [u8]
    ensures { result.now ≡ shown.middle_words shape }
{
    match shape {
        Shape::Waiting => b": no answer",
        Shape::Accepted => b": ",
        Shape::Refused => b": ",
        Shape::Unclear => b": one of the commands that wait is answered ",
        Shape::Joining => b": joining, expires at reading ",
        Shape::Joined => b": renewed, expires at reading ",
        Shape::Left => b": its daemon has crashed, expires at reading ",
        Shape::Expired => b": expired, the test fails, since reading ",
        Shape::Exclusive => b" held ex by process ",
        Shape::Shared => b" held sh by process ",
        Shape::Gap => b" held by nobody",
        Shape::Wanted => b" held by nobody",
        _ => b"",
    }
}

/// Adds a tick at the front of an area, so much above it and so high.
fn push_tick(
    out: &mut Vec<u8>,
    class: Class,
    area: Area,
    up: u64,
    high: u64,
) -> Result<(), AllocError>
    ensures { OnOk result (out.new.items ≡ out.old.items ++ shown.tick class area up high) }
{
    push_rect(
        out,
        class,
        Area {
            x: area.x,
            y: minus(area.y, up),
            width: 2,
            height: high,
        },
    )
}

/// Adds the tick with which a call or a renewal begins, and the pattern of what is shared.
#[tactic(auto, unfolding(crate::specs::Bars::detail_text))]
fn push_detail(out: &mut Vec<u8>, bar: Bar, area: Area) -> Result<(), AllocError>
    ensures { OnOk result (out.new.items ≡ out.old.items ++ shown.detail_text bar area) }
{
    match bar.shape {
        Shape::Read => push_tick(out, Class::Read, area, 2, 5),
        Shape::Write => push_tick(out, Class::Write, area, 5, 8),
        Shape::Orphan => push_tick(out, Class::Write, area, 5, 8),
        Shape::Joined => push_tick(out, Class::Renewed, area, 0, 7),
        Shape::Shared => push_rect(out, Class::Shared, area),
        _ => Ok(()),
    }
}

/// Adds the label of a bar to its area.
#[tactic(auto, unfolding(crate::specs::Bars::label_there))]
fn push_label_there(out: &mut Vec<u8>, bar: Bar, area: Area, label: &[u8]) -> Result<(), AllocError>
    ensures { OnOk result (out.new.items ≡ out.old.items ++ shown.label_there bar area label.now) }
{
    let x = plus(area.x, 4);
    let low = plus(area.y, minus(area.height, 5));
    match bar.shape {
        Shape::Idle => push_label(out, Class::Dim, x, low, label),
        Shape::Down => push_label(out, Class::Inside, x, low, label),
        Shape::Gap => push_label(out, Class::Dim, plus(x, 10), minus(area.y, 1), label),
        Shape::Wanted => push_label(out, Class::Bad, plus(x, 10), minus(area.y, 1), label),
        _ => push_label(out, Class::Inside, x, plus(area.y, 9), label),
    }
}

/// Whether there is a label and the area has room for it.
fn has_room(label: &[u8], area: Area) -> bool
    ensures { result ≡ shown.has_room label.now area }
{
    0 < label.len() && plus(letters(label.len()), 8) <= area.width
}

/// Whether the shape is that of a command that was refused.
fn is_refused(shape: Shape) -> bool
    ensures { result ≡ shown.is_refused shape }
{
    matches!(shape, Shape::Refused)
}

/// The class of a command's label.
fn command_class(shape: Shape) -> Class
    ensures { result ≡ shown.command_class shape }
{
    if is_refused(shape) {
        Class::Bad
    } else {
        Class::Plain
    }
}

/// Whether a command's label has room in a row of a machine.
fn is_shown(layout: &Layout, machine: u64, row: u64, free: u64, bar: Bar) -> bool
    ensures { result ≡ shown.is_shown layout.now machine row free bar }
{
    bar.machine == machine
        && bar.row == row
        && is_command(bar.shape)
        && free <= x_of(layout.scale, bar.from)
}

/// Whether time passes in the bar.
fn is_passing(shape: Shape) -> bool
    ensures { result ≡ shown.is_passing shape }
{
    matches!(shape, Shape::Passing)
}

/// Adds a moment with its line.
fn push_moment(out: &mut Vec<u8>, layout: &Layout, x: u64, digits: &[u8]) -> Result<(), AllocError>
    ensures { OnOk result (out.new.items ≡ out.old.items ++ shown.moment_text layout.now x digits.now) }
{
    let left = minus(x, letters(digits.len()) / 2);
    push_label(out, Class::Dim, left, TOP - 24, digits)?;
    push_rect(
        out,
        Class::Grid,
        Area {
            x,
            y: TOP - 20,
            width: 1,
            height: minus(layout.bottom, TOP - 20),
        },
    )
}

impl Picture {
    /// Adds what a bar is.
    #[tactic(auto, unfolding(crate::specs::Bars::what))]
    fn push_what(&self, out: &mut Vec<u8>, bar: Bar) -> Result<(), AllocError>
        ensures { OnOk result (out.new.items ≡ out.old.items ++ shown.what self.now bar) }
    {
        let name = text_at(&self.texts, bar.name);
        let text = text_at(&self.texts, bar.text);
        let reply = text_at(&self.texts, bar.reply);
        let middle = middle_words(bar.shape);
        match bar.shape {
            Shape::Passing => out.extend_from_slice(b"time passes"),
            Shape::Down => out.extend_from_slice(b"down"),
            Shape::Idle => out.extend_from_slice(b"no daemon"),
            Shape::Waiting | Shape::Accepted | Shape::Refused | Shape::Unclear => {
                push_three(out, text, middle, reply)
            }
            Shape::Read | Shape::Write => push_call(out, b"call ", bar, name),
            Shape::Orphan => push_call(out, b"its daemon has ended: call ", bar, name),
            Shape::Joining | Shape::Joined | Shape::Left | Shape::Expired => {
                push_until(out, name, middle, bar.until)
            }
            Shape::Exclusive | Shape::Shared => push_held(out, name, middle, bar),
            Shape::Gap | Shape::Wanted => push_three(out, name, middle, b""),
        }
    }

    /// Adds the title of a bar: what it is, from when to when, and how long.
    fn push_title(&self, out: &mut Vec<u8>, bar: Bar) -> Result<(), AllocError>
        ensures { OnOk result (out.new.items ≡ out.old.items ++ shown.title self.now bar) }
    {
        self.push_what(out, bar)?;
        push_numbered(out, b" (", bar.from.moment)?;
        push_numbered(out, b" to ", bar.to.moment)?;
        push_numbered(out, b" ms, ", time_of(bar))?;
        out.extend_from_slice(b" ms)")
    }

    /// Adds the label of a command: its verb, the resource that it is about, and the answer.
    fn push_command_words(&self, out: &mut Vec<u8>, bar: Bar) -> Result<(), AllocError>
        ensures { OnOk result (out.new.items ≡ out.old.items ++ shown.command_words self.now bar) }
    {
        let text = text_at(&self.texts, bar.text);
        let about = behind_colon(text_at(&self.texts, bar.name));
        let reply = text_at(&self.texts, bar.reply);
        push_three(out, word_at(text, 0), b" ", about)?;
        if reply.is_empty() {
            return Ok(());
        }
        push_three(out, b": ", reply, b"")
    }

    /// Adds the label of a bar.
    #[tactic(auto, unfolding(crate::specs::Bars::words))]
    fn push_words(&self, out: &mut Vec<u8>, bar: Bar) -> Result<(), AllocError>
        ensures { OnOk result (out.new.items ≡ out.old.items ++ shown.words self.now bar) }
    {
        let name = behind_colon(text_at(&self.texts, bar.name));
        match bar.shape {
            Shape::Down => out.extend_from_slice(b"down"),
            Shape::Idle => out.extend_from_slice(b"no daemon"),
            Shape::Exclusive | Shape::Shared => push_until(out, name, b" by ", bar.number),
            Shape::Gap | Shape::Wanted => {
                push_until(out, name, b" free for ", time_of(bar))?;
                out.extend_from_slice(b" ms")
            }
            _ => Ok(()),
        }
    }

    /// Adds the label of a bar that has room for it; a command's label has a row of its own.
    fn push_bar_label(&self, out: &mut Vec<u8>, bar: Bar, area: Area) -> Result<(), AllocError>
        ensures { OnOk result (out.new.items ≡ out.old.items ++ shown.label_text self.now bar area) }
    {
        let mut label = Vec::new(self.alloc());
        self.push_words(&mut label, bar)?;
        if has_room(&label, area) {
            push_label_there(out, bar, area, &label)
        } else {
            Ok(())
        }
    }

    /// Adds a bar.
    fn push_bar(&self, out: &mut Vec<u8>, layout: &Layout, bar: Bar) -> Result<(), AllocError>
        ensures { OnOk result (out.new.items ≡ out.old.items ++ shown.bar_text self.now layout.now bar) }
    {
        let area = area_of(layout, bar);
        let mut title = Vec::new(self.alloc());
        self.push_title(&mut title, bar)?;
        push_titled(out, class_of(bar, self.io), area, &title)?;
        push_detail(out, bar, area)?;
        self.push_bar_label(out, bar, area)
    }

    /// Adds a bar, if it lies in a layer.
    fn push_in_layer(
        &self,
        out: &mut Vec<u8>,
        layout: &Layout,
        layer: Layer,
        bar: Bar,
    ) -> Result<(), AllocError>
        ensures { OnOk result (out.new.items ≡ out.old.items ++ shown.layer_text self.now layout.now layer bar) }
    {
        if is_in_layer(layer, bar.shape) {
            self.push_bar(out, layout, bar)
        } else {
            Ok(())
        }
    }

    /// Adds the bars of a layer.
    pub(crate) fn push_bars(
        &self,
        out: &mut Vec<u8>,
        layout: &Layout,
        bars: &[Bar],
        layer: Layer,
    ) -> Result<(), AllocError>
        ensures { OnOk result (out.new.items ≡ out.old.items ++ shown.bars_text self.now layout.now bars.now layer) }
    {
        for bar in bars {
            self.push_in_layer(out, layout, layer, *bar)?;
        }
        Ok(())
    }

    /// Adds the label of a command, and answers where it ends.
    fn push_command(&self, out: &mut Vec<u8>, layout: &Layout, bar: Bar) -> Result<u64, AllocError>
        ensures text { OnOk result (out.new.items ≡ out.old.items ++ shown.command_text self.now layout.now bar) }
        ensures end { IfOk result (λ end. end ≡ shown.command_end self.now layout.now bar) }
    {
        let area = area_of(layout, bar);
        let mut label = Vec::new(self.alloc());
        self.push_command_words(&mut label, bar)?;
        push_label(
            out,
            command_class(bar.shape),
            plus(area.x, 4),
            plus(area.y, 9),
            &label,
        )?;
        Ok(plus(area.x, plus(letters(label.len()), 8)))
    }

    /// Adds the labels of the commands in a row of a machine, each where it covers no earlier one.
    fn push_row(
        &self,
        out: &mut Vec<u8>,
        layout: &Layout,
        bars: &[Bar],
        machine: u64,
        row: u64,
    ) -> Result<(), AllocError>
        ensures { OnOk result (out.new.items ≡ out.old.items ++ shown.row_text self.now layout.now bars.now machine row) }
    {
        let mut free = 0;
        for bar in bars {
            if is_shown(layout, machine, row, free, *bar) {
                free = self.push_command(out, layout, *bar)?;
            }
        }
        Ok(())
    }

    /// Adds the labels of a machine's commands: it has three rows of them.
    fn push_machine(
        &self,
        out: &mut Vec<u8>,
        layout: &Layout,
        bars: &[Bar],
        machine: u64,
    ) -> Result<(), AllocError>
        ensures { OnOk result (out.new.items ≡ out.old.items ++ shown.machine_commands self.now layout.now bars.now machine) }
    {
        self.push_row(out, layout, bars, machine, 0)?;
        self.push_row(out, layout, bars, machine, 1)?;
        self.push_row(out, layout, bars, machine, 2)
    }

    /// Adds the labels of all commands.
    pub(crate) fn push_commands(
        &self,
        out: &mut Vec<u8>,
        layout: &Layout,
        bars: &[Bar],
    ) -> Result<(), AllocError>
        ensures { OnOk result (out.new.items ≡ out.old.items ++ shown.commands_to self.now layout.now bars.now (length layout.now.places)) }
    {
        for index in 0..layout.places.len() {
            self.push_machine(out, layout, bars, index as u64 + 1)?;
        }
        Ok(())
    }

    /// Adds a moment, and answers where the next one has room.
    fn push_moment_at(
        &self,
        out: &mut Vec<u8>,
        layout: &Layout,
        x: u64,
        moment: u64,
    ) -> Result<u64, AllocError>
        ensures text { OnOk result (out.new.items ≡ out.old.items ++ shown.moment_text layout.now x (decimal moment)) }
        ensures end { IfOk result (λ end. end ≡ shown.moment_end x (decimal moment)) }
    {
        let mut digits = Vec::new(self.alloc());
        push_number(&mut digits, moment)?;
        push_moment(out, layout, x, &digits)?;
        Ok(plus(x, plus(letters(digits.len()), 8)))
    }

    /// Adds the moments behind the times that pass, as far as they have room.
    pub(crate) fn push_moments(
        &self,
        out: &mut Vec<u8>,
        layout: &Layout,
        bars: &[Bar],
    ) -> Result<(), AllocError>
        ensures { OnOk result (out.new.items ≡ out.old.items ++ shown.moments_text layout.now bars.now) }
    {
        let mut free = 0;
        for bar in bars {
            let x = x_of(layout.scale, bar.to);
            if is_passing(bar.shape) && free <= x {
                free = self.push_moment_at(out, layout, x, bar.to.moment)?;
            }
        }
        Ok(())
    }
}
