//! Where everything stands, in pixels: along the axis by events and moments, from top to bottom by machines and their rows.

ghost use Rattle.sl_picture.specs.Fates as fates;
ghost use Rattle.sl_picture.specs.Layout as layout;
ghost use Rattle.std.specs.Prelude.{IfOk, OnOk, filter, map, min, not, ◌*◌, ◌++◌, ◌/◌, ◌<◌, ◌≡◌};

use crate::fates::{ended, is_command, is_gap, is_holding, is_link};
use crate::kept::Picture;
use crate::shapes::{Bar, Instant, Note, Shape};
use sl_drawing::{letters, minus, plus, times};
use std::alloc::{AllocError, Global};
use std::marker::Model;

/// Where the axis begins, and what stands behind its end.
pub(crate) const LEFT: u64 = 104;

const RIGHT: u64 = 180;

/// The least width of a picture, which the legend needs.
const LEAST_WIDTH: u64 = 900;

/// Where the machines begin, and how much is between them.
pub(crate) const TOP: u64 = 52;

const GAP: u64 = 6;

/// The height of a row of commands, of calls, of connections, of holdings.
pub(crate) const COMMAND: u64 = 13;

const CALLS: u64 = 13;

pub(crate) const LINK: u64 = 9;

pub(crate) const HELD: u64 = 14;

/// How the axis is scaled: the width of an event, that of all the time that passes, how much time that is, and from which moment on.
#[derive(Clone, Copy)]
pub(crate) struct Scale {
    pub(crate) event: u64,
    pub(crate) time: u64,
    pub(crate) moments: u64,
    pub(crate) begun: u64,
}

/// The width of an event, where there are so many: 3 to 16.
fn event_width(events: u64) -> u64
    ensures { result ≡ layout.event_width events }
{
    (2400 / plus(events, 1)).max(3).min(16)
}

/// The width of all the time that passes: none where none does, else at least 900.
fn time_width(events: u64, moments: u64) -> u64
    ensures { result ≡ layout.time_width events moments }
{
    if moments == 0 {
        0
    } else {
        (times(events, event_width(events)) / 2).max(900)
    }
}

/// The scale of an axis from a moment to an instant.
pub(crate) fn scale_of(begun: u64, last: Instant) -> Scale
    ensures { result ≡ layout.scale_of begun last }
{
    let moments = minus(last.moment, begun);
    Scale {
        event: event_width(last.events),
        time: time_width(last.events, moments),
        moments: moments.max(1),
        begun,
    }
}

/// The part of a width that so many of these moments take. Their product may pass 64 bits.
fn share(width: u64, part: u64, whole: u64) -> u64
    requires { 0 < whole }
    ensures { result ≡ layout.share width part whole }
{
    (u128::from(width) * u128::from(part.min(whole)) / u128::from(whole)) as u64
}

/// Where an instant stands.
pub(crate) fn x_of(scale: Scale, at: Instant) -> u64
    ensures { result ≡ layout.x_of scale at }
{
    let time = share(
        scale.time,
        minus(at.moment, scale.begun),
        scale.moments.max(1),
    );
    plus(plus(LEFT, times(at.events, scale.event)), time)
}

/// The place of a machine: its top, and how many rows of commands, of connections and of holdings it has.
#[derive(Clone, Copy)]
pub(crate) struct Place {
    pub(crate) top: u64,
    pub(crate) commands: u64,
    pub(crate) links: u64,
    pub(crate) held: u64,
}

/// Where a machine's rows of commands begin.
pub(crate) fn commands_top(place: Place) -> u64
    ensures { result ≡ layout.commands_top place }
{
    plus(place.top, 4)
}

/// .. its row of calls.
pub(crate) fn calls_top(place: Place) -> u64
    ensures { result ≡ layout.calls_top place }
{
    plus(plus(commands_top(place), times(place.commands, COMMAND)), 2)
}

/// .. its connections.
pub(crate) fn links_top(place: Place) -> u64
    ensures { result ≡ layout.links_top place }
{
    plus(calls_top(place), CALLS)
}

/// .. its holdings.
pub(crate) fn held_top(place: Place) -> u64
    ensures { result ≡ layout.held_top place }
{
    plus(plus(links_top(place), times(place.links, LINK)), 3)
}

/// Where the machine ends.
pub(crate) fn bottom_of(place: Place) -> u64
    ensures { result ≡ layout.bottom_of place }
{
    plus(plus(held_top(place), times(place.held, HELD)), 2)
}

/// The rows of bars.
#[derive(Clone, Copy)]
pub(crate) enum Rows {
    Commands,
    Links,
    Holdings,
}

/// Whether bars of a shape stand in rows of this kind.
fn is_of_rows(rows: Rows, shape: Shape) -> bool
    ensures { result ≡ layout.is_of_rows rows shape }
{
    match rows {
        Rows::Commands => is_command(shape),
        Rows::Links => is_link(shape),
        Rows::Holdings => is_holding(shape),
    }
}

/// So many rows, or more where a bar of a machine needs them.
fn more_rows(rows: Rows, machine: u64, most: u64, bar: &Bar) -> u64
    ensures { result ≡ layout.more_rows rows machine most bar.now }
{
    if bar.machine == machine && is_of_rows(rows, bar.shape) {
        most.max(plus(bar.row, 1))
    } else {
        most
    }
}

/// How many rows of a kind a machine needs for these bars, and at least one.
fn rows_for(bars: &[Bar], rows: Rows, machine: u64) -> u64
    ensures { result ≡ layout.rows_for bars.now rows machine }
{
    bars.iter()
        .fold(1, |most, bar| more_rows(rows, machine, most, bar))
}

/// Where everything stands.
#[derive(Drop)]
pub(crate) struct Layout {
    pub(crate) scale: Scale,
    pub(crate) places: Vec<Place>,
    /// Where the machines end, and how wide and how high all is.
    pub(crate) bottom: u64,
    pub(crate) width: u64,
    pub(crate) height: u64,
}

impl Model for Layout {
    ghost use Rattle.sl_picture.specs.Layout.{Plan};

    ghost Value = { Plan };

    ghost view = { λ l. record { scale = l.scale; places = l.places.items; bottom = l.bottom; width = l.width; height = l.height } };
}

/// The place of no machine.
const NO_PLACE: Place = Place {
    top: TOP,
    commands: 0,
    links: 0,
    held: 0,
};

/// The place of a machine, or of none.
pub(crate) fn place_of(places: &[Place], machine: u64) -> Place
    ensures { result ≡ layout.place_of places.now machine }
{
    if 0 < machine && machine <= places.len() as u64 {
        places[machine as usize - 1]
    } else {
        NO_PLACE
    }
}

/// The place of a machine that begins there: one that does nothing is thin.
fn place_at(bars: &[Bar], machine: u64, top: u64) -> Place
    ensures { result ≡ layout.place_at bars.now machine top }
{
    Place {
        top,
        commands: rows_for(bars, Rows::Commands, machine),
        links: rows_for(bars, Rows::Links, machine),
        held: rows_for(bars, Rows::Holdings, machine),
    }
}

/// The places of so many machines, one below the other.
fn places_of(alloc: Global, bars: &[Bar], machines: usize) -> Result<Vec<Place>, AllocError>
    ensures { IfOk result (λ places. places.items ≡ layout.places_of bars.now machines) }
{
    let mut places = Vec::new(alloc);
    let mut top = TOP;
    for index in 0..machines {
        let place = place_at(bars, index as u64 + 1, top);
        top = plus(bottom_of(place), GAP);
        places.push(place)?;
    }
    Ok(places)
}

/// A width, or what a comment needs where that is more.
fn wider(width: u64, note: &Note) -> u64
    ensures { result ≡ layout.wider width note.now }
{
    width.max(plus(LEFT + 16, letters(note.text.len)))
}

/// A width that has room for each comment, and at least this one.
fn width_of(notes: &[Note], least: u64) -> u64
    ensures { result ≡ layout.width_of notes.now least }
{
    notes.iter().fold(least, |width, note| wider(width, note))
}

impl Picture {
    /// All bars: those that have ended, and those that are open, which stand to the end; a resource that nobody holds any more has none.
    pub(crate) fn all_bars(&self) -> Result<Vec<Bar>, AllocError>
        ensures { IfOk result (λ bars. bars.items ≡ layout.all_bars self.now) }
    {
        let mut bars = Vec::from_slice(self.alloc(), &self.done)?;
        for bar in &self.opened {
            if !is_gap(bar.shape) {
                bars.push(ended(self.here, *bar))?;
            }
        }
        Ok(bars)
    }

    /// Where everything stands.
    #[tactic(auto, unfolding(crate::specs::Layout::plan_of))]
    pub(crate) fn lay_out(&self, bars: &[Bar]) -> Result<Layout, AllocError>
        ensures { IfOk result (λ l. l ≡ layout.plan_of bars.now self.now) }
    {
        let scale = scale_of(self.begun, self.here);
        let places = places_of(self.alloc(), bars, self.lanes.len())?;
        let bottom = bottom_of(place_of(&places, places.len() as u64));
        let least = plus(x_of(scale, self.here), RIGHT).max(LEAST_WIDTH);
        Ok(Layout {
            scale,
            bottom,
            width: width_of(&self.notes, least),
            height: plus(plus(bottom, 40), times(self.notes.len() as u64, 13)),
            places,
        })
    }
}
