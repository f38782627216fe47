//! The calls in flight of a machine, by their numbers.
//!
//! The newest stands in front, and each has a lesser number than the one before it, so a call is found by bisection: an event on a call
//! costs the same however many others are in flight.
//!
//! The first reset of before which a write may still land is asked for whenever time passes. A reset cuts the calls that no reset has cut,
//! and a world's time never falls, so a call that is older was cut no later, and the oldest one tells. The type takes any moment for a
//! reset, though: whether the calls are in order is looked at when they are cut, and where they are not, all are asked.

ghost use Rattle.sl_world_state.specs.Changes.{cut_flight, disowned, stays_open};
ghost use Rattle.sl_world_state.specs.Refusals.{lands, left_in};
ghost use Rattle.sl_world_state.specs.KeptWorld.{FlightState};
ghost use Rattle.sl_machine.specs.Flights.{AreFlights, StandsAt, closed_at, ended_flight, ended_number, flight_numbered, flights_cut, flights_disowned, flights_with, flights_without, grown_flight, in_order, is_older, late_cut, late_of, least_with, no_later, numbered, oldest};
ghost use Rattle.std.specs.Arc.{arc_value};
ghost use Rattle.sl_world_state.specs.Daemons.{IsSoundOp};
ghost use Rattle.sl_world_state.specs.Steps.{new_flight};
ghost use Rattle.sl_run.specs.Headers.{IsHeader};
ghost use Rattle.sl_trace.specs.declared.effects.Call.{Call as CallOf};
ghost use Rattle.sl_words.specs.Words.{least, some_is};
ghost use Rattle.std.specs.List.{range_with_len, remove};
ghost use Rattle.std.specs.Option.{option_copied};
ghost use Rattle.std.specs.Prelude.{Contains, IfSome, None, OnErr, OnOk, Some, [], false, filter, filter_map, flat_map, fold, length, map, not, option_and_then, slice_get, true, ◌&&◌, ◌+◌, ◌==◌, ◌<◌, ◌^◌, ◌∷◌, ◌≡◌, ◌≤◌};
ghost use Rattle.std.specs.VecDeque.{deque_capacity, deque_len};

use crate::flight::{Flight, Outcome};
use sl_run::Header;
use sl_sector::Image;
use sl_trace::Call;
use std::alloc::{AllocError, Global};
use std::collections::VecDeque;
use std::sync::Arc;

/// The calls in flight of a machine.
#[derive(Drop)]
pub struct Flights {
    next: u64,
    /// Whether older calls are known to be of daemons that ended no later, and cut no later.
    ordered: bool,
    items: VecDeque<Flight>,
    ghost kept: { AreFlights next ordered items.items },
}

/// The lesser of two moments, if there is one.
fn least_with(cut: Option<u64>, late: Option<u64>) -> Option<u64>
    ensures { result ≡ least_with cut late }
{
    match (cut, late) {
        (None, None) => None,
        (None, Some(moment)) => Some(moment),
        (Some(moment), None) => Some(moment),
        (Some(moment), Some(other)) => Some(moment.min(other)),
    }
}

/// The first reset of before which a write may still land.
fn first_late(items: &VecDeque<Flight>) -> Option<u64>
    ensures { result ≡ late_of items.now.items }
{
    let mut index = items.len();
    let mut late = None;
    while index > 0 {
        index -= 1;
        late = least_with(items[index].late_cut(), late);
    }
    late
}

/// The number of a call of an ended daemon.
fn ended_number(flight: &Flight) -> Option<u64>
    ensures { result ≡ ended_number flight.now }
{
    if flight.is_own() {
        None
    } else {
        Some(flight.number())
    }
}

/// The least number of a call of an ended daemon.
fn least_ended(items: &VecDeque<Flight>) -> Option<u64>
    ensures { result ≡ least (filter_map ended_number items.now.items) }
{
    let mut index = items.len();
    let mut least = None;
    while index > 0 {
        index -= 1;
        least = least_with(ended_number(&items[index]), least);
    }
    least
}

/// The call in flight that was submitted first.
fn oldest(items: &VecDeque<Flight>) -> Option<&Flight>
    ensures { option_copied result ≡ oldest items.now.items }
{
    items.back()
}

/// The first reset since the oldest call was made, where it is a write that may still land.
fn oldest_late(items: &VecDeque<Flight>) -> Option<u64>
    ensures { result ≡ option_and_then late_cut (oldest items.now.items) }
{
    match oldest(items) {
        None => None,
        Some(flight) => flight.late_cut(),
    }
}

/// The number of the oldest call.
fn oldest_number(items: &VecDeque<Flight>) -> Option<u64>
    ensures { result ≡ option_and_then numbered (oldest items.now.items) }
{
    match oldest(items) {
        None => None,
        Some(flight) => Some(flight.number()),
    }
}

/// The number of the oldest call, if it is one of an ended daemon.
fn oldest_ended(items: &VecDeque<Flight>) -> Option<u64>
    ensures { result ≡ option_and_then ended_number (oldest items.now.items) }
{
    match oldest(items) {
        None => None,
        Some(flight) => ended_number(flight),
    }
}

/// Whether a cut is no later than another.
fn is_no_later(cut: Option<u64>, other: Option<u64>) -> bool
    ensures { result ≡ no_later cut other }
{
    match (cut, other) {
        (None, None) => true,
        (None, Some(_)) => false,
        (Some(_), None) => true,
        (Some(moment), Some(other)) => moment <= other,
    }
}

/// Whether a call is as old as one made after it should be.
fn is_older(newer: &Flight, older: &Flight) -> bool
    ensures { result ≡ is_older newer.now older.now }
{
    let ended = newer.is_own() || !older.is_own();
    let cut = is_no_later(older.late_cut(), newer.late_cut());
    ended && cut
}

/// Whether all are in order.
fn are_in_order(items: &VecDeque<Flight>) -> bool
    ensures { result ≡ in_order items.now.items }
{
    let mut index = items.len();
    let mut ordered = true;
    while index > 1 {
        index -= 1;
        ordered = is_older(&items[index - 1], &items[index]) && ordered;
    }
    ordered
}

/// Whether calls are known to be in order with this one in front.
fn stay_in_order(ordered: bool, flight: &Flight) -> bool
    ensures { result ≡ (ordered && flight.now.own) }
{
    ordered && flight.is_own()
}

/// The call at a place goes where it is in flight no more.
fn close(items: &mut VecDeque<Flight>, index: usize)
    requires { index < deque_len items.old }
    ensures open { (f : FlightState) → slice_get items.old.items index ≡ Some f → stays_open f ≡ true → items.new.items ≡ items.old.items }
    ensures closed { (f : FlightState) → slice_get items.old.items index ≡ Some f → stays_open f ≡ false → items.new.items ≡ remove items.old.items index }
    ensures room { deque_capacity items.new ≡ deque_capacity items.old }
{
    if !items[index].stays_open() {
        remove_at(items, index);
    }
}

/// The way of the call at a place ends so.
fn end_at(items: &mut VecDeque<Flight>, index: usize, outcome: Outcome)
    requires { index < deque_len items.old }
    ensures items { (f : FlightState) → slice_get items.old.items index ≡ Some f → items.new.items ≡ closed_at index (ended_flight outcome f) items.old.items }
    ensures room { deque_capacity items.new ≡ deque_capacity items.old }
{
    items[index].end(outcome);
    close(items, index);
}

/// The read at a place samples these sectors, so many. An `Err` is want of memory, and changes nothing.
fn sample_at(
    items: &mut VecDeque<Flight>,
    index: usize,
    more: Vec<Arc<Image>>,
    sectors: u64,
) -> Result<(), AllocError>
    requires within { index < deque_len items.old }
    requires left { (f : FlightState) → slice_get items.old.items index ≡ Some f → sectors ≤ left_in f }
    ensures items { (f : FlightState) → slice_get items.old.items index ≡ Some f
        → OnOk result (items.new.items ≡ closed_at index (grown_flight (flat_map (λ m. arc_value m) more.items) sectors f) items.old.items) }
    ensures err { OnErr result (items.new.items ≡ items.old.items) }
    ensures room { deque_capacity items.new ≡ deque_capacity items.old }
{
    items[index].sample(more, sectors)?;
    close(items, index);
    Ok(())
}

/// The call at a place is gone. Mostly it is the only one, which then goes where it stands: a call is large.
fn remove_at(items: &mut VecDeque<Flight>, index: usize)
    requires { index < deque_len items.old }
    ensures items { items.new.items ≡ remove items.old.items index }
    ensures room { deque_capacity items.new ≡ deque_capacity items.old }
    ensures len { deque_len items.new ≤ deque_len items.old }
{
    if items.len() == 1 {
        items.clear();
    } else {
        let _gone = items.remove(index);
    }
}

/// Reads go, and so does a write that may land no more.
fn keep_writes(items: &mut VecDeque<Flight>)
    ensures { items.new.items ≡ filter lands items.old.items }
{
    items.retain(|flight| flight.may_land());
}

/// All calls are those of a daemon that has ended.
fn disown_all(items: &mut VecDeque<Flight>)
    ensures { items.new.items ≡ map disowned items.old.items }
{
    for index in 0..items.len() {
        items[index].disown();
    }
}

/// All calls are from before a reset.
fn cut_all(items: &mut VecDeque<Flight>, moment: u64)
    ensures { items.new.items ≡ map (cut_flight moment) items.old.items }
{
    for index in 0..items.len() {
        items[index].cut(moment);
    }
}

/// Whether there is room for so many calls more.
fn has_room(items: &VecDeque<Flight>, more: usize) -> bool
    ensures { result ≡ true → deque_len items.now + more ≤ deque_capacity items.now }
{
    more <= items.capacity() - items.len()
}

impl Flights {
    /// No calls; the next has this number.
    pub fn new(alloc: Global, next: u64) -> Flights
        ensures items { result.items.items ≡ [] }
        ensures next { result.next ≡ next }
    {
        Flights {
            next,
            ordered: true,
            items: VecDeque::new(alloc),
        }
    }

    /// The number of the machine's next call, above all before, whichever daemon made them.
    pub fn next(&self) -> u64
        ensures { result ≡ self.now.next }
    {
        self.next
    }

    /// The first reset of before which a write may still land.
    pub fn late(&self) -> Option<u64>
        ensures { result ≡ late_of self.now.items.items }
    {
        if self.ordered {
            oldest_late(&self.items)
        } else {
            first_late(&self.items)
        }
    }

    /// The least number of a call in flight.
    pub fn least(&self) -> Option<u64>
        ensures { result ≡ least (map (λ f. f.number) self.now.items.items) }
    {
        oldest_number(&self.items)
    }

    /// The least number of a call in flight of an ended daemon.
    #[tactic(auto, using(crate::proofs::LeastCalls::least_of_ended))]
    pub fn least_ended(&self) -> Option<u64>
        ensures { result ≡ least (map (λ f. f.number) (filter (λ f. not f.own) self.now.items.items)) }
    {
        if self.ordered {
            oldest_ended(&self.items)
        } else {
            least_ended(&self.items)
        }
    }

    /// Where the call of this number stands, if it is in flight.
    fn index_of(&self, number: u64) -> Option<usize>
        ensures found { IfSome result (StandsAt self.now.items.items number) }
        ensures within { IfSome result (λ i. i < deque_len self.now.items) }
        ensures none { result ≡ None → flight_numbered self.now.items.items number ≡ None }
    {
        let mut low = 0;
        let mut high = self.items.len();
        while low < high {
            let middle = low + (high - low) / 2;
            let found = self.items[middle].number();
            if found == number {
                return Some(middle);
            }
            if found > number {
                low = middle + 1;
            } else {
                high = middle;
            }
        }
        None
    }

    /// The call of this number, if it is in flight.
    pub fn get(&self, number: u64) -> Option<&Flight>
        ensures { option_copied result ≡ flight_numbered self.now.items.items number }
    {
        match self.index_of(number) {
            None => None,
            Some(index) => Some(&self.items[index]),
        }
    }

    /// Takes the memory that so many calls more need. An `Err` is want of it.
    ///
    /// Calls are put in front, so a block that gets too small is not enlarged: all are copied to a new one, which has room for what was asked and
    /// no more. A step may make one call more with each lease that its daemon has, so twice as much is asked for: else each acquire would copy all.
    pub fn reserve(&mut self, more: usize) -> Result<(), AllocError>
        ensures room { OnOk result (deque_len self.new.items + more ≤ deque_capacity self.new.items) }
        ensures same { (self.new.items.items ≡ self.old.items.items) × (self.new.next ≡ self.old.next) }
    {
        if has_room(&self.items, more) {
            return Ok(());
        }
        self.items.reserve(more.saturating_add(more))
    }

    /// The way of a write ends so.
    pub fn end(&mut self, number: u64, outcome: Outcome)
        ensures items { self.new.items.items ≡ flights_with number (ended_flight outcome) self.old.items.items }
        ensures next { self.new.next ≡ self.old.next }
        ensures room { deque_capacity self.new.items ≡ deque_capacity self.old.items }
    {
        if let Some(index) = self.index_of(number) {
            end_at(&mut self.items, index, outcome);
        }
    }

    /// The read of this number samples these sectors, so many: what an event makes of it. An `Err` is want of memory, and changes nothing.
    pub fn sample(
        &mut self,
        number: u64,
        more: Vec<Arc<Image>>,
        sectors: u64,
    ) -> Result<(), AllocError>
        requires { (f : FlightState) → flight_numbered self.old.items.items number ≡ Some f → sectors ≤ left_in f }
        ensures items { OnOk result ((g : FlightState → FlightState)
            → ((f : FlightState) → flight_numbered self.old.items.items number ≡ Some f → g f ≡ grown_flight (flat_map (λ m. arc_value m) more.items) sectors f)
            → self.new.items.items ≡ flights_with number g self.old.items.items) }
        ensures err { OnErr result (self.new.items.items ≡ self.old.items.items) }
        ensures next { self.new.next ≡ self.old.next }
    {
        if let Some(index) = self.index_of(number) {
            sample_at(&mut self.items, index, more, sectors)?;
        }
        Ok(())
    }

    /// The call of this number is gone.
    pub fn remove(&mut self, number: u64)
        ensures items { self.new.items.items ≡ flights_without number self.old.items.items }
        ensures next { self.new.next ≡ self.old.next }
        ensures room { deque_capacity self.new.items ≡ deque_capacity self.old.items }
        ensures len { deque_len self.new.items ≤ deque_len self.old.items }
    {
        if let Some(index) = self.index_of(number) {
            remove_at(&mut self.items, index);
        }
    }

    /// One call more, the newest. It takes no memory.
    pub fn push(&mut self, flight: Flight)
        requires room { deque_len self.old.items < deque_capacity self.old.items }
        requires numbered { flight.number ≡ self.old.next }
        requires number { self.old.next + 1 < 2 ^ 64 }
        requires open { stays_open flight ≡ true }
        requires uncut { late_cut flight ≡ None }
        ensures items { self.new.items.items ≡ flight ∷ self.old.items.items }
        ensures next { self.new.next ≡ self.old.next + 1 }
        ensures room { deque_capacity self.new.items ≡ deque_capacity self.old.items }
        ensures len { deque_len self.new.items ≡ deque_len self.old.items + 1 }
    {
        self.ordered = stay_in_order(self.ordered, &flight);
        self.items.push_front_reserved(flight);
        self.next += 1;
    }

    /// The call of this number is gone, if one is named.
    pub fn answer(&mut self, number: Option<u64>)
        ensures items { self.new.items.items ≡ filter (λ f. not (some_is (λ n. f.number == n) number)) self.old.items.items }
        ensures next { self.new.next ≡ self.old.next }
        ensures room { deque_capacity self.new.items ≡ deque_capacity self.old.items }
        ensures len { deque_len self.new.items ≤ deque_len self.old.items }
    {
        if let Some(number) = number {
            self.remove(number);
        }
    }

    /// New calls, one after another. They take no memory.
    pub fn push_calls(&mut self, alloc: Global, header: &Header, calls: &[Call])
        requires lawful { IsHeader header.now }
        requires room { deque_len self.old.items + length calls.now ≤ deque_capacity self.old.items }
        requires numbered { map (λ c. c.number) calls.now ≡ range_with_len self.old.next (length calls.now) }
        requires numbers { self.old.next + length calls.now < 2 ^ 64 }
        requires sound { (c : CallOf) → Contains calls.now c → IsSoundOp c.op }
        ensures items { self.new.items.items ≡ fold (λ fs c. new_flight header.now c ∷ fs) self.old.items.items calls.now }
        ensures next { self.new.next ≡ self.old.next + length calls.now }
    {
        for call in calls {
            self.push(Flight::made(alloc, header, call));
        }
    }

    /// The daemon has ended: its reads go, its writes stay.
    pub fn disown(&mut self)
        ensures items { self.new.items.items ≡ flights_disowned self.old.items.items }
        ensures next { self.new.next ≡ self.old.next }
    {
        keep_writes(&mut self.items);
        disown_all(&mut self.items);
    }

    /// The machine has gone down: reads go, and each write is from before this reset.
    pub fn cut(&mut self, moment: u64)
        ensures items { self.new.items.items ≡ flights_cut moment self.old.items.items }
        ensures next { self.new.next ≡ self.old.next }
    {
        keep_writes(&mut self.items);
        cut_all(&mut self.items, moment);
        self.ordered = are_in_order(&self.items);
    }
}
