//! The holdings of a host, in the order of their grants, by area and by process.
//!
//! Of each area and of each process the number of a grant is noted that none of its holdings is before: there a search begins, and where none
//! is noted it ends at once. From there on it goes through what was granted later: of an area with one holder, or of a process with one
//! holding, it finds that first.

ghost use Rattle.indexmap.specs.IndexMap.{get, spare};
ghost use Rattle.sl_tables.specs.Holdings.{AreLed, Leads, first_at, first_of, fits, holder_in, is_held_at, is_holder, is_in_mode, is_of_process, least_holder, noted_first, sooner, sought_at, sought_of, without_first};
ghost use Rattle.sl_tables.specs.Rising.{AreRising, found_in, items_of};
ghost use Rattle.sl_trace.specs.Traces.{same_spot, spot_of_grant};
ghost use Rattle.sl_trace.specs.declared.effects.Spot.{Spot as SpotOf};
ghost use Rattle.sl_words.specs.Words.{some_is};
ghost use Rattle.std.specs.List.{AllByRecursion};
ghost use Rattle.std.specs.Map.{values_of};
ghost use Rattle.std.specs.Prelude.{None, OnErr, OnOk, cond, filter, find, is_some, length, max, nat_eq, not, option_map, slice_get, take, true, [], ℕ, ◌&&◌, ◌+◌, ◌++◌, ◌-◌, ◌<◌, ◌==◌, ◌^◌, ◌∷◌, ◌≡◌, ◌≤◌};

use crate::area::Area;
use crate::firsts::{is_first, note_first, pass_on};
use crate::rising::{Rising, place_of};
use indexmap::IndexMap;
use sl_trace::{Grant, Mode, Spot};
use std::alloc::{AllocError, Global};
use std::hash::Hash;
use std::marker::Model;

/// Whose holdings are sought: a process by its number, all others, those with greater numbers, or all.
#[derive(Clone, Copy)]
pub enum Holder {
    Anyone,
    Is(u32),
    IsNot(u32),
    Above(u32),
}

impl Holder {
    /// Whether this process is one of them.
    fn has(self, process: u32) -> bool
        ensures { result ≡ is_holder self process }
    {
        match self {
            Holder::Anyone => true,
            Holder::Is(sought) => process == sought,
            Holder::IsNot(other) => process != other,
            Holder::Above(last) => last < process,
        }
    }
}

/// Which holdings are sought: whose, of which session, on which area, in which mode. What is `None` may be any.
#[derive(Clone, Copy)]
pub struct Sought {
    pub holder: Holder,
    pub session: Option<u64>,
    pub spot: Option<Spot>,
    pub mode: Option<Mode>,
}

/// Whether the holding is on this area.
fn is_at(spot: &Spot, grant: &Grant) -> bool
    ensures { result ≡ is_held_at spot.now grant.now }
{
    grant.offset == spot.base && grant.path == spot.path
}

/// Whether the holding is in this mode.
fn is_in(mode: Mode, grant: &Grant) -> bool
    ensures { result ≡ is_in_mode mode grant.now }
{
    match mode {
        Mode::Exclusive => matches!(grant.mode, Mode::Exclusive),
        Mode::Shared => matches!(grant.mode, Mode::Shared),
    }
}

impl Sought {
    /// All holdings of the resource on this area.
    pub fn at(spot: Spot) -> Sought
        ensures { result ≡ sought_at spot }
    {
        Sought {
            holder: Holder::Anyone,
            session: None,
            spot: Some(spot),
            mode: None,
        }
    }

    /// All holdings of this process.
    pub fn of(process: u32) -> Sought
        ensures { result ≡ sought_of process }
    {
        Sought {
            holder: Holder::Is(process),
            session: None,
            spot: None,
            mode: None,
        }
    }

    /// Whether a holding is one of those sought.
    pub fn fits(&self, grant: &Grant) -> bool
        ensures { result ≡ fits self.now grant.now }
    {
        let of_session = match self.session {
            Some(session) => grant.session == session,
            None => true,
        };
        let there = match &self.spot {
            Some(spot) => is_at(spot, grant),
            None => true,
        };
        let so = match self.mode {
            Some(mode) => is_in(mode, grant),
            None => true,
        };
        self.holder.has(grant.process) && of_session && so && there
    }
}

/// The area under a holding.
fn area_of(grant: &Grant) -> Spot
    ensures { result ≡ spot_of_grant grant.now }
{
    Spot {
        path: grant.path,
        base: grant.offset,
    }
}

/// The number of the holding in this slot, if it is one of those sought.
fn found_in(slots: &[(u64, Option<Grant>)], index: usize, sought: &Sought) -> Option<u64>
    ensures { result ≡ found_in (λ p. fits sought.now p.1) (slice_get slots.now index) }
{
    match slots.get(index) {
        Some((number, Some(grant))) if sought.fits(grant) => Some(*number),
        _ => None,
    }
}

/// The slot of a number, or the first: what stands before it has numbers below that one.
#[tactic(auto, using(crate::proofs::HoldingsStand::before_slot))]
fn slot_of(slots: &[(u64, Option<Grant>)], number: u64) -> usize
    requires { AreRising slots.now }
    ensures within { result ≤ length slots.now }
    ensures below { AllByRecursion (λ p. p.0 < number) (items_of (take result slots.now)) }
{
    if number == 0 {
        return 0;
    }
    match place_of(slots, number) {
        Some(index) => index,
        None => 0,
    }
}

/// So few holdings are looked through from the first on, whatever the indexes note.
const FEW: usize = 8;

impl Rising<Grant> {
    /// The number of the first of those sought, none of which has a number below this one.
    #[tactic(auto, using(crate::proofs::HoldingsStand::none_before, crate::proofs::ScansFind::scan_none, crate::proofs::ScansFind::scan_some, crate::proofs::ScansFind::scan_all))]
    fn seek(&self, first: u64, sought: &Sought) -> Option<u64>
        requires { AllByRecursion (λ p. fits sought.now p.1 ≡ true → first ≤ p.0) self.now.items }
        ensures { result ≡ option_map (λ p. p.0) (find (λ p. fits sought.now p.1) self.now.items) }
    {
        for index in slot_of(&self.slots, first)..self.slots.len() {
            let found = found_in(&self.slots, index, sought);
            if found.is_some() {
                return found;
            }
        }
        None
    }

    /// The least process of those sought, none of which has a number below this one.
    #[tactic(auto, using(crate::proofs::HoldingsStand::holders_before, crate::proofs::HoldingsStand::holder_more, crate::proofs::HoldingsStand::holders_all))]
    fn least_holder(&self, first: u64, sought: &Sought) -> Option<u32>
        requires { AllByRecursion (λ p. fits sought.now p.1 ≡ true → first ≤ p.0) self.now.items }
        ensures { result ≡ least_holder sought.now (values_of self.now.items) }
    {
        let mut least = None;
        for index in slot_of(&self.slots, first)..self.slots.len() {
            least = sooner(least, holder_in(&self.slots, index, sought));
        }
        least
    }
}

/// The process of the holding in this slot, if it is one of those sought.
fn holder_in(slots: &[(u64, Option<Grant>)], index: usize, sought: &Sought) -> Option<u32>
    ensures { result ≡ holder_in sought.now (slice_get slots.now index) }
{
    match slots.get(index) {
        Some((_, Some(grant))) if sought.fits(grant) => Some(grant.process),
        _ => None,
    }
}

/// The lesser of two processes, where they are there.
fn sooner(one: Option<u32>, other: Option<u32>) -> Option<u32>
    ensures { result ≡ sooner one other }
{
    match (one, other) {
        (Some(a), Some(b)) => Some(if b < a { b } else { a }),
        (Some(a), None) => Some(a),
        (None, b) => b,
    }
}

/// The number at which a search for these holdings begins, if there may be any.
fn noted_first(
    areas: &IndexMap<Area, u64>,
    processes: &IndexMap<u32, u64>,
    sought: &Sought,
) -> Option<u64>
    ensures { result ≡ noted_first sought.now (get same_spot areas.now) (get nat_eq processes.now) }
{
    match (&sought.spot, sought.holder) {
        (Some(spot), _) => areas.get(&Area::at(*spot)).copied(),
        (None, Holder::Is(process)) => processes.get(&process).copied(),
        (None, _) => Some(0),
    }
}

/// The number of the first of those sought.
#[tactic(auto, using(crate::proofs::HoldingsStand::begun_at, crate::proofs::HoldingsStand::none_begun))]
fn number_of(
    areas: &IndexMap<Area, u64>,
    processes: &IndexMap<u32, u64>,
    held: &Rising<Grant>,
    sought: &Sought,
) -> Option<u64>
    requires areas { AreLed is_held_at (get same_spot areas.now) held.now.items }
    requires processes { AreLed is_of_process (get nat_eq processes.now) held.now.items }
    ensures { result ≡ option_map (λ p. p.0) (find (λ p. fits sought.now p.1) held.now.items) }
{
    if held.extent() <= FEW {
        return held.seek(0, sought);
    }
    match noted_first(areas, processes, sought) {
        Some(first) => held.seek(first, sought),
        None => None,
    }
}

/// Sees that an index has memory for so many more. What it notes stays.
fn reserve_index<K: Eq + Hash + Drop>(
    firsts: &mut IndexMap<K, u64>,
    room: usize,
) -> Result<(), AllocError>
    ensures firsts { (k : K) → get K.eq firsts.new k ≡ get K.eq firsts.old k }
    ensures room { spare firsts.old ≤ spare firsts.new }
    ensures ok { OnOk result (room ≤ spare firsts.new) }
{
    firsts.reserve(room)
}

/// The holding of this number on an area is gone: where it was noted, the next one is.
fn leave_area(areas: &mut IndexMap<Area, u64>, held: &Rising<Grant>, spot: &Spot, number: u64)
    requires led { AllByRecursion (λ p. is_held_at spot.now p.1 ≡ true → Leads p.0 (get same_spot areas.old spot.now)) held.now.items }
    ensures firsts { (at : SpotOf) → get same_spot areas.new at ≡ cond (same_spot spot.now at && some_is (λ n. n == number) (get same_spot areas.old spot.now)) (first_at spot.now held.now.items) (get same_spot areas.old at) }
    ensures room { spare areas.old ≤ spare areas.new }
{
    let key = Area::at(*spot);
    if is_first(areas, &key, number) {
        pass_on(areas, &key, held.seek(number, &Sought::at(*spot)));
    }
}

/// The holding of this number of a process is gone: where it was noted, the next one is.
fn leave_process(
    processes: &mut IndexMap<u32, u64>,
    held: &Rising<Grant>,
    process: u32,
    number: u64,
)
    requires led { AllByRecursion (λ q. is_of_process process q.1 ≡ true → Leads q.0 (get nat_eq processes.old process)) held.now.items }
    ensures firsts { (p : ℕ) → get nat_eq processes.new p ≡ cond (nat_eq process p && some_is (λ n. n == number) (get nat_eq processes.old process)) (first_of process held.now.items) (get nat_eq processes.old p) }
    ensures room { spare processes.old ≤ spare processes.new }
{
    if is_first(processes, &process, number) {
        pass_on(processes, &process, held.seek(number, &Sought::of(process)));
    }
}

/// The holdings, in the order of their grants, with memory for some more.
#[derive(Drop)]
pub struct Holdings {
    held: Rising<Grant>,
    areas: IndexMap<Area, u64>,
    processes: IndexMap<u32, u64>,
}

impl Model for Holdings {
    ghost use Rattle.indexmap.specs.IndexMap.{get, spare};
    ghost use Rattle.sl_tables.specs.Holdings.{HoldingsState, IsIndex, is_held_at, is_of_process};
    ghost use Rattle.sl_trace.specs.Traces.{same_spot};
    ghost use Rattle.std.specs.Map.{values_of};
    ghost use Rattle.std.specs.Prelude.{nat_eq};

    ghost Value = { HoldingsState };

    ghost view = { λ h. record { held = values_of h.held.items; next = h.held.next; room = h.held.room } };

    ghost invariant = { λ h. IsIndex is_held_at (get same_spot h.areas) (spare h.areas) h.held × IsIndex is_of_process (get nat_eq h.processes) (spare h.processes) h.held };
}

impl Holdings {
    /// An empty table, without room. It takes no memory.
    pub fn new(alloc: Global) -> Holdings
        ensures { result ≡ record { held = []; next = 0; room = 0 } }
    {
        Holdings {
            held: Rising::new(alloc),
            areas: IndexMap::new(alloc),
            processes: IndexMap::new(alloc),
        }
    }

    /// Sees that there is memory for so many more. An `Err` is want of memory, and changes nothing.
    #[tactic(auto, using(crate::proofs::HoldingsStand::index_same))]
    pub fn reserve(&mut self, room: usize) -> Result<(), AllocError>
        ensures ok { OnOk result (self.new ≡ record self.old { room = max self.old.room room }) }
        ensures err { OnErr result (self.new ≡ self.old) }
    {
        reserve_index(&mut self.areas, room)?;
        reserve_index(&mut self.processes, room)?;
        self.held.reserve(room)
    }

    /// How many are held.
    pub fn len(&self) -> usize
        ensures { result ≡ length self.now.held }
    {
        self.held.len()
    }

    /// One more holding. There have been fewer than 2^64 - 1.
    pub fn put(&mut self, grant: Grant)
        requires room { 0 < self.old.room }
        requires few { self.old.next < 2 ^ 64 - 1 }
        ensures { self.new ≡ record self.old { held = self.old.held ++ grant ∷ []; next = self.old.next + 1; room = self.old.room - 1 } }
    {
        let number = self.held.next();
        note_first(&mut self.areas, Area::at(area_of(&grant)), number);
        note_first(&mut self.processes, grant.process, number);
        self.held.put(number, grant);
    }

    /// Of the holdings sought, the one that was granted first.
    pub fn find(&self, sought: &Sought) -> Option<&Grant>
        ensures { option_map (λ g. g.now) result ≡ find (fits sought.now) self.now.held }
    {
        match number_of(&self.areas, &self.processes, &self.held, sought) {
            Some(number) => self.held.get(number),
            None => None,
        }
    }

    /// Whether there is one of those sought.
    pub fn has(&self, sought: &Sought) -> bool
        ensures { result ≡ is_some (find (fits sought.now) self.now.held) }
    {
        match self.find(sought) {
            Some(_) => true,
            None => false,
        }
    }

    /// The least number of a process that has one of the holdings sought; an orphan has none.
    pub fn least_holder(&self, sought: &Sought) -> Option<u32>
        ensures { result ≡ least_holder sought.now self.now.held }
    {
        if self.held.extent() <= FEW {
            return self.held.least_holder(0, sought);
        }
        match noted_first(&self.areas, &self.processes, sought) {
            Some(first) => self.held.least_holder(first, sought),
            None => None,
        }
    }

    /// The first of those sought is held no more: it is given, if there was one.
    pub fn end_first(&mut self, sought: &Sought) -> Option<Grant>
        ensures ended { result ≡ find (fits sought.now) self.old.held }
        ensures held { self.new ≡ record self.old { held = without_first (fits sought.now) self.old.held } }
    {
        match number_of(&self.areas, &self.processes, &self.held, sought) {
            Some(number) => match self.held.take(number) {
                Some(grant) => {
                    let (spot, process) = (area_of(&grant), grant.process);
                    leave_area(&mut self.areas, &self.held, &spot, number);
                    leave_process(&mut self.processes, &self.held, process, number);
                    Some(grant)
                }
                None => None,
            },
            None => None,
        }
    }

    /// None of those sought is held any more.
    pub fn end_all(&mut self, sought: &Sought)
        ensures { self.new ≡ record self.old { held = filter (λ g. not (fits sought.now g)) self.old.held } }
    {
        while self.end_first(sought).is_some() {}
    }
}
