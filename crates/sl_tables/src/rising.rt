//! Elements by numbers that rise.

ghost use Rattle.indexmap.specs.IndexMap.{set_value_at};
ghost use Rattle.sl_tables.specs.Rising.{AreBelow, AreRising, RisingState, is_full, standing};
ghost use Rattle.sl_words.specs.Words.{some_is};
ghost use Rattle.std.specs.List.{AllByRecursion};
ghost use Rattle.std.specs.Map.{keys_of, lookup};
ghost use Rattle.std.specs.Prelude.{None, OnErr, OnOk, max, cond, drop, length, map, nat_eq, nat_lt, not, Option, Some, filter, is_some, option_and_then, option_map, position, slice_get, take, vec_capacity, vec_len, [], ◌+◌, ◌++◌, ◌-◌, ◌<◌, ◌==◌, ◌^◌, ◌∷◌, ◌≡◌, ◌≤◌, ℕ};

use std::alloc::{AllocError, Global};
use std::marker::Model;

/// Elements by numbers that rise, with memory for `room` more. One that is taken out leaves a gap. A number is found by bisection, the newest at once.
#[derive(Drop)]
pub struct Rising<T> {
    pub(crate) slots: Vec<(u64, Option<T>)>,
    next: u64,
    room: usize,
    gaps: usize,
}

impl<T> Model for Rising<T> {
    ghost use Rattle.sl_tables.specs.Rising.{AreBelow, AreRising, RisingState, gaps_in, items_of};
    ghost use Rattle.std.specs.Prelude.{vec_capacity, vec_len, ◌+◌, ◌≡◌, ◌≤◌};

    ghost Value = { RisingState T };

    ghost view = { λ r. record { items = items_of r.slots.items; next = r.next; room = r.room; gaps = r.gaps } };

    ghost invariant = { λ r. AreRising r.slots.items × AreBelow r.next r.slots.items × (vec_len r.slots + r.room ≤ vec_capacity r.slots) × (gaps_in r.slots.items ≡ r.gaps) };
}

/// Whether the slot at this index has a number below this one.
fn is_below<T>(slots: &[(u64, Option<T>)], index: usize, number: u64) -> bool
    requires { index < length slots.now }
    ensures { result ≡ some_is (λ p. nat_lt p.0 number) (slice_get slots.now index) }
{
    slots[index].0 < number
}

/// Whether the slot at this index has this number.
fn has_number<T>(slots: &[(u64, Option<T>)], index: usize, number: u64) -> bool
    ensures { result ≡ some_is (λ p. p.0 == number) (slice_get slots.now index) }
{
    match slots.get(index) {
        Some(slot) => slot.0 == number,
        None => false,
    }
}

/// How many slots have numbers below this one.
#[tactic(auto, using(crate::proofs::Places::below_to, crate::proofs::Places::above_from))]
fn count_below<T>(slots: &[(u64, Option<T>)], number: u64) -> usize
    requires { AreRising slots.now }
    ensures within { result ≤ length slots.now }
    ensures below { AreBelow number (take result slots.now) }
    ensures from { AllByRecursion (λ p. number ≤ p.0) (drop result slots.now) }
{
    let mut low = 0;
    let mut high = slots.len();
    while low < high {
        let middle = low + (high - low) / 2;
        if is_below(slots, middle, number) {
            low = middle + 1;
        } else {
            high = middle;
        }
    }
    low
}

/// The slot in which this number stands, found by bisection; a gap keeps its number.
#[tactic(auto, using(crate::proofs::Places::place_there, crate::proofs::Places::place_none))]
pub(crate) fn place_of<T>(slots: &[(u64, Option<T>)], number: u64) -> Option<usize>
    requires { AreRising slots.now }
    ensures { result ≡ position (nat_eq number) (keys_of slots.now) }
{
    let end = slots.len();
    if end > 0 && has_number(slots, end - 1, number) {
        return Some(end - 1);
    }
    let place = count_below(slots, number);
    if has_number(slots, place, number) {
        Some(place)
    } else {
        None
    }
}

/// The element in the slot at this index, with its number.
fn in_slot<T>(slots: &[(u64, Option<T>)], index: usize) -> Option<(u64, &T)>
    ensures { option_map (λ p. (p.0, p.1.now)) result ≡ option_and_then standing (slice_get slots.now index) }
{
    match slots.get(index) {
        Some((number, Some(item))) => Some((*number, item)),
        _ => None,
    }
}

/// Takes the gaps out.
fn close_gaps<T: Drop>(slots: &mut Vec<(u64, Option<T>)>)
    ensures slots { slots.new.items ≡ filter is_full slots.old.items }
    ensures room { (vec_len slots.new ≤ vec_len slots.old) × (vec_capacity slots.new ≡ vec_capacity slots.old) }
{
    slots.retain(
        |slot: &(u64, Option<T>)| -> bool
            ensures { result ≡ is_full slot.now }
        { slot.1.is_some() },
    );
}

/// Leaves a gap in the slot at this index, and gives what stood there.
fn leave_gap<T>(slots: &mut Vec<(u64, Option<T>)>, index: usize) -> Option<T>
    requires { index < length slots.old.items }
    ensures slots { slots.new.items ≡ set_value_at slots.old.items index None }
    ensures found { (n : ℕ) × (slice_get slots.old.items index ≡ Some (n, result)) }
    ensures room { (vec_len slots.new ≡ vec_len slots.old) × (vec_capacity slots.new ≡ vec_capacity slots.old) }
{
    slots[index].1.take()
}

/// Leaves a gap in the slot at this index, and tells whether something stood there.
fn empty<T: Drop>(slots: &mut Vec<(u64, Option<T>)>, index: usize) -> bool
    requires { index < length slots.old.items }
    ensures slots { slots.new.items ≡ set_value_at slots.old.items index None }
    ensures found { (n : ℕ) × (o : Option T) × (slice_get slots.old.items index ≡ Some (n, o)) × (result ≡ is_some o) }
    ensures room { (vec_len slots.new ≡ vec_len slots.old) × (vec_capacity slots.new ≡ vec_capacity slots.old) }
{
    let slot = &mut slots[index].1;
    let stood = slot.is_some();
    *slot = None;
    stood
}

/// Puts another element in the place of what stands in the slot at this index; a gap stays.
fn replace_in<T: Drop>(slots: &mut Vec<(u64, Option<T>)>, index: usize, item: T)
    requires { index < length slots.old.items }
    ensures slots { (n : ℕ) × (o : Option T) × (slice_get slots.old.items index ≡ Some (n, o)) × (slots.new.items ≡ set_value_at slots.old.items index (option_map (λ x. item) o)) }
    ensures room { (vec_len slots.new ≡ vec_len slots.old) × (vec_capacity slots.new ≡ vec_capacity slots.old) }
{
    let slot = &mut slots[index].1;
    if slot.is_some() {
        *slot = Some(item);
    }
}

impl<T: Drop> Rising<T> {
    /// An empty table, without room. It takes no memory.
    pub fn new(alloc: Global) -> Rising<T>
        ensures { result ≡ record { items = []; next = 0; room = 0; gaps = 0 } }
    {
        Rising {
            slots: Vec::new(alloc),
            next: 0,
            room: 0,
            gaps: 0,
        }
    }

    /// Closes all gaps that removed elements have left, so that their places serve again.
    #[tactic(auto, using(crate::proofs::SlotsStand::items_kept, crate::proofs::SlotsStand::no_gaps, crate::proofs::SlotsStand::below_kept, crate::proofs::SlotsStand::rising_kept))]
    pub fn pack(&mut self)
        ensures { self.new ≡ record self.old { gaps = 0 } }
    {
        if self.gaps > 0 {
            close_gaps(&mut self.slots);
            self.gaps = 0;
        }
    }

    /// Sees that there is memory for so many more. An `Err` is want of memory, and changes nothing but gaps.
    #[tactic(auto, using(crate::proofs::SlotsStand::gaps_few))]
    pub fn reserve(&mut self, room: usize) -> Result<(), AllocError>
        ensures items { (self.new.items ≡ self.old.items) × (self.new.next ≡ self.old.next) }
        ensures ok { OnOk result (self.new.room ≡ max self.old.room room) }
        ensures err { OnErr result (self.new.room ≡ self.old.room) }
    {
        if self.slots.len() - self.gaps < self.gaps {
            self.pack();
        }
        if self.room < room {
            self.slots.reserve(room)?;
            self.room = room;
        }
        Ok(())
    }

    /// One more element, with a number above all others.
    #[tactic(auto, using(crate::proofs::SlotsStand::items_push, crate::proofs::SlotsStand::gaps_push, crate::proofs::SlotsStand::below_push, crate::proofs::SlotsStand::below_more, crate::proofs::SlotsStand::rising_push, crate::proofs::SlotsStand::few_items))]
    pub fn put(&mut self, number: u64, item: T)
        requires room { 0 < self.old.room }
        requires rises { (self.old.next ≤ number) × (number < 2 ^ 64 - 1) }
        ensures state { self.new ≡ record self.old { items = self.old.items ++ (number, item) ∷ []; next = number + 1; room = self.old.room - 1 } }
        ensures few { length self.old.items ≤ self.old.next }
    {
        self.slots.push_reserved((number, Some(item)));
        self.room -= 1;
        self.next = number + 1;
    }

    /// The element of this number, if it stands.
    #[tactic(auto, using(crate::proofs::SlotsStand::found_full, crate::proofs::SlotsStand::found_none, crate::proofs::SlotsStand::items_rise))]
    pub fn get(&self, number: u64) -> Option<&T>
        ensures value { option_map (λ x. x.now) result ≡ lookup (nat_eq number) self.now.items }
        ensures rising { AreRising self.now.items }
    {
        match place_of(&self.slots, number) {
            Some(index) => self.slots[index].1.as_ref(),
            None => None,
        }
    }

    /// Takes the element of this number out, if it stands.
    #[tactic(auto, using(crate::proofs::SlotsStand::found_none, crate::proofs::SlotsStand::gap_left, crate::proofs::SlotsStand::items_rise, crate::proofs::SlotsStand::items_below))]
    pub fn take(&mut self, number: u64) -> Option<T>
        ensures found { result ≡ lookup (nat_eq number) self.old.items }
        ensures items { self.new.items ≡ filter (λ p. not (nat_eq number p.0)) self.old.items }
        ensures kept { (self.new.next ≡ self.old.next) × (self.new.room ≡ self.old.room) }
        ensures rising { AreRising self.old.items }
        ensures below { AreBelow self.old.next self.old.items }
    {
        match place_of(&self.slots, number) {
            Some(index) => {
                let item = leave_gap(&mut self.slots, index);
                if item.is_some() {
                    self.gaps += 1;
                }
                item
            }
            None => None,
        }
    }

    /// The element of this number stands no more, if it did.
    #[tactic(auto, using(crate::proofs::SlotsStand::found_none, crate::proofs::SlotsStand::gap_left))]
    pub fn forget(&mut self, number: u64)
        ensures items { self.new.items ≡ filter (λ p. not (nat_eq number p.0)) self.old.items }
        ensures kept { (self.new.next ≡ self.old.next) × (self.new.room ≡ self.old.room) }
    {
        match place_of(&self.slots, number) {
            Some(index) => {
                if empty(&mut self.slots, index) {
                    self.gaps += 1;
                }
            }
            None => {}
        }
    }

    /// What stands rises: it does nothing, and lets a proof know.
    #[tactic(auto, using(crate::proofs::SlotsStand::items_rise))]
    pub(crate) fn rises(&self)
        ensures { AreRising self.now.items }
    {
        let _next = self.next;
    }

    /// A number that is above all numbers of the table: the next element's is at least this.
    pub fn next(&self) -> u64
        ensures { result ≡ self.now.next }
    {
        self.next
    }

    /// How many there are.
    #[tactic(auto, using(crate::proofs::SlotsStand::as_many, crate::proofs::SlotsStand::gaps_few))]
    pub fn len(&self) -> usize
        ensures { result ≡ length self.now.items }
    {
        self.slots.len() - self.gaps
    }

    /// How many slots there are: as many as elements and gaps.
    #[tactic(auto, using(crate::proofs::SlotsStand::as_many))]
    pub(crate) fn extent(&self) -> usize
        ensures { result ≡ length self.now.items + self.now.gaps }
    {
        self.slots.len()
    }

    /// The element at this place among all, with its number. There must be no gaps.
    #[tactic(auto, using(crate::proofs::SlotsStand::at_place))]
    pub fn nth(&self, place: usize) -> Option<(u64, &T)>
        requires { self.now.gaps ≡ 0 }
        ensures { option_map (λ p. (p.0, p.1.now)) result ≡ slice_get self.now.items place }
    {
        in_slot(&self.slots, place)
    }

    /// Puts another element in the place of the one of this number, if it stands.
    #[tactic(auto, using(crate::proofs::SlotsStand::items_rise, crate::proofs::SlotsStand::few_items))]
    pub fn set(&mut self, number: u64, item: T)
        ensures state { self.new ≡ record self.old { items = map (λ p. cond (nat_eq number p.0) (p.0, item) p) self.old.items } }
        ensures rising { AreRising self.old.items }
        ensures few { (length self.old.items ≤ self.old.next) × (self.old.next < 2 ^ 64) }
    {
        match place_of(&self.slots, number) {
            Some(index) => replace_in(&mut self.slots, index, item),
            None => {}
        }
    }
}
