//! The calls without an answer, by number. What is asked of an area or of a session is asked seldom, and is looked for among all of them.

ghost use Rattle.sl_tables.specs.Opens.{first_on, is_on_area, is_write_of, least_on};
ghost use Rattle.sl_tables.specs.Rising.{found_in};
ghost use Rattle.sl_words.specs.Words.{some_is};
ghost use Rattle.std.specs.List.{list_any};
ghost use Rattle.std.specs.Map.{values_of};
ghost use Rattle.std.specs.Prelude.{OnErr, OnOk, filter, find, not, max, option_map, slice_get, [], ◌+◌, ◌++◌, ◌-◌, ◌<◌, ◌==◌, ◌^◌, ◌∷◌, ◌≡◌, ◌≤◌};

use crate::rising::Rising;
use sl_host_state::{OpenCall, ValuePair};
use sl_text::{FilePath, Name};
use sl_trace::{JoinStep, LeaseRead, LeaseStep, Purpose, Spot, Work};
use std::alloc::{AllocError, Global};
use std::marker::Model;

/// Whether the call is on this area.
fn is_on(call: &OpenCall, spot: &Spot, area: u64) -> bool
    requires { 0 < area }
    ensures { result ≡ is_on_area area spot.now call.now }
{
    spot.base == call.offset - call.offset % area && spot.path == call.path
}

/// The number of the call in this slot, if it is on the area.
fn found_in(slots: &[(u64, Option<OpenCall>)], index: usize, spot: &Spot, area: u64) -> Option<u64>
    requires { 0 < area }
    ensures { result ≡ found_in (λ p. is_on_area area spot.now p.1) (slice_get slots.now index) }
{
    match slots.get(index) {
        Some((number, Some(call))) if is_on(call, spot, area) => Some(*number),
        _ => None,
    }
}

/// Whether a write of the session is in this slot.
fn is_write(slot: &(u64, Option<OpenCall>), session: u64) -> bool
    ensures { result ≡ some_is (is_write_of session) slot.now.1 }
{
    match &slot.1 {
        Some(call) => call.session == session && call.sectors.is_none(),
        None => false,
    }
}

/// Whether a call of the session is in this slot.
fn is_call(slot: &(u64, Option<OpenCall>), session: u64) -> bool
    ensures { result ≡ some_is (λ c. c.session == session) slot.now.1 }
{
    match &slot.1 {
        Some(call) => call.session == session,
        None => false,
    }
}

/// Whether a write of the session is in any of these slots.
fn any_write(slots: &[(u64, Option<OpenCall>)], session: u64) -> bool
    ensures { result ≡ list_any (λ s. some_is (is_write_of session) s.1) slots.now }
{
    slots.iter().any(|slot| is_write(slot, session))
}

/// Whether a call of the session is in any of these slots.
fn any_call(slots: &[(u64, Option<OpenCall>)], session: u64) -> bool
    ensures { result ≡ list_any (λ s. some_is (λ c. c.session == session) s.1) slots.now }
{
    slots.iter().any(|slot| is_call(slot, session))
}

impl Rising<OpenCall> {
    /// The number of the first call on an area.
    #[tactic(auto, using(crate::proofs::ScansFind::scan_none, crate::proofs::ScansFind::scan_some, crate::proofs::ScansFind::scan_all))]
    fn first_on(&self, spot: &Spot, area: u64) -> Option<u64>
        requires { 0 < area }
        ensures { result ≡ option_map (λ p. p.0) (find (λ p. is_on_area area spot.now p.1) self.now.items) }
    {
        for index in 0..self.slots.len() {
            let found = found_in(&self.slots, index, spot, area);
            if found.is_some() {
                return found;
            }
        }
        None
    }

    /// Whether a call of the session writes.
    #[tactic(auto, using(crate::proofs::ScansFind::any_standing))]
    fn has_write(&self, session: u64) -> bool
        ensures { result ≡ list_any (is_write_of session) (values_of self.now.items) }
    {
        any_write(&self.slots, session)
    }

    /// Whether there is a call of the session.
    #[tactic(auto, using(crate::proofs::ScansFind::any_standing))]
    fn has_call(&self, session: u64) -> bool
        ensures { result ≡ list_any (λ c. c.session == session) (values_of self.now.items) }
    {
        any_call(&self.slots, session)
    }
}

/// The types within a call. A body that carries a call over another one names them all (`_within`, which is nothing): the borrow check
/// refuses it where one is not named there, with a message that calls itself a fault.
type WithinCall = (
    Purpose,
    Work,
    LeaseStep,
    LeaseRead,
    JoinStep,
    ValuePair,
    Name,
    FilePath,
);

/// The calls without an answer, the oldest first, with memory for some more.
#[derive(Drop)]
pub struct OpenCalls {
    calls: Rising<OpenCall>,
    area: u64,
}

impl Model for OpenCalls {
    ghost use Rattle.sl_tables.specs.Opens.{AreNumbered, OpenState};
    ghost use Rattle.std.specs.Map.{values_of};
    ghost use Rattle.std.specs.Prelude.{◌<◌};

    ghost Value = { OpenState };

    ghost view = { λ o. record { calls = values_of o.calls.items; next = o.calls.next; room = o.calls.room; area = o.area } };

    ghost invariant = { λ o. AreNumbered o.calls.items × (0 < o.area) };
}

impl OpenCalls {
    /// No call; `area` is the size of an area in bytes.
    pub fn new(alloc: Global, area: u64) -> OpenCalls
        requires { 0 < area }
        ensures { result ≡ record { calls = []; next = 0; room = 0; area = area } }
    {
        OpenCalls {
            calls: Rising::new(alloc),
            area,
        }
    }

    /// Sees that there is memory for so many more. An `Err` is want of memory, and changes nothing.
    pub fn reserve(&mut self, room: usize) -> Result<(), AllocError>
        ensures ok { OnOk result (self.new ≡ record self.old { room = max self.old.room room }) }
        ensures err { OnErr result (self.new ≡ self.old) }
    {
        self.calls.reserve(room)
    }

    /// One more call, with a number above all others.
    pub fn put(&mut self, call: OpenCall)
        requires room { 0 < self.old.room }
        requires rises { (self.old.next ≤ call.number) × (call.number < 2 ^ 64 - 1) }
        ensures { self.new ≡ record self.old { calls = self.old.calls ++ call ∷ []; next = call.number + 1; room = self.old.room - 1 } }
    {
        let _within: Option<WithinCall> = None;
        self.calls.put(call.number, call);
    }

    /// The call of this number, if it has no answer.
    pub fn get(&self, number: u64) -> Option<&OpenCall>
        ensures { option_map (λ c. c.now) result ≡ find (λ c. c.number == number) self.now.calls }
    {
        self.calls.get(number)
    }

    /// The first call on an area: it has the least number.
    #[tactic(auto, using(crate::proofs::OpensStand::first_least))]
    pub fn pending(&self, spot: &Spot) -> Option<u64>
        ensures first { result ≡ first_on self.now.area spot.now self.now.calls }
        ensures least { result ≡ least_on self.now.area spot.now self.now.calls }
        ensures area { 0 < self.now.area }
    {
        self.calls.rises();
        self.calls.first_on(spot, self.area)
    }

    /// Whether a call of the session writes.
    pub fn has_write(&self, session: u64) -> bool
        ensures { result ≡ list_any (is_write_of session) self.now.calls }
    {
        self.calls.has_write(session)
    }

    /// Whether a call of the session is there.
    pub fn has_call(&self, session: u64) -> bool
        ensures { result ≡ list_any (λ c. c.session == session) self.now.calls }
    {
        self.calls.has_call(session)
    }

    /// The call of this number is answered, if it had no answer.
    pub fn answered(&mut self, number: u64)
        ensures calls { self.new ≡ record self.old { calls = filter (λ c. not (c.number == number)) self.old.calls } }
    {
        let _within: Option<WithinCall> = None;
        self.calls.forget(number);
    }
}
