//! The leases of a session, by place.
//!
//! They stand in a vector in the order of their areas, so one is found by bisection. What goes on for a lease, a call and its answer and the
//! next call, mostly concerns the one of the last call: so that one is looked at first, and most of what is asked of many leases costs what it
//! costs of one. A lease is large and never moves but when one comes in before it; what a call or an answer changes of it is changed in place.
//! One comes in with its first call, into memory that was taken before, and none ever goes.

ghost use Rattle.sl_host_state.specs.MadeEffects.{is_lease_on};
ghost use Rattle.sl_lease.specs.Changes.{after_failure, after_write};
ghost use Rattle.sl_sector.specs.Records.{Fits};
ghost use Rattle.sl_trace.specs.Leases.{is_spot_before};
ghost use Rattle.sl_area.specs.AreaSizes.{layout_of};
ghost use Rattle.sl_trace.specs.Traces.{new_call};
ghost use Rattle.sl_member.specs.Leases.{AreByPlace, IsFound, IsGap, IsKeepable, IsPlaceOf, begins_lease, changed_at, first_among, kept_shown, lease_called, leases_after, read_shown, value_set, with_lease};
ghost use Rattle.std.specs.List.{list_any};
ghost use Rattle.std.specs.Prelude.{IfErr, IfOk, IfSome, OnErr, OnOk, cond, false, find, length, map, max, option_map, slice_get, true, [], ◌+◌, ◌-◌, ◌<◌, ◌^◌, ◌≡◌, ◌≤◌};

use crate::calls::{in_area, lease_step, spot_of, value_of};
use sl_area::Geometry;
use sl_host_state::ValuePair;
use sl_lease::{Lease, Pairs, Side};
use sl_sector::{Block, Leader, Rec};
use sl_text::FilePath;
use sl_trace::{Call, LeaseStep, Op, Spot, Work};
use std::alloc::{AllocError, Global};
use std::marker::Model;

/// A session's leases, by place, with memory for some more.
#[derive(Drop)]
pub struct Leases {
    items: Vec<Lease>,
    room: usize,
    /// Where the lease of the last call stood then. It is only looked at, so it may be of any lease, or of none.
    last: usize,
}

impl Model for Leases {
    ghost use Rattle.sl_member.specs.Leases.{AreByPlace, LeasesState};
    ghost use Rattle.std.specs.Prelude.{vec_capacity, vec_len, ◌+◌, ◌≤◌};

    ghost Value = { LeasesState };

    ghost view = { λ l. record { leases = l.items.items; room = l.room } };

    ghost invariant = { λ l. AreByPlace l.items.items × (vec_len l.items + l.room ≤ vec_capacity l.items) };
}

/// Whether an area comes first: by path, then by base.
#[tactic(auto, using(crate::proofs::SpotOrder::on_one_path, crate::proofs::SpotOrder::on_two_paths))]
fn is_before(a: &Spot, b: &Spot) -> bool
    ensures { result ≡ is_spot_before a.now b.now }
{
    if a.path == b.path {
        a.base < b.base
    } else {
        a.path.is_before(&b.path)
    }
}

/// Whether a lease's area comes before this one.
fn is_low(lease: &Lease, at: &Spot) -> bool
    ensures { result ≡ is_spot_before lease.now.spot at.now }
{
    is_before(&lease.spot(), at)
}

/// Whether a lease is on this area.
fn is_on(lease: &Lease, at: &Spot) -> bool
    ensures { result ≡ is_lease_on at.now lease.now }
{
    let spot = lease.spot();
    at.base == spot.base && at.path == spot.path
}

/// The place of an area among leases: that of the first one that doesn't come before it.
fn place_of(leases: &[Lease], at: &Spot) -> usize
    requires { AreByPlace leases.now }
    ensures bound { result ≤ length leases.now }
    ensures place { IsPlaceOf at.now leases.now result }
{
    leases.partition_point(|lease| is_low(lease, at))
}

/// Whether the lease on an area stands at this place.
fn stands_at(leases: &[Lease], place: usize, at: &Spot) -> bool
    requires { AreByPlace leases.now }
    ensures { result ≡ true → IsFound at.now leases.now place }
{
    match leases.get(place) {
        Some(lease) => is_on(lease, at),
        None => false,
    }
}

/// The place of the lease on an area; where there is none, the place at which it would stand. The lease at one place is looked at first.
fn search(leases: &[Lease], first: usize, at: &Spot) -> Result<usize, usize>
    requires { AreByPlace leases.now }
    ensures found { IfOk result (IsFound at.now leases.now) }
    ensures gap { IfErr result (IsGap at.now leases.now) }
{
    if stands_at(leases, first, at) {
        Ok(first)
    } else {
        bisect(leases, at)
    }
}

/// The same, by bisection.
fn bisect(leases: &[Lease], at: &Spot) -> Result<usize, usize>
    requires { AreByPlace leases.now }
    ensures found { IfOk result (IsFound at.now leases.now) }
    ensures gap { IfErr result (IsGap at.now leases.now) }
{
    let place = place_of(leases, at);
    match leases.get(place) {
        Some(lease) => {
            if is_on(lease, at) {
                Ok(place)
            } else {
                Err(place)
            }
        }
        None => Err(place),
    }
}

/// The call of this number is submitted for a lease.
fn lease_called(lease: &mut Lease, number: u64, work: Work, step: LeaseStep, op: &Op)
    requires { IsKeepable op.now }
    ensures { lease.new ≡ lease_called number work step op.now lease.old }
{
    match op {
        Op::WriteRecord {
            record: Rec::BlockIs(block),
        } => lease.writes_block(number, work, step, None, *block),
        Op::WriteRecord {
            record: Rec::LeaderIs(leader),
        } => lease.writes_leader(number, work, step, leader),
        Op::WriteRecord {
            record: Rec::PairIs(pair),
        } => lease.writes_block(number, work, step, Some(pair.turn), pair.block),
        Op::WriteRecord {
            record: Rec::PairLeaderIs(leader),
        } => lease.writes_leader(number, work, step, leader),
        _ => lease.reads(number, work, step),
    }
}

/// The read for which a lease waits showed this turn, if any, and gave these.
fn lease_reads(
    lease: &mut Lease,
    side: &Side,
    turn: Option<u64>,
    leader: &Option<Leader>,
    blocks: &[Option<Block>],
    heeded: bool,
)
    requires turn { IfSome turn (λ t. (1 ≤ t) × Fits t) }
    requires few { length blocks.now < 2 ^ 32 }
    ensures { lease.new ≡ read_shown side.now turn heeded leader.now blocks.now lease.old }
{
    lease.shows_turn(turn);
    lease.read_answered(side, leader, blocks, heeded);
}

/// The read for which a lease waits showed this turn, if any, is to be made once more, and this is kept of it.
fn lease_keeps(lease: &mut Lease, turn: Option<u64>, pairs: Pairs)
    requires { IfSome turn (λ t. (1 ≤ t) × Fits t) }
    ensures { lease.new ≡ kept_shown turn pairs lease.old }
{
    lease.shows_turn(turn);
    lease.keeps(pairs);
}

/// A value of this version is submitted at a place, on the area of a lease perhaps.
fn set_value(lease: &mut Lease, geometry: &Geometry, path: &FilePath, offset: u64, value: ValuePair)
    ensures { lease.new ≡ value_set (layout_of geometry.now) path.now offset value lease.old }
{
    let spot = lease.spot();
    if path.as_slice() == spot.path.as_slice() && in_area(geometry, spot.base, offset) {
        lease.sets_value(value);
    }
}

/// The same for all of these.
fn set_values(
    leases: &mut [Lease],
    geometry: &Geometry,
    path: &FilePath,
    offset: u64,
    value: ValuePair,
)
    ensures { leases.new ≡ map (value_set (layout_of geometry.now) path.now offset value) leases.old }
{
    for lease in leases.iter_mut() {
        set_value(lease, geometry, path, offset, value);
    }
}

impl Leases {
    /// No lease, and no room for one. It takes no memory.
    pub fn new(alloc: Global) -> Leases
        ensures { result ≡ record { leases = []; room = 0 } }
    {
        Leases {
            items: Vec::new(alloc),
            room: 0,
            last: 0,
        }
    }

    /// Sees that there is memory for so many more. An `Err` is want of memory, and changes nothing.
    pub fn reserve(&mut self, room: usize) -> Result<(), AllocError>
        ensures ok { OnOk result (self.new ≡ record self.old { room = max self.old.room room }) }
        ensures err { OnErr result (self.new ≡ self.old) }
    {
        if self.room < room {
            self.items.reserve(room)?;
            self.room = room;
        }
        Ok(())
    }

    /// For how many more there is memory.
    pub fn room(&self) -> usize
        ensures { result ≡ self.now.room }
    {
        self.room
    }

    /// How many there are.
    pub fn len(&self) -> usize
        ensures exact { result ≡ length self.now.leases }
        ensures by_place { AreByPlace self.now.leases }
    {
        self.items.len()
    }

    /// The lease at this place, in the order of their areas.
    pub fn nth(&self, place: usize) -> &Lease
        requires { place < length self.now.leases }
        ensures { slice_get self.now.leases place ≡ Some result.now }
    {
        &self.items[place]
    }

    /// The lease on an area, if there is one.
    pub fn get(&self, at: &Spot) -> Option<&Lease>
        ensures { option_map (λ l. l.now) result ≡ find (is_lease_on at.now) self.now.leases }
    {
        match search(&self.items, self.last, at) {
            Ok(place) => Some(&self.items[place]),
            Err(_) => None,
        }
    }

    /// Sees that there is a lease on an area. One that comes in takes a place.
    pub fn open(&mut self, at: Spot)
        requires { list_any (is_lease_on at) self.old.leases ≡ false → 0 < self.old.room }
        ensures leases { self.new.leases ≡ with_lease at self.old.leases }
        ensures room { self.new.room ≡ cond (list_any (is_lease_on at) self.old.leases) self.old.room (self.old.room - 1) }
    {
        match search(&self.items, self.last, &at) {
            Ok(place) => self.last = place,
            Err(place) => match self.items.insert(place, Lease::new(at)) {
                Ok(()) => {
                    self.room -= 1;
                    self.last = place;
                }
                Err(_) => unreachable!(),
            },
        }
    }

    /// The call of this number is submitted for the lease on an area, at a step of its work, to do this.
    pub fn called(&mut self, at: &Spot, number: u64, work: Work, step: LeaseStep, op: &Op)
        requires { IsKeepable op.now }
        ensures { self.new ≡ record self.old { leases = changed_at at.now (lease_called number work step op.now) self.old.leases } }
    {
        match search(&self.items, self.last, at) {
            Ok(place) => lease_called(&mut self.items[place], number, work, step, op),
            Err(_) => {}
        }
    }

    /// What is kept of the first read for the lease on an area, where a read at this step is the second one.
    pub fn first_for(&self, at: &Spot, step: &LeaseStep) -> Option<&Pairs>
        ensures { option_map (λ p. p.now) result ≡ first_among at.now step.now self.now.leases }
    {
        match search(&self.items, self.last, at) {
            Ok(place) => self.items[place].first_for(step),
            Err(_) => None,
        }
    }

    /// The read for which the lease on an area waits showed this turn, is to be made once more, and this is kept of it.
    pub fn read_kept(&mut self, at: &Spot, turn: Option<u64>, pairs: Pairs)
        requires { IfSome turn (λ t. (1 ≤ t) × Fits t) }
        ensures { self.new ≡ record self.old { leases = changed_at at.now (kept_shown turn pairs) self.old.leases } }
    {
        match search(&self.items, self.last, at) {
            Ok(place) => lease_keeps(&mut self.items[place], turn, pairs),
            Err(_) => {}
        }
    }

    /// The read for which the lease on an area waits showed this turn and gave these; it is heeded while its work goes on.
    pub fn read_answered(
        &mut self,
        at: &Spot,
        side: &Side,
        turn: Option<u64>,
        leader: &Option<Leader>,
        blocks: &[Option<Block>],
        heeded: bool,
    )
        requires turn { IfSome turn (λ t. (1 ≤ t) × Fits t) }
        requires few { length blocks.now < 2 ^ 32 }
        ensures { self.new ≡ record self.old { leases = changed_at at.now (read_shown side.now turn heeded leader.now blocks.now) self.old.leases } }
    {
        match search(&self.items, self.last, at) {
            Ok(place) => { lease_reads(&mut self.items[place], side, turn, leader, blocks, heeded) }
            Err(_) => {}
        }
    }

    /// The write for which the lease on an area waits is done.
    pub fn write_answered(&mut self, at: &Spot)
        ensures { self.new ≡ record self.old { leases = changed_at at.now after_write self.old.leases } }
    {
        match search(&self.items, self.last, at) {
            Ok(place) => self.items[place].write_answered(),
            Err(_) => {}
        }
    }

    /// The call for which the lease on an area waits has failed.
    pub fn failed(&mut self, at: &Spot)
        ensures { self.new ≡ record self.old { leases = changed_at at.now after_failure self.old.leases } }
    {
        match search(&self.items, self.last, at) {
            Ok(place) => self.items[place].failed(),
            Err(_) => {}
        }
    }

    /// A value of this version is submitted at a place.
    pub fn sets_value(
        &mut self,
        geometry: &Geometry,
        path: &FilePath,
        offset: u64,
        value: ValuePair,
    )
        ensures { self.new ≡ record self.old { leases = map (value_set (layout_of geometry.now) path.now offset value) self.old.leases } }
    {
        set_values(&mut self.items, geometry, path, offset, value);
    }

    /// Whether a call of their session is the first of a lease.
    pub fn begins(&self, geometry: &Geometry, call: &Call) -> bool
        ensures { result ≡ begins_lease (layout_of geometry.now) (new_call 0 0 call.now) self.now.leases }
    {
        match lease_step(&call.purpose) {
            Some(_) => !self.has(&spot_of(geometry, call)),
            None => false,
        }
    }

    /// Whether there is a lease on an area.
    fn has(&self, at: &Spot) -> bool
        ensures { result ≡ list_any (is_lease_on at.now) self.now.leases }
    {
        match search(&self.items, self.last, at) {
            Ok(_) => true,
            Err(_) => false,
        }
    }

    /// A call of their session is submitted.
    pub fn calling(&mut self, geometry: &Geometry, call: &Call)
        requires keepable { IsKeepable call.now.op }
        requires room { begins_lease (layout_of geometry.now) (new_call 0 0 call.now) self.old.leases ≡ true → 0 < self.old.room }
        ensures { self.new ≡ leases_after (layout_of geometry.now) (new_call 0 0 call.now) self.old }
    {
        match lease_step(&call.purpose) {
            Some((work, step)) => {
                let at = spot_of(geometry, call);
                self.open(at);
                self.called(&at, call.number, work, step, &call.op);
            }
            None => match value_of(&call.op) {
                Some(value) => self.sets_value(geometry, &call.path, call.offset, value),
                None => {}
            },
        }
    }
}
