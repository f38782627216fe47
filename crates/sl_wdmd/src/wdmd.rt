//! The connections, in the order in which they were registered.
//!
//! They stand in a map from names to expiries that keeps its order, so that a name is found at once. A host registers no name that stands. Where
//! a daemon does, the name's second connection and all that come behind it stand in a list behind the map: in the map it would take the place of
//! the first, and what a lockspace was promised would be forgotten. A removal closes the gap and leaves the order of the others.

ghost use Rattle.indexmap.specs.IndexMap.{IsUnique, get, insert_entry, spare, values};
ghost use Rattle.sl_trace.specs.WatchdogConnections.{after_move, given_connection, test_holds};
ghost use Rattle.sl_wdmd.specs.KeptConnections.{all_connections, connections_of};
ghost use Rattle.sl_wdmd.specs.Moves.{NoneExpired};
ghost use Rattle.sl_words.specs.Bounds.{moments};
ghost use Rattle.std.specs.List.{list_any};
ghost use Rattle.std.specs.Map.{remove_entry, set_value};
ghost use Rattle.std.specs.Prelude.{All, IfOk, IsTrue, None, OnErr, OnOk, bytes_eq, fold, length, map, max, nat_le, slice_get, true, [], ◌++◌, ◌+◌, ◌-◌, ◌<◌, ◌∷◌, ◌≡◌, ◌≤◌, ◌↔◌, ◌||◌};
ghost use Rattle.std.specs.Vec.{vec_capacity, vec_len};

use crate::connection::{Connection, remove, renew, some_expired};
use crate::lockspace::Lockspace;
use indexmap::IndexMap;
use sl_text::Name;
use sl_time::Timing;
use sl_trace::{Given, Move};
use std::alloc::{AllocError, Global};
use std::marker::Model;

/// The connections of a machine to its watchdog daemon, in order of registration, with memory for some more.
///
/// An expiry is a reading of the machine's clock, in milliseconds.
#[derive(Drop)]
pub struct Wdmd {
    expiries: IndexMap<Lockspace, u64>,
    behind: Vec<Connection>,
    room: usize,
}

impl Model for Wdmd {
    ghost use Rattle.indexmap.specs.IndexMap.{IsUnique, spare};
    ghost use Rattle.sl_wdmd.specs.KeptConnections.{WdmdState, all_connections};
    ghost use Rattle.std.specs.Prelude.{bytes_eq, vec_capacity, vec_len, ◌+◌, ◌≤◌};

    ghost Value = { WdmdState };

    ghost view = { λ w. record { connections = all_connections w.expiries.entries w.behind.items; room = w.room } };

    ghost invariant = { λ w. IsUnique bytes_eq w.expiries × (w.room ≤ spare w.expiries) × (vec_len w.behind + w.room ≤ vec_capacity w.behind) };
}

/// Adds a key that is not there, where there is room.
fn put_new(expiries: &mut IndexMap<Lockspace, u64>, lockspace: Lockspace, expiry: u64)
    requires room { 0 < spare expiries.old }
    ensures entries { expiries.new.entries ≡ insert_entry bytes_eq expiries.old.entries lockspace expiry }
    ensures unique { IsUnique bytes_eq expiries.new }
    ensures room { spare expiries.old ≤ spare expiries.new + 1 }
{
    match expiries.insert(lockspace, expiry) {
        Ok(_) => {}
        Err(_) => unreachable!(),
    }
}

/// Whether a connection of this name can stand in the map, behind all others.
fn may_be_kept(expiries: &IndexMap<Lockspace, u64>, behind: &[Connection], name: Name) -> bool
    ensures { result ≡ true → (behind.now ≡ []) × (get bytes_eq expiries.now name ≡ None) }
{
    behind.is_empty() && !expiries.contains_key(&Lockspace::named(name))
}

/// Adds a connection behind all others, where there is room.
fn put_last(
    expiries: &mut IndexMap<Lockspace, u64>,
    behind: &mut Vec<Connection>,
    name: Name,
    expiry: u64,
)
    requires unique { IsUnique bytes_eq expiries.old }
    requires room { (0 < spare expiries.old) × (vec_len behind.old < vec_capacity behind.old) }
    ensures all { all_connections expiries.new.entries behind.new.items ≡ all_connections expiries.old.entries behind.old.items ++ record { name = name; expiry = expiry } ∷ [] }
    ensures unique { IsUnique bytes_eq expiries.new }
    ensures spare { spare expiries.old ≤ spare expiries.new + 1 }
    ensures room { (vec_len behind.new ≤ vec_len behind.old + 1) × (vec_capacity behind.old ≤ vec_capacity behind.new) }
{
    if may_be_kept(expiries, behind, name) {
        put_new(expiries, Lockspace::named(name), expiry);
    } else {
        behind.push_reserved(Connection { name, expiry });
    }
}

/// Writes the expiry of a key, if it is there.
#[tactic(auto, using(crate::proofs::KeptLaws::put_absent))]
fn put_expiry(expiries: &mut IndexMap<Lockspace, u64>, lockspace: Lockspace, expiry: u64)
    ensures entries { expiries.new.entries ≡ set_value (bytes_eq lockspace) expiries.old.entries expiry }
    ensures unique { IsUnique bytes_eq expiries.new }
    ensures room { spare expiries.old ≤ spare expiries.new }
{
    if let Some(kept) = expiries.get_mut(&lockspace) {
        *kept = expiry;
    }
}

/// Takes a key out.
fn take_out(expiries: &mut IndexMap<Lockspace, u64>, lockspace: Lockspace)
    ensures entries { expiries.new.entries ≡ remove_entry (bytes_eq lockspace) expiries.old.entries }
    ensures unique { IsUnique bytes_eq expiries.new }
    ensures room { spare expiries.old ≤ spare expiries.new }
{
    expiries.shift_remove(&lockspace);
}

/// Whether an expiry is at most `now`.
fn has_expired(expiries: &IndexMap<Lockspace, u64>, now: u64) -> bool
    ensures { result ≡ list_any (λ expiry. nat_le expiry now) (values expiries.now) }
{
    expiries.values().any(|expiry| *expiry <= now)
}

/// Whether one of two is so.
fn either(one: bool, other: bool) -> bool
    ensures { result ≡ (one || other) }
{
    one || other
}

/// The connection at a place of the map.
fn kept_at(expiries: &IndexMap<Lockspace, u64>, place: usize) -> Option<Connection>
    ensures { result ≡ slice_get (connections_of expiries.now.entries) place }
{
    match expiries.get_index(place) {
        Some((lockspace, expiry)) => Some(Connection {
            name: lockspace.name(),
            expiry: *expiry,
        }),
        None => None,
    }
}

impl Wdmd {
    /// No connection. It takes no memory.
    pub fn new(alloc: Global) -> Wdmd
        ensures { result ≡ record { connections = []; room = 0 } }
    {
        Wdmd {
            expiries: IndexMap::new(alloc),
            behind: Vec::new(alloc),
            room: 0,
        }
    }

    /// The connections that a daemon's given sessions have. An `Err` is want of memory.
    pub fn given(alloc: Global, timing: &Timing, given: &[Given]) -> Result<Wdmd, AllocError>
        requires { All (λ g. g.renewed < moments) given.now }
        ensures exact { IfOk result (λ w. w ≡ record { connections = map (given_connection timing.now) given.now; room = 0 }) }
        ensures connections { IfOk result (λ w. w.connections ≡ map (given_connection timing.now) given.now) }
    {
        let mut wdmd = Wdmd::new(alloc);
        for session in given {
            wdmd.register(session.lockspace, session.renewed + timing.fail())?;
        }
        Ok(wdmd)
    }

    /// Sees that there is memory for so many more. An `Err` is want of memory, and changes nothing.
    pub fn reserve(&mut self, room: usize) -> Result<(), AllocError>
        ensures ok { OnOk result (self.new ≡ record self.old { room = max self.old.room room }) }
        ensures enough { OnOk result (room ≤ self.new.room) }
        ensures connections { self.new.connections ≡ self.old.connections }
        ensures err { OnErr result (self.new ≡ self.old) }
    {
        if self.room < room {
            self.expiries.reserve(room)?;
            self.behind.reserve(room)?;
            self.room = room;
        }
        Ok(())
    }

    /// How many connections there are.
    pub fn len(&self) -> usize
        ensures { result ≡ length self.now.connections }
    {
        self.expiries.len() + self.behind.len()
    }

    /// The connection at a place, in the order of registration.
    pub fn get(&self, place: usize) -> Option<Connection>
        ensures { result ≡ slice_get self.now.connections place }
    {
        let kept = self.expiries.len();
        if place < kept {
            kept_at(&self.expiries, place)
        } else {
            self.behind.get(place - kept).copied()
        }
    }

    /// Adds a connection behind all others, where memory stands by.
    fn put(&mut self, name: Name, expiry: u64)
        requires { 0 < self.old.room }
        ensures { self.new ≡ record { connections = after_move self.old.connections (Move.Register name expiry); room = self.old.room - 1 } }
    {
        put_last(&mut self.expiries, &mut self.behind, name, expiry);
        self.room -= 1;
    }

    /// Adds a connection behind all others: the test fails from the reading `expiry` on. The only error is want of memory, and then nothing
    /// has changed.
    pub fn register(&mut self, name: Name, expiry: u64) -> Result<(), AllocError>
        ensures ok { OnOk result (self.new ≡ record { connections = after_move self.old.connections (Move.Register name expiry); room = max self.old.room 1 - 1 }) }
        ensures err { OnErr result (self.new ≡ self.old) }
    {
        self.reserve(1)?;
        self.put(name, expiry);
        Ok(())
    }

    /// Moves the expiry of the connection of this name; where there is none, nothing changes. It takes no memory.
    #[tactic(auto, using(crate::proofs::KeptLaws::renewed))]
    pub fn renew(&mut self, name: Name, expiry: u64)
        ensures { self.new ≡ record self.old { connections = after_move self.old.connections (Move.Renew name expiry) } }
    {
        put_expiry(&mut self.expiries, Lockspace::named(name), expiry);
        renew(&mut self.behind, name, expiry);
    }

    /// Removes the connection of this name; where there is none, nothing changes. The others keep their order. It takes no memory.
    pub fn unregister(&mut self, name: Name)
        ensures { self.new ≡ record self.old { connections = after_move self.old.connections (Move.Unregister name) } }
    {
        take_out(&mut self.expiries, Lockspace::named(name));
        remove(&mut self.behind, name);
    }

    /// Makes a move, where memory stands by.
    fn make_move(&mut self, change: &Move)
        requires { 0 < self.old.room }
        ensures connections { self.new.connections ≡ after_move self.old.connections change.now }
        ensures room { self.old.room ≤ self.new.room + 1 }
    {
        match change {
            Move::Register { lockspace, expiry } => self.put(*lockspace, *expiry),
            Move::Renew { lockspace, expiry } => self.renew(*lockspace, *expiry),
            Move::Unregister { lockspace } => self.unregister(*lockspace),
        }
    }

    /// Makes moves, one after another, where memory for as many registrations stands by. It takes none.
    pub fn make_moves(&mut self, moves: &[Move])
        requires { length moves.now ≤ self.old.room }
        ensures connections { self.new.connections ≡ fold after_move self.old.connections moves.now }
        ensures room { self.old.room ≤ self.new.room + length moves.now }
    {
        for change in moves {
            self.make_move(change);
        }
    }

    /// All connections go, as where their machine goes down.
    pub fn clear(&mut self)
        ensures { self.new ≡ record self.old { connections = [] } }
    {
        self.expiries.clear();
        self.behind.clear();
    }

    /// The daemon's test: whether every connection's expiry is above this reading of the machine's clock, in milliseconds. A keepalive
    /// goes to the watchdog device only where it holds.
    pub fn test(&self, now: u64) -> bool
        ensures exact { result ≡ test_holds self.now.connections now }
        ensures every { IsTrue result ↔ NoneExpired self.now.connections now }
    {
        !either(
            has_expired(&self.expiries, now),
            some_expired(&self.behind, now),
        )
    }
}
