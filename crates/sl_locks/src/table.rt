//! The locks of a machine as they are kept, and each thing that changes them.
//!
//! `held` has the locks in the order of their grants, `seen` the newest version of a group's value first. While a line runs, `stage` is what its last
//! ask was for; what the write of a value was refused for is kept in `refused` until the release behind it is answered. `spare` has room for a copy
//! of what is held, so that `info` takes no memory.

ghost use Rattle.sl_locks.specs.Tables.{has_room, locks_of, lvm_of};
ghost use Rattle.sl_run.specs.Lvm as lvm;
ghost use Rattle.sl_run.specs.Locks.{fresh_locks, left_locks};
ghost use Rattle.std.specs.Option.{option_copied, option_map};
ghost use Rattle.std.specs.Prelude.{IfOk, OnOk, None, Some, bytes_eq, filter, is_some, length, not, true, [], ◌++◌, ◌<◌, ◌∷◌, ◌≡◌, ◌≤◌};
ghost use Rattle.std.specs.Vec.{vec_capacity, vec_len};

use crate::ask::{Ask, push_ask_text};
use crate::ends::drop_ended;
use crate::lock::{HeldLock, Lock, SeenValue};
use crate::reply::LineReply;
use sl_area::Geometry;
use sl_run::Header;
use sl_text::{Bytes, Name};
use sl_trace::{Effects, Mode, Reply};
use std::alloc::{AllocError, Global};

/// What the last ask of the line that runs was for.
#[derive(Clone, Copy)]
pub enum Stage {
    /// A lockspace is joined or left.
    Moving,
    /// An acquire, how often it was asked again, and whether the value is read after it.
    Acquiring {
        lock: Lock,
        mode: Mode,
        again: u32,
        compares: bool,
    },
    /// A lock was taken, and the group's value is read, to be compared with the one seen last.
    Reading {
        lock: Lock,
    },
    /// The group's value is written, before its lock is released.
    Writing {
        lock: Lock,
    },
    /// A lock is released: it is held no more, however that is answered.
    Releasing {
        lock: Lock,
    },
}

/// lvmlockd's locks on a machine, with the line that runs.
#[derive(Drop)]
pub struct LvmLocks {
    pub(crate) geometry: Geometry,
    pub(crate) retries: u32,
    pub(crate) held: Vec<HeldLock>,
    pub(crate) seen: Vec<SeenValue>,
    pub(crate) stage: Option<Stage>,
    pub(crate) refused: Option<Reply>,
    pub(crate) line: Option<u64>,
    pub(crate) asked: Option<u64>,
    pub(crate) due: Option<Ask>,
    pub(crate) spare: Vec<HeldLock>,
}

/// The reply to a line, with the line's number.
pub type Answer = Option<(u64, LineReply)>;

/// A copy, in a list that has room for it. It takes no memory.
pub(crate) fn copied(held: &[HeldLock], mut room: Vec<HeldLock>) -> Vec<HeldLock>
    requires { length held.now ≤ vec_capacity room }
    ensures { result.items ≡ held.now }
{
    room.clear();
    for lock in held {
        room.push_reserved(*lock);
    }
    room
}

impl LvmLocks {
    /// Those of a header's world before any line. They take no memory.
    pub fn fresh(alloc: Global, header: &Header) -> LvmLocks
        ensures { locks_of result ≡ fresh_locks header.now }
    {
        LvmLocks {
            geometry: header.geometry,
            retries: header.retries,
            held: Vec::new(alloc),
            seen: Vec::new(alloc),
            stage: None,
            refused: None,
            line: None,
            asked: None,
            due: None,
            spare: Vec::new(alloc),
        }
    }

    /// Takes the memory that one step more needs. An `Err` is want of it.
    pub fn reserve(&mut self) -> Result<(), AllocError>
        ensures room { OnOk result (has_room self.new ≡ true) }
        ensures same { locks_of self.new ≡ locks_of self.old }
    {
        self.held.reserve(1)?;
        self.seen.reserve(1)?;
        self.spare.clear();
        self.spare.reserve(self.held.len())
    }

    /// Whether a line runs: it has no reply yet, and no other may come.
    pub fn has_line(&self) -> bool
        ensures { result ≡ is_some (locks_of self.now).line }
    {
        self.line.is_some()
    }

    /// Whether an ask is due: it is the next thing to happen on its machine.
    #[tactic(auto, using(crate::proofs::StepLaws::due))]
    pub fn has_ask(&self) -> bool
        ensures { result ≡ is_some (locks_of self.now).due }
    {
        self.due.is_some()
    }

    /// The number of the ask that has no reply yet.
    pub fn asked(&self) -> Option<u64>
        ensures { result ≡ (locks_of self.now).asked }
    {
        self.asked
    }

    /// The ask that is due, as its text. An `Err` is want of memory.
    pub fn ask_text(&self, alloc: Global) -> Result<Option<Bytes>, AllocError>
        ensures { IfOk result (λ text. text ≡ (locks_of self.now).due) }
    {
        match &self.due {
            None => Ok(None),
            Some(ask) => {
                let mut text = Vec::new(alloc);
                push_ask_text(&mut text, &self.geometry, ask)?;
                Ok(Some(Bytes::new(text)))
            }
        }
    }

    // ---- what is kept

    /// Whether the lock is held.
    pub(crate) fn is_held(&self, lock: &Lock) -> bool
        ensures { result ≡ lvm.is_held (lvm_of self.now) lock.now }
    {
        self.held.iter().any(|held| held.lock.is_same(lock))
    }

    /// Whether a logical volume of the group is.
    pub(crate) fn has_volume(&self, group: Name) -> bool
        ensures { result ≡ lvm.has_volume (lvm_of self.now) group }
    {
        self.held.iter().any(|held| held.lock.is_in(group))
    }

    /// The lock of this logical volume that was taken first, if one is held.
    pub(crate) fn first_held(&self, group: Name, name: Name) -> Option<&HeldLock>
        ensures { option_copied result ≡ lvm.first_held (lvm_of self.now) group name }
    {
        self.held
            .iter()
            .find(|held| held.lock.is_volume(group, name))
    }

    /// Whether this version of the group's value is the one that was seen.
    pub(crate) fn is_seen(&self, group: Name, lver: u64, seq: u64) -> bool
        ensures { result ≡ lvm.is_seen (lvm_of self.now) group lver seq }
    {
        self.seen
            .iter()
            .any(|value| value.is_version(group, lver, seq))
    }

    /// Locks leave the table whose holdings a step, or the machine itself, has ended. It takes no memory, and leaves the room for a step as it is.
    pub fn leave(&mut self, effects: &Effects)
        ensures left { locks_of self.new ≡ left_locks effects.now (locks_of self.old) }
        ensures room { has_room self.old ≡ true → has_room self.new ≡ true }
    {
        drop_ended(&mut self.held, effects.ends.as_slice(), &self.geometry);
    }

    // ---- how a turn ends

    /// The host is asked, and the line is then so far.
    pub(crate) fn ask(&mut self, due: Ask, stage: Stage) -> Answer
        ensures changed { self.new ≡ record self.old { stage = Some stage; asked = None; due = Some due } }
        ensures none { result ≡ None }
    {
        self.stage = Some(stage);
        self.asked = None;
        self.due = Some(due);
        None
    }

    /// The line that runs is answered with this reply, under its number; then none runs.
    pub(crate) fn tell(&mut self, reply: LineReply) -> Answer
        ensures changed { self.new ≡ record self.old { stage = None; line = None; asked = None; due = None } }
        ensures told { result ≡ option_map (λ n. (n, reply)) self.old.line }
    {
        let line = self.line;
        self.stage = None;
        self.line = None;
        self.asked = None;
        self.due = None;
        match line {
            Some(number) => Some((number, reply)),
            None => None,
        }
    }
}

/// One lock more is held. It takes no memory.
pub(crate) fn hold(held: &mut Vec<HeldLock>, lock: Lock, mode: Mode)
    requires { vec_len held.old < vec_capacity held.old }
    ensures { held.new.items ≡ held.old.items ++ record { lock = lock; mode = mode } ∷ [] }
{
    held.push_reserved(HeldLock { lock, mode });
}

/// Nothing is known of a group's value.
pub(crate) fn forget(seen: &mut Vec<SeenValue>, group: Name)
    ensures items { seen.new.items ≡ filter (λ v. not (bytes_eq v.group group)) seen.old.items }
    ensures len { vec_len seen.new ≤ vec_len seen.old }
    ensures room { vec_capacity seen.new ≡ vec_capacity seen.old }
{
    seen.retain(|value| !value.is_of(group));
}

/// A version goes before all others. It takes no memory.
fn put_first(seen: &mut Vec<SeenValue>, value: SeenValue)
    requires { vec_len seen.old < vec_capacity seen.old }
    ensures { seen.new.items ≡ value ∷ seen.old.items }
{
    match seen.insert(0, value) {
        Ok(()) => {}
        Err(_) => unreachable!(),
    }
}

/// This version of the group's value was seen. It takes no memory.
pub(crate) fn see(seen: &mut Vec<SeenValue>, group: Name, lver: u64, seq: u64)
    requires { vec_len seen.old < vec_capacity seen.old }
    ensures { seen.new.items ≡ record { group = group; lver = lver; seq = seq } ∷ filter (λ v. not (bytes_eq v.group group)) seen.old.items }
{
    forget(seen, group);
    put_first(seen, SeenValue { group, lver, seq });
}
