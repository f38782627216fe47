//! Locks: which lease each is, and what is kept of those that are held.

ghost use Rattle.sl_run.specs.LockNames as names;
ghost use Rattle.std.specs.Prelude.{bytes_eq, ◌&&◌, ◌==◌, ◌≡◌};

use sl_text::Name;
use sl_trace::Mode;
use std::marker::Model;

/// The first number of an area of a logical volume.
pub(crate) const FIRST_VOLUME: u32 = 3;

/// A lock of a volume group, in the area of this number in the group's lockspace: 1 for the global lock, 2 for the group's own, from 3 on for its
/// logical volumes.
#[derive(Clone, Copy)]
pub struct Lock {
    pub group: Name,
    pub name: Name,
    pub number: u32,
}

impl Model for Lock {
    ghost use Rattle.sl_run.specs.LockNames.{Lock as LockOf};
    ghost use Rattle.std.specs.Prelude.{refl};

    ghost Value = { LockOf };

    ghost view = { λ l. record { group = l.group; name = l.name; number = l.number } };

    ghost inverse = { λ s. record { group = s.group; name = s.name; number = s.number } };

    ghost inverse_ok = { λ l is. refl };
}

impl Lock {
    /// Whether two locks are one: the same number in the same volume group.
    pub fn is_same(&self, other: &Lock) -> bool
        ensures { result ≡ names.same_lock self.now other.now }
    {
        self.group == other.group && self.name == other.name && self.number == other.number
    }

    /// Whether it is the lock of a logical volume of the group.
    pub fn is_in(&self, group: Name) -> bool
        ensures { result ≡ (names.is_volume self.now && bytes_eq self.now.group group) }
    {
        FIRST_VOLUME <= self.number && self.group == group
    }

    /// Whether it is the lock of this logical volume.
    pub fn is_volume(&self, group: Name, name: Name) -> bool
        ensures { result ≡ (names.is_volume self.now && bytes_eq self.now.group group && bytes_eq self.now.name name) }
    {
        FIRST_VOLUME <= self.number && self.group == group && self.name == name
    }
}

/// A lock that is held, in a mode.
#[derive(Clone, Copy)]
pub struct HeldLock {
    pub lock: Lock,
    pub mode: Mode,
}

impl Model for HeldLock {
    ghost use Rattle.sl_run.specs.Lvm.{HeldLock as HeldLockOf};
    ghost use Rattle.std.specs.Prelude.{refl};

    ghost Value = { HeldLockOf };

    ghost view = { λ h. record { lock = h.lock; mode = h.mode } };

    ghost inverse = { λ s. record { lock = s.lock; mode = s.mode } };

    ghost inverse_ok = { λ h is. refl };
}

/// The version of a group's value that was last seen or written.
#[derive(Clone, Copy)]
pub struct SeenValue {
    pub group: Name,
    pub lver: u64,
    pub seq: u64,
}

impl Model for SeenValue {
    ghost use Rattle.sl_run.specs.Lvm.{SeenValue as SeenValueOf};
    ghost use Rattle.std.specs.Prelude.{refl};

    ghost Value = { SeenValueOf };

    ghost view = { λ v. record { group = v.group; lver = v.lver; seq = v.seq } };

    ghost inverse = { λ s. record { group = s.group; lver = s.lver; seq = s.seq } };

    ghost inverse_ok = { λ v is. refl };
}

impl SeenValue {
    /// Whether it is the value of this volume group's lock.
    pub fn is_of(&self, group: Name) -> bool
        ensures { result ≡ bytes_eq self.now.group group }
    {
        self.group == group
    }

    /// Whether it is this version of the group's value.
    pub fn is_version(&self, group: Name, lver: u64, seq: u64) -> bool
        ensures { result ≡ (bytes_eq self.now.group group && self.now.lver == lver && self.now.seq == seq) }
    {
        self.group == group && self.lver == lver && self.seq == seq
    }
}
