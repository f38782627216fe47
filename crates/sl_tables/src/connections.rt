//! The lockspaces of a host whose connections stand.

ghost use Rattle.std.specs.List.{list_any};
ghost use Rattle.std.specs.Prelude.{OnErr, OnOk, bytes_eq, filter, max, not, [], ◌++◌, ◌-◌, ◌<◌, ◌∷◌, ◌≡◌};

use sl_text::Name;
use std::alloc::{AllocError, Global};
use std::marker::Model;

/// The names, in the order of their registering, with memory for some more. There are few: a machine has at most eight lockspaces in use.
#[derive(Drop)]
pub struct Connections {
    names: Vec<Name>,
    room: usize,
}

impl Model for Connections {
    ghost use Rattle.sl_tables.specs.Connections.{ConnectionsState};
    ghost use Rattle.std.specs.Prelude.{vec_capacity, vec_len, ◌+◌, ◌≤◌};

    ghost Value = { ConnectionsState };

    ghost view = { λ c. record { names = c.names.items; room = c.room } };

    ghost invariant = { λ c. vec_len c.names + c.room ≤ vec_capacity c.names };
}

/// Whether the two are one name.
fn is_same(one: &Name, other: &Name) -> bool
    ensures { result ≡ bytes_eq one.now other.now }
{
    one == other
}

impl Connections {
    /// An empty table, without room. It takes no memory.
    pub fn new(alloc: Global) -> Connections
        ensures { result ≡ record { names = []; room = 0 } }
    {
        Connections {
            names: Vec::new(alloc),
            room: 0,
        }
    }

    /// Sees that there is memory for so many more. An `Err` is want of memory, and changes nothing.
    pub fn reserve(&mut self, room: usize) -> Result<(), AllocError>
        ensures ok { OnOk result (self.new ≡ record self.old { room = max self.old.room room }) }
        ensures err { OnErr result (self.new ≡ self.old) }
    {
        if self.room < room {
            self.names.reserve(room)?;
            self.room = room;
        }
        Ok(())
    }

    /// Whether a connection of this name stands.
    pub fn has(&self, name: &Name) -> bool
        ensures { result ≡ list_any (λ n. bytes_eq n name.now) self.now.names }
    {
        self.names.iter().any(|one| is_same(one, name))
    }

    /// The connection of this lockspace stands from now on. It uses one of the room.
    pub fn put(&mut self, name: Name)
        requires { 0 < self.old.room }
        ensures { self.new ≡ record { names = self.old.names ++ name ∷ []; room = self.old.room - 1 } }
    {
        self.names.push_reserved(name);
        self.room -= 1;
    }

    /// The connections of this name stand no more.
    pub fn remove(&mut self, name: &Name)
        ensures { self.new ≡ record self.old { names = filter (λ n. not (bytes_eq n name.now)) self.old.names } }
    {
        self.names.retain(
            |one: &Name| -> bool
                ensures { result ≡ not (bytes_eq one.now name.entry.now) }
            { !is_same(one, name) },
        );
    }
}
