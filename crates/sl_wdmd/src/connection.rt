//! A connection, and what is done to those that stand in a list.

ghost use Rattle.sl_trace.specs.WatchdogConnections.{renewed_connection};
ghost use Rattle.std.specs.List.{list_any};
ghost use Rattle.std.specs.Prelude.{bytes_eq, filter, map, nat_le, not, ◌≡◌, ◌≤◌};
ghost use Rattle.std.specs.Vec.{vec_capacity, vec_len};

use sl_text::Name;
use std::marker::Model;

/// A connection: a lockspace's name, and the reading of the machine's clock, in milliseconds, from which on the test fails.
#[derive(Clone, Copy)]
pub struct Connection {
    pub name: Name,
    pub expiry: u64,
}

impl Model for Connection {
    ghost use Rattle.sl_trace.specs.WatchdogConnections.{Connection as ConnectionState};
    ghost use Rattle.std.specs.Prelude.{refl};

    ghost Value = { ConnectionState };

    ghost view = { λ c. record { name = c.name; expiry = c.expiry } };

    ghost inverse = { λ s. record { name = s.name; expiry = s.expiry } };

    ghost inverse_ok = { λ c is. refl };
}

impl Connection {
    /// Whether it has this name.
    fn is_named(&self, name: Name) -> bool
        ensures { result ≡ bytes_eq self.now.name name }
    {
        self.name == name
    }

    /// It expires later, where it has this name.
    fn renew(&mut self, name: Name, expiry: u64)
        ensures { self.new ≡ renewed_connection name expiry self.old }
    {
        if self.is_named(name) {
            self.expiry = expiry;
        }
    }

    /// Whether it has expired.
    fn has_expired(&self, now: u64) -> bool
        ensures { result ≡ nat_le self.now.expiry now }
    {
        self.expiry <= now
    }
}

/// Those of a name expire later.
pub(crate) fn renew(connections: &mut Vec<Connection>, name: Name, expiry: u64)
    ensures items { connections.new.items ≡ map (renewed_connection name expiry) connections.old.items }
    ensures len { vec_len connections.new ≡ vec_len connections.old }
    ensures room { vec_capacity connections.new ≡ vec_capacity connections.old }
{
    for index in 0..connections.len() {
        connections[index].renew(name, expiry);
    }
}

/// Those of a name go.
pub(crate) fn remove(connections: &mut Vec<Connection>, name: Name)
    ensures items { connections.new.items ≡ filter (λ c. not (bytes_eq c.name name)) connections.old.items }
    ensures len { vec_len connections.new ≤ vec_len connections.old }
    ensures room { vec_capacity connections.new ≡ vec_capacity connections.old }
{
    connections.retain(|connection| !connection.is_named(name));
}

/// Whether some connection has expired.
pub(crate) fn some_expired(connections: &[Connection], now: u64) -> bool
    ensures { result ≡ list_any (λ c. nat_le c.expiry now) connections.now }
{
    connections
        .iter()
        .any(|connection| connection.has_expired(now))
}
