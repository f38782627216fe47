//! What is kept at moment 0.

ghost use Rattle.sl_world_state.specs.FirstKept.{first_machine, first_names, first_state, given_to, session_of};
ghost use Rattle.sl_machine.specs.KeptParts.{kept_state};
ghost use Rattle.sl_machine.specs.Machines.{machine_state};
ghost use Rattle.sl_run.specs.Headers.{IsHeader};
ghost use Rattle.sl_run.specs.Worlds.{clock_reading, given_of};
ghost use Rattle.sl_trace.specs.WatchdogConnections.{given_connection};
ghost use Rattle.std.specs.List.{list_any, range_with_len};
ghost use Rattle.sl_words.specs.Words.{some_is};
ghost use Rattle.std.specs.Option.{option_copied, option_to_list};
ghost use Rattle.std.specs.Prelude.{IfOk, List, OnOk, bytes_eq, find, is_some, map, option_map, reverse, ℕ, ◌++◌, ◌<◌, ◌==◌, ◌^◌, ◌≡◌, ◌||◌};

use crate::flights::Flights;
use crate::kept_world::Kept;
use crate::locks::LockTable;
use crate::machine::Machine;
use crate::names::{DaemonName, add_name, has_name};
use indexmap::IndexSet;
use sl_disks::{Disks, clock_reading};
use sl_run::{Header, LockspaceLine, SessionLine};
use sl_text::Name;
use sl_wdmd::{Connection, Wdmd};
use std::alloc::{AllocError, Global};

/// The first session line of a machine.
fn session_of(header: &Header, machine: u32) -> Option<&SessionLine>
    ensures { option_copied result ≡ session_of header.now machine }
{
    header
        .sessions
        .as_slice()
        .iter()
        .find(|session| session.machine == machine)
}

/// Whether a machine begins with a daemon: it has a session line.
fn has_session(header: &Header, machine: u32) -> bool
    ensures { result ≡ is_some (session_of header.now machine) }
{
    session_of(header, machine).is_some()
}

/// The line of the lockspace with this name.
fn lockspace_of(header: &Header, name: Name) -> Option<&LockspaceLine>
    ensures { option_copied result ≡ find (λ l. bytes_eq l.name name) header.now.lockspaces }
{
    header
        .lockspaces
        .as_slice()
        .iter()
        .find(|line| line.name == name)
}

/// A machine's first reading.
#[tactic(auto, using(sl_disks::proofs::InitialLaws::clock_is_small))]
fn first_reading(header: &Header, machine: u32) -> u64
    requires { IsHeader header.now }
    ensures exact { result ≡ clock_reading header.now machine }
    ensures small { result < 10 ^ 15 }
{
    clock_reading(header, machine)
}

/// The connection that a session line gives a machine, if it is that machine's.
fn connection_of(header: &Header, machine: u32, session: &SessionLine) -> Option<Connection>
    requires { IsHeader header.now }
    ensures { result ≡ option_map (given_connection header.now.timing) (given_of header.now machine session.now) }
{
    if session.machine != machine {
        return None;
    }
    let _lockspace = lockspace_of(header, session.lockspace)?;
    Some(Connection {
        name: session.lockspace,
        expiry: first_reading(header, machine) + header.timing.fail(),
    })
}

/// Registers the connection, if there is one. An `Err` is want of memory.
fn register(connections: &mut Wdmd, connection: Option<Connection>) -> Result<(), AllocError>
    ensures { OnOk result (connections.new.connections ≡ connections.old.connections ++ option_to_list connection) }
{
    if let Some(connection) = connection {
        connections.register(connection.name, connection.expiry)?;
    }
    Ok(())
}

/// The connections that a machine begins with. An `Err` is want of memory.
fn first_connections(alloc: Global, header: &Header, machine: u32) -> Result<Wdmd, AllocError>
    requires { IsHeader header.now }
    ensures { IfOk result (λ w. w.connections ≡ map (given_connection header.now.timing) (given_to header.now machine)) }
{
    let mut connections = Wdmd::new(alloc);
    for session in header.sessions.as_slice() {
        register(&mut connections, connection_of(header, machine, session))?;
    }
    Ok(connections)
}

/// A machine. An `Err` is want of memory.
#[tactic(auto, unfolding(crate::specs::Machines::machine_state))]
fn first_machine<L: LockTable>(
    alloc: Global,
    header: &Header,
    machine: u32,
) -> Result<Machine<L>, AllocError>
    requires { IsHeader header.now }
    ensures { IfOk result (λ a. machine_state L.locks a ≡ first_machine header.now machine) }
{
    let has_daemon = has_session(header, machine);
    let connections = first_connections(alloc, header, machine)?;
    Ok(Machine {
        up: true,
        used: has_daemon,
        runs: has_daemon,
        clock: 1000 * first_reading(header, machine),
        kept: 0,
        connections,
        job: 1,
        starting: Vec::new(alloc),
        flights: Flights::new(alloc, 1),
        held: Vec::new(alloc),
        lingering: Vec::new(alloc),
        locks: L::fresh(alloc, header),
    })
}

/// All machines. An `Err` is want of memory.
fn first_machines<L: LockTable>(
    alloc: Global,
    header: &Header,
) -> Result<Vec<Machine<L>>, AllocError>
    requires { IsHeader header.now }
    ensures { IfOk result (λ ms. map (machine_state L.locks) ms.items ≡ map (first_machine header.now) (range_with_len 1 header.now.machines)) }
{
    let mut machines = Vec::new(alloc);
    for place in 0..header.machines {
        machines.push(first_machine(alloc, header, place + 1)?)?;
    }
    Ok(machines)
}

/// A name more, if it is new. An `Err` is want of memory.
#[tactic(auto, using(crate::proofs::NameLaws::has_already))]
fn add_once(names: &mut IndexSet<DaemonName>, name: Name) -> Result<(), AllocError>
    ensures { OnOk result ((q : List ℕ) → list_any (bytes_eq q) (reverse names.new.keys) ≡ (bytes_eq q name || list_any (bytes_eq q) (reverse names.old.keys))) }
{
    if !has_name(names, name) {
        names.reserve(1)?;
        add_name(names, name);
    }
    Ok(())
}

/// The name of a session line, if there is one. An `Err` is want of memory.
fn add_session(
    names: &mut IndexSet<DaemonName>,
    session: Option<&SessionLine>,
) -> Result<(), AllocError>
    ensures { OnOk result ((q : List ℕ) → list_any (bytes_eq q) (reverse names.new.keys)
        ≡ (some_is (λ s. bytes_eq q s.name) (option_copied session.entry) || list_any (bytes_eq q) (reverse names.old.keys))) }
{
    match session {
        None => Ok(()),
        Some(session) => add_once(names, session.name),
    }
}

/// The names of the session lines' daemons. An `Err` is want of memory.
fn first_names(alloc: Global, header: &Header) -> Result<IndexSet<DaemonName>, AllocError>
    ensures { IfOk result (λ names. (q : List ℕ) → list_any (bytes_eq q) (reverse names.keys) ≡ list_any (bytes_eq q) (first_names header.now)) }
{
    let mut names = IndexSet::new(alloc);
    for place in 0..header.machines {
        add_session(&mut names, session_of(header, place + 1))?;
    }
    Ok(names)
}

impl<L: LockTable> Kept<L> {
    /// What is kept of a header's world at moment 0: its names may stand in another order. An `Err` is want of memory.
    #[tactic(auto, unfolding(sl_world_state::specs::FirstKept::first_state, sl_disks::specs::Disks::first_at, crate::specs::KeptParts::kept_state))]
    pub fn new(alloc: Global, header: Header) -> Result<Kept<L>, AllocError>
        requires { IsHeader header }
        ensures state { IfOk result (λ k. kept_state L.locks k ≡ record (first_state header) { names = reverse k.names.keys }) }
        ensures names { IfOk result (λ k. (q : List ℕ) → list_any (bytes_eq q) (reverse k.names.keys) ≡ list_any (bytes_eq q) (first_state header).names) }
    {
        let machines = first_machines(alloc, &header)?;
        let names = first_names(alloc, &header)?;
        let disks = Disks::new(alloc, header)?;
        Ok(Kept {
            disks,
            moment: 0,
            machines,
            names,
        })
    }
}
