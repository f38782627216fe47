//! With what daemons begin: the session lines of a header, machine by machine.

ghost use Rattle.sl_world_state.specs.FirstKept as first_kept;
ghost use Rattle.sl_run.specs.Worlds as worlds;
ghost use Rattle.sl_world_law.specs.WorldsStand as standing;
ghost use Rattle.std.specs.Option.{option_copied, option_to_list};
ghost use Rattle.std.specs.Prelude.{IfOk, OnOk, bytes_eq, find, ◌++◌, ◌==◌, ◌≡◌};

use sl_disks::clock_reading;
use sl_run::{Header, LockspaceLine, SessionLine};
use sl_text::{Name, Seq};
use sl_trace::{Given, Numbers};
use sl_world_state::Site;
use std::alloc::{AllocError, Global};

/// The first session line of a machine: it has a daemon if it has one.
pub fn session_of(header: &Header, machine: u32) -> Option<&SessionLine>
    ensures { option_copied result ≡ first_kept.session_of header.now machine }
{
    header
        .sessions
        .as_slice()
        .iter()
        .find(|session| session.machine == machine)
}

/// The line of the lockspace with this name.
fn lockspace_of(header: &Header, name: Name) -> Option<&LockspaceLine>
    ensures { option_copied result ≡ find (λ l. bytes_eq l.name name) header.now.lockspaces }
{
    header
        .lockspaces
        .as_slice()
        .iter()
        .find(|line| line.name == name)
}

/// The session as a machine's daemon is given it, if it is that machine's: it was renewed when the clock began.
fn given_of(header: &Header, machine: u32, session: &SessionLine) -> Option<Given>
    ensures { result ≡ worlds.given_of header.now machine session.now }
{
    if session.machine != machine {
        return None;
    }
    let lockspace = lockspace_of(header, session.lockspace)?;
    Some(Given {
        lockspace: session.lockspace,
        id: session.id,
        path: lockspace.path,
        offset: lockspace.offset,
        renewed: clock_reading(header, machine),
    })
}

/// Puts the session behind these, if it is the machine's.
fn push_given(
    given: &mut Vec<Given>,
    header: &Header,
    machine: u32,
    session: &SessionLine,
) -> Result<(), AllocError>
    ensures { OnOk result (given.new.items ≡ given.old.items ++ option_to_list (worlds.given_of header.now machine session.now)) }
{
    if let Some(session) = given_of(header, machine, session) {
        given.push(session)?;
    }
    Ok(())
}

/// The sessions that a machine's daemon begins with. An `Err` is want of memory.
fn given_to(alloc: Global, header: &Header, machine: u32) -> Result<Seq<Given>, AllocError>
    ensures { IfOk result (λ given. given ≡ first_kept.given_to header.now machine) }
{
    let mut given = Vec::new(alloc);
    for session in header.sessions.as_slice() {
        push_given(&mut given, header, machine, session)?;
    }
    Ok(Seq::new(given))
}

/// With what the daemon of a session line begins. An `Err` is want of memory.
pub fn first_site(
    alloc: Global,
    header: &Header,
    machine: u32,
    session: &SessionLine,
) -> Result<Site, AllocError>
    ensures { IfOk result (λ site. site ≡ standing.first_site header.now machine session.now) }
{
    let given = given_to(alloc, header, machine)?;
    Ok(Site {
        machine,
        name: session.name,
        first: Numbers { call: 1, job: 1 },
        given,
    })
}
