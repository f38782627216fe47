//! The command lines that are given to hosts.

use crate::cast::{Cast, Holding};
use crate::draws::Draws;
use crate::header::{AREA, GROUP_DISK, RESOURCES};
use std::alloc::{AllocError, Global};

/// How many processes of a machine ask for leases.
const PROCESSES: u32 = 5;

/// The word of resource `number`.
fn resource_word(alloc: Global, number: u32) -> Result<String, AllocError> {
    let offset = u64::from(number) * AREA;
    format!(in alloc; "ls:r{number}:/d:{offset}")
}

/// The mode behind a resource's word.
fn mode(shared: bool) -> &'static str {
    if shared { ":SH" } else { "" }
}

/// One of the resources.
fn draw_resource(draws: &mut Draws) -> u32 {
    1 + draws.below(RESOURCES)
}

/// One of the holdings of a machine.
fn draw_holding(cast: &Cast, draws: &mut Draws, machine: u32) -> Option<Holding> {
    let holdings = cast.machine(machine)?.holdings.as_slice();
    let count = u32::try_from(holdings.len()).ok()?;
    if count == 0 {
        return None;
    }
    let at = draws.below(count);
    holdings.get(at as usize).copied()
}

/// A lease that is asked for.
fn acquire(alloc: Global, draws: &mut Draws) -> Result<String, AllocError> {
    let word = resource_word(alloc, draw_resource(draws))?;
    let mode = mode(draws.once_in(3));
    let process = 1 + draws.below(PROCESSES);
    let flags = match draws.below(24) {
        0 => " -P 1",
        1 => " -O 1",
        2 => " -P 1 -O 1",
        _ => "",
    };
    format!(in alloc; "acquire -r {word}{mode} -p {process}{flags}")
}

/// A lease that is given up.
fn release(
    alloc: Global,
    draws: &mut Draws,
    holding: Option<Holding>,
) -> Result<String, AllocError> {
    match holding {
        Some(holding) => {
            let word = resource_word(alloc, holding.resource)?;
            let process = holding.process;
            if process == 0 {
                format!(in alloc; "release -r {word} -O 1")
            } else {
                format!(in alloc; "release -r {word} -p {process}")
            }
        }
        None => {
            let word = resource_word(alloc, draw_resource(draws))?;
            if draws.once_in(2) {
                format!(in alloc; "release -r {word} -O 1")
            } else {
                format!(in alloc; "release -r {word} -p 1")
            }
        }
    }
}

/// A lease whose mode is changed.
fn convert(alloc: Global, holding: Holding) -> Result<String, AllocError> {
    let word = resource_word(alloc, holding.resource)?;
    let mode = mode(!holding.shared);
    let process = holding.process;
    format!(in alloc; "convert -r {word}{mode} -p {process}")
}

/// What a holder does with a lease.
fn of_holding(
    alloc: Global,
    draws: &mut Draws,
    holding: Option<Holding>,
) -> Result<String, AllocError> {
    let Some(holding) = holding else {
        return acquire(alloc, draws);
    };
    let word = resource_word(alloc, holding.resource)?;
    let process = holding.process;
    match draws.below(8) {
        0 | 1 | 2 => convert(alloc, holding),
        3 | 4 => {
            let byte = draws.below(90) + 10;
            format!(in alloc; "set_lvb -r {word} -p {process} -d 00{byte}")
        }
        5 | 6 => format!(in alloc; "get_lvb -r {word} -p {process}"),
        _ => format!(in alloc; "set_killpath -p {process} -c /bin/stop"),
    }
}

/// A request to the holder of a lease.
fn request(alloc: Global, draws: &mut Draws) -> Result<String, AllocError> {
    let word = resource_word(alloc, draw_resource(draws))?;
    let lver = 1 + draws.below(12);
    match draws.below(5) {
        0 => format!(in alloc; "request -r {word}:0 -f 0"),
        1 | 2 => format!(in alloc; "request -r {word}:{lver} -f 1"),
        _ => format!(in alloc; "request -r {word}:{lver} -f 2"),
    }
}

/// A lockspace that is joined under an id.
pub(crate) fn join(alloc: Global, lockspace: u32, id: u32) -> Result<String, AllocError> {
    if lockspace == 0 {
        format!(in alloc; "add_lockspace -s ls:{id}:/d:0")
    } else {
        format!(in alloc; "add_lockspace -s lvm_vg:{id}:{GROUP_DISK}:0")
    }
}

/// The id under which a machine last asked to join.
fn session_id(cast: &Cast, number: u32) -> u32 {
    match cast.machine(number) {
        Some(machine) => machine.id,
        None => number,
    }
}

/// What is asked of a session under an id.
fn of_session(alloc: Global, draws: &mut Draws, id: u32) -> Result<String, AllocError> {
    match draws.below(6) {
        0 => format!(in alloc; "host_status -s ls:{id}:/d:0"),
        1 => format!(in alloc; "inq_lockspace -s ls:{id}:/d:0"),
        2 => format!(in alloc; "status"),
        3 => format!(in alloc; "rem_lockspace -s ls:{id}:/d:0"),
        4 => join(alloc, 0, id),
        _ => join(alloc, 1, id),
    }
}

/// What a host refuses.
fn refused(alloc: Global, draws: &mut Draws) -> Result<String, AllocError> {
    match draws.below(9) {
        0 => format!(in alloc; "acquire -r l2:r1:/d:1048576 -p 1"),
        1 => format!(in alloc; "acquire -r ls:x:/d:1048576 -p 1"),
        2 => format!(in alloc; "acquire -r ls:r7:/d:7340032 -p 1"),
        3 => format!(in alloc; "acquire -r ls:q:/e:0 -p 1"),
        4 => format!(in alloc; "acquire -r ls:r1:/d:5 -p 1"),
        5 => format!(in alloc; "acquire -r ls:r1:/d:1048576 -p 1000099"),
        6 => format!(in alloc; "add_lockspace -s l2:1:/d:1048576"),
        7 => format!(in alloc; "add_lockspace -s l2:1:/d:0"),
        _ => format!(in alloc; "renew"),
    }
}

/// The command line that a machine is given.
pub(crate) fn command(
    alloc: Global,
    cast: &Cast,
    draws: &mut Draws,
    machine: u32,
) -> Result<String, AllocError> {
    let holding = draw_holding(cast, draws, machine);
    let text = match draws.below(100) {
        0..=29 => acquire(alloc, draws)?,
        30..=44 => release(alloc, draws, holding)?,
        45..=67 => of_holding(alloc, draws, holding)?,
        68..=77 => {
            let word = resource_word(alloc, draw_resource(draws))?;
            let mode = mode(draws.once_in(2));
            format!(in alloc; "command -r {word}{mode} -c /bin/vm")?
        }
        78..=84 => request(alloc, draws)?,
        85..=94 => { of_session(alloc, draws, session_id(cast, machine))? }
        _ => refused(alloc, draws)?,
    };
    format!(in alloc; "command {machine} {text}")
}
