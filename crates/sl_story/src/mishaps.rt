//! What goes wrong, and what comes back.

use crate::cast::{Cast, Machine};
use crate::draws::Draws;
use std::alloc::{AllocError, Global};

/// The bytes of its own that a torn write leaves.
const KEPT: [u32; 5] = [1, 40, 100, 300, 511];

/// What becomes of a write whose daemon has ended, or which is failing: it lands, it is torn, or it never lands.
pub(crate) fn fates(
    alloc: Global,
    draws: &mut Draws,
    machine: u32,
    call: u64,
) -> Result<Vec<String>, AllocError> {
    let mut lines = Vec::new(alloc);
    match draws.below(4) {
        0 => lines.push(format!(in alloc; "land {machine} {call}")?)?,
        1 => {
            let kept = draws.one_of(&KEPT, 1);
            lines.push(format!(in alloc; "tear {machine} {call} {kept}")?)?;
            lines.push(format!(in alloc; "tear {machine} {call} {kept} 00ff")?)?;
        }
        _ => {}
    }
    lines.push(format!(in alloc; "drop {machine} {call}")?)?;
    Ok(lines)
}

/// Its storage is away for a while, or it hangs.
fn stand_still(machine: &mut Machine, moment: u64, draws: &mut Draws) {
    let until = moment.saturating_add(100 + 100 * u64::from(draws.below(14)));
    if draws.once_in(3) {
        machine.hung = until;
    } else {
        machine.away = until;
    }
}

/// What goes wrong on a machine: its storage is away or it hangs, of which no line tells; or its daemon or the machine ends.
pub(crate) fn mishap(
    alloc: Global,
    cast: &mut Cast,
    draws: &mut Draws,
    number: u32,
) -> Result<Option<String>, AllocError> {
    let moment = cast.moment;
    let Some(machine) = cast.machine_mut(number) else {
        return Ok(None);
    };
    match draws.below(8) {
        0 => Ok(Some(format!(in alloc; "crash {number}")?)),
        1 | 2 => Ok(Some(format!(in alloc; "reset {number}")?)),
        _ => {
            stand_still(machine, moment, draws);
            Ok(None)
        }
    }
}

/// A machine on which no daemon runs comes back, step by step.
pub(crate) fn comeback(
    alloc: Global,
    cast: &mut Cast,
    number: u32,
) -> Result<Vec<String>, AllocError> {
    let mut lines = Vec::new(alloc);
    let name = cast.names.saturating_add(1);
    cast.names = name;
    lines.push(format!(in alloc; "restart {number}")?)?;
    lines.push(format!(in alloc; "start {number} h{number}_{name}")?)?;
    lines.push(format!(in alloc; "reset {number}")?)?;
    Ok(lines)
}
