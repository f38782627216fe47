//! The lines that are given to lvmlockd.

use crate::draws::Draws;
use std::alloc::{AllocError, Global};

/// The line that lvmlockd of a machine is given.
pub(crate) fn lvm_line(
    alloc: Global,
    draws: &mut Draws,
    machine: u32,
) -> Result<String, AllocError> {
    let line = match draws.below(16) {
        0 => format!(in alloc; "lock_start vg -i {machine}")?,
        1 => format!(in alloc; "info")?,
        2 | 3 => format!(in alloc; "lock_gl vg -m sh")?,
        4 => format!(in alloc; "lock_gl vg -m ex")?,
        5 | 6 => format!(in alloc; "lock_gl vg -m un")?,
        7 => format!(in alloc; "lock_vg vg -m sh")?,
        8 => format!(in alloc; "lock_vg vg -m ex")?,
        9 => format!(in alloc; "lock_vg vg -m un -w")?,
        10 => format!(in alloc; "lock_vg vg -m un")?,
        11 => format!(in alloc; "activate vg/lv -m ex -a 3")?,
        12 => format!(in alloc; "activate vg/lv -m sh -a 3")?,
        13 | 14 => format!(in alloc; "deactivate vg/lv")?,
        _ => format!(in alloc; "lock_stop vg -i {machine}")?,
    };
    format!(in alloc; "command {machine} lvm {line}")
}
