//! The numbers of a machine's threads, by which the entries of its history tell who gave their inputs.

ghost use Rattle.sl_live_machine.specs.ThreadSeats.{number_of};
ghost use Rattle.std.specs.Prelude.{◌≡◌};

use sl_cell::Part;

pub(crate) const TICKER: u32 = 0;

const DELTA: u32 = 1;

const RESOURCE: u32 = 2;

pub(crate) const CHILDREN: u32 = 3;

pub(crate) const STARTER: u32 = 4;

pub(crate) const DEVICE: u32 = 5;

pub(crate) const LINES: u32 = 6;

/// The number of a part's worker.
pub(crate) fn worker_number(part: Part) -> u32
    ensures { result ≡ number_of part }
{
    match part {
        Part::Delta => DELTA,
        Part::Resource => RESOURCE,
    }
}
