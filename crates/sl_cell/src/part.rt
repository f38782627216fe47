//! The two parts of a daemon's calls, each of which has a worker.

ghost use Rattle.sl_cell.specs.Parts.{is_of, part_of};
ghost use Rattle.std.specs.Prelude.{◌≡◌};

use sl_trace::{Call, Purpose};

/// Whose call it is: of the work on sessions, or of the work on leases.
#[derive(Clone, Copy, PartialEq, Eq)]
pub enum Part {
    Delta,
    Resource,
}

/// Of which part a call is.
fn part_of(purpose: &Purpose) -> Part
    ensures { result ≡ part_of purpose.now }
{
    match purpose {
        Purpose::Joining { .. } => Part::Delta,
        Purpose::Renewal => Part::Delta,
        Purpose::Survey => Part::Delta,
        Purpose::Leaving { .. } => Part::Delta,
        Purpose::Lease { .. } => Part::Resource,
        Purpose::RequestRead { .. } => Part::Resource,
        Purpose::RequestWrite { .. } => Part::Resource,
        Purpose::SeeRequest => Part::Resource,
        Purpose::ValueWrite { .. } => Part::Resource,
        Purpose::ValueRead { .. } => Part::Resource,
    }
}

/// Whether the call is of this part.
pub(crate) fn is_of(part: Part, call: &Call) -> bool
    ensures { result ≡ is_of part call.now }
{
    match (part, part_of(&call.purpose)) {
        (Part::Delta, Part::Delta) => true,
        (Part::Delta, Part::Resource) => false,
        (Part::Resource, Part::Delta) => false,
        (Part::Resource, Part::Resource) => true,
    }
}
