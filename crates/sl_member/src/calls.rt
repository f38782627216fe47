//! What a call says of the parts of its session.

ghost use Rattle.sl_area.specs.AreaSizes.{layout_of};
ghost use Rattle.sl_area.specs.AreaLayout.{in_area};
ghost use Rattle.sl_host_state.specs.HostStands.{pair_of};
ghost use Rattle.sl_trace.specs.Leases.{lease_step, spot_of_call, value_of_record};
ghost use Rattle.sl_trace.specs.Sessions.{delta_of_record};
ghost use Rattle.sl_trace.specs.Traces.{new_call, record_of};
ghost use Rattle.std.specs.Option.{option_copied};
ghost use Rattle.std.specs.Prelude.{option_and_then, option_map, ◌≡◌};

use sl_area::Geometry;
use sl_host_state::ValuePair;
use sl_sector::{DeltaRec, Rec};
use sl_trace::{Call, LeaseStep, Op, Purpose, Spot, Work};

/// The delta record that the operation writes; none of a read, nor of a write of another record.
pub(crate) fn delta_of(op: &Op) -> Option<&DeltaRec>
    ensures { option_copied result ≡ option_and_then delta_of_record (record_of op.now) }
{
    match op {
        Op::WriteRecord {
            record: Rec::DeltaIs(record),
        } => Some(record),
        _ => None,
    }
}

/// Version and seq of the value that is written.
pub(crate) fn value_of(op: &Op) -> Option<ValuePair>
    ensures { result ≡ option_map pair_of (option_and_then value_of_record (record_of op.now)) }
{
    match op {
        Op::WriteRecord {
            record: Rec::ValueIs(value),
        } => Some(ValuePair {
            lver: value.lver,
            seq: value.seq,
        }),
        _ => None,
    }
}

/// On whose account a call works on a lease, and at which step.
pub(crate) fn lease_step(purpose: &Purpose) -> Option<(Work, LeaseStep)>
    ensures { result ≡ lease_step purpose.now }
{
    match purpose {
        Purpose::Lease { work, step } => Some((*work, *step)),
        _ => None,
    }
}

/// The area on which a call is.
pub(crate) fn spot_of(geometry: &Geometry, call: &Call) -> Spot
    ensures { result ≡ spot_of_call (layout_of geometry.now) (new_call 0 0 call.now) }
{
    Spot {
        path: call.path,
        base: call.offset - call.offset % geometry.area(),
    }
}

/// Whether an offset is in the area at this base.
pub(crate) fn in_area(geometry: &Geometry, base: u64, offset: u64) -> bool
    ensures { result ≡ in_area (layout_of geometry.now) base offset }
{
    base <= offset && offset - base < geometry.area()
}
