//! An action, done to an area and told to a sink.
ghost use Rattle.sl_direct.specs.Actions.{Directs, IsAction, PutsOut, last_lines};
ghost use Rattle.sl_direct.specs.HalfDone.{HasActed};
ghost use Rattle.sl_direct.specs.declared.action.Directed.TheVariants.{AreaFault};
ghost use Rattle.sl_text.specs.Forms.{as_bytes};
ghost use Rattle.sl_io.specs.FaultCauses.{Rose};
ghost use Rattle.std.specs.Prelude.{[], ◌++◌, ◌≡◌, ◌≤◌};

use crate::action::{Action, Directed};
use crate::fresh_areas::{init_lockspace, init_resource};
use crate::labelled::init_labelled;
use crate::looks::{dump, read_leader};
use crate::upgrade::upgrade;
use sl_area::Area;
use sl_io::{Sink, write_all};
use std::alloc::Global;

/// Does an action, and writes what it tells, all but the line of a fault.
fn act<A: Area>(area: &mut A, action: &Action, out: &mut Vec<u8>) -> Directed
    requires action { IsAction action.now }
    requires first { out.old.items ≡ [] }
    ensures acted { HasActed action.now (A.content area.old) (A.content area.new) out.new.items result }
    ensures cause { result ≡ AreaFault → Rose (A.faults area.old) (A.faults area.new) }
    ensures later { A.faults area.old ≤ A.faults area.new }
{
    match action {
        Action::InitLockspace {
            lockspace,
            geometry,
        } => init_lockspace(area, lockspace, *geometry, out),
        Action::InitLabelled {
            lockspace,
            geometry,
            timing,
            grace,
        } => init_labelled(area, lockspace, *geometry, *timing, *grace, out),
        Action::InitResource { resource, geometry } => {
            init_resource(area, resource, *geometry, out)
        }
        Action::ReadLeader { resource, geometry } => read_leader(area, resource, *geometry, out),
        Action::Upgrade { resource, geometry } => upgrade(area, resource, *geometry, out),
        Action::Dump {
            path,
            offset,
            size,
            geometry,
        } => dump(area, *path, *offset, *size, *geometry, out),
    }
}

/// Puts out the last line, if the area failed. It takes no memory.
fn put_last<K: Sink>(sink: &mut K, went: Directed) -> Directed
    ensures { PutsOut (K.taken sink.old) (K.taken sink.new) (K.faults sink.old) (K.faults sink.new) (as_bytes (last_lines went)) went result }
{
    match went {
        Directed::AreaFault => match write_all(sink, b"area fault\n") {
            Ok(()) => went,
            Err(_) => Directed::WriteFault,
        },
        _ => went,
    }
}

/// Puts out what an action told, and the last line.
fn put_out<K: Sink>(sink: &mut K, text: &[u8], went: Directed) -> Directed
    ensures { PutsOut (K.taken sink.old) (K.taken sink.new) (K.faults sink.old) (K.faults sink.new) (text.now ++ as_bytes (last_lines went)) went result }
{
    match write_all(sink, text) {
        Ok(()) => put_last(sink, went),
        Err(_) => Directed::WriteFault,
    }
}

/// Does an action to the area, and writes what it tells to the sink, each line with its line feed. A look changes nothing of the area.
///
/// # Answers
/// `Done` where it was done to its end, and all is written.
///
/// `NotTheLeader` where the sector that was read spells no leader, or one of other names; for an upgrade also one of an area with pairs, or
/// for other hosts. What it holds is written in its place, and the area is as it was.
///
/// `TornBlock` where a sector that an upgrade read does not spell that host's block. The host is written, and the area is as it was.
///
/// `AreaFault` only where the area counted a fault in this call. The output ends with the line `area fault`. Of an initialising and of an
/// upgrade the writes before the one that failed stand, and that sector may be torn.
///
/// `NoMemory` where there was none. The area is as it was, and the lines that were told before are written.
///
/// `WriteFault` only where the sink counted a fault in this call. The area is as one of the others leaves it, and a front of that one's
/// output is written.
pub fn run_direct<A: Area, K: Sink>(
    alloc: Global,
    action: &Action,
    area: &mut A,
    sink: &mut K,
) -> Directed
    requires { IsAction action.now }
    ensures { Directs action.now (A.content area.old) (A.content area.new) (A.faults area.old) (A.faults area.new)
        (K.taken sink.old) (K.taken sink.new) (K.faults sink.old) (K.faults sink.new) result }
{
    let mut out = Vec::new(alloc);
    let went = act(area, action, &mut out);
    put_out(sink, &out, went)
}
