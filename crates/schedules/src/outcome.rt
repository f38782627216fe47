//! What comes of a case.

use crate::case::Case;
use sl_io::{MemSink, MemSource};
use sl_text::number::push_number;
use sl_top::{StandingDevices, run};
use std::alloc::{AllocError, Global};
use std::sync::Wait;
use std::thread::Threads;
use std::time::Clock;

/// Bytes that a read gives where one is to fail.
const READ: usize = 30;

/// Bytes that a write takes where one is to fail.
const WRITTEN: usize = 16;

/// The most bytes that are put out.
pub const ROOM: usize = 262_144;

/// The number of the status that a run ended with, and what it put out.
#[derive(Drop)]
pub struct Outcome {
    pub code: u8,
    pub output: Vec<u8>,
}

/// The sizes of calls of which this one is to fail, and its number.
fn plan(
    alloc: Global,
    call: Option<u64>,
    size: usize,
) -> Result<(Vec<usize>, Vec<u64>), AllocError> {
    match call {
        Some(call) => Ok((vec![in alloc; size]?, vec![in alloc; call]?)),
        None => Ok((Vec::new(alloc), Vec::new(alloc))),
    }
}

/// What comes of a case over these disks.
pub fn run_case<R: Threads + Wait + Clock + Eprint + Sync, D: StandingDevices>(
    rt: &R,
    alloc: Global,
    case: &Case,
    devices: D,
) -> Result<Outcome, AllocError>
where
    D::Area: Send,
{
    let (pieces, failing) = plan(alloc, case.reads, READ)?;
    let source = MemSource::new(case.source.clone()?, pieces, failing);
    let (pieces, failing) = plan(alloc, case.writes, WRITTEN)?;
    let sink = MemSink::new(alloc, ROOM, pieces, failing)?;
    let (status, _source, sink, _devices, _watchdog) = run(
        rt,
        alloc,
        &case.words,
        false,
        source,
        sink,
        devices,
    );
    Ok(Outcome {
        code: status.code(),
        output: sink.into_taken(),
    })
}

/// Whether what was put out is what is due.
fn is_due(case: &Case, outcome: &Outcome) -> bool {
    match &case.due {
        Some(due) => due.as_slice() == outcome.output.as_slice(),
        None => false,
    }
}

/// Writes what came of a case behind its line.
pub fn push_outcome(
    out: &mut Vec<u8>,
    line: &str,
    case: &Case,
    outcome: &Outcome,
) -> Result<(), AllocError> {
    out.extend_from_slice(line.as_bytes())?;
    out.extend_from_slice(b": ")?;
    push_number(out, u64::from(outcome.code))?;
    if is_due(case, outcome) {
        return out.extend_from_slice(b", as due\n");
    }
    if case.calm && outcome.output.ends_with(b" conflicts 0\n") {
        return out.extend_from_slice(b", no conflict\n");
    }
    out.push(b'\n')?;
    out.extend_from_slice(&outcome.output)
}
