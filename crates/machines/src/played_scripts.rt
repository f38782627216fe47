//! A live script, played on disks in memory that all threads share, with children in memory and the clock of the system.

use crate::outside::{Case, Ends};
use sl_io::{MemSink, MemSource};
use sl_live_play::{LiveHost, Lived, Manner, play_live};
use sl_outside::{
    AreaPlan, Census, MemPlan, PlannedSpawner, SharedDevices, SharedPlan, SlowStart, TurnGate,
};
use sl_play::laws::headers::whole_language_may_play;
use std::alloc::{AllocError, Global};
use std::rt::Files;
use std::sync::Wait;
use std::thread::Threads;
use std::time::{Clock, Duration};
use std::{fs, io};

/// The most bytes that are put out.
const ROOM: usize = 65536;

/// How many children of a machine run at once at most.
const CHILDREN: u32 = 4;

/// The numbers from the first to the last.
fn span(alloc: Global, ends: Option<Ends>) -> Result<Vec<u64>, AllocError> {
    let mut numbers = Vec::new(alloc);
    if let Some((first, last)) = ends {
        for number in first..=last {
            numbers.push(u64::from(number))?;
        }
    }
    Ok(numbers)
}

/// How long the children of the third machine live, in looks of 16 milliseconds: longer than a session goes on without a renewal, and its
/// device, and than another host waits before it counts that session as over.
const LONG: u64 = 600;

/// The spawner of a machine, whose children exit by themselves at this look, or never, and then are deaf to a term; and of which these starts
/// fail.
fn spawner(
    alloc: Global,
    machine: u32,
    failing: Option<Ends>,
    life: Option<u64>,
) -> Result<PlannedSpawner, AllocError> {
    let mut lives = Vec::new(alloc);
    if let Some(life) = life {
        lives.push(life)?;
    }
    let failing = span(alloc, failing)?;
    let plan = MemPlan {
        children: CHILDREN,
        acts: 0,
        lives,
        deaf: life.is_none(),
        failing,
    };
    PlannedSpawner::new(alloc, machine, plan)
}

/// The spawners of all machines. Starts fail on the first alone.
fn spawners(alloc: Global, case: &Case<'_>) -> Result<Vec<PlannedSpawner>, AllocError> {
    let life = if case.endless { None } else { Some(1) };
    let first = spawner(alloc, 1, case.starts, life)?;
    let second = spawner(alloc, 2, None, Some(1))?;
    let third = spawner(alloc, 3, None, Some(LONG))?;
    Ok(vec![in alloc; first, second, third]?)
}

/// What the areas of the first machine's worker of this number are to do, of which these calls fail.
fn area(alloc: Global, worker: u32, failing: Option<Ends>) -> Result<AreaPlan, AllocError> {
    let failing = span(alloc, failing)?;
    Ok(AreaPlan {
        machine: 1,
        worker,
        failing,
    })
}

/// What the areas of the first machine's workers are to do.
fn areas(alloc: Global, case: &Case<'_>) -> Result<Vec<AreaPlan>, AllocError> {
    let delta = area(alloc, 1, case.delta)?;
    let resource = area(alloc, 2, case.resource)?;
    Ok(vec![in alloc; delta, resource]?)
}

/// The start of the first machine's children that takes its time, if one does.
fn slow_start(case: &Case<'_>) -> Option<SlowStart> {
    let (behind, time) = case.slow?;
    Some(SlowStart {
        machine: 1,
        behind,
        time: Duration::from_millis(u64::from(time)),
    })
}

/// What devices in memory are to do in a case, with no gate and no census.
fn plan<R>(alloc: Global, case: &Case<'_>) -> Result<SharedPlan<R>, AllocError> {
    let areas = areas(alloc, case)?;
    let spawners = spawners(alloc, case)?;
    let makes = span(alloc, case.makes)?;
    Ok(SharedPlan {
        areas,
        spawners,
        slow: slow_start(case),
        census: None,
        makes,
        gate: None,
    })
}

/// How a script ended, and what it put out.
fn play<R: Clock + Wait + Threads + Eprint + Copy + Drop + Send + Sync>(
    rt: R,
    alloc: Global,
    script: Vec<u8>,
    plan: SharedPlan<R>,
) -> Result<(Lived, Vec<u8>), AllocError> {
    let source = MemSource::new(script, Vec::new(alloc), Vec::new(alloc));
    let sink = MemSink::new(alloc, ROOM, Vec::new(alloc), Vec::new(alloc))?;
    let mut devices = SharedDevices::new(rt, alloc, plan);
    whole_language_may_play();
    let (lived, _source, sink) = play_live::<LiveHost, MemSource, MemSink, SharedDevices<R>, R>(
        &rt,
        alloc,
        "f",
        Manner {
            anew: false,
            keeps: false,
            events: false,
        },
        source,
        sink,
        &mut devices,
    );
    Ok((lived, sink.into_taken()))
}

/// The word of how a script ended.
fn ended(lived: Lived) -> &'static str {
    match lived {
        Lived::Done => "done",
        Lived::Refused => "refused",
        Lived::ReadFault => "read fault",
        Lived::WriteFault => "write fault",
        Lived::NoMemory => "no memory",
        Lived::AreaFault => "area fault",
        Lived::Differs => "differs",
    }
}

/// Adds a line of what was put out, and of a reply only so many words.
fn push_line(out: &mut String, line: &str, count: usize) -> Result<(), AllocError> {
    let count = if line.contains(" reply ") {
        count
    } else {
        usize::MAX
    };
    out.push_str(";")?;
    for word in line.split(' ').take(count) {
        out.push_str(" ")?;
        out.push_str(word)?;
    }
    Ok(())
}

/// How a script ended, and the lines that it put out, of replies only so many words.
fn text_of(alloc: Global, lived: Lived, output: &[u8], count: usize) -> Result<String, AllocError> {
    let mut out = String::from_str(alloc, ended(lived))?;
    for line in std::str::from_utf8(output).unwrap_or("no text").lines() {
        push_line(&mut out, line, count)?;
    }
    Ok(out)
}

/// What stands in the script's file.
fn script_of<R: Files + AllocGlobal>(rt: &R, name: &str) -> io::Result<Vec<u8>> {
    let path = format!(in rt.alloc(); "{name}.script")?;
    fs::read(rt, path.as_str())
}

/// The gate of a case whose calls are held.
fn gate_of<R: Clock + Wait + Copy>(
    rt: R,
    alloc: Global,
    case: &Case<'_>,
) -> Result<Option<TurnGate<R>>, AllocError> {
    let Some((held, until)) = case.held else {
        return Ok(None);
    };
    Ok(Some(TurnGate::new(rt, alloc, held, until)?))
}

/// A share of the gate, if there is one.
fn share_gate<R: Clock + Wait + Copy>(
    gate: &Option<TurnGate<R>>,
) -> Result<Option<TurnGate<R>>, AllocError> {
    match gate {
        Some(gate) => Ok(Some(gate.share()?)),
        None => Ok(None),
    }
}

/// Adds what was seen at the gate of a case whose calls are held, and of one that is counted how many children ran at once at most.
fn push_seen<R: Clock + Wait + Copy>(
    alloc: Global,
    case: &Case<'_>,
    gate: &Option<TurnGate<R>>,
    census: &Census<R>,
    text: &mut String,
) -> Result<(), AllocError> {
    if let Some(gate) = gate {
        let seen = format!(in alloc; "; held {}, gave up {}", gate.was_held(), gate.gave_up())?;
        text.push_str(seen.as_str())?;
    }
    if case.counted {
        let most = format!(in alloc; "; at once {}", census.most())?;
        text.push_str(most.as_str())?;
    }
    Ok(())
}

/// What comes of a case with this script.
fn told_of<R: Clock + Wait + Threads + Eprint + Copy + Drop + Send + Sync>(
    rt: R,
    alloc: Global,
    script: Vec<u8>,
    case: &Case<'_>,
) -> Result<String, AllocError> {
    let gate = gate_of(rt, alloc, case)?;
    let census = Census::new(rt, alloc)?;
    let mut plan = plan(alloc, case)?;
    plan.gate = share_gate(&gate)?;
    plan.census = Some(census.share()?);
    let (lived, output) = play(rt, alloc, script, plan)?;
    let mut text = text_of(alloc, lived, &output, if case.numbers { 3 } else { 4 })?;
    push_seen(alloc, case, &gate, &census, &mut text)?;
    Ok(text)
}

/// Plays a case's script with machines in memory, and gives what was told, as text.
pub fn told<R: Files + Clock + Wait + Threads + Eprint + AllocGlobal + Copy + Drop + Send + Sync>(
    rt: R,
    case: &Case<'_>,
) -> io::Result<String> {
    let script = script_of(&rt, case.name)?;
    Ok(told_of(rt, rt.alloc(), script, case)?)
}
