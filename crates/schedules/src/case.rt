//! A case, as its line tells it.

use crate::outcome::ROOM;
use sl_host_step::HostDaemon;
use sl_io::MemSink;
use sl_locks::LvmLocks;
use sl_play::laws::headers::whole_language_may_play;
use sl_story::tell_schedule;
use sl_text::line::split_line;
use std::alloc::{AllocError, Global};
use std::rt::Files;
use std::{fs, io};

/// What the program is run on.
#[derive(Drop)]
pub struct Case {
    /// The read that fails.
    pub reads: Option<u64>,
    /// The write that fails.
    pub writes: Option<u64>,
    /// The call of a disk in memory that fails, where the disks are in memory.
    pub memory: Option<u64>,
    /// The folder that another program has.
    pub used: Option<String>,
    pub words: Vec<String>,
    pub source: Vec<u8>,
    /// What is to be put out, where a file says so.
    pub due: Option<Vec<u8>>,
    /// Whether all that is asked is that no conflict is counted.
    pub calm: bool,
    /// Whether scripted daemons play the source.
    pub scripted: bool,
}

/// The number behind this word at the front of a line, and the rest of the line.
fn option<'a>(line: &'a str, word: &str) -> (Option<u64>, &'a str) {
    let Some((first, rest)) = line.split_once(' ') else {
        return (None, line);
    };
    if first != word {
        return (None, line);
    }
    let (number, rest) = rest.split_once(' ').unwrap_or((rest, ""));
    (number.parse().ok(), rest)
}

/// Whether this mark stands at the front of a line, and the rest of the line.
fn marked<'a>(line: &'a str, mark: &str) -> (bool, &'a str) {
    match line.strip_prefix(mark) {
        Some(rest) => (true, rest),
        None => (false, line),
    }
}

/// The folder that another program has, where one is told at the front of a line, and the rest of the line.
fn used<'a>(alloc: Global, line: &'a str) -> Result<(Option<String>, &'a str), AllocError> {
    let Some((folder, rest)) = line
        .strip_prefix("used ")
        .and_then(|rest| rest.split_once(' '))
    else {
        return Ok((None, line));
    };
    Ok((Some(String::from_str(alloc, folder)?), rest))
}

/// The words of a line.
fn words(alloc: Global, line: &str) -> Result<Vec<String>, AllocError> {
    let mut words = Vec::new(alloc);
    for word in line.split(' ') {
        words.push(String::from_str(alloc, word)?)?;
    }
    Ok(words)
}

/// What stands behind the first lines of a text, so many.
fn rest(text: &[u8], count: u64) -> &[u8] {
    let mut left = text;
    for _ in 0..count {
        match split_line(left) {
            Some((_line, rest)) => left = rest,
            None => return left,
        }
    }
    left
}

/// The first lines of a text, so many.
fn front(text: &[u8], count: u64) -> &[u8] {
    let left = rest(text, count);
    &text[..text.len().saturating_sub(left.len())]
}

/// What stands in the file of this name and this kind.
fn file<R: Files + AllocGlobal>(rt: &R, name: &str, kind: &str) -> io::Result<Vec<u8>> {
    let path = format!(in rt.alloc(); "{name}.{kind}")?;
    fs::read(rt, path.as_str())
}

/// So many lines of a schedule, a line behind them, and its lines behind so many.
fn with_line<R: Files + AllocGlobal>(
    rt: &R,
    (before, after): (u64, u64),
    name: &str,
    line: &str,
) -> io::Result<Vec<u8>> {
    let whole = file(rt, name, "schedule")?;
    let mut source = Vec::from_slice(rt.alloc(), front(&whole, before))?;
    source.extend_from_slice(line.as_bytes())?;
    source.push(b'\n')?;
    source.extend_from_slice(rest(&whole, after))?;
    Ok(source)
}

/// The number of a word, and 0 where it has none.
fn number_in(word: Option<&str>) -> u64 {
    word.and_then(|word| word.parse().ok()).unwrap_or(0)
}

/// The schedule that is told of `SEED HOSTS EVENTS`, and with a 2 behind it of areas with pairs.
fn told(alloc: Global, said: &str) -> Result<Vec<u8>, AllocError> {
    let mut words = said.split(' ');
    let seed = number_in(words.next());
    let hosts = number_in(words.next()).clamp(1, 16) as u32;
    let events = number_in(words.next());
    let paired = words.next() == Some("2");
    let mut sink = MemSink::new(alloc, ROOM, Vec::new(alloc), Vec::new(alloc))?;
    whole_language_may_play();
    let _told = tell_schedule::<MemSink, HostDaemon, LvmLocks>(
        alloc, seed, hosts, events, paired, &mut sink,
    );
    Ok(sink.into_taken())
}

/// The words, the source and what is due of a command line.
fn parts<R: Files + AllocGlobal>(
    rt: &R,
    line: &str,
) -> io::Result<(Vec<String>, Vec<u8>, Option<Vec<u8>>)> {
    let alloc = rt.alloc();
    if let Some(name) = line.strip_prefix("schedule ") {
        let due = file(rt, name, "report")?;
        return Ok((
            words(alloc, "replay")?,
            file(rt, name, "schedule")?,
            Some(due),
        ));
    }
    if let Some(said) = line.strip_prefix("words ") {
        return Ok((words(alloc, said)?, Vec::new(alloc), None));
    }
    if let Some(said) = line.strip_prefix("told ") {
        return Ok((words(alloc, "replay")?, told(alloc, said)?, None));
    }
    if let Some(rest) = line.strip_prefix("lives ") {
        let (name, folder) = rest.split_once(' ').unwrap_or((rest, ""));
        let said = format!(in alloc; "live {folder}")?;
        return Ok((
            words(alloc, said.as_str())?,
            file(rt, name, "script")?,
            None,
        ));
    }
    if let (Some(count), rest) = option(line, "behind") {
        let (name, text) = rest.split_once(' ').unwrap_or((rest, ""));
        return Ok((
            words(alloc, "replay")?,
            with_line(rt, (count, u64::MAX), name, text)?,
            None,
        ));
    }
    if let (Some(count), rest) = option(line, "instead") {
        let (name, text) = rest.split_once(' ').unwrap_or((rest, ""));
        return Ok((
            words(alloc, "replay")?,
            with_line(rt, (count, count.saturating_add(1)), name, text)?,
            Some(file(rt, name, "report")?),
        ));
    }
    Ok((words(alloc, line)?, Vec::new(alloc), None))
}

/// The case of a line.
pub fn read_case<R: Files + AllocGlobal>(rt: &R, line: &str) -> io::Result<Case> {
    let (reads, line) = option(line, "reads");
    let (writes, line) = option(line, "writes");
    let (memory, line) = option(line, "memory");
    let (used, line) = used(rt.alloc(), line)?;
    let (calm, line) = marked(line, "calm ");
    let (scripted, line) = marked(line, "scripted ");
    let (words, source, due) = parts(rt, line)?;
    Ok(Case {
        reads,
        writes,
        memory,
        used,
        words,
        source,
        due,
        calm,
        scripted,
    })
}
