//! What is done on a host, as a step's text tells it: `READING ACT`.
//!
//! An act is one that gives an input (`steps`), or `serve`: the first call that nobody took is made on the disk, and its answer comes to the host;
//! or `refuse` and `allow`, which tell who watches the program's requests for memory that from here on all are to be refused, or none. Where nobody
//! watches, none is.

use crate::steps::input;
use sl_trace::Input;
use std::alloc::{AllocError, Global};
use std::io;
use std::io::ErrorKind;

/// A request of so many bytes tells that from here on all are to be refused.
const REFUSE: usize = 1_000_003;

/// .. that none is any longer. This one isn't either.
const ALLOW: usize = 1_000_033;

/// What is done to a host in a case.
#[derive(Drop)]
pub enum Act {
    Give(Input),
    Serve,
    /// A request for so many bytes of memory, which are let go.
    Mark(usize),
}

/// What is done, and at which reading.
#[derive(Drop)]
pub struct HostStep {
    pub reading: u32,
    pub act: Act,
}

/// The act of a text.
fn read_act(alloc: Global, act: &str) -> Result<Act, AllocError> {
    Ok(match act {
        "serve" => Act::Serve,
        "refuse" => Act::Mark(REFUSE),
        "allow" => Act::Mark(ALLOW),
        _ => Act::Give(input(alloc, act)?),
    })
}

/// The step of a text.
fn read_step(alloc: Global, text: &str) -> io::Result<HostStep> {
    let bad = io::Error::from(ErrorKind::InvalidData);
    let Some((reading, act)) = text.split_once(' ') else {
        return Err(bad);
    };
    let Ok(reading) = reading.parse() else {
        return Err(bad);
    };
    Ok(HostStep {
        reading,
        act: read_act(alloc, act)?,
    })
}

/// The steps of a text: all are read before the first is made, since that takes memory.
pub fn read_steps(alloc: Global, text: &str) -> io::Result<Vec<HostStep>> {
    let mut steps = Vec::new(alloc);
    for part in text.split(", ") {
        steps.push(read_step(alloc, part)?)?;
    }
    Ok(steps)
}

/// Asks for so many bytes, and lets them go.
pub fn mark(alloc: Global, bytes: usize) {
    let _mark: Result<Vec<u8>, AllocError> = Vec::with_capacity(alloc, bytes);
}
