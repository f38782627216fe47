//! What a seat does on its cell, as a step's text tells it: `SEAT READING ACT`.
//!
//! An act is `wake`, `line TEXT`, `failed N` (an answer of call N), `written N`, `test`, `take delta` or `take resource`; or `hand` or `hand other`:
//! what waits is handed out to the front that the cell is closed with, or to another one.

use sl_cell::{Front, HostCell, NotApplied, Part, Seat, Station, Teller};
use sl_text::Bytes;
use sl_trace::{Answer, Input};
use std::alloc::{AllocError, Global};
use std::sync::Wait;

/// A step of a case: what is done to a cell, from which seat.
#[derive(Clone, Copy)]
pub struct Step<'a> {
    /// The place of the seat from which it is done.
    pub seat: usize,
    pub reading: u32,
    pub act: &'a str,
}

/// What a step gives: a word, and a number behind it, or one alone behind no word.
#[derive(Clone, Copy)]
pub struct Outcome {
    pub word: &'static str,
    pub number: Option<u64>,
}

impl Outcome {
    /// What came of a step, in one word.
    pub fn word(word: &'static str) -> Outcome {
        Outcome { word, number: None }
    }

    /// What came of a step, in a word and a number.
    pub fn counted(word: &'static str, number: u64) -> Outcome {
        Outcome {
            word,
            number: Some(number),
        }
    }
}

/// The place of a seat, by its letter.
fn place(letter: &str) -> usize {
    match letter {
        "a" => 0,
        "b" => 1,
        _ => 2,
    }
}

/// The step that a text spells; none where it spells none.
pub fn read_step(text: &str) -> Option<Step<'_>> {
    let (seat, rest) = text.split_once(' ')?;
    let (reading, act) = rest.split_once(' ')?;
    Some(Step {
        seat: place(seat),
        reading: reading.parse().ok()?,
        act,
    })
}

/// The answer of the call of this number.
fn answered(number: &str, answer: Answer) -> Input {
    Input::Answer {
        call: number.parse().unwrap_or(0),
        answer,
    }
}

/// What an act gives to a daemon.
pub fn input(alloc: Global, act: &str) -> Result<Input, AllocError> {
    let (word, rest) = act.split_once(' ').unwrap_or((act, ""));
    Ok(match word {
        "line" => Input::Line(Bytes::from_slice(alloc, rest.as_bytes())?),
        "failed" => answered(rest, Answer::Failed),
        "written" => answered(rest, Answer::Written),
        _ => Input::Wake,
    })
}

/// The number of the entry that it makes, or that it answers nothing that is open.
fn apply<D: Teller, J: Station, R: Wait>(
    rt: &R,
    alloc: Global,
    cell: &HostCell<D, J>,
    seat: &mut Seat<J>,
    step: Step<'_>,
) -> Result<Outcome, AllocError> {
    let input = input(alloc, step.act)?;
    let applied = cell.apply(rt, seat, u64::from(step.reading), input, None);
    let seen = seat.front().len();
    Ok(match applied {
        Ok(_effects) => Outcome::counted("", seen),
        Err(NotApplied::Unasked) => Outcome::counted("unasked ", seen),
        Err(NotApplied::NoMemory) => Outcome::word("no memory"),
        Err(NotApplied::Broken) => Outcome::word("broken"),
    })
}

/// The number of the call that is taken, or that there is none.
fn take<D: Teller, J: Station, R: Wait>(
    rt: &R,
    cell: &HostCell<D, J>,
    seat: &mut Seat<J>,
    part: Part,
) -> Outcome {
    match cell.take(rt, seat, part) {
        Ok(Some(call)) => Outcome::counted("call ", call.number),
        Ok(None) => Outcome::word("none"),
        Err(_) => Outcome::word("broken"),
    }
}

/// Whether the test holds.
fn test<D: Teller, J: Station, R: Wait>(
    rt: &R,
    cell: &HostCell<D, J>,
    seat: &mut Seat<J>,
    reading: u32,
) -> Outcome {
    match cell.test(rt, seat, u64::from(reading)) {
        Ok(true) => Outcome::word("true"),
        Ok(false) => Outcome::word("false"),
        Err(_) => Outcome::word("broken"),
    }
}

/// The front that a cell is closed with, and another one.
#[derive(Drop)]
pub struct Fronts<J: Station> {
    pub mine: Front<J>,
    pub other: Front<J>,
}

/// How many entries are handed out to this front.
fn hand_out<D: Teller, J: Station, R: Wait>(
    rt: &R,
    cell: &HostCell<D, J>,
    front: &mut Front<J>,
) -> Outcome {
    match cell.hand_out(rt, front) {
        Ok(entries) => Outcome::counted("handed ", entries.len() as u64),
        Err(_) => Outcome::word("broken"),
    }
}

/// Does a step to the cell from its seat, and tells what came of it.
pub fn act<D: Teller, J: Station, R: Wait>(
    rt: &R,
    alloc: Global,
    cell: &HostCell<D, J>,
    seat: &mut Seat<J>,
    fronts: &mut Fronts<J>,
    step: Step<'_>,
) -> Result<Outcome, AllocError> {
    match step.act {
        "take delta" => Ok(take(rt, cell, seat, Part::Delta)),
        "take resource" => Ok(take(rt, cell, seat, Part::Resource)),
        "test" => Ok(test(rt, cell, seat, step.reading)),
        "hand" => Ok(hand_out(rt, cell, &mut fronts.mine)),
        "hand other" => Ok(hand_out(rt, cell, &mut fronts.other)),
        _ => apply(rt, alloc, cell, seat, step),
    }
}
