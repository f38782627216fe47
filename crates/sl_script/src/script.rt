//! A daemon and its script.

ghost use Rattle.sl_script.specs.MadeSteps.{AreMade, most_made};
ghost use Rattle.sl_script.specs.ScriptStates.{after_step, child_next, is_heard, new_seen, seen_after};
ghost use Rattle.std.specs.Prelude.{IfOk, OnErr, filter, length, map, not, [], ◌++◌, ◌+◌, ◌<◌, ◌^◌, ◌≡◌, ◌≤◌};

use crate::answered_inputs::{Heard, SeenChild};
use crate::draft::effects_of;
use sl_text::words::split_piece;
use sl_trace::{Call, Effects, Input, Start};
use std::alloc::{AllocError, Global};
use std::marker::Model;

/// The number of a daemon's first child.
const FIRST_CHILD: u64 = 1_000_001;

/// A daemon: what has no answer, which number comes next, and what is left of its script.
#[derive(Drop)]
pub struct Script {
    alloc: Global,
    sector: u32,
    next: u64,
    open_calls: Vec<Call>,
    children: Vec<SeenChild>,
    text: Vec<u8>,
}

impl Model for Script {
    ghost use Rattle.sl_script.specs.ScriptStates.{ScriptState};

    ghost Value = { ScriptState };

    ghost view = { λ s. record { sector = s.sector; next = s.next; open_calls = s.open_calls.items; children = s.children.items } };
}

/// The child of a start.
fn new_child(start: &Start) -> SeenChild
    ensures { result ≡ new_seen start.now }
{
    SeenChild {
        process: start.process,
        answered: false,
    }
}

/// The children that there were, as they are now.
fn heard_children(
    alloc: Global,
    children: &[SeenChild],
    heard: Heard,
) -> Result<Vec<SeenChild>, AllocError>
    ensures { IfOk result (λ v. v.items ≡ map (seen_after heard) children.now) }
{
    children
        .iter()
        .map(|child| heard.after(*child))
        .collect(alloc)
}

/// The children that a step starts.
fn new_children(alloc: Global, starts: &[Start]) -> Result<Vec<SeenChild>, AllocError>
    ensures { IfOk result (λ v. v.items ≡ map new_seen starts.now) }
{
    starts.iter().map(new_child).collect(alloc)
}

/// Lets the call go that is answered.
fn let_go(calls: &mut Vec<Call>, heard: Heard)
    ensures { calls.new.items ≡ filter (λ c. not (is_heard heard c)) calls.old.items }
{
    calls.retain(|call| !heard.answers(call));
}

/// The calls that have no answer still.
fn unanswered(alloc: Global, calls: &[Call], heard: Heard) -> Result<Vec<Call>, AllocError>
    ensures { IfOk result (λ v. v.items ≡ filter (λ c. not (is_heard heard c)) calls.now) }
{
    let mut left = Vec::from_slice(alloc, calls)?;
    let_go(&mut left, heard);
    Ok(left)
}

/// The calls that have no answer after a step that hears this and makes these.
fn calls_then(
    alloc: Global,
    calls: &[Call],
    heard: Heard,
    made: &[Call],
) -> Result<Vec<Call>, AllocError>
    ensures { IfOk result (λ v. v.items ≡ filter (λ c. not (is_heard heard c)) calls.now ++ made.now) }
{
    let mut left = unanswered(alloc, calls, heard)?;
    left.extend_from_slice(made)?;
    Ok(left)
}

/// The children after a step that hears this and starts these.
fn children_then(
    alloc: Global,
    children: &[SeenChild],
    heard: Heard,
    starts: &[Start],
) -> Result<Vec<SeenChild>, AllocError>
    ensures { IfOk result (λ v. v.items ≡ map (seen_after heard) children.now ++ map new_seen starts.now) }
{
    let mut seen = heard_children(alloc, children, heard)?;
    seen.extend_from_slice(&new_children(alloc, starts)?)?;
    Ok(seen)
}

impl Script {
    /// A daemon that was told nothing yet.
    pub(crate) fn new(alloc: Global, sector: u32, next: u64) -> Script
        ensures { result ≡ record { sector = sector; next = next; open_calls = []; children = [] } }
    {
        Script {
            alloc,
            sector,
            next,
            open_calls: Vec::new(alloc),
            children: Vec::new(alloc),
            text: Vec::new(alloc),
        }
    }

    /// From here on it does what the text of this line says, if it is one. An `Err` is want of memory.
    pub(crate) fn follow(&mut self, input: &Input) -> Result<(), AllocError>
        ensures { self.new ≡ self.old }
    {
        if let Input::Line(line) = input {
            self.text = Vec::from_slice(self.alloc, line.as_slice())?;
        }
        Ok(())
    }

    /// The script's calls that have no answer yet.
    pub(crate) fn open_calls(&self) -> &[Call]
        ensures { result.now ≡ self.now.open_calls }
    {
        &self.open_calls
    }

    /// The children that the script has started.
    pub(crate) fn children(&self) -> &[SeenChild]
        ensures { result.now ≡ self.now.children }
    {
        &self.children
    }

    /// How many bytes a sector has.
    pub(crate) fn sector(&self) -> u32
        ensures { result ≡ self.now.sector }
    {
        self.sector
    }

    /// What the next part of its script makes. That part is passed.
    fn turn(&mut self) -> Result<Effects, AllocError>
        requires { self.old.next < 2 ^ 63 }
        ensures same { self.new ≡ self.old }
        ensures made { IfOk result (AreMade self.old.next self.old.sector (child_next self.old)) }
    {
        let (part, rest) = split_piece(b';', &self.text);
        let child = FIRST_CHILD + self.children.len() as u64;
        let effects = effects_of(self.alloc, part, self.next, self.sector, child)?;
        let left = Vec::from_slice(self.alloc, rest.unwrap_or(&[]))?;
        self.text = left;
        Ok(effects)
    }

    /// Keeps what it is after a step that heard this and made these.
    fn keep(&mut self, heard: Heard, effects: &Effects) -> Result<(), AllocError>
        requires next { self.old.next < 2 ^ 63 }
        requires few { length effects.now.calls ≤ most_made }
        ensures ok { IfOk result (λ _. self.new ≡ after_step heard effects.now self.old) }
        ensures err { OnErr result (self.new ≡ self.old) }
    {
        let calls = effects.calls.as_slice();
        let open_calls = calls_then(self.alloc, &self.open_calls, heard, calls)?;
        let starts = effects.starts.as_slice();
        let children = children_then(self.alloc, &self.children, heard, starts)?;
        self.next += calls.len() as u64;
        self.open_calls = open_calls;
        self.children = children;
        Ok(())
    }

    /// A step that hears this, with the effects that were drafted for it. An `Err` is want of memory, and changes nothing.
    pub(crate) fn go_on(&mut self, heard: Heard) -> Result<Effects, AllocError>
        requires { self.old.next < 2 ^ 63 }
        ensures ok { IfOk result (λ fx. (self.new ≡ after_step heard fx self.old) × AreMade self.old.next self.old.sector (child_next self.old) fx) }
        ensures err { OnErr result (self.new ≡ self.old) }
    {
        let effects = self.turn()?;
        self.keep(heard, &effects)?;
        Ok(effects)
    }
}
