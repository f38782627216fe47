//! A gate for tests: it holds one call until another one has left.
//!
//! So a test passes only where two calls are under way at once, of two workers or of two machines. The gate gives up after 12000 turns, each
//! a sleep of a millisecond, and says so.

use crate::gate::Gate;
use std::alloc::{AllocError, Global};
use std::sync::{Arc, Mutex, Wait};
use std::thread::sleep;
use std::time::{Clock, Duration};

/// A sector call, by its machine and its number.
#[derive(Clone, Copy, PartialEq, Eq)]
pub struct Turn {
    pub machine: u32,
    pub call: u64,
}

/// How often a held call looks whether it may go on.
const MOST_TURNS: u32 = 12000;

/// What was seen at a gate.
#[derive(Drop)]
struct Seen {
    held: bool,
    awaited_left: bool,
    gave_up: bool,
}

/// Holds a call until another one has left, as long as it doesn't give up.
#[derive(Drop)]
pub struct TurnGate<R> {
    rt: R,
    held: Turn,
    awaited: Turn,
    seen: Arc<Mutex<Seen>>,
}

impl<R: Wait + Clock + Copy> TurnGate<R> {
    /// A gate that holds the first of these calls until the second has left. The only error is want of memory.
    pub fn new(rt: R, alloc: Global, held: Turn, awaited: Turn) -> Result<TurnGate<R>, AllocError> {
        let seen = Mutex::new(Seen {
            held: false,
            awaited_left: false,
            gave_up: false,
        });
        Ok(TurnGate {
            rt,
            held,
            awaited,
            seen: Arc::new(alloc, seen)?,
        })
    }

    /// The same gate once more: one for the run, and one to ask what was seen there.
    pub fn share(&self) -> Result<TurnGate<R>, AllocError> {
        Ok(TurnGate {
            rt: self.rt,
            held: self.held,
            awaited: self.awaited,
            seen: Arc::try_clone(&self.seen)?,
        })
    }

    /// Whether the call came that is held.
    pub fn was_held(&self) -> bool {
        self.seen.lock(&self.rt).held
    }

    /// Whether it was let go before the other one had left.
    pub fn gave_up(&self) -> bool {
        self.seen.lock(&self.rt).gave_up
    }

    /// Waits until the awaited call has left; false where it has not in all turns.
    fn wait(&self) -> bool {
        for _ in 0..MOST_TURNS {
            if self.seen.lock(&self.rt).awaited_left {
                return true;
            }
            sleep(&self.rt, Duration::from_millis(1));
        }
        false
    }
}

impl<R: Wait + Clock + Copy> Gate for TurnGate<R> {
    fn enter(&self, machine: u32, call: u64) {
        if self.held == (Turn { machine, call }) {
            self.seen.lock(&self.rt).held = true;
            if !self.wait() {
                self.seen.lock(&self.rt).gave_up = true;
            }
        }
    }

    fn left(&self, machine: u32, call: u64) {
        if self.awaited == (Turn { machine, call }) {
            self.seen.lock(&self.rt).awaited_left = true;
        }
    }
}
