//! What wakes the threads that wait for something to do.

use std::sync::{Condvar, Mutex, Wait};
use std::time::{Clock, Duration};

/// A count of moves. A thread remembers the count, looks for work, and waits while the count is the same: so a ring between its look and
/// its wait is not lost.
#[derive(Drop)]
pub(crate) struct Bell {
    moves: Mutex<u64>,
    moved: Condvar,
}

impl Bell {
    /// A bell that never rang: whoever waits for a ring waits.
    pub(crate) fn new() -> Bell {
        Bell {
            moves: Mutex::new(0),
            moved: Condvar::new(),
        }
    }

    /// Wakes all threads that wait at the bell.
    pub(crate) fn ring<R: Wait>(&self, rt: &R) {
        let mut moves = self.moves.lock(rt);
        *moves = moves.wrapping_add(1);
        self.moved.notify_all();
    }

    /// What one remembers before one looks for work.
    pub(crate) fn moves<R: Wait>(&self, rt: &R) -> u64 {
        *self.moves.lock(rt)
    }

    /// Waits until the bell has rung more often than it had when `seen` was read.
    pub(crate) fn wait_past<R: Wait>(&self, rt: &R, seen: u64) {
        self.moved
            .wait_while(rt, self.moves.lock(rt), |moves| *moves == seen);
    }

    /// Waits for a ring since then, or until so much time has passed.
    pub(crate) fn wait_at_most<R: Wait + Clock>(&self, rt: &R, seen: u64, most: Duration) {
        self.moved
            .wait_timeout_while(rt, self.moves.lock(rt), most, |moves| *moves == seen);
    }
}
