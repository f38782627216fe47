//! The lines that the script gave to a machine, on their way to its printer.

use sl_book::{Posted, Shelf};
use sl_live_lines::GivenLine;
use std::alloc::{AllocError, Global};
use std::collections::VecDeque;
use std::sync::{Mutex, Wait};

/// Lines that the printer has not met in the history yet, the oldest first.
#[derive(Drop)]
pub struct Mail<T: Shelf> {
    lines: Mutex<VecDeque<Posted<T, GivenLine>>>,
}

impl<T: Shelf> Mail<T> {
    /// No line was put yet.
    pub fn new(alloc: Global) -> Mail<T> {
        Mail {
            lines: Mutex::new(VecDeque::new(alloc)),
        }
    }

    /// One line more. An `Err` is want of memory.
    pub fn put<R: Wait>(&self, rt: &R, line: Posted<T, GivenLine>) -> Result<(), AllocError> {
        self.lines.lock(rt).push_back(line)?;
        Ok(())
    }

    /// The oldest line, if there is one: it goes.
    pub(crate) fn next<R: Wait>(&self, rt: &R) -> Option<Posted<T, GivenLine>> {
        self.lines.lock(rt).pop_front()
    }
}
