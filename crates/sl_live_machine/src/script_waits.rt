//! A machine's post: what its threads and the script tell one another, and the bells that say when to look there.
//!
//! A bell is rung for a thread only by one that found work for it.

use crate::bell::Bell;
use crate::board::{Board, News, Next, Stage};
use crate::turn::Turn;
use sl_cell::Part;
use sl_live_lines::GivenLine;
use sl_trace::Reply;
use std::alloc::{AllocError, Global};
use std::sync::{Mutex, Wait};
use std::time::{Clock, Duration, Instant};

/// How long it is until then; nothing, where the clock tells nothing.
fn left_until<R: Clock>(rt: &R, until: Instant) -> Duration {
    match Instant::now(rt) {
        Ok(now) => until.saturating_duration_since(now),
        Err(_) => Duration::ZERO,
    }
}

/// What the threads of a machine and the script tell one another.
#[derive(Drop)]
pub struct Post {
    board: Mutex<Board>,
    pub(crate) ticker: Bell,
    delta: Bell,
    resource: Bell,
    pub(crate) children: Bell,
    pub(crate) starter: Bell,
    pub(crate) device: Bell,
    pub(crate) lines: Bell,
    pub(crate) printer: Bell,
    script: Bell,
}

impl Post {
    /// A post with no line. The first line's job has this number; whether the machine's events are told.
    pub fn new(alloc: Global, first_job: u64, events: bool) -> Post {
        Post {
            board: Mutex::new(Board::new(alloc, first_job, events)),
            ticker: Bell::new(),
            delta: Bell::new(),
            resource: Bell::new(),
            children: Bell::new(),
            starter: Bell::new(),
            device: Bell::new(),
            lines: Bell::new(),
            printer: Bell::new(),
            script: Bell::new(),
        }
    }

    /// A line for the machine. An `Err` is want of memory.
    pub fn put<R: Wait>(&self, rt: &R, line: GivenLine) -> Result<(), AllocError> {
        self.board.lock(rt).put(line, false)?;
        self.lines.ring(rt);
        Ok(())
    }

    /// A line for the machine; one waits until its reply is put out. An `Err` is want of memory, here or of the machine.
    pub fn command<R: Wait>(&self, rt: &R, line: GivenLine) -> Result<(), AllocError> {
        self.board.lock(rt).put(line, true)?;
        self.lines.ring(rt);
        for _ in rt.forever() {
            let seen = self.script.moves(rt);
            if self.has_failed(rt) {
                return Err(AllocError);
            }
            if !self.board.lock(rt).is_awaiting() {
                break;
            }
            self.script.wait_past(rt, seen);
        }
        Ok(())
    }

    /// Waits until the child has exited, if it was started. An `Err` is want of memory of the machine.
    pub fn exits<R: Wait>(&self, rt: &R, process: u32) -> Result<(), AllocError> {
        for _ in rt.forever() {
            let seen = self.script.moves(rt);
            if self.has_failed(rt) {
                return Err(AllocError);
            }
            if !self.board.lock(rt).is_running(process) {
                break;
            }
            self.script.wait_past(rt, seen);
        }
        Ok(())
    }

    /// How many children of the machine run.
    pub fn children<R: Wait>(&self, rt: &R) -> usize {
        self.board.lock(rt).children()
    }

    /// Waits until no child runs, or the machine ends, but not past this moment.
    pub fn await_children<R: Wait + Clock>(&self, rt: &R, until: Instant) {
        for _ in rt.forever() {
            let seen = self.script.moves(rt);
            let left = left_until(rt, until);
            if left == Duration::ZERO || self.children(rt) == 0 || !self.runs(rt) {
                break;
            }
            self.script.wait_at_most(rt, seen, left);
        }
    }

    /// The script has ended: no line comes any more.
    pub fn close<R: Wait>(&self, rt: &R) {
        let quiet = self.board.lock(rt).close();
        self.lines.ring(rt);
        if quiet {
            self.ticker.ring(rt);
        }
    }

    /// There was no memory: all is to end at once.
    pub fn fail<R: Wait>(&self, rt: &R) {
        self.board.lock(rt).fail();
        self.ring_all(rt);
    }

    /// Whether the machine was given up for want of memory.
    pub fn has_failed<R: Wait>(&self, rt: &R) -> bool {
        self.board.lock(rt).stage() == Stage::Failed
    }

    /// Whether the machine runs, so that its threads are to go on.
    pub(crate) fn runs<R: Wait>(&self, rt: &R) -> bool {
        self.board.lock(rt).stage() == Stage::Runs
    }

    /// The bell at which the worker of this part waits for calls.
    pub(crate) fn worker(&self, part: Part) -> &Bell {
        match part {
            Part::Delta => &self.delta,
            Part::Resource => &self.resource,
        }
    }

    /// The next line of the script, whose turn begins with it; else that none is there yet, or that none comes any more.
    pub(crate) fn next_line<R: Wait>(&self, rt: &R) -> Next {
        self.board.lock(rt).next_line()
    }

    /// The turn of an ask begins, if the machine runs: the number of its job.
    pub(crate) fn begin_ask<R: Wait>(&self, rt: &R) -> Option<u64> {
        self.board.lock(rt).begin_ask()
    }

    /// Waits for the reply to the ask; none where the machine ends before.
    pub(crate) fn await_reply<R: Wait>(&self, rt: &R) -> Option<Reply> {
        let mut heard = None;
        for _ in rt.forever() {
            let seen = self.lines.moves(rt);
            heard = self.board.lock(rt).take_heard();
            if heard.is_some() || !self.runs(rt) {
                break;
            }
            self.lines.wait_past(rt, seen);
        }
        heard
    }

    /// The line for lvmlockd is answered, so the next may be given.
    pub(crate) fn end_line<R: Wait>(&self, rt: &R) {
        self.board.lock(rt).end_line();
    }

    /// The replies of these jobs are put out.
    pub(crate) fn printed<R: Wait>(&self, rt: &R, jobs: &[u64]) {
        if self.board.lock(rt).note_printed(jobs) {
            self.script.ring(rt);
        }
    }

    /// A turn begins, if the machine runs: whether it does.
    pub(crate) fn begin_turn<R: Wait>(&self, rt: &R) -> bool {
        self.board.lock(rt).begin_turn()
    }

    /// A turn that wakes the daemon begins, if something is left to be done: whether it does. Else all threads are to end.
    pub(crate) fn begin_wake<R: Wait>(&self, rt: &R) -> bool {
        let begins = self.board.lock(rt).begin_wake();
        if !begins {
            self.ring_all(rt);
        }
        begins
    }

    /// A turn has ended. An `Err` is want of memory.
    pub(crate) fn end_turn<R: Wait>(&self, rt: &R, turn: &Turn) -> Result<(), AllocError> {
        let news = self.board.lock(rt).end_turn(turn)?;
        self.ring_for(rt, news);
        Ok(())
    }

    /// A turn has ended, in which something was given or nothing. An `Err` is want of memory.
    pub(crate) fn end_turn_of<R: Wait>(
        &self,
        rt: &R,
        turn: &Option<Turn>,
    ) -> Result<(), AllocError> {
        match turn {
            Some(turn) => self.end_turn(rt, turn),
            None => {
                let news = self.board.lock(rt).end_idle();
                self.ring_for(rt, news);
                Ok(())
            }
        }
    }

    /// Rings for those for whom there is news.
    fn ring_for<R: Wait>(&self, rt: &R, news: News) {
        if news.delta {
            self.delta.ring(rt);
        }
        if news.resource {
            self.resource.ring(rt);
        }
        if news.children {
            self.children.ring(rt);
        }
        if news.starter {
            self.starter.ring(rt);
        }
        if news.lines {
            self.lines.ring(rt);
        }
        if news.printer {
            self.printer.ring(rt);
        }
        if news.script {
            self.script.ring(rt);
        }
        if news.ticker {
            self.ticker.ring(rt);
        }
    }

    /// Rings for all.
    fn ring_all<R: Wait>(&self, rt: &R) {
        self.ticker.ring(rt);
        self.delta.ring(rt);
        self.resource.ring(rt);
        self.children.ring(rt);
        self.starter.ring(rt);
        self.device.ring(rt);
        self.lines.ring(rt);
        self.printer.ring(rt);
        self.script.ring(rt);
    }
}

/// There was no memory: every machine is to end at once.
pub fn fail_all<R: Wait>(rt: &R, posts: &[Post]) {
    for post in posts {
        post.fail(rt);
    }
}
