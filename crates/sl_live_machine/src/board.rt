//! What the threads of a machine tell one another: lines to be given, what turns have made, and whether the machine ends.

use crate::turn::{Happened, Turn};
use sl_cell::Part;
use sl_live_lines::{GivenLine, copy_reply};
use sl_trace::{Effects, JobReply, Purpose, Reply};
use std::alloc::{AllocError, Global};
use std::collections::VecDeque;

/// How far a machine is: its threads go on only while it runs.
#[derive(Clone, Copy, PartialEq, Eq)]
pub(crate) enum Stage {
    /// The threads make their turns.
    Runs,
    /// All is done: the threads end.
    Over,
    /// There was no memory: the threads end, and the run has no whole history.
    Failed,
}

/// What a thread that gives lines is to do next.
#[derive(Drop)]
pub(crate) enum Next {
    Line(GivenLine),
    /// No line is there, but one may still come.
    Wait,
    End,
}

/// Which threads have something to do since the last turn.
#[derive(Clone, Copy)]
pub(crate) struct News {
    pub delta: bool,
    pub resource: bool,
    pub children: bool,
    pub starter: bool,
    pub lines: bool,
    pub printer: bool,
    pub script: bool,
    pub ticker: bool,
}

impl News {
    /// For none.
    fn none() -> News {
        News {
            delta: false,
            resource: false,
            children: false,
            starter: false,
            lines: false,
            printer: false,
            script: false,
            ticker: false,
        }
    }
}

/// What a machine's threads tell one another, under one lock.
#[derive(Drop)]
pub(crate) struct Board {
    /// Lines of the script that are to be given, in their order.
    lines: VecDeque<GivenLine>,
    /// Whether the script has no further line.
    closed: bool,
    /// The number of the next line's job. While a line for lvmlockd runs, no other line comes, and its asks take the numbers behind its own.
    next_job: u64,
    /// The job for whose reply the script waits, until it is put out.
    awaited: Option<u64>,
    /// The job of the ask whose reply a line for lvmlockd waits for, and that reply, once it has come.
    asked: Option<u64>,
    heard: Option<Reply>,
    /// How many turns are under way.
    turns: u64,
    /// Calls that were made, and that were answered.
    made: u64,
    answered: u64,
    /// Starts that were ordered, and that came to something.
    ordered: u64,
    started: u64,
    /// The numbers of the children that run.
    running: Vec<u32>,
    /// The children whose exit was noted before their start.
    ended: Vec<u32>,
    /// Whether the printer tells events beside replies.
    events: bool,
    stage: Stage,
}

impl Board {
    /// Nothing was done yet. The next line is of this job; whether events are told.
    pub(crate) fn new(alloc: Global, next_job: u64, events: bool) -> Board {
        Board {
            lines: VecDeque::new(alloc),
            closed: false,
            next_job,
            awaited: None,
            asked: None,
            heard: None,
            turns: 0,
            made: 0,
            answered: 0,
            ordered: 0,
            started: 0,
            running: Vec::new(alloc),
            ended: Vec::new(alloc),
            events,
            stage: Stage::Runs,
        }
    }

    /// How far the machine is.
    pub(crate) fn stage(&self) -> Stage {
        self.stage
    }

    /// Whether the script waits for a reply.
    pub(crate) fn is_awaiting(&self) -> bool {
        self.awaited.is_some()
    }

    /// Whether this child runs.
    pub(crate) fn is_running(&self, process: u32) -> bool {
        self.running.contains(&process)
    }

    /// How many children run.
    pub(crate) fn children(&self) -> usize {
        self.running.len()
    }

    /// A line to be given, for whose reply the script waits or does not. An `Err` is want of memory.
    pub(crate) fn put(&mut self, line: GivenLine, awaits: bool) -> Result<(), AllocError> {
        self.lines.reserve(1)?;
        self.lines.push_back_reserved(line);
        if awaits {
            self.awaited = Some(self.next_job);
        }
        self.next_job = self.next_job.wrapping_add(1);
        Ok(())
    }

    /// No line comes any more: whether nothing is left to be done.
    pub(crate) fn close(&mut self) -> bool {
        self.closed = true;
        self.is_quiet()
    }

    /// There was no memory: the machine is given up, and its threads end.
    pub(crate) fn fail(&mut self) {
        self.stage = Stage::Failed;
    }

    /// The next line of the script, whose turn begins with it; else that none is there yet, or that none comes any more.
    pub(crate) fn next_line(&mut self) -> Next {
        if self.stage != Stage::Runs {
            return Next::End;
        }
        match self.lines.pop_front() {
            Some(line) => {
                self.turns = self.turns.wrapping_add(1);
                Next::Line(line)
            }
            None => { if self.closed { Next::End } else { Next::Wait } }
        }
    }

    /// The turn of an ask begins, if the machine runs: the number of its job.
    pub(crate) fn begin_ask(&mut self) -> Option<u64> {
        if !self.begin_turn() {
            return None;
        }
        let number = self.next_job;
        self.next_job = number.wrapping_add(1);
        self.asked = Some(number);
        self.heard = None;
        Some(number)
    }

    /// The reply to the ask, if it has come.
    pub(crate) fn take_heard(&mut self) -> Option<Reply> {
        self.heard.take()
    }

    /// The line for lvmlockd is answered, so the next may be given.
    pub(crate) fn end_line(&mut self) {
        self.asked = None;
    }

    /// The replies of these jobs are put out: whether the script goes on.
    pub(crate) fn note_printed(&mut self, jobs: &[u64]) -> bool {
        let Some(awaited) = self.awaited else {
            return false;
        };
        let printed = jobs.contains(&awaited);
        if printed {
            self.awaited = None;
        }
        printed
    }

    /// A turn begins, if the machine runs: whether it does.
    pub(crate) fn begin_turn(&mut self) -> bool {
        let runs = self.stage == Stage::Runs;
        if runs {
            self.turns = self.turns.wrapping_add(1);
        }
        runs
    }

    /// A turn that wakes the daemon begins, if the machine runs and something is left to be done: whether it does. Else the machine is over.
    pub(crate) fn begin_wake(&mut self) -> bool {
        if self.stage == Stage::Runs && self.is_quiet() {
            self.stage = Stage::Over;
        }
        self.begin_turn()
    }

    /// A turn has ended: for whom there is news. An `Err` is want of memory.
    pub(crate) fn end_turn(&mut self, turn: &Turn) -> Result<News, AllocError> {
        let mut news = News::none();
        self.note(&mut news, turn.happened)?;
        if let Some(effects) = &turn.effects {
            self.note_effects(&mut news, effects)?;
        }
        self.turns = self.turns.wrapping_sub(1);
        news.ticker = self.is_quiet();
        Ok(news)
    }

    /// A turn has ended in which nothing was given: for whom there is news.
    pub(crate) fn end_idle(&mut self) -> News {
        let mut news = News::none();
        self.turns = self.turns.wrapping_sub(1);
        news.ticker = self.is_quiet();
        news
    }

    /// Whether no turn is under way and none is left but to wake the daemon: no line, no call, no start, no child.
    fn is_quiet(&self) -> bool {
        self.closed
            && self.lines.is_empty()
            && self.turns == 0
            && self.made == self.answered
            && self.ordered == self.started
            && self.running.is_empty()
    }

    /// Notes what a step made.
    fn note_effects(&mut self, news: &mut News, effects: &Effects) -> Result<(), AllocError> {
        self.note_calls(news, effects);
        self.note_starts(news, effects);
        self.note_events(news, effects);
        self.note_replies(news, effects.replies.as_slice())
    }

    /// Notes an answer, a child that has started, or one that has exited.
    fn note(&mut self, news: &mut News, happened: Happened) -> Result<(), AllocError> {
        match happened {
            Happened::Answered => {
                self.answered = self.answered.wrapping_add(1);
                Ok(())
            }
            Happened::Started { process, ok } => {
                self.started = self.started.wrapping_add(1);
                if ok {
                    self.note_start(news, process)?;
                }
                Ok(())
            }
            Happened::Exited { process } => {
                news.script = true;
                if self.events {
                    news.printer = true;
                }
                self.note_exit(process)
            }
            Happened::Line => Ok(()),
            Happened::Woke => Ok(()),
        }
    }

    /// Notes that a child was started. Turns are noted in any order, so its exit may be noted already.
    fn note_start(&mut self, news: &mut News, process: u32) -> Result<(), AllocError> {
        if self.ended.contains(&process) {
            self.ended.retain(|ended| *ended != process);
            return Ok(());
        }
        news.children = true;
        self.running.push(process)?;
        Ok(())
    }

    /// Notes that a child has exited, whose start may not be noted yet.
    fn note_exit(&mut self, process: u32) -> Result<(), AllocError> {
        if self.running.contains(&process) {
            self.running.retain(|running| *running != process);
            return Ok(());
        }
        self.ended.push(process)?;
        Ok(())
    }

    /// Notes the calls that were made.
    fn note_calls(&mut self, news: &mut News, effects: &Effects) {
        for call in effects.calls.as_slice() {
            self.made = self.made.wrapping_add(1);
            match part_of(&call.purpose) {
                Part::Delta => news.delta = true,
                Part::Resource => news.resource = true,
            }
        }
    }

    /// Notes the starts that were ordered.
    fn note_starts(&mut self, news: &mut News, effects: &Effects) {
        for _start in effects.starts.as_slice() {
            self.ordered = self.ordered.wrapping_add(1);
            news.starter = true;
        }
    }

    /// Notes ends and signals, where they are told.
    fn note_events(&self, news: &mut News, effects: &Effects) {
        if self.events && !(effects.ends.is_empty() && effects.signals.is_empty()) {
            news.printer = true;
        }
    }

    /// Notes the replies. An `Err` is want of memory.
    fn note_replies(&mut self, news: &mut News, replies: &[JobReply]) -> Result<(), AllocError> {
        for reply in replies {
            news.printer = true;
            self.note_heard(news, reply)?;
        }
        Ok(())
    }

    /// Notes the reply to the ask. An `Err` is want of memory.
    fn note_heard(&mut self, news: &mut News, reply: &JobReply) -> Result<(), AllocError> {
        if self.asked == Some(reply.job) {
            self.heard = Some(copy_reply(*self.running.allocator(), &reply.reply)?);
            self.asked = None;
            news.lines = true;
        }
        Ok(())
    }
}

/// Of which part a call is.
fn part_of(purpose: &Purpose) -> Part {
    match purpose {
        Purpose::Joining { .. } => Part::Delta,
        Purpose::Renewal => Part::Delta,
        Purpose::Survey => Part::Delta,
        Purpose::Leaving { .. } => Part::Delta,
        _ => Part::Resource,
    }
}
