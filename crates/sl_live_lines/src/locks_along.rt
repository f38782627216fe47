//! Fresh locks that are stepped along a history.

ghost use Rattle.sl_live_lines.specs.LocksAlong.{asked_along, begun_along, due_ask, heard_in, is_told, job_behind, lock_of, runs_line, step_along, told_along};
ghost use Rattle.sl_locks.specs.Replies.{told_as};
ghost use Rattle.std.specs.List.{find};
ghost use Rattle.std.specs.Option.{option_copied, option_to_list};
ghost use Rattle.std.specs.Prelude.{IfOk, OnErr, OnOk, [], ◌==◌, ◌≡◌};

use crate::given_lines::GivenLine;
use sl_locks::{LineReply, LockInput, LvmLocks, StepTold};
use sl_run::Header;
use sl_text::{Bytes, Seq};
use sl_trace::{Effects, Entry, Input, JobReply, copy_reply};
use std::alloc::{AllocError, Global};
use std::marker::Model;

/// lvmlockd's locks along a history, with the number of the next job.
#[derive(Drop)]
pub struct Along {
    alloc: Global,
    locks: LvmLocks,
    job: u64,
}

impl Model for Along {
    ghost use Rattle.sl_live_lines.specs.LocksAlong.{AlongState};
    ghost use Rattle.sl_locks.specs.Tables.{locks_of};

    ghost Value = { AlongState };

    ghost view = { λ a. record { locks = locks_of a.locks; job = a.job } };
}

/// Whether a reply is told where this ask waits for its own: it is not that one.
pub fn is_told(asked: Option<u64>, reply: &JobReply) -> bool
    ensures { result ≡ is_told asked reply.now }
{
    match asked {
        Some(number) => number != reply.job,
        None => true,
    }
}

/// Whether the reply is to this job.
fn is_of(reply: &JobReply, number: u64) -> bool
    ensures { result ≡ (reply.now.job == number) }
{
    reply.job == number
}

/// The first reply to this job, if there is one.
fn first_to(replies: &[JobReply], number: u64) -> Option<&JobReply>
    ensures { option_copied result ≡ find (λ r. r.job == number) replies.now }
{
    replies.iter().find(|reply| is_of(reply, number))
}

/// The first reply to the ask with this number, if one is asked.
fn heard_in(asked: Option<u64>, replies: &[JobReply]) -> Option<&JobReply>
    ensures { option_copied result ≡ heard_in asked replies.now }
{
    match asked {
        Some(number) => first_to(replies, number),
        None => None,
    }
}

/// A copy of it alone, as a list. An `Err` is want of memory.
fn copy_heard(
    alloc: Global,
    asked: Option<u64>,
    replies: &[JobReply],
) -> Result<Vec<JobReply>, AllocError>
    ensures { IfOk result (λ list. list.items ≡ option_to_list (heard_in asked replies.now)) }
{
    let mut list = Vec::new(alloc);
    if let Some(heard) = heard_in(asked, replies) {
        let reply = copy_reply(alloc, &heard.reply)?;
        list.push(JobReply {
            job: heard.job,
            reply,
        })?;
    }
    Ok(list)
}

/// Effects that are these replies alone.
fn effects_of(alloc: Global, replies: Vec<JobReply>) -> Effects
    ensures replies { result.replies ≡ replies.items }
    ensures ends { result.ends ≡ [] }
{
    Effects {
        ends: Seq::new(Vec::new(alloc)),
        signals: Seq::new(Vec::new(alloc)),
        moves: Seq::new(Vec::new(alloc)),
        grants: Seq::new(Vec::new(alloc)),
        starts: Seq::new(Vec::new(alloc)),
        replies: Seq::new(replies),
        calls: Seq::new(Vec::new(alloc)),
    }
}

/// The input, as what it is to the locks. An `Err` is want of memory.
fn lock_of(alloc: Global, input: &Input) -> Result<LockInput, AllocError>
    ensures { IfOk result (λ taken. taken ≡ lock_of input.now) }
{
    match input {
        Input::Line(_) => Ok(LockInput::Line),
        Input::Number(text) => Ok(LockInput::Number(Bytes::from_slice(alloc, text.as_slice())?)),
        Input::Exit { process } => Ok(LockInput::Exit(*process)),
        Input::Answer { .. } => Ok(LockInput::Nothing),
        Input::Wake => Ok(LockInput::Nothing),
        Input::Spawned { .. } => Ok(LockInput::Nothing),
    }
}

/// What an entry is to the locks, and the reply to the ask with this number as effects that are it alone. An `Err` is want of memory.
fn heard_by(
    alloc: Global,
    asked: Option<u64>,
    entry: &Entry,
) -> Result<(LockInput, Effects), AllocError>
    ensures input { IfOk result (λ heard. heard.0 ≡ lock_of entry.now.input) }
    ensures replies { IfOk result (λ heard. heard.1.replies ≡ option_to_list (heard_in asked entry.now.effects.replies)) }
    ensures ends { IfOk result (λ heard. heard.1.ends ≡ []) }
{
    let replies = copy_heard(alloc, asked, entry.effects.replies.as_slice())?;
    let input = lock_of(alloc, &entry.input)?;
    Ok((input, effects_of(alloc, replies)))
}

/// The number of the job behind an input. An `Err` is want of a number.
fn job_behind(input: &Input, job: u64) -> Result<u64, AllocError>
    ensures { IfOk result (λ next. next ≡ job_behind input.now job) }
{
    match input {
        Input::Line(_) => job.checked_add(1).ok_or(AllocError),
        Input::Number(_) => job.checked_add(1).ok_or(AllocError),
        Input::Answer { .. } => Ok(job),
        Input::Wake => Ok(job),
        Input::Exit { .. } => Ok(job),
        Input::Spawned { .. } => Ok(job),
    }
}

impl Along {
    /// Before the first entry; the first job has this number.
    pub fn new(alloc: Global, header: &Header, first_job: u64) -> Along
        ensures { result ≡ begun_along header.now first_job }
    {
        Along {
            alloc,
            locks: LvmLocks::fresh(alloc, header),
            job: first_job,
        }
    }

    /// Whether a line for lvmlockd runs: it has no reply yet.
    pub fn runs_line(&self) -> bool
        ensures { result ≡ runs_line self.now }
    {
        self.locks.has_line()
    }

    /// The ask that is due, as a line, if one is. An `Err` is want of memory.
    pub fn due_ask(&self) -> Result<Option<GivenLine>, AllocError>
        ensures { IfOk result (λ line. line ≡ due_ask self.now) }
    {
        match self.locks.ask_text(self.alloc)? {
            Some(text) => Ok(Some(GivenLine::ForHost(text))),
            None => Ok(None),
        }
    }

    /// The number of the ask whose reply this entry may have.
    pub fn asked_by(&self, entry: &Entry) -> Option<u64>
        ensures { result ≡ asked_along self.now entry.now }
    {
        match &entry.input {
            Input::Line(_) => {
                if self.locks.has_ask() {
                    Some(self.job)
                } else {
                    self.locks.asked()
                }
            }
            Input::Number(_) => self.locks.asked(),
            Input::Answer { .. } => self.locks.asked(),
            Input::Wake => self.locks.asked(),
            Input::Exit { .. } => self.locks.asked(),
            Input::Spawned { .. } => self.locks.asked(),
        }
    }

    /// Goes on by an entry: the reply to the line that runs, with the line's number, if it comes by it. An `Err` is want of memory, or of a
    /// number for the next job; the locks then stay as they were.
    #[tactic(auto, using(crate::proofs::StepLaws::after_heard))]
    pub fn step(&mut self, entry: &Entry) -> Result<Option<(u64, LineReply)>, AllocError>
        ensures ok { OnOk result (self.new ≡ step_along self.old entry.now) }
        ensures told { IfOk result (λ told. told_as told ≡ told_along self.old entry.now) }
        ensures err { OnErr result (self.new ≡ self.old) }
    {
        let next = job_behind(&entry.input, self.job)?;
        self.locks.reserve()?;
        let (input, heard) = heard_by(self.alloc, self.asked_by(entry), entry)?;
        self.locks.leave(&entry.effects);
        let mut told = StepTold {
            effects: heard,
            line: None,
        };
        self.locks.turn(self.job, input, &mut told);
        self.job = next;
        let StepTold { line, .. } = told;
        Ok(line)
    }
}
